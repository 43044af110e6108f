//! The names at the places of declarations.
ghost use Rattle.std.specs.Prelude.{map, option_map, option_copied};
ghost use Rattle.std.specs.Prelude.{IfErr, OnOk};
ghost use Rattle.std.specs.List.{AllByRecursion};
ghost use Rattle.fidl_tree.specs.Views.{path_view, constraints_view, value_member_view};
ghost use Rattle.fidl_tree.specs.Views.{declared_view};
ghost use Rattle.fidl_named.specs.PlaceViews.{name_place_view};
ghost use Rattle.fidl_named.specs.Places.{a_type};
ghost use Rattle.fidl_names.specs.Resolved.{MembersMean, MemberFails, PlaceHolds, PlaceFails};
ghost use Rattle.fidl_names.specs.Resolved.{DeclarationHolds, DeclarationFails, NamesHold};
ghost use Rattle.fidl_names.specs.Resolved.{NameFails};
ghost use Rattle.fidl_names.specs.Refusals.{IsTrueOfOne};
ghost use Rattle.fidl_named.specs.Scopes.{IsMemoryOr};

use crate::constraint_names::{check_items, check_value};
use fidl_named::{NameFault, NamePlace, Named, NamedFile, name_places};
use fidl_tree::{Constraints, DeclarationBody, Path, ValueMember};

/// Each name of a type and its constraints means something.
fn check_type(
    scope: &NamedFile<'_, '_, '_>,
    argument_of: Option<&Path>,
    path: &Path,
    constraints: Option<&Constraints>,
) -> Result<(), NameFault>
    ensures ok { let head = option_map path_view (option_copied argument_of.entry) in
        let values = constraints_view (option_copied constraints.entry) in
        let place = a_type head (path_view path.now) values in
        OnOk result (PlaceHolds scope.now.named.now scope.now.file.now place) }
    ensures fault_is_true { let head = option_map path_view (option_copied argument_of.entry) in
        let values = constraints_view (option_copied constraints.entry) in
        let place = a_type head (path_view path.now) values in
        IfErr result (IsMemoryOr (λ f. PlaceFails scope.now.named.now scope.now.file.now
        scope.now.file_index f place)) }
{
    let kind = scope.kind_of_type(argument_of)?;
    let meaning = scope.read(path, kind)?;
    let end = scope.named.resolved(meaning);
    check_items(scope, Some(end), constraints)
}

/// Each name in the values of members means something.
fn check_value_members(
    scope: &NamedFile<'_, '_, '_>,
    members: &[ValueMember],
) -> Result<(), NameFault>
    ensures ok { let seen = map value_member_view members.now in
        OnOk result (MembersMean scope.now.named.now scope.now.file.now seen) }
    ensures fault_is_true { let seen = map value_member_view members.now in
        IfErr result (IsMemoryOr (MemberFails scope.now.named.now scope.now.file.now
        scope.now.file_index seen)) }
{
    for member in members {
        check_value(scope, &member.value)?;
    }
    Ok(())
}

/// Each name at a place means something.
fn check_place(scope: &NamedFile<'_, '_, '_>, place: NamePlace<'_>) -> Result<(), NameFault>
    ensures ok { OnOk result (PlaceHolds scope.now.named.now scope.now.file.now
        (name_place_view place.entry)) }
    ensures fault_is_true { let seen = name_place_view place.entry in
        IfErr result (IsMemoryOr (λ f. PlaceFails scope.now.named.now scope.now.file.now
        scope.now.file_index f seen)) }
{
    match place {
        NamePlace::Name { kind, path } => {
            scope.read(path, kind)?;
            Ok(())
        }
        NamePlace::Type {
            argument_of,
            path,
            constraints,
        } => check_type(scope, argument_of, path, constraints),
        NamePlace::Layout { constraints } => check_items(scope, None, constraints),
        NamePlace::Number { .. } => Ok(()),
        NamePlace::Members { members, .. } => check_value_members(scope, members),
    }
}

/// Each name in a declaration means something.
fn check_declaration(scope: &NamedFile<'_, '_, '_>, body: &DeclarationBody) -> Result<(), NameFault>
    ensures ok { let seen = declared_view body.now in
        OnOk result (DeclarationHolds scope.now.named.now scope.now.file.now seen) }
    ensures fault_is_true { let seen = declared_view body.now in
        IfErr result (IsMemoryOr (DeclarationFails scope.now.named.now scope.now.file.now
        scope.now.file_index seen)) }
{
    let places = name_places(scope.named.alloc(), body)?;
    for place in &places {
        check_place(scope, *place)?;
    }
    Ok(())
}

/// Each name in a file means something.
fn check_file(scope: &NamedFile<'_, '_, '_>) -> Result<(), NameFault>
    ensures ok { OnOk result (NamesHold scope.now.named.now scope.now.file.now) }
    ensures fault_is_true { IfErr result (IsMemoryOr
        (NameFails scope.now.named.now scope.now.file.now scope.now.file_index)) }
{
    for declaration in &scope.file.declarations {
        check_declaration(scope, &declaration.body)?;
    }
    Ok(())
}

/// Each name in the files of a set means something.
pub(crate) fn check_names(named: &Named<'_, '_>) -> Result<(), NameFault>
    ensures ok { OnOk result (AllByRecursion (NamesHold named.now) named.now) }
    ensures fault_is_true { IfErr result (IsMemoryOr
        (IsTrueOfOne named.now (NameFails named.now))) }
{
    for file_index in 0..named.count() {
        check_file(&NamedFile {
            named,
            file_index,
            file: named.file(file_index),
        })?;
    }
    Ok(())
}
