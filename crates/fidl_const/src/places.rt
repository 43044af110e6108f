//! The values at the places of declarations.
ghost use Rattle.std.specs.Prelude.{◌↔◌, pos, IfErr, OnOk, IsTrue};
ghost use Rattle.std.specs.List.{AllByRecursion};
ghost use Rattle.fidl_named.specs.PlaceViews.{name_place_view};
ghost use Rattle.fidl_consts.specs.declared.const_type.NumberKind.TheVariants as Kinds;
ghost use Rattle.fidl_consts.specs.Literals.{number_of};
ghost use Rattle.fidl_consts.specs.PlainValues.{InRange};
ghost use Rattle.fidl_consts.specs.Places.{PlacesHold};
ghost use Rattle.fidl_const.specs.Evaluating.{Fails};
ghost use Rattle.fidl_consts.specs.Tables.{AreConsts, IsMemoryOr};
ghost use Rattle.fidl_const.specs.PlaceScopes.{HoldsDeclaration, HoldsMembers, HoldsPlace};
ghost use Rattle.fidl_consts.specs.Scopes.{KnowsAll};
ghost use Rattle.fidl_const.specs.PlaceScopes.{RefusesDeclaration, RefusesMembers, RefusesPlace};
ghost use Rattle.fidl_const.specs.PlaceScopes.{members_place, number_place, type_place};

use crate::constraints::check_constraints;
use fidl_consts::layouts::member_kind;
use fidl_consts::names::find;
use fidl_consts::scope::{FileScope, NamedFile, Scope};
use fidl_consts::values::{name_value, value_in};
use fidl_consts::{ConstFault, ConstType, NumberKind, number_value};
use fidl_named::{NamePlace, Place, Wanted, name_places, wants_value};
use fidl_span::Span;
use fidl_tree::{Constraints, DeclarationBody, Path, ValueMember, ValuesKeyword};

/// Each member has a value of this kind.
fn check_members(
    scope: &FileScope<'_, '_, '_, '_>,
    kind: NumberKind,
    members: &[ValueMember],
) -> Result<(), ConstFault>
    requires known { KnowsAll scope.now }
    ensures ok { OnOk result (HoldsMembers scope.now kind members.now) }
    ensures fault_is_true { IfErr result (IsMemoryOr (RefusesMembers scope.now kind members.now)) }
{
    for member in members {
        value_in(scope, ConstType::Number(kind), &member.value)?;
    }
    Ok(())
}

/// The underlying type of bits or an enum is one of numbers, and each member has a value of it.
fn check_layout(
    scope: &FileScope<'_, '_, '_, '_>,
    keyword: &ValuesKeyword,
    underlying: Option<&Path>,
    members: &[ValueMember],
) -> Result<(), ConstFault>
    requires known { KnowsAll scope.now }
    ensures ok { OnOk result (HoldsPlace scope.now
        (members_place keyword.now underlying.entry members.now)) }
    ensures fault_is_true { IfErr result (IsMemoryOr (RefusesPlace scope.now
        (members_place keyword.now underlying.entry members.now))) }
{
    let kind = member_kind(&scope.file, keyword, underlying)?;
    check_members(scope, kind, members)
}

/// Whether a number word is a number of 32 bits.
fn is_count(text: &[u8]) -> bool
    ensures { IsTrue result ↔ InRange Kinds.Uint32 (pos (number_of text.now)) }
{
    match number_value(text) {
        None => false,
        Some(value) => value <= 4_294_967_295,
    }
}

/// A number as an argument: where it is an array's number of elements, it fits.
fn check_number(
    scope: &FileScope<'_, '_, '_, '_>,
    argument_of: Option<&Path>,
    word: Span,
) -> Result<(), ConstFault>
    ensures ok { OnOk result (HoldsPlace scope.now (number_place argument_of.entry word)) }
    ensures fault_is_true { IfErr result (IsMemoryOr (RefusesPlace scope.now
        (number_place argument_of.entry word))) }
{
    let file = scope.file;
    let kind = file.named.kind(file.file_index, argument_of)?;
    if !wants_value(kind) {
        return Ok(());
    }
    if is_count(file.tree.text(word)) {
        return Ok(());
    }
    Err(ConstFault::OutOfRange {
        place: Place {
            file: file.file_index,
            span: word,
        },
    })
}

/// A type by its name: where it is a number of elements it fits, else its constraints hold.
fn check_type(
    scope: &FileScope<'_, '_, '_, '_>,
    argument_of: Option<&Path>,
    path: &Path,
    constraints: Option<&Constraints>,
) -> Result<(), ConstFault>
    requires known { KnowsAll scope.now }
    ensures ok { OnOk result (HoldsPlace scope.now
        (type_place argument_of.entry path.now constraints.entry)) }
    ensures fault_is_true { IfErr result (IsMemoryOr (RefusesPlace scope.now
        (type_place argument_of.entry path.now constraints.entry))) }
{
    let file = scope.file;
    let kind = file.named.kind(file.file_index, argument_of)?;
    if wants_value(kind) {
        let wanted = ConstType::Number(NumberKind::Uint32);
        name_value(scope, wanted, path)?;
        return Ok(());
    }
    match find(file.named, file.file_index, path, Wanted::Type)? {
        None => Ok(()),
        Some(meaning) => {
            let end = file.named.resolved(meaning);
            check_constraints(scope, end, constraints)
        }
    }
}

/// A place has the values that it owes.
fn check_place(scope: &FileScope<'_, '_, '_, '_>, place: NamePlace<'_>) -> Result<(), ConstFault>
    requires known { KnowsAll scope.now }
    ensures ok { OnOk result (HoldsPlace scope.now (name_place_view place.entry)) }
    ensures fault_is_true { IfErr result (IsMemoryOr (RefusesPlace scope.now
        (name_place_view place.entry))) }
{
    match place {
        NamePlace::Name { .. } => Ok(()),
        NamePlace::Layout { .. } => Ok(()),
        NamePlace::Number {
            argument_of,
            number: word,
        } => check_number(scope, argument_of, word),
        NamePlace::Members {
            keyword,
            underlying,
            members,
        } => check_layout(scope, keyword, underlying, members),
        NamePlace::Type {
            argument_of,
            path,
            constraints,
        } => check_type(scope, argument_of, path, constraints),
    }
}

/// Each place of a declaration has the values that it owes.
fn check_declaration(
    scope: &FileScope<'_, '_, '_, '_>,
    body: &DeclarationBody,
) -> Result<(), ConstFault>
    requires known { KnowsAll scope.now }
    ensures ok { OnOk result (HoldsDeclaration scope.now body.now) }
    ensures fault_is_true { IfErr result (IsMemoryOr (RefusesDeclaration scope.now body.now)) }
{
    let places = name_places(scope.alloc, body)?;
    for place in &places {
        check_place(scope, *place)?;
    }
    Ok(())
}

/// Each place of a file has the values that it owes.
fn check_file(scope: &FileScope<'_, '_, '_, '_>) -> Result<(), ConstFault>
    requires known { KnowsAll scope.now }
    ensures ok { OnOk result (PlacesHold scope.now.file.named.now scope.now.file.tree.now) }
    ensures fault_is_true { IfErr result (IsMemoryOr (Fails scope.now.file.named.now)) }
{
    for declaration in &scope.file.tree.declarations {
        check_declaration(scope, &declaration.body)?;
    }
    Ok(())
}

/// Each place of the files has the values that it owes.
pub(crate) fn check_places(scope: &Scope<'_, '_, '_, '_>) -> Result<(), ConstFault>
    requires { AreConsts scope.now.named.now scope.now.consts.now }
    ensures ok { OnOk result (AllByRecursion (PlacesHold scope.now.named.now) scope.now.named.now) }
    ensures fault_is_true { IfErr result (IsMemoryOr (Fails scope.now.named.now)) }
{
    for file_index in 0..scope.named.count() {
        let file = NamedFile {
            named: scope.named,
            file_index,
            tree: scope.named.file(file_index),
        };
        let inside = FileScope {
            alloc: scope.alloc,
            consts: scope.consts,
            file,
        };
        check_file(&inside)?;
    }
    Ok(())
}
