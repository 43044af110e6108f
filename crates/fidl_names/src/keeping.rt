//! The names at the places of declarations, each read once and kept.
ghost use Rattle.std.specs.Prelude.{IfOk, OnOk};
ghost use Rattle.fidl_named.specs.KeptNames.{AreKept, AreKeptIn, kept_rows};

use fidl_named::{
    FileScope, KeptName, KeptNames, NamePlace, SetScope, Wanted, find_meaning, name_places,
    ordinary, value_paths, wanted_kind,
};
use fidl_tree::{Constraints, DeclarationBody, Path, Value, ValueMember};
use std::alloc::AllocError;

/// Keeps what a name means where this kind is wanted. Returns whether it means anything.
fn keep<'f>(
    kept: &mut KeptNames<'f>,
    scope: &FileScope<'_, 'f, '_>,
    path: &'f Path,
    wanted: Wanted,
) -> Result<bool, AllocError>
    requires { AreKept scope.now.names.set.now scope.now.file.now kept.old.names.items }
    ensures { OnOk result (AreKept scope.now.names.set.now scope.now.file.now
        kept.new.names.items) }
{
    match find_meaning(scope, path, wanted)? {
        None => Ok(false),
        Some(meaning) => {
            kept.add(KeptName {
                path,
                wanted,
                meaning,
            })?;
            Ok(true)
        }
    }
}

/// Keeps what a name in a value means: a value, or a protocol where the value is a constraint.
fn keep_operand<'f>(
    kept: &mut KeptNames<'f>,
    scope: &FileScope<'_, 'f, '_>,
    path: &'f Path,
) -> Result<(), AllocError>
    requires { AreKept scope.now.names.set.now scope.now.file.now kept.old.names.items }
    ensures { OnOk result (AreKept scope.now.names.set.now scope.now.file.now
        kept.new.names.items) }
{
    if keep(kept, scope, path, Wanted::Value)? {
        return Ok(());
    }
    keep(kept, scope, path, Wanted::Protocol)?;
    Ok(())
}

/// Keeps what the names in a value mean.
fn keep_value<'f>(
    kept: &mut KeptNames<'f>,
    scope: &FileScope<'_, 'f, '_>,
    value: &'f Value,
) -> Result<(), AllocError>
    requires { AreKept scope.now.names.set.now scope.now.file.now kept.old.names.items }
    ensures { OnOk result (AreKept scope.now.names.set.now scope.now.file.now
        kept.new.names.items) }
{
    let paths = value_paths(scope.names.set.alloc(), value)?;
    for path in &paths {
        keep_operand(kept, scope, *path)?;
    }
    Ok(())
}

/// Keeps what the names in constraints mean.
fn keep_constraints<'f>(
    kept: &mut KeptNames<'f>,
    scope: &FileScope<'_, 'f, '_>,
    constraints: Option<&'f Constraints>,
) -> Result<(), AllocError>
    requires { AreKept scope.now.names.set.now scope.now.file.now kept.old.names.items }
    ensures { OnOk result (AreKept scope.now.names.set.now scope.now.file.now
        kept.new.names.items) }
{
    let values = ordinary(scope.names.set.alloc(), scope.file, constraints)?;
    for value in &values {
        keep_value(kept, scope, *value)?;
    }
    Ok(())
}

/// Keeps what the names in the values of members mean.
fn keep_members<'f>(
    kept: &mut KeptNames<'f>,
    scope: &FileScope<'_, 'f, '_>,
    members: &'f [ValueMember],
) -> Result<(), AllocError>
    requires { AreKept scope.now.names.set.now scope.now.file.now kept.old.names.items }
    ensures { OnOk result (AreKept scope.now.names.set.now scope.now.file.now
        kept.new.names.items) }
{
    for member in members {
        keep_value(kept, scope, &member.value)?;
    }
    Ok(())
}

/// Keeps what the names at a place mean.
fn keep_place<'f>(
    kept: &mut KeptNames<'f>,
    scope: &FileScope<'_, 'f, '_>,
    place: NamePlace<'f>,
) -> Result<(), AllocError>
    requires { AreKept scope.now.names.set.now scope.now.file.now kept.old.names.items }
    ensures { OnOk result (AreKept scope.now.names.set.now scope.now.file.now
        kept.new.names.items) }
{
    match place {
        NamePlace::Name { kind, path } => {
            keep(kept, scope, path, kind)?;
            Ok(())
        }
        NamePlace::Type {
            argument_of,
            path,
            constraints,
        } => {
            let kind = wanted_kind(scope, argument_of)?;
            keep(kept, scope, path, kind)?;
            keep_constraints(kept, scope, constraints)
        }
        NamePlace::Layout { constraints } => keep_constraints(kept, scope, constraints),
        NamePlace::Number { .. } => Ok(()),
        NamePlace::Members { members, .. } => keep_members(kept, scope, members),
    }
}

/// Keeps what the names in a declaration mean.
fn keep_declaration<'f>(
    kept: &mut KeptNames<'f>,
    scope: &FileScope<'_, 'f, '_>,
    body: &'f DeclarationBody,
) -> Result<(), AllocError>
    requires { AreKept scope.now.names.set.now scope.now.file.now kept.old.names.items }
    ensures { OnOk result (AreKept scope.now.names.set.now scope.now.file.now
        kept.new.names.items) }
{
    let places = name_places(scope.names.set.alloc(), body)?;
    for place in &places {
        keep_place(kept, scope, *place)?;
    }
    Ok(())
}

/// What the names of a file mean, each by its place.
fn keep_file<'f>(scope: &FileScope<'_, 'f, '_>) -> Result<KeptNames<'f>, AllocError>
    ensures { IfOk result (λ kept. AreKept scope.now.names.set.now scope.now.file.now
        kept.names.items) }
{
    let mut kept = KeptNames::new(scope.names.set.alloc(), scope.file.src.len())?;
    for declaration in &scope.file.declarations {
        keep_declaration(&mut kept, scope, &declaration.body)?;
    }
    Ok(kept)
}

/// What the names of each file mean. A name without a meaning, or with two, is left out.
pub(crate) fn keep_names<'f>(names: &SetScope<'_, 'f, '_>) -> Result<Vec<KeptNames<'f>>, AllocError>
    ensures { IfOk result (λ rows. AreKeptIn names.now.set.now (kept_rows rows.items)) }
{
    let mut rows = Vec::new(names.set.alloc());
    for file_index in 0..names.set.count() {
        let scope = FileScope {
            names: *names,
            file_index,
            file: names.set.file(file_index),
        };
        let kept = keep_file(&scope)?;
        rows.push(kept)?;
    }
    Ok(rows)
}
