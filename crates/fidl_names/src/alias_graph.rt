//! The graph of aliases, over the numbers of declarations.
ghost use Rattle.std.specs.Prelude.{◌≡◌, ◌↔◌, IsTrue, IfOk};
ghost use Rattle.fidl_named.specs.declared.meaning.Wanted.TheVariants as Kind;
ghost use Rattle.fidl_tree.specs.Views.{path_view, type_view};
ghost use Rattle.fidl_names.specs.AliasGraph.{IsMeant, AreTargets, AreReferred, AreRows};
ghost use Rattle.fidl_cycles.specs.Cycles.{points_of};
ghost use Rattle.fidl_named.specs.Meanings.{IsJust};
ghost use Rattle.fidl_named.specs.FullNames.{HasDeclaration};
ghost use Rattle.fidl_names.specs.DeclarationNumbers.{AreNumbered};
ghost use Rattle.fidl_names.specs.OuterTypes.{outer_types};
ghost use Rattle.fidl_named.specs.ReferenceViews.{optional_path_view};

use crate::alias_steps::alias_at;
use crate::declaration_numbers::Numbers;
use crate::outer_types::outer_types;
use fidl_named::{DeclarationId, FileScope, SetScope, Wanted, declared_id, read_type, wanted_kind};
use fidl_tree::{Path, TypeConstructor};
use std::alloc::AllocError;

/// Whether a type is wanted.
fn wants_type(wanted: Wanted) -> bool
    ensures { IsTrue result ↔ (wanted ≡ Kind.«Type») }
{
    matches!(wanted, Wanted::Type)
}

/// The declaration that a type's name means, where a type is wanted.
fn declaration_meant(
    scope: &FileScope<'_, '_, '_>,
    argument_of: Option<&Path>,
    path: &Path,
) -> Result<Option<DeclarationId>, AllocError>
    ensures { let head = optional_path_view argument_of.entry in
        IfOk result (IsJust (IsMeant scope.now.names.set.now scope.now.file.now head
        (path_view path.now))) }
{
    let wanted = wanted_kind(scope, argument_of)?;
    if !wants_type(wanted) {
        return Ok(None);
    }
    match read_type(scope, path)? {
        None => Ok(None),
        Some(meaning) => Ok(declared_id(meaning)),
    }
}

/// The numbers of the declarations that the types in a type mean.
fn targets(
    scope: &FileScope<'_, '_, '_>,
    numbers: &Numbers,
    constructor: &TypeConstructor,
) -> Result<Vec<usize>, AllocError>
    requires { AreNumbered scope.now.names.set.now numbers.now.ids.items
        numbers.now.starts.items }
    ensures { let types = outer_types (type_view constructor.now) in
        let starts = numbers.now.starts.items in
        IfOk result (λ found. AreTargets scope.now.names.set.now scope.now.file.now starts types
        found.items) }
{
    let alloc = scope.names.set.alloc();
    let types = outer_types(alloc, constructor)?;
    let mut found = Vec::new(alloc);
    for outer in &types {
        let meant = declaration_meant(scope, outer.argument_of, outer.path)?;
        if let Some(id) = meant {
            found.push(numbers.number(id))?;
        }
    }
    Ok(found)
}

/// The numbers of the declarations that the declaration of an id refers to, if it is an alias.
fn referred(
    names: &SetScope<'_, '_, '_>,
    numbers: &Numbers,
    id: DeclarationId,
) -> Result<Vec<usize>, AllocError>
    requires numbered { AreNumbered names.now.set.now numbers.now.ids.items
        numbers.now.starts.items }
    requires stands { HasDeclaration names.now.set.now id }
    ensures { IfOk result (λ found. AreReferred names.now.set.now numbers.now.starts.items id
        found.items) }
{
    match alias_at(names.set, id) {
        None => Ok(Vec::new(names.set.alloc())),
        Some(found) => {
            let scope = FileScope {
                names: *names,
                file_index: id.file,
                file: found.file,
            };
            targets(&scope, numbers, &found.alias.constructor)
        }
    }
}

/// The graph of aliases: for each declaration those that it refers to.
pub(crate) fn alias_graph(
    names: &SetScope<'_, '_, '_>,
    numbers: &Numbers,
) -> Result<Vec<Vec<usize>>, AllocError>
    requires { AreNumbered names.now.set.now numbers.now.ids.items numbers.now.starts.items }
    ensures { IfOk result (λ graph. AreRows names.now.set.now numbers.now.starts.items
        numbers.now.ids.items (points_of graph.items)) }
{
    let mut graph = Vec::new(names.set.alloc());
    for id in &numbers.ids {
        let row = referred(names, numbers, *id)?;
        graph.push(row)?;
    }
    Ok(graph)
}
