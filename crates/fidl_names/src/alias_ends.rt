//! What aliases resolve to, and what they come to as long as they add no constraints.
ghost use Rattle.std.specs.Prelude.{◌≡◌, ◌↔◌, [], Some, IsTrue, IfOk};
ghost use Rattle.fidl_tree.specs.Views.{type_view};
ghost use Rattle.fidl_tree.specs.declared.file.File.{File as Tree};
ghost use Rattle.fidl_tree.specs.declared.declaration.AliasDeclaration.{AliasDeclaration as Node};
ghost use Rattle.fidl_named.specs.declared.meaning.Meaning.TheVariants as Given;
ghost use Rattle.fidl_named.specs.declared.place.DeclarationId.{DeclarationId as Id};
ghost use Rattle.fidl_named.specs.Meanings.{IsJust};
ghost use Rattle.fidl_named.specs.Aliases.{IsAliasAt, Follows, constraints_of};
ghost use Rattle.fidl_named.specs.Aliases.{PassesTo};
ghost use Rattle.fidl_named.specs.Aliases.{IsEnd, HasEnd, AreEnds, rows_of};
ghost use Rattle.fidl_names.specs.AliasGraph.{IsAliasOrder};
ghost use Rattle.fidl_named.specs.FullNames.{HasDeclaration};
ghost use Rattle.fidl_names.specs.DeclarationNumbers.{AreNumbered};
ghost use Rattle.fidl_named.specs.Aliases.{own_end};
ghost use Rattle.fidl_names.specs.MeaningRows.{own_ends, IsWithin, with_end};

use crate::alias_steps::{alias_at, next_meaning};
use crate::declaration_numbers::Numbers;
use fidl_named::{
    AliasEnd, DeclarationId, FileSet, Meaning, SetScope, declared_id, end_of, own_end,
};
use fidl_tree::TypeConstructor;
use std::alloc::{AllocError, Global};

/// Whether a type is written without constraints.
fn is_bare(constructor: &TypeConstructor) -> bool
    ensures { IsTrue result ↔ (constraints_of (type_view constructor.now) ≡ []) }
{
    match constructor {
        TypeConstructor::Named(named) => named.constraints.is_none(),
        TypeConstructor::Layout { constraints, .. } => constraints.is_none(),
    }
}

/// Whether the alias of an id adds no constraints to its type.
fn adds_nothing(set: &FileSet<'_, '_>, id: DeclarationId) -> bool
    requires { HasDeclaration set.now id }
    ensures { (f : Tree) (a : Node) → IsAliasAt set.now id f a
        → IsTrue result ↔ (constraints_of (type_view a.constructor) ≡ []) }
{
    match alias_at(set, id) {
        None => false,
        Some(found) => is_bare(&found.alias.constructor),
    }
}

/// What the alias of an id comes to as long as no constraints are added, by what its type means
/// and what that comes to.
fn passed_end(set: &FileSet<'_, '_>, id: DeclarationId, next: Meaning, passed: Meaning) -> Meaning
    requires stands { HasDeclaration set.now id }
    requires follows { IsJust (Follows set.now (Given.Declared id)) (Some next) }
    requires passed { PassesTo set.now next passed }
    ensures { PassesTo set.now (Given.Declared id) result }
{
    match declared_id(next) {
        None => Meaning::Declared(id),
        Some(_) => {
            if adds_nothing(set, id) {
                return passed;
            }
            Meaning::Declared(id)
        }
    }
}

/// The ends of the declaration of an id, where those of what it leads to are known.
fn find_end(
    names: &SetScope<'_, '_, '_>,
    ends: &[Vec<AliasEnd>],
    id: DeclarationId,
) -> Result<AliasEnd, AllocError>
    requires stands { HasDeclaration names.now.set.now id }
    requires ends { (p : Id) → Follows names.now.set.now (Given.Declared id) (Given.Declared p)
        → HasDeclaration names.now.set.now p → HasEnd names.now.set.now (rows_of ends.now) p }
    ensures { IfOk result (IsEnd names.now.set.now (Given.Declared id)) }
{
    match next_meaning(names, id)? {
        None => Ok(own_end(Meaning::Declared(id))),
        Some(next) => {
            let end = end_of(names.set, ends, next);
            Ok(AliasEnd {
                resolved: end.resolved,
                passed: passed_end(names.set, id, next, end.passed),
            })
        }
    }
}

/// The first declarations of a file, each as itself.
fn own_row(alloc: Global, file: usize, count: usize) -> Result<Vec<AliasEnd>, AllocError>
    ensures { IfOk result (λ row. row.items ≡ own_ends file count) }
{
    let mut row = Vec::new(alloc);
    for index in 0..count {
        row.push(own_end(Meaning::Declared(DeclarationId { file, index })))?;
    }
    Ok(row)
}

/// All declarations, each as itself.
fn own_rows(set: &FileSet<'_, '_>) -> Result<Vec<Vec<AliasEnd>>, AllocError>
    ensures { IfOk result (λ rows. (p : Id) → HasDeclaration set.now p
        → IsWithin (rows_of rows.items) p) }
{
    let alloc = set.alloc();
    let mut rows = Vec::new(alloc);
    for file_index in 0..set.count() {
        let row = own_row(alloc, file_index, set.file(file_index).declarations.len())?;
        rows.push(row)?;
    }
    Ok(rows)
}

/// Writes the ends of the declaration of an id.
fn set_end(ends: &mut [Vec<AliasEnd>], id: DeclarationId, end: AliasEnd)
    requires { IsWithin (rows_of ends.old) id }
    ensures { rows_of ends.new ≡ with_end (rows_of ends.old) id end }
{
    ends[id.file][id.index] = end;
}

/// The ends of each declaration, where the order has an alias after all that it refers to.
pub(crate) fn find_ends(
    names: &SetScope<'_, '_, '_>,
    numbers: &Numbers,
    order: &[usize],
) -> Result<Vec<Vec<AliasEnd>>, AllocError>
    requires numbered { AreNumbered names.now.set.now numbers.now.ids.items
        numbers.now.starts.items }
    requires order { IsAliasOrder names.now.set.now numbers.now.starts.items numbers.now.ids.items
        order.now }
    ensures { IfOk result (λ rows. AreEnds names.now.set.now (rows_of rows.items)) }
{
    let mut ends = own_rows(names.set)?;
    for number in order {
        let id = numbers.ids[*number];
        let end = find_end(names, &ends, id)?;
        set_end(&mut ends, id, end);
    }
    Ok(ends)
}
