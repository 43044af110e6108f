//! Whether the roots of a table are those of a listing.
ghost use Rattle.std.specs.Prelude.{◌≡◌, ◌<◌, IsTrue, Some, map, slice_get};
ghost use Rattle.fidl_table_format.specs.Section.{header_of};
ghost use Rattle.fidl_reachable_types.specs.Growing.{reference_view};
ghost use Rattle.fidl_table_build.specs.Roots.{IsEntryOf, ShowsRoot, ShowsRoots};

use crate::entries::definition_number;
use crate::records::Records;
use fidl_reachable_types::TypeRef;

/// Whether the entry of this number is that of a definition.
pub(crate) fn is_entry_of(types: &[TypeRef<'_>], definition: u32, entry: u32) -> bool
    ensures { IsTrue result → IsEntryOf (map reference_view types.now) definition entry }
{
    match types.get(entry as usize) {
        None => false,
        Some(of) => definition_number(*of) == Some(definition),
    }
}

/// Whether the definition of this number has this name.
fn is_named(names: &[Vec<u8>], definition: u32, name: &[u8]) -> bool
    ensures { IsTrue result → slice_get (map (λ v. v.items) names.now) definition ≡ Some name.now }
{
    match names.get(definition as usize) {
        None => false,
        Some(own) => own.as_slice() == name,
    }
}

/// Whether the root of this number is that of a definition.
fn is_root(
    records: &Records<'_>,
    names: &[Vec<u8>],
    types: &[TypeRef<'_>],
    definition: u32,
    index: u32,
) -> bool
    requires { index < (header_of records.now).roots }
    ensures { IsTrue result → ShowsRoot (map (λ v. v.items) names.now) (map reference_view types.now)
        records.now definition index }
{
    let root = records.root(index);
    is_named(
        names,
        definition,
        records.name(root.name_place, root.name_length),
    ) && is_entry_of(types, definition, root.entry)
}

/// Whether the roots are these definitions, in this order, and no other.
pub(crate) fn are_roots(
    records: &Records<'_>,
    names: &[Vec<u8>],
    types: &[TypeRef<'_>],
    roots: &[u32],
) -> bool
    ensures { IsTrue result → ShowsRoots (map (λ v. v.items) names.now) (map reference_view types.now)
        roots.now records.now }
{
    if records.roots() as usize != roots.len() {
        return false;
    }
    for index in 0..records.roots() {
        let definition = roots[index as usize];
        if !is_root(records, names, types, definition, index) {
            return false;
        }
    }
    true
}
