//! Whether the entries of a table are the types of a list.
ghost use Rattle.std.specs.Prelude.{◌≡◌, ℕ, ◌<◌, List, map, get_or, slice_get, Some, IsTrue};
ghost use Rattle.std.specs.Prelude.{IfSome};
ghost use Rattle.fidl_wire.specs.Term.{Term, nothing, resolve};
ghost use Rattle.fidl_wire.specs.Figure.{Figure};
ghost use Rattle.fidl_equivalence.specs.Alike.{Alike, IsNumbered};
ghost use Rattle.fidl_ir.specs.Terms.{definition_view, definitions_view};
ghost use Rattle.fidl_reachable_types.specs.Growing.{reference_view};
ghost use Rattle.fidl_table_format.specs.Section.{header_of, entry_at};
ghost use Rattle.fidl_table_format.specs.Terms.{term_of};
ghost use Rattle.fidl_table_check.specs.Numbered.{AreEntries};

use crate::definition::{definition_is, type_is};
use crate::part::{layout_number, type_at};
use fidl_ir::Definition;
use fidl_reachable_types::TypeRef;
use fidl_verify::Table;

/// The definition of this number; None where there is none.
fn definition_at(definitions: &[Definition], number: u32) -> Option<&Definition>
    ensures { IfSome result
        (λ d. get_or (definitions_view definitions.now) number nothing ≡ definition_view d.now) }
{
    definitions.get(number as usize)
}

/// Whether the entry of this number is the type of this number.
fn entry_is(
    table: &Table<'_>,
    definitions: &[Definition],
    types: &[TypeRef<'_>],
    number: u32,
) -> bool
    requires { number < (header_of table.now).entries }
    ensures { IsTrue result → (t : Term)
        → slice_get (map reference_view types.now) number ≡ Some t
        → Alike (λ t u. IsNumbered (map reference_view types.now) t u)
        (resolve (definitions_view definitions.now) t)
        (term_of table.now (header_of table.now) (entry_at table.now number)) }
{
    let entry = table.entry(number);
    let Some(of) = type_at(types, number as usize) else {
        return false;
    };
    if let Some(layout) = layout_number(of) {
        return match definition_at(definitions, layout) {
            Some(definition) => definition_is(table, types, &entry, definition),
            None => false,
        };
    }
    match of {
        TypeRef::Of(of) => type_is(types, &entry, of),
        TypeRef::Layout(_) => false,
    }
}

/// Whether the entries of a table are just these types, in order: as many entries as types, and
/// each declares its type one level deep, with its parts named by their numbers in the list. A
/// false answer says nothing.
pub fn entries_are(table: &Table<'_>, definitions: &[Definition], types: &[TypeRef<'_>]) -> bool
    ensures { IsTrue result → (figures : List Figure)
        → AreEntries (record { terms = definitions_view definitions.now; figures = figures })
        (map reference_view types.now) table.now }
{
    if table.entries() as usize != types.len() {
        return false;
    }
    for number in 0..table.entries() {
        if !entry_is(table, definitions, types, number) {
            return false;
        }
    }
    true
}
