//! Whether the entries of a table have the names of their definitions.
ghost use Rattle.std.specs.Prelude.{◌≡◌, ℕ, ◌<◌, map, slice_get, Some, IsTrue};
ghost use Rattle.fidl_wire.specs.Term as ty;
ghost use Rattle.fidl_reachable_types.specs.Growing.{reference_view};
ghost use Rattle.fidl_table_format.specs.Section.{header_of};
ghost use Rattle.fidl_table_check.specs.Numbered.{entry_name, HaveNames};

use crate::part::{layout_number, type_at};
use fidl_reachable_types::TypeRef;
use fidl_verify::Table;

/// Whether the entry of this number has the name of its definition, where its type is one.
fn has_name(table: &Table<'_>, names: &[Vec<u8>], types: &[TypeRef<'_>], number: u32) -> bool
    requires { number < (header_of table.now).entries }
    ensures { IsTrue result → (i : ℕ)
        → slice_get (map reference_view types.now) number ≡ Some (ty.named i)
        → slice_get (map (λ name. name.items) names.now) i ≡ Some (entry_name table.now number) }
{
    let Some(of) = type_at(types, number as usize) else {
        return false;
    };
    let Some(layout) = layout_number(of) else {
        return true;
    };
    let Some(name) = names.get(layout as usize) else {
        return false;
    };
    let entry = table.entry(number);
    table.entry_name(&entry) == name.as_slice()
}

/// Whether each entry of a table whose type is a definition has its name, and there are as many
/// entries as types; names are those of the definitions, by number. A false answer says nothing.
pub fn names_are(table: &Table<'_>, names: &[Vec<u8>], types: &[TypeRef<'_>]) -> bool
    ensures { IsTrue result
        → HaveNames (map (λ name. name.items) names.now) (map reference_view types.now) table.now }
{
    if table.entries() as usize != types.len() {
        return false;
    }
    for number in 0..table.entries() {
        if !has_name(table, names, types, number) {
            return false;
        }
    }
    true
}
