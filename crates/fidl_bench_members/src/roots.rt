//! The entries of the types below a root.
ghost use Rattle.std.specs.Prelude.{◌<◌, IfSome};
ghost use Rattle.fidl_table_format.specs.Section.{header_of};

use fidl_members::Column;
use fidl_table_format::EntryKind;
use fidl_verify::Table;

/// The entry of the elements of the vector that is the first member of the struct of an entry.
pub(crate) fn element_of(table: &Table<'_>, entry: u32) -> Option<u32>
    requires { entry < (header_of table.now).entries }
    ensures { IfSome result (λ element. element < (header_of table.now).entries) }
{
    Column::find(table, entry, 0)?.content()
}

/// The entry of the member at this ordinal of the union of an entry.
pub(crate) fn variant_of(table: &Table<'_>, entry: u32, ordinal: u64) -> Option<u32>
    requires { entry < (header_of table.now).entries }
    ensures { IfSome result (λ member. member < (header_of table.now).entries) }
{
    let Some(EntryKind::Union) = EntryKind::from_number(table.entry(entry).kind) else {
        return None;
    };
    let mut probes = 0;
    let row = table.member(entry, ordinal, &mut probes)?;
    Some(row.entry)
}
