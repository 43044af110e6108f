//! The members of structs, tables and unions.
ghost use Rattle.std.specs.Prelude.{◌≡◌, ◌+◌, ◌≤◌, ◌<◌, map, IsTrue};
ghost use Rattle.fidl_equivalence.specs.Alike.{IsNumbered, AlikeFields, AlikeRows};
ghost use Rattle.fidl_ir.specs.Terms.{term_view, fields_view, rows_view};
ghost use Rattle.fidl_reachable_types.specs.Growing.{reference_view};
ghost use Rattle.fidl_table_format.specs.Section.{header_of};
ghost use Rattle.fidl_table_format.specs.Terms.{fields_from, rows_from};
ghost use Rattle.fidl_table_check.specs.Members.{IsMember, IsRow};

use crate::part::is_part;
use fidl_ir::{Field, Row, Type};
use fidl_reachable_types::TypeRef;
use fidl_table_format::{Entry, Row as RowRecord};
use fidl_verify::Table;

/// Whether two names are the same.
fn is_same_name(a: &[u8], b: &[u8]) -> bool
    ensures { IsTrue result → a.now ≡ b.now }
{
    a == b
}

/// Whether a row has this name, and the entry whose number this type has in the list.
fn is_member(
    table: &Table<'_>,
    types: &[TypeRef<'_>],
    row: &RowRecord,
    name: &[u8],
    of: &Type,
) -> bool
    requires { row.now.name_place + row.now.name_length ≤ (header_of table.now).names }
    ensures { IsTrue result
        → IsMember (map reference_view types.now) table.now row.now name.now (term_view of.now) }
{
    is_same_name(table.row_name(row), name) && is_part(types, row.entry, of)
}

/// Whether the rows of an entry are the members of a struct, in their order.
pub(crate) fn fields_are(
    table: &Table<'_>,
    types: &[TypeRef<'_>],
    entry: &Entry,
    fields: &[Field],
) -> bool
    requires { entry.now.first + entry.now.count ≤ (header_of table.now).rows }
    ensures { IsTrue result
        → AlikeFields (λ t u. IsNumbered (map reference_view types.now) t u) (fields_view fields.now)
        (fields_from table.now (header_of table.now) entry.now.first entry.now.count) }
{
    if fields.len() != entry.count as usize {
        return false;
    }
    // Read, so that the number of rows, and with it each row's, is known to have 32 bits.
    let _rows = table.rows();
    for place in 0..entry.count {
        let field = &fields[place as usize];
        let row = table.row(entry.first + place);
        if !is_member(table, types, &row, field.name.as_slice(), &field.of) {
            return false;
        }
    }
    true
}

/// Whether a row has an ordinal, a name, and the entry whose number the type has in the list.
fn is_row(table: &Table<'_>, types: &[TypeRef<'_>], entry: &Entry, place: u32, row: &Row) -> bool
    requires { entry.now.first + place < (header_of table.now).rows }
    ensures { IsTrue result → IsRow (map reference_view types.now) table.now entry.now place row.now }
{
    // Read, so that the number of rows, and with it each row's, is known to have 32 bits.
    let _rows = table.rows();
    let found = table.row(entry.first + place);
    found.key == row.ordinal && is_member(table, types, &found, row.name.as_slice(), &row.of)
}

/// Whether the rows of an entry are the members of a table or union, in their order.
pub(crate) fn rows_are(
    table: &Table<'_>,
    types: &[TypeRef<'_>],
    entry: &Entry,
    rows: &[Row],
) -> bool
    requires { entry.now.first + entry.now.count ≤ (header_of table.now).rows }
    ensures { IsTrue result
        → AlikeRows (λ t u. IsNumbered (map reference_view types.now) t u) (rows_view rows.now)
        (rows_from table.now (header_of table.now) entry.now.first entry.now.count) }
{
    if rows.len() != entry.count as usize {
        return false;
    }
    for place in 0..entry.count {
        if !is_row(table, types, entry, place, &rows[place as usize]) {
            return false;
        }
    }
    true
}
