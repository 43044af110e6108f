//! Members by their names.
ghost use Rattle.std.specs.Prelude.{◌≡◌, ◌≢◌, ℕ, ◌+◌, ◌<◌, ◌≤◌, IfSome, IfNone};
ghost use Rattle.fidl_table_format.specs.declared.kind.EntryKind.TheVariants as EntryKind;
ghost use Rattle.fidl_table_format.specs.Section.{header_of, entry_at, row_at};
ghost use Rattle.fidl_table_format.specs.Entry.{IsOf};
ghost use Rattle.fidl_members.specs.Entries.{row_name, IsFirstRowOf, HasNoRow};

use crate::kinds::entry_kind;
use fidl_table_format::EntryKind;
use fidl_verify::Table;

/// The first of so many rows, from a row on, that has this name, by its place among them.
fn row_named(table: &Table<'_>, first: u32, count: u32, name: &[u8]) -> Option<u32>
    requires { first + count ≤ (header_of table.now).rows }
    ensures below { IfSome result (λ at. at < count) }
    ensures named { IfSome result (λ at. row_name table.now (first + at) ≡ name.now) }
    ensures first { IfSome result (λ at. (k : ℕ) → k < at
        → row_name table.now (first + k) ≢ name.now) }
    ensures none { IfNone result ((k : ℕ) → k < count
        → row_name table.now (first + k) ≢ name.now) }
{
    // Read, so that the number of rows, and with it each row's, is known to have 32 bits.
    let _rows = table.rows();
    for at in 0..count {
        let row = table.row(first + at);
        if table.row_name(&row) == name {
            return Some(at);
        }
    }
    None
}

/// The place in the declaration of the first member of this name of the struct of an entry, counted
/// from 0; none where it has no such member, and of an entry of another kind.
pub fn field_named(table: &Table<'_>, entry: u32, name: &[u8]) -> Option<usize>
    requires { entry < (header_of table.now).entries }
    ensures of { IfSome result (λ at. IsOf EntryKind.Struct (entry_at table.now entry)) }
    ensures named { IfSome result (λ at. IsFirstRowOf table.now entry name.now at) }
    ensures none { IfNone result (IsOf EntryKind.Struct (entry_at table.now entry)
        → HasNoRow table.now entry name.now) }
{
    let EntryKind::Struct = entry_kind(table, entry) else {
        return None;
    };
    let parts = table.entry(entry);
    match row_named(table, parts.first, parts.count, name) {
        Some(at) => Some(at as usize),
        None => None,
    }
}

/// The ordinal of the first member of this name of the tables of an entry; none where the layout has
/// no such member, and of an entry of another kind.
pub fn member_named(table: &Table<'_>, entry: u32, name: &[u8]) -> Option<u64>
    requires { entry < (header_of table.now).entries }
    ensures of { IfSome result (λ ordinal. IsOf EntryKind.Table (entry_at table.now entry)) }
    ensures named { IfSome result (λ ordinal. (at : ℕ) × IsFirstRowOf table.now entry name.now at
        × (ordinal ≡ (row_at table.now (header_of table.now)
        ((entry_at table.now entry).first + at)).key)) }
    ensures none { IfNone result (IsOf EntryKind.Table (entry_at table.now entry)
        → HasNoRow table.now entry name.now) }
{
    let EntryKind::Table = entry_kind(table, entry) else {
        return None;
    };
    let parts = table.entry(entry);
    match row_named(table, parts.first, parts.count, name) {
        Some(at) => {
            // Read, so that the number of rows is known to have 32 bits.
            let _rows = table.rows();
            Some(u64::from(table.row(parts.first + at).key))
        }
        None => None,
    }
}
