//! Whether a table keeps what another says.
ghost use Rattle.std.specs.Prelude.{◌≡◌, ◌<◌, drop, IsTrue};
ghost use Rattle.fidl_table_format.specs.Section.{header_of, entry_at, value_place};
ghost use Rattle.fidl_table_format.specs.Uses.{uses_values};
ghost use Rattle.fidl_table_format.specs.Entry.{kind_is};
ghost use Rattle.fidl_migrate.specs.Kept.{HasCounts, HasFields, KeepsEntry, KeepsRows};
ghost use Rattle.fidl_migrate.specs.Kept.{KeepsEntries};
ghost use Rattle.fidl_migrate.specs.Migrated.{IsKept};

use crate::values::keeps_values;
use fidl_table_format::{Entry, EntryKind, HEADER_SIZE, Header, Row, read_header, values_size};
use fidl_verify::Table;

/// Whether two headers count the same but for values.
fn has_counts(before: &Header, after: &Header) -> bool
    ensures { IsTrue result → HasCounts before.now after.now }
{
    after.entries == before.entries
        && after.rows == before.rows
        && after.roots == before.roots
        && after.protocols == before.protocols
        && after.methods == before.methods
        && after.names == before.names
}

/// Whether two entries are one, but for `first` and `count`.
fn has_fields(before: &Entry, after: &Entry) -> bool
    ensures { IsTrue result → HasFields before.now after.now }
{
    after.kind == before.kind
        && after.flags == before.flags
        && after.alignment == before.alignment
        && after.nest == before.nest
        && after.size == before.size
        && after.bound == before.bound
        && after.subtype == before.subtype
        && after.rights == before.rights
        && after.name_place == before.name_place
        && after.name_length == before.name_length
}

/// Whether an entry is an enum, whose `first` is a record of values.
pub(crate) fn has_values(entry: &Entry) -> bool
    ensures { result ≡ kind_is uses_values entry.now }
{
    match EntryKind::from_number(entry.kind) {
        Some(EntryKind::Enum) => true,
        _ => false,
    }
}

/// Whether the entry of this number is kept.
fn keeps_entry(old: &Table<'_>, new: &Table<'_>, index: u32) -> bool
    requires old { index < (header_of old.now).entries }
    requires new { index < (header_of new.now).entries }
    ensures { IsTrue result
        → KeepsEntry old.now new.now (entry_at old.now index) (entry_at new.now index) }
{
    let before = old.entry(index);
    let after = new.entry(index);
    if !has_fields(&before, &after) {
        return false;
    }
    if has_values(&before) {
        keeps_values(old, &before, new, &after)
    } else {
        after.first == before.first && after.count == before.count
    }
}

/// Whether each entry is kept.
fn keeps_entries(old: &Table<'_>, new: &Table<'_>) -> bool
    requires { (header_of new.now).entries ≡ (header_of old.now).entries }
    ensures { IsTrue result → KeepsEntries old.now new.now }
{
    for index in 0..old.entries() {
        if !keeps_entry(old, new, index) {
            return false;
        }
    }
    true
}

/// Whether two rows are one.
fn is_same_row(before: Row, after: Row) -> bool
    ensures { IsTrue result → after ≡ before }
{
    after.key == before.key
        && after.entry == before.entry
        && after.name_place == before.name_place
        && after.name_length == before.name_length
}

/// Whether each row is the same.
fn keeps_rows(old: &Table<'_>, new: &Table<'_>) -> bool
    requires { (header_of new.now).rows ≡ (header_of old.now).rows }
    ensures { IsTrue result → KeepsRows old.now new.now }
{
    for index in 0..old.rows() {
        let before = old.row(index);
        let after = new.row(index);
        if !is_same_row(before, after) {
            return false;
        }
    }
    true
}

/// The bytes behind the values.
fn behind_values<'t>(table: &Table<'t>) -> &'t [u8]
    ensures { result.now ≡ drop (value_place (header_of table.now) (header_of table.now).values)
        table.now }
{
    let bytes = table.bytes();
    let header = read_header(bytes);
    let rows = HEADER_SIZE + 40 * header.entries as usize;
    let values = rows + 16 * header.rows as usize;
    &bytes[values + values_size(&header, header.values)..]
}

/// Whether a table keeps what the other says. A false answer says nothing.
pub(crate) fn is_kept(old: &Table<'_>, new: &Table<'_>) -> bool
    ensures { IsTrue result → IsKept old.now new.now }
{
    if !has_counts(&read_header(old.bytes()), &read_header(new.bytes())) {
        return false;
    }
    if !keeps_rows(old, new) {
        return false;
    }
    keeps_entries(old, new) && behind_values(new) == behind_values(old)
}
