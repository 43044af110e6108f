//! Kinds of entries whose values are numbers.
ghost use Rattle.std.specs.Prelude.{◌≡◌, ◌+◌, ◌≤◌, IsTrue};
ghost use Rattle.fidl_table_format.specs.Section.{header_of};
ghost use Rattle.fidl_decode_model.specs.Invariants.{is_free};
ghost use Rattle.fidl_decode_columns.specs.Columns.{has_numbers, AreNumbers};

use crate::columns::Columns;
use fidl_table_format::{Entry, EntryKind};

/// How many rows of a struct are looked at before it is read. These looks are no steps.
pub const MOST_ROWS: u32 = 32;

/// Whether any bytes are a value of the entry, which is of this kind: a number, or bits or an enum
/// that are not strict.
pub fn is_free(entry: &Entry, kind: EntryKind) -> bool
    ensures { result ≡ is_free kind entry.now }
{
    match kind {
        EntryKind::Bits | EntryKind::Enum => !entry.is_strict(),
        EntryKind::Int8
        | EntryKind::Int16
        | EntryKind::Int32
        | EntryKind::Int64
        | EntryKind::Uint8
        | EntryKind::Uint16
        | EntryKind::Uint32
        | EntryKind::Uint64 => true,
        _ => false,
    }
}

/// Whether values of the kind are numbers.
fn has_numbers(kind: EntryKind) -> bool
    ensures { result ≡ has_numbers kind }
{
    match kind {
        EntryKind::Bool
        | EntryKind::Bits
        | EntryKind::Enum
        | EntryKind::Int8
        | EntryKind::Int16
        | EntryKind::Int32
        | EntryKind::Int64
        | EntryKind::Uint8
        | EntryKind::Uint16
        | EntryKind::Uint32
        | EntryKind::Uint64 => true,
        _ => false,
    }
}

impl<'t, 'a, 'm, 's> Columns<'t, 'a, 'm, 's> {
    /// Whether so many rows, from the first on, are no more than are looked at, and their members
    /// are numbers.
    pub(crate) fn are_numbers(&self, first: u32, count: u32) -> bool
        requires within { first + count ≤ (header_of self.now.table.now).rows }
        ensures { IsTrue result → AreNumbers self.now.table.now first count }
    {
        if count > MOST_ROWS {
            return false;
        }
        // Read, so that the number of rows, and with it each row's, is known to have 32 bits.
        let _rows = self.table.rows();
        for i in 0..count {
            let entry = self.table.row(first + i).entry;
            let Some(kind) = EntryKind::from_number(self.table.entry(entry).kind) else {
                return false;
            };
            if !has_numbers(kind) {
                return false;
            }
        }
        true
    }
}
