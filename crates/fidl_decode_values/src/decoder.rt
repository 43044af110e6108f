//! The decoder of one message.
ghost use Rattle.std.specs.Prelude.{◌≡◌, ◌+◌, ◌<◌, ◌≤◌, ℕ, length, slice_index};
ghost use Rattle.fidl_limits.specs.declared.limits.TheConstants.{MAX_MESSAGE_BYTES};
ghost use Rattle.fidl_limits.specs.declared.limits.TheConstants.{MAX_MESSAGE_HANDLES};
ghost use Rattle.fidl_table_format.specs.Section.{header_of, row_place};
ghost use Rattle.fidl_decode_model.specs.Invariants.{IsFine};
ghost use Rattle.fidl_decode_model.specs.Fine.{fine_prop};

use fidl_links::Links;
use fidl_table_format::{Entry, Row, read_entry, row_from};
use fidl_verify::Table;
use fidl_wire::HandleInfo;
use std::snapshot::Snapshot;

/// What never changes: a verified table, and a message within the limits of bytes and of handles.
/// The bytes stand in the state, with the links. Here clauses alone know them, as they came.
#[derive(Drop)]
pub struct Decoder<'t, 'm, 's> {
    pub table: &'t Table<'t>,
    /// The table's bytes, of which entries and rows are read, and where its rows begin.
    pub coding: &'t [u8],
    pub rows: usize,
    pub bytes: Snapshot<Links<'m, 's>>,
    /// How many bytes the message has.
    pub size: usize,
    pub handles: &'m [HandleInfo],
    ghost coded: { coding.now ≡ table.now },
    ghost placed: { rows ≡ row_place (header_of table.now) 0 },
    ghost octets: { (i : ℕ) → slice_index bytes.value.came i < 256 },
    ghost fine: { IsFine table.now } by { fine_prop table.now },
    ghost short: { length bytes.value.came ≤ MAX_MESSAGE_BYTES },
    ghost sized: { size ≡ length bytes.value.came },
    ghost few: { length handles.now ≤ MAX_MESSAGE_HANDLES },
}

impl<'t, 'm, 's> Decoder<'t, 'm, 's> {
    ghost use Rattle.fidl_table_format.specs.Section.{header_of, entry_at, row_at};
    ghost use Rattle.fidl_table_format.specs.WellFormed.{WellFormed};

    /// The entry of this number.
    #[inline(always)]
    pub fn entry(&self, index: u32) -> Entry
        requires { index < (header_of self.now.table.now).entries }
        ensures value { result ≡ entry_at self.now.table.now index }
        ensures well_formed { WellFormed self.now.table.now }
    {
        // Read, so that the table is known to be well-formed.
        let _entries = self.table.entries();
        read_entry(self.coding, index)
    }

    /// The row of this number.
    #[inline(always)]
    pub fn row(&self, index: u32) -> Row
        requires { index < (header_of self.now.table.now).rows }
        ensures value { result ≡ row_at self.now.table.now (header_of self.now.table.now) index }
        ensures entry { result.entry < (header_of self.now.table.now).entries }
        ensures well_formed { WellFormed self.now.table.now }
    {
        // Read, so that the table is known to be well-formed.
        let _rows = self.table.rows();
        row_from(self.coding, self.rows + 16 * index as usize)
    }
}
