//! Which values are read whole where they stand: leaves, and structs whose members are leaves.
ghost use Rattle.std.specs.Prelude.{◌≡◌, ◌+◌, ◌-◌, ◌<◌, ◌≤◌, IsTrue, Some};
ghost use Rattle.fidl_table_format.specs.Kind.{kind_of};
ghost use Rattle.fidl_table_format.specs.Section.{header_of, entry_at};
ghost use Rattle.fidl_decode_model.specs.Invariants.{AreLeaves, IsFlat};

use crate::decoder::Decoder;
use fidl_decode_columns::MOST_ROWS;
use fidl_table_format::EntryKind;

impl<'t, 'm, 's> Decoder<'t, 'm, 's> {
    /// Whether so many rows, from the first on, are no more than are looked at, and their members
    /// are leaves.
    #[inline(never)]
    pub fn are_leaves(&self, first: u32, count: u32) -> bool
        requires within { first + count ≤ (header_of self.now.table.now).rows }
        ensures { IsTrue result → AreLeaves self.now.table.now first count }
    {
        if count > MOST_ROWS {
            return false;
        }
        // Read, so that the number of rows, and with it each row's, is known to have 32 bits.
        let _rows = self.table.rows();
        for i in 0..count {
            let entry = self.row(first + i).entry;
            let e = self.entry(entry);
            let Some(kind) = EntryKind::from_number(e.kind) else {
                return false;
            };
            if !self.is_leaf(entry, kind) {
                return false;
            }
        }
        true
    }

    /// Whether a value of the entry, which is of this kind, is a leaf, or a struct of leaves.
    #[inline(always)]
    pub fn is_flat(&self, entry: u32, kind: EntryKind) -> bool
        requires entry { entry < (header_of self.now.table.now).entries }
        requires kind { kind_of (entry_at self.now.table.now entry).kind ≡ Some kind }
        ensures { IsTrue result
            → IsFlat self.now.table.now (entry_at self.now.table.now entry) kind }
    {
        match kind {
            EntryKind::Struct => {
                let e = self.entry(entry);
                self.are_leaves(e.first, e.count)
            }
            _ => self.is_leaf(entry, kind),
        }
    }
}
