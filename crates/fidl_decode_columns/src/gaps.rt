//! The zeros before one member of each of some structs that stand behind one another.
ghost use Rattle.std.specs.Prelude.{ℕ, ◌+◌, ◌<◌, IsTrue};
ghost use Rattle.fidl_wire.specs.Encoding.{zeros};
ghost use Rattle.fidl_wire.specs.Standing.{Stands};
ghost use Rattle.fidl_decode_model.specs.Breaks.{IsPadding};
ghost use Rattle.fidl_decode_columns.specs.Columns.{place_of, HasRoom, IsFirstWrong, IsWindow};

use crate::column::{Column, Wrong};
use crate::columns::Columns;
use crate::window::Window;
use crate::zeros::zeros_at;

impl<'t, 'a, 'm, 's> Columns<'t, 'a, 'm, 's> {
    /// Whether no struct has a byte that is not zero before a member, as far as a window shows.
    pub(crate) fn are_seen_zeros(
        &self,
        column: Column,
        width: usize,
        limit: u32,
        window: &mut Window,
    ) -> bool
        requires room { HasRoom self.now.links.now column width limit }
        requires window { IsWindow self.now.links.now.came column.base column.size window.old }
        ensures window { IsWindow self.now.links.now.came column.base column.size window.new }
        ensures value { IsTrue result → (k : ℕ) → k < limit
            → Stands self.now.links.now.came (place_of column k) (zeros width) }
    {
        if width == 0 || limit == 0 {
            return true;
        }
        self.are_within(column, width, 0, limit, window)
    }

    /// The first of so many structs with a byte that is not zero among those before a member.
    pub(crate) fn first_gap(&self, column: Column, width: usize, limit: u32) -> Option<Wrong>
        requires room { HasRoom self.now.links.now column width limit }
        ensures { IsFirstWrong
            (λ k. Stands self.now.links.now.came (place_of column k) (zeros width))
            (λ k. IsPadding self.now.links.now.came (place_of column k) (place_of column k + width))
            limit result }
    {
        let bytes = self.links.raw();
        let mut start = column.base;
        for element in 0..limit {
            let from = start + column.offset;
            if let Err(fault) = zeros_at(bytes, from, from + width) {
                return Some(Wrong { element, fault });
            }
            start += column.size;
        }
        None
    }
}
