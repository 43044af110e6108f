//! Eight bytes of each of some structs, gathered into one number.
ghost use Rattle.std.specs.Prelude.{◌≡◌, ℕ, ◌+◌, ◌*◌, ◌/◌, ◌%◌, ◌^◌, ◌<◌, ◌≤◌, IsTrue, length};
ghost use Rattle.std.specs.Prelude.{bit_or};
ghost use Rattle.std.specs.Int.{w64};
ghost use Rattle.fidl_wire.specs.Field.{number_at};
ghost use Rattle.fidl_decode_columns.specs.Columns.{place_of, HasRoom, IsWindow, bits_at};

use crate::column::Column;
use crate::columns::Columns;
use fidl_wire::u64_at;

/// Where eight bytes begin in the first of structs that stand behind one another, each bit that is
/// set in them in one of the structs, and how many structs were looked at.
#[derive(Clone, Copy, Drop)]
pub(crate) struct Window {
    pub start: usize,
    pub seen: u64,
    pub count: u32,
}

/// Each bit that is set in eight bytes at one of so many places, so far apart.
fn gather(bytes: &[u8], start: usize, apart: usize, count: u32) -> u64
    requires room { start + apart * count + 8 ≤ length bytes.now + apart }
    requires short { apart ≤ length bytes.now }
    ensures { (k : ℕ) → k < count
        → bit_or (number_at w64 bytes.now (start + apart * k)) result ≡ result }
{
    let mut seen = 0;
    let mut place = start;
    for _i in 0..count {
        seen |= u64_at(bytes, place);
        place += apart;
    }
    seen
}

/// So many bytes of eight, behind so many others.
#[inline(always)]
fn part_of(seen: u64, skip: usize, width: usize) -> u64
    requires some { 0 < width }
    requires within { skip + width ≤ 8 }
    ensures { result ≡ seen / 2 ^ (8 * skip) % 2 ^ (8 * width) }
{
    (seen >> (8 * skip)) & (u64::MAX >> (64 - 8 * width))
}

/// Whether a window has so many bytes at a place in the first struct, of so many structs.
#[inline(always)]
fn covers(window: Window, from: usize, width: usize, limit: u32) -> bool
    requires end { from + width < 2 ^ 63 }
    ensures { IsTrue result → (window.start ≤ from) × (from + width ≤ window.start + 8)
        × (limit ≤ window.count) }
{
    limit <= window.count && window.start <= from && from - window.start + width <= 8
}

impl<'t, 'a, 'm, 's> Columns<'t, 'a, 'm, 's> {
    /// The window that begins with a member, or ends with the struct where that is nearer. None of
    /// the structs is looked at where fewer than eight bytes stand before the end of the first.
    fn window_at(&self, column: Column, width: usize, limit: u32) -> Window
        requires room { HasRoom self.now.links.now column width limit }
        requires some { 0 < limit }
        ensures { IsWindow self.now.links.now.came column.base column.size result }
    {
        let end = column.base + column.size;
        if end < 8 {
            return Window {
                start: 0,
                seen: 0,
                count: 0,
            };
        }
        let from = column.base + column.offset;
        let start = if from + 8 <= end { from } else { end - 8 };
        Window {
            start,
            seen: gather(self.links.raw(), start, column.size, limit),
            count: limit,
        }
    }

    /// Whether so many bytes of each struct have no bit outside a mask, as far as a window shows,
    /// which is moved where it does not have them.
    pub(crate) fn are_within(
        &self,
        column: Column,
        width: usize,
        mask: u64,
        limit: u32,
        window: &mut Window,
    ) -> bool
        requires room { HasRoom self.now.links.now column width limit }
        requires some { 0 < limit }
        requires wide { 0 < width }
        requires window { IsWindow self.now.links.now.came column.base column.size window.old }
        ensures window { IsWindow self.now.links.now.came column.base column.size window.new }
        ensures value { IsTrue result → (k : ℕ) → k < limit
            → bit_or (bits_at self.now.links.now.came (place_of column k) width) mask ≡ mask }
    {
        let from = column.base + column.offset;
        if !covers(*window, from, width, limit) {
            *window = self.window_at(column, width, limit);
        }
        covers(*window, from, width, limit)
            && part_of(window.seen, from - window.start, width) | mask == mask
    }
}
