//! The elements of an array or a vector, one by one.
ghost use Rattle.std.specs.Prelude.{◌≡◌, ◌+◌, ◌*◌, ◌<◌, ◌≤◌, Some, length};
ghost use Rattle.fidl_limits.specs.declared.limits.TheConstants.{MAX_MESSAGE_BYTES};
ghost use Rattle.fidl_table_format.specs.Section.{header_of, entry_at};
ghost use Rattle.fidl_view.specs.Elements.{HaveValues, parts_from};

use crate::view::View;
use fidl_decode::Decoded;

/// The views of the elements of an array or a vector that are left, in their order (docs/views.md,
/// "Elements").
#[derive(Drop)]
pub struct Elements<'v, 'm> {
    pub(crate) decoded: &'v Decoded<'v, 'm, 'v>,
    /// The entry of the elements' type, and the size of each, in bytes.
    pub(crate) index: u32,
    pub(crate) size: usize,
    /// Where the next element stands in the message, in bytes, and how many are left.
    pub(crate) place: usize,
    pub(crate) left: usize,
    ghost in_range: { index < (header_of decoded.now.table).entries },
    ghost sized: { size ≡ (entry_at decoded.now.table index).size },
    ghost room: { place + size * left ≤ length decoded.now.bytes },
    ghost short: { length decoded.now.bytes ≤ MAX_MESSAGE_BYTES },
    ghost shown: { ∥ HaveValues (parts_from decoded.now index size place left) ∥₁ },
}

impl<'v, 'm> Iterator for Elements<'v, 'm> {
    ghost use Rattle.std.specs.Iterator.{YieldsFirstBy, at_most};
    ghost use Rattle.fidl_view.specs.Views.{part_of, parts_left};

    type Item = View<'v, 'm>;

    ghost next_gives = { YieldsFirstBy part_of parts_left };

    ghost remaining = { λ s. at_most s.left };

    #[inline(always)]
    fn next(&mut self) -> Option<View<'v, 'm>> {
        if self.left == 0 {
            return None;
        }
        let element = View {
            decoded: self.decoded,
            index: self.index,
            place: self.place,
        };
        self.left -= 1;
        self.place += self.size;
        Some(element)
    }
}

impl<'v, 'm> Elements<'v, 'm> {
    ghost use Rattle.fidl_wire.specs.Value.{Values, Value};
    ghost use Rattle.fidl_view.specs.Parts.{nth};
    ghost use Rattle.fidl_view.specs.Elements.{ShowEach};
    ghost use Rattle.fidl_view.specs.Views.{part_of, parts_left, message_left, entry_left, count_left};
    ghost use Rattle.fidl_view.specs.Views.{IsShownBy};

    /// The number of the entry of the elements' type, which is below the table's `entries`.
    #[inline(always)]
    pub fn entry(&self) -> u32
        ensures value { result ≡ entry_left self.now }
        ensures in_range { result < (header_of (message_left self.now).table).entries }
    {
        self.index
    }

    /// How many elements are left.
    #[inline(always)]
    pub fn left(&self) -> usize
        ensures { result ≡ count_left self.now }
    {
        self.left
    }

    /// The element at this place among those that are left, counted from 0.
    #[inline(always)]
    pub fn at(&self, at: usize) -> View<'v, 'm>
        requires { at < count_left self.now }
        ensures message { (part_of result).message ≡ message_left self.now }
        ensures entry { (part_of result).index ≡ entry_left self.now }
        ensures part { (vs : Values) → ShowEach (parts_left self.now) vs
            → (x : Value) × (nth vs at ≡ Some x) × IsShownBy result x }
    {
        View {
            decoded: self.decoded,
            index: self.index,
            place: self.place + at * self.size,
        }
    }
}
