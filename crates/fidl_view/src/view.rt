//! Views of a decoded message and its parts (docs/views.md).
//!
//! What holds of a table behind a shared borrow is known here only from what its calls ensure. So
//! some bodies read an entry, a kind or the number of rows for that alone: that the table is
//! well-formed, or that a number of it has 32 bits. The names of what they read begin with `_`.
ghost use Rattle.std.specs.Prelude.{◌≡◌, ◌⊎◌, ◌+◌, ◌<◌, ◌≤◌, length};
ghost use Rattle.fidl_wire.specs.Value.{Value};
ghost use Rattle.fidl_limits.specs.declared.limits.TheConstants.{MAX_MESSAGE_BYTES};
ghost use Rattle.fidl_table_format.specs.Section.{header_of, entry_at};
ghost use Rattle.fidl_view.specs.Shows.{HasValue};

use crate::kind::entry_kind;
use crate::number::{signed, unsigned};
use fidl_decode::Decoded;
use fidl_table_format::EntryKind;
use fidl_verify::Table;

/// A part of a decoded message. It borrows the `Decoded`, and every answer is a part of the value
/// that the message encodes.
#[derive(Clone, Copy)]
pub struct View<'v, 'm> {
    pub(crate) decoded: &'v Decoded<'v, 'm, 'v>,
    /// The entry of the part's type, and where the part stands in the message, in bytes.
    pub(crate) index: u32,
    pub(crate) place: usize,
    ghost in_range: { index < (header_of decoded.now.table).entries },
    ghost room: { place + (entry_at decoded.now.table index).size ≤ length decoded.now.bytes },
    ghost short: { length decoded.now.bytes ≤ MAX_MESSAGE_BYTES },
    ghost shown: { ∥ HasValue decoded.now index place ∥₁ },
}

impl<'v, 'm> View<'v, 'm> {
    ghost use Rattle.std.specs.Int.{byte_len};
    ghost use Rattle.fidl_wire.specs.Term.{width};
    ghost use Rattle.fidl_table_format.specs.declared.kind.EntryKind.TheVariants as EntryKind;
    ghost use Rattle.fidl_table_format.specs.Kind.{number_type};
    ghost use Rattle.fidl_table_format.specs.Terms.{as_number};
    ghost use Rattle.fidl_table_format.specs.Entry.{IsOf};
    ghost use Rattle.fidl_table_format.specs.WellFormed.{WellFormed};
    ghost use Rattle.fidl_view.specs.Parts.{absence_of, bool_of, numbers_of, unsigned_of};
    ghost use Rattle.fidl_view.specs.Parts.{signed_of};
    ghost use Rattle.fidl_view.specs.Views.{IsShownBy, part_of, type_shown, entry_shown};

    /// The table that the part's type is from.
    #[inline(always)]
    pub fn table(self) -> &'v Table<'v>
        ensures { result.now ≡ (part_of self.entry).message.table }
    {
        self.decoded.table()
    }

    /// The number of the entry of the part's type, which is below the table's `entries`.
    #[inline(always)]
    pub fn entry(self) -> u32
        ensures value { result ≡ (part_of self.entry).index }
        ensures in_range { result < (header_of (part_of self.entry).message.table).entries }
    {
        self.index
    }

    /// The decoded message that it is a part of.
    #[inline(always)]
    pub fn decoded(self) -> &'v Decoded<'v, 'm, 'v>
        ensures { result.now ≡ (part_of self.entry).message }
    {
        self.decoded
    }

    /// Where the part stands in the message, in bytes from its start.
    #[inline(always)]
    pub fn place(self) -> usize
        ensures { result ≡ (part_of self.entry).place }
    {
        self.place
    }

    /// The kind of the part's type.
    #[inline(always)]
    pub(crate) fn kind(self) -> EntryKind
        ensures of { IsOf result (entry_at self.entry.decoded.now.table self.entry.index) }
        ensures well_formed { WellFormed self.entry.decoded.now.table }
    {
        entry_kind(self.decoded, self.index)
    }

    /// The kind of the underlying type of bits or an enum.
    #[inline(always)]
    fn underlying(self) -> EntryKind
        requires { IsOf EntryKind.Bits (entry_shown self) ⊎ IsOf EntryKind.Enum (entry_shown self) }
        ensures numbers { number_type result ≡ numbers_of (type_shown self.entry) }
        ensures room { self.entry.place + byte_len (width (as_number result))
            ≤ length self.entry.decoded.now.bytes }
    {
        match EntryKind::from_subtype(self.decoded.table().entry(self.index).subtype) {
            Some(kind) => kind,
            None => unreachable!(),
        }
    }

    /// Whether an optional value or a box is absent.
    #[inline(always)]
    pub fn is_absent(self) -> bool
        ensures { (v : Value) → IsShownBy self.entry v → result ≡ absence_of v }
    {
        match self.kind() {
            EntryKind::Box => self.decoded.links().is_blank(self.place),
            EntryKind::Handle => self.decoded.links().is_blank_handle(self.place),
            EntryKind::String => self.decoded.links().is_blank(self.place + 8),
            EntryKind::Vector => self.decoded.links().is_blank(self.place + 8),
            EntryKind::Union => self.decoded.links().u64_at(self.place) == 0,
            _ => false,
        }
    }

    /// A bool, none of another kind.
    #[inline(always)]
    pub fn as_bool(self) -> Option<bool>
        ensures { (v : Value) → IsShownBy self.entry v → result ≡ bool_of v }
    {
        match self.kind() {
            EntryKind::Bool => Some(self.decoded.links().byte_at(self.place) == 1),
            _ => None,
        }
    }

    /// The number of uint8, uint16, uint32 or uint64, and of bits or an enum of one of these; none
    /// of another type.
    #[inline(always)]
    pub fn as_u64(self) -> Option<u64>
        ensures { (v : Value) → IsShownBy self.entry v → result
            ≡ unsigned_of (type_shown self.entry) v }
    {
        let bytes = self.decoded.links().raw();
        match self.kind() {
            EntryKind::Bits | EntryKind::Enum => unsigned(self.underlying(), bytes, self.place),
            kind => unsigned(kind, bytes, self.place),
        }
    }

    /// The number of int8, int16, int32 or int64, and of an enum of one of these; none of another
    /// type.
    #[inline(always)]
    pub fn as_i64(self) -> Option<i64>
        ensures { (v : Value) → IsShownBy self.entry v → result
            ≡ signed_of (type_shown self.entry) v }
    {
        let bytes = self.decoded.links().raw();
        match self.kind() {
            EntryKind::Bits | EntryKind::Enum => signed(self.underlying(), bytes, self.place),
            kind => signed(kind, bytes, self.place),
        }
    }
}
