//! Envelopes that hold a member of a table or a union, and what they hold.
//!
//! Where no type is known for an ordinal, the member is unknown: its bytes and handles are given
//! out as they came.
ghost use Rattle.std.specs.Prelude.{◌≡◌, ◌+◌, ◌<◌, ◌≤◌, ℕ, Bool, nat_le, List, length, IsTrue};
ghost use Rattle.std.specs.Prelude.{Some, None, IfSome, MatchOption};
ghost use Rattle.fidl_limits.specs.declared.limits.TheConstants.{MAX_MESSAGE_BYTES};
ghost use Rattle.fidl_limits.specs.declared.limits.TheConstants.{MAX_MESSAGE_HANDLES};
ghost use Rattle.fidl_wire.specs.declared.handle.HandleInfo.{HandleInfo};
ghost use Rattle.fidl_wire.specs.Value.{Value, Member, unknown};
ghost use Rattle.fidl_wire.specs.Term as ty;
ghost use Rattle.fidl_table_format.specs.Section.{header_of, entry_at};
ghost use Rattle.fidl_table_format.specs.Entry.{kind_is};
ghost use Rattle.fidl_table_format.specs.Uses.{uses_ordinals};
ghost use Rattle.fidl_table_format.specs.WellFormed.{WellFormed};
ghost use Rattle.fidl_decode_model.specs.Placed.{enclosed_at};
ghost use Rattle.fidl_view.specs.Members.{HaveMember, term_at};

use crate::view::View;
use fidl_decode::Decoded;
use fidl_wire::HandleInfo;

/// A member of a table or a union that the layout does not know, borrowed from the `Decoded`.
#[derive(Clone, Copy)]
pub struct Unknown<'v> {
    /// Whether its bytes stand in its envelope.
    pub inline: bool,
    /// Its bytes: the four in its envelope, or those out of line.
    pub bytes: &'v [u8],
    /// Its handles.
    pub handles: &'v [HandleInfo],
}

/// An envelope that holds a member of a value of a table's or union's entry: the member's ordinal,
/// and where the envelope stands in the message.
#[derive(Clone, Copy)]
pub(crate) struct Envelope<'v, 'm> {
    pub(crate) decoded: &'v Decoded<'v, 'm, 'v>,
    pub(crate) index: u32,
    pub(crate) ordinal: u64,
    pub(crate) place: usize,
    ghost in_range: { index < (header_of decoded.now.table).entries },
    ghost of_ordinals: { IsTrue (kind_is uses_ordinals (entry_at decoded.now.table index)) },
    ghost room: { place + 8 ≤ length decoded.now.bytes },
    ghost short: { length decoded.now.bytes ≤ MAX_MESSAGE_BYTES },
    ghost few: { length decoded.now.handles ≤ MAX_MESSAGE_HANDLES },
    ghost shown: { ∥ HaveMember decoded.now index ordinal place ∥₁ },
}

impl<'v, 'm> Envelope<'v, 'm> {
    ghost use Rattle.fidl_view.specs.Parts.{known_of, unknown_in};
    ghost use Rattle.fidl_view.specs.Views.{part_of, message_in, IsHeldBy, IsShownBy, ShowsKnown};
    ghost use Rattle.fidl_view.specs.Views.{type_shown, type_held};

    /// Where a known member of this entry stands: in the envelope, or as its object.
    #[inline(always)]
    fn content_place(self, entry: u32) -> usize
        requires below { entry < (header_of self.decoded.now.table).entries }
        requires known { term_at self.decoded.now self.index self.ordinal ≡ Some (ty.named entry) }
        ensures place { result ≡ enclosed_at self.entry.decoded.now.links
            (nat_le (entry_at self.entry.decoded.now.table entry).size 4) self.entry.place }
        ensures well_formed { WellFormed self.entry.decoded.now.table }
    {
        if self.decoded.table().entry(entry).size <= 4 {
            self.place
        } else {
            self.decoded.links().object_of_envelope(self.place)
        }
    }

    /// The view of the member, which is known and of this entry.
    #[inline(always)]
    pub(crate) fn part(self, entry: u32) -> View<'v, 'm>
        requires below { entry < (header_of self.decoded.now.table).entries }
        requires known { term_at self.decoded.now self.index self.ordinal ≡ Some (ty.named entry) }
        ensures message { (part_of result).message ≡ message_in self.entry }
        ensures entry { (part_of result).index ≡ entry }
        ensures part { (x : Member) → IsHeldBy self.entry x
            → (v : Value) × (known_of x ≡ Some v) × IsShownBy result v }
    {
        View {
            decoded: self.decoded,
            index: entry,
            place: self.content_place(entry),
        }
    }

    /// The view of the member, where it is known.
    #[inline(always)]
    pub(crate) fn known(self) -> Option<View<'v, 'm>>
        ensures message { IfSome result (λ part. (part_of part).message ≡ message_in self.entry) }
        ensures typed { IfSome result (λ part. Some (type_shown part) ≡ type_held self.entry) }
        ensures part { (x : Member) → IsHeldBy self.entry x → ShowsKnown result x }
    {
        let mut probes = 0;
        let Some(row) = self
            .decoded
            .table()
            .member(self.index, self.ordinal, &mut probes)
        else {
            return None;
        };
        Some(self.part(row.entry))
    }

    /// The bytes of an unknown member.
    fn raw_bytes(self) -> &'v [u8]
        requires { term_at self.decoded.now self.index self.ordinal ≡ None }
        ensures { (inline : Bool) (bytes : List ℕ) (handles : List HandleInfo)
            → IsHeldBy self.entry (unknown inline bytes handles) → result.now ≡ bytes }
    {
        let links = self.decoded.links();
        if links.came_flags(self.place) == 1 {
            return links.part(self.place, self.place + 4);
        }
        let count = links.counted_bytes(self.place) as usize;
        let from = links.object_of_envelope(self.place);
        links.part(from, from + count)
    }

    /// The handles of an unknown member.
    fn raw_handles(self) -> &'v [HandleInfo]
        requires { term_at self.decoded.now self.index self.ordinal ≡ None }
        ensures { (inline : Bool) (bytes : List ℕ) (handles : List HandleInfo)
            → IsHeldBy self.entry (unknown inline bytes handles) → result.now ≡ handles }
    {
        let links = self.decoded.links();
        let count = links.counted_handles(self.place) as usize;
        if count == 0 {
            return &[];
        }
        let first = links.first_record(self.place);
        &self.decoded.handles()[first..first + count]
    }

    /// The member, where it is unknown.
    pub(crate) fn unknown(self) -> Option<Unknown<'v>>
        ensures { (x : Member) → IsHeldBy self.entry x
            → MatchOption result (unknown_in (Some x) ≡ None)
            (λ u. x ≡ unknown u.inline u.bytes.now u.handles.now) }
    {
        let mut probes = 0;
        if let Some(_row) = self
            .decoded
            .table()
            .member(self.index, self.ordinal, &mut probes)
        {
            return None;
        }
        Some(Unknown {
            inline: self.decoded.links().came_flags(self.place) == 1,
            bytes: self.raw_bytes(),
            handles: self.raw_handles(),
        })
    }
}
