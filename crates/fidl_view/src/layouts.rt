//! What a view answers of tables and unions.
ghost use Rattle.std.specs.Prelude.{◌≡◌, ◌<◌, Some, None, IfSome, MatchOption};
ghost use Rattle.fidl_wire.specs.Value.{Value, Member, unknown};
ghost use Rattle.fidl_table_format.specs.declared.kind.EntryKind.TheVariants as EntryKind;
ghost use Rattle.fidl_wire.specs.Term as ty;
ghost use Rattle.fidl_table_format.specs.Section.{header_of, entry_at};
ghost use Rattle.fidl_table_format.specs.Entry.{IsOf};
ghost use Rattle.fidl_view.specs.Parts.{member_of, variant_of, held_of, unknown_of};
ghost use Rattle.fidl_view.specs.Members.{term_at};
ghost use Rattle.fidl_view.specs.Views.{part_of, message_in, IsHeldBy, IsShownBy, ShowsKnown};
ghost use Rattle.fidl_view.specs.Views.{entry_shown};
ghost use Rattle.fidl_view.specs.Views.{type_shown, type_held, member_type};

use crate::envelope::{Envelope, Unknown};
use crate::view::View;
use fidl_table_format::EntryKind;

impl<'v, 'm> View<'v, 'm> {
    /// The envelope of a table's member at this ordinal; none where it is absent.
    #[inline(always)]
    fn table_envelope(self, ordinal: u64) -> Option<Envelope<'v, 'm>>
        requires { IsOf EntryKind.Table (entry_at self.decoded.now.table self.index) }
        ensures message { IfSome result (λ e. message_in e ≡ (part_of self.entry).message) }
        ensures entry { IfSome result (λ e. e.index ≡ self.entry.index) }
        ensures ordinal { IfSome result (λ e. e.ordinal ≡ ordinal) }
        ensures typed { IfSome result (λ e. type_held e ≡ member_type self.entry ordinal) }
        ensures held { (v : Value) → IsShownBy self.entry v
            → MatchOption result (held_of v ordinal ≡ None)
            (λ e. (x : Member) × (held_of v ordinal ≡ Some x) × IsHeldBy e x) }
    {
        // Read, so that the table is known to be well-formed, and the message within its limits.
        let _rows = self.decoded.table().rows();
        let _entry = self.decoded.entry();
        let links = self.decoded.links();
        let count = links.u64_at(self.place);
        if ordinal == 0 {
            return None;
        }
        if ordinal > count {
            return None;
        }
        let first = links.object_of_marker(self.place + 8);
        let place = first + 8 * (ordinal as usize - 1);
        if links.is_blank(place) {
            return None;
        }
        Some(Envelope {
            decoded: self.decoded,
            index: self.index,
            ordinal,
            place,
        })
    }

    /// The envelope of a union; none where it is absent.
    #[inline(always)]
    fn union_envelope(self) -> Option<Envelope<'v, 'm>>
        requires { IsOf EntryKind.Union (entry_at self.decoded.now.table self.index) }
        ensures message { IfSome result (λ e. message_in e ≡ (part_of self.entry).message) }
        ensures typed { IfSome result (λ e. type_held e ≡ member_type self.entry e.ordinal) }
        ensures held { (v : Value) → IsShownBy self.entry v
            → MatchOption result (variant_of v ≡ None)
            (λ e. (x : Member) × (variant_of v ≡ Some (e.ordinal, x)) × IsHeldBy e x) }
    {
        // Read, so that the table is known to be well-formed, and the message within its limits.
        let _rows = self.decoded.table().rows();
        let _entry = self.decoded.entry();
        let ordinal = self.decoded.links().u64_at(self.place);
        if ordinal == 0 {
            return None;
        }
        Some(Envelope {
            decoded: self.decoded,
            index: self.index,
            ordinal,
            place: self.place + 8,
        })
    }

    /// The envelope of the member of a table or a union at this ordinal; none where there is none,
    /// and of another kind.
    fn envelope(self, ordinal: u64) -> Option<Envelope<'v, 'm>>
        ensures held { (v : Value) → IsShownBy self.entry v
            → MatchOption result (held_of v ordinal ≡ None)
            (λ e. (x : Member) × (held_of v ordinal ≡ Some x) × IsHeldBy e x) }
    {
        match self.kind() {
            EntryKind::Table => self.table_envelope(ordinal),
            EntryKind::Union => {
                let Some(envelope) = self.union_envelope() else {
                    return None;
                };
                if envelope.ordinal == ordinal {
                    Some(envelope)
                } else {
                    None
                }
            }
            _ => None,
        }
    }

    /// The member of a table at this ordinal, of which the layout says that it is of this entry;
    /// none where it is absent.
    #[inline(always)]
    pub fn known_member(self, ordinal: u64, entry: u32) -> Option<View<'v, 'm>>
        requires kind { IsOf EntryKind.Table (entry_shown self) }
        requires below { entry < (header_of (part_of self).message.table).entries }
        requires known { let p = part_of self in
            term_at p.message p.index ordinal ≡ Some (ty.named entry) }
        ensures message { IfSome result (λ part. (part_of part).message
            ≡ (part_of self.entry).message) }
        ensures entry { IfSome result (λ part. (part_of part).index ≡ entry) }
        ensures part { (v : Value) → IsShownBy self.entry v
            → MatchOption result (member_of v ordinal ≡ None)
            (λ part. (x : Value) × (member_of v ordinal ≡ Some x) × IsShownBy part x) }
    {
        // Read, so that the table is known to be well-formed.
        let _rows = self.decoded.table().rows();
        let Some(envelope) = self.table_envelope(ordinal) else {
            return None;
        };
        Some(envelope.part(entry))
    }

    /// The known member of a table at this ordinal; none where it is absent or unknown, and of
    /// another kind.
    #[inline(always)]
    pub fn member(self, ordinal: u64) -> Option<View<'v, 'm>>
        ensures message { IfSome result (λ part. (part_of part).message
            ≡ (part_of self.entry).message) }
        ensures typed { IfSome result (λ part. Some (type_shown part)
            ≡ member_type self.entry ordinal) }
        ensures part { (v : Value) → IsShownBy self.entry v
            → MatchOption result (member_of v ordinal ≡ None)
            (λ part. (x : Value) × (member_of v ordinal ≡ Some x) × IsShownBy part x) }
    {
        match self.kind() {
            EntryKind::Table => {
                let Some(envelope) = self.table_envelope(ordinal) else {
                    return None;
                };
                envelope.known()
            }
            _ => None,
        }
    }

    /// The ordinal of a union, and its member where that is known; none where the union is absent,
    /// and of another kind.
    #[inline(always)]
    pub fn variant(self) -> Option<(u64, Option<View<'v, 'm>>)>
        ensures message { IfSome result (λ found. IfSome found.1 (λ part. (part_of part).message
            ≡ (part_of self.entry).message)) }
        ensures typed { IfSome result (λ found. IfSome found.1 (λ part. Some (type_shown part)
            ≡ member_type self.entry found.0)) }
        ensures part { (v : Value) → IsShownBy self.entry v
            → MatchOption result (variant_of v ≡ None)
            (λ found. (x : Member) × (variant_of v ≡ Some (found.0, x)) × ShowsKnown found.1 x) }
    {
        match self.kind() {
            EntryKind::Union => {
                let Some(envelope) = self.union_envelope() else {
                    return None;
                };
                Some((envelope.ordinal, envelope.known()))
            }
            _ => None,
        }
    }

    /// The unknown member of a table or a union at this ordinal; none where it is absent or known,
    /// and of another kind.
    pub fn unknown(self, ordinal: u64) -> Option<Unknown<'v>>
        ensures { (v : Value) → IsShownBy self.entry v
            → MatchOption result (unknown_of v ordinal ≡ None)
            (λ u. unknown_of v ordinal ≡ Some (unknown u.inline u.bytes.now u.handles.now)) }
    {
        let Some(envelope) = self.envelope(ordinal) else {
            return None;
        };
        envelope.unknown()
    }
}
