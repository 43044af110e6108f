//! Unions: an ordinal and an envelope; and envelopes, whose members are known by their ordinals or
//! skipped.
ghost use Rattle.std.specs.Prelude.{◌≡◌, ◌+◌, ◌-◌, ◌^◌, ◌<◌, ◌≤◌, IfOk, IfErr, IfSome, Some};
ghost use Rattle.std.specs.Prelude.{length};
ghost use Rattle.fidl_limits.specs.declared.limits.TheConstants.{MAX_DEPTH};
ghost use Rattle.fidl_wire.specs.Term as ty;
ghost use Rattle.fidl_wire.specs.Term.{resolve};
ghost use Rattle.fidl_table_format.specs.declared.kind.EntryKind.TheVariants as kinds;
ghost use Rattle.fidl_table_format.specs.Kind.{kind_of};
ghost use Rattle.fidl_table_format.specs.Section.{header_of, entry_at};
ghost use Rattle.fidl_table_format.specs.Terms.{declarations_of};
ghost use Rattle.fidl_decode_model.specs.Breaks.{Breaks, BreaksMember};
ghost use Rattle.fidl_decode_model.specs.Steps.{Spends};
ghost use Rattle.fidl_decode_model.specs.Machine.{StateFine, Visits, VisitFine, Opens, member_term};
ghost use Rattle.fidl_decode_model.specs.Machine.{PaysEnvelope, at_of, probes};
ghost use Rattle.fidl_decode_values.specs.Reading.{came, message, Holds};
ghost use Rattle.fidl_decode_values.specs.Ready.{CanReadPlace};

use crate::decoder::Decoder;
use crate::handles::is_optional;
use fidl_decode_model::DecodeFault;
use fidl_decode_model::frame::{Frame, State};
use fidl_table_format::Row;

impl<'t, 'm, 's> Decoder<'t, 'm, 's> {
    /// Opens the envelope of a member at a place: a known one is passed over where it can be, and
    /// else left to read; one without a row is skipped.
    #[inline(always)]
    pub(crate) fn open_envelope(
        &self,
        member: Option<Row>,
        envelope: usize,
        depth: u8,
        state: &mut State<'_, '_>,
    ) -> Result<Option<Frame>, DecodeFault>
        requires member { IfSome member (λ row. row.entry < (header_of self.now.table.now).entries) }
        requires room { envelope + 8 ≤ length (came self.now) }
        requires holds { Holds self.now state.old }
        requires state { StateFine (message self.now) (at_of state.old) }
        requires ready { CanReadPlace self.now state.old envelope 8 8 }
        requires depth { depth ≤ MAX_DEPTH }
        requires budget { state.old.steps < 2 ^ 44 }
        ensures holds { Holds self.now state.new }
        ensures ok { IfOk result (Opens self.now.table.now (message self.now) depth
            (member_term member) envelope (at_of state.old) (at_of state.new)
            (state.new.steps - state.old.steps)) }
        ensures pays { IfOk result (PaysEnvelope (came self.now) state.old.next state.new.next
            (state.new.steps - state.old.steps)) }
        ensures fault_is_true { IfErr result (BreaksMember (declarations_of self.now.table.now)
            (message self.now) depth (member_term member) envelope (at_of state.old)) }
        ensures spends { Spends state.old.steps state.new.steps 0 (length (came self.now) -
            state.old.next) }
    {
        let Some(row) = member else {
            self.skip_member(envelope, depth, state)?;
            return Ok(None);
        };
        if self.pass_member(row.entry, envelope, depth, state) {
            return Ok(None);
        }
        let frame = self.enter_member(row.entry, envelope, depth, state)?;
        Ok(Some(frame))
    }

    /// Reads the ordinal of a union at a place, and opens its envelope.
    pub(crate) fn read_union(
        &self,
        entry: u32,
        place: usize,
        depth: u8,
        state: &mut State<'_, '_>,
    ) -> Result<Option<Frame>, DecodeFault>
        requires entry { entry < (header_of self.now.table.now).entries }
        requires kind { kind_of (entry_at self.now.table.now entry).kind ≡ Some kinds.Union }
        requires room { place + 16 ≤ length (came self.now) }
        requires holds { Holds self.now state.old }
        requires state { StateFine (message self.now) (at_of state.old) }
        requires ready { CanReadPlace self.now state.old place 16 8 }
        requires depth { depth ≤ MAX_DEPTH }
        requires budget { state.old.steps < 2 ^ 41 }
        ensures holds { Holds self.now state.new }
        ensures ok { IfOk result (λ found. Visits self.now.table.now (message self.now) depth entry
            place (at_of state.old) (at_of state.new) (state.new.steps - state.old.steps) found) }
        ensures fine { IfOk result (VisitFine self.now.table.now (message self.now) depth 0 entry) }
        ensures fault_is_true { IfErr result (Breaks (declarations_of self.now.table.now)
            (message self.now) depth (resolve (declarations_of self.now.table.now).terms
            (ty.named entry)) place (at_of state.old)) }
        ensures spends { Spends state.old.steps state.new.steps 0 (1 + probes + (length
            (came self.now) - state.old.next)) }
    {
        let e = self.entry(entry);
        let ordinal = self.u64_at(place, state);
        let envelope = place + 8;
        if ordinal == 0 {
            if !self.is_absent(envelope, state) {
                return Err(DecodeFault::BadEnvelope { at: envelope });
            }
            if !is_optional(&e) {
                return Err(DecodeFault::AbsentRequired { at: place });
            }
            return Ok(None);
        }
        state.steps += 1;
        let member = self.table.member(entry, ordinal, &mut state.steps);
        if member.is_none() && e.is_strict() {
            return Err(DecodeFault::UnknownOrdinal { at: place });
        }
        self.open_envelope(member, envelope, depth, state)
    }
}
