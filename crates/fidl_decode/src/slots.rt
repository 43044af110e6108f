//! The envelopes of a table, and their members, which are read in place.
ghost use Rattle.std.specs.Prelude.{◌≡◌, ◌+◌, ◌-◌, ◌*◌, ◌^◌, ◌<◌, ◌≤◌, OnOk, IfOk, IfErr, IfSome};
ghost use Rattle.std.specs.Prelude.{IfNone, IsTrue, Some, None, length};
ghost use Rattle.fidl_limits.specs.declared.limits.TheConstants.{MAX_DEPTH, MAX_MESSAGE_BYTES};
ghost use Rattle.fidl_wire.specs.Term as ty;
ghost use Rattle.fidl_wire.specs.Term.{find};
ghost use Rattle.fidl_table_format.specs.Kind.{kind_of};
ghost use Rattle.fidl_table_format.specs.Section.{header_of, entry_at};
ghost use Rattle.fidl_table_format.specs.Terms.{declarations_of, members_of};
ghost use Rattle.fidl_table_format.specs.Uses.{uses_ordinals};
ghost use Rattle.fidl_table_format.specs.Entry.{kind_is};
ghost use Rattle.fidl_decode_model.specs.Breaks.{BreaksMember};
ghost use Rattle.fidl_decode_model.specs.Invariants.{IsFlat};
ghost use Rattle.fidl_decode_model.specs.declared.frame.Remaining.TheVariants as left;
ghost use Rattle.fidl_decode_model.specs.Machine.{StateFine, FrameFine, Turns, BreaksFrame, Opens};
ghost use Rattle.fidl_decode_model.specs.Machine.{PaysEnvelope, member_term, behind_envelopes};
ghost use Rattle.fidl_decode_model.specs.Machine.{byte_work, envelope_work, turn_work, at_of};
ghost use Rattle.fidl_decode.specs.Pending.{Leaves};
ghost use Rattle.fidl_decode.specs.Reading.{table, came, message, Holds, CanReadFrame};
ghost use Rattle.fidl_decode.specs.Reading.{CanReadPlace};

use crate::frames::Frames;
use crate::pending::{Pending, is_done};
use fidl_decode_model::DecodeFault;
use fidl_decode_model::frame::{Frame, Remaining, State, Turn};
use fidl_table_format::{Entry, EntryKind, Row};

/// A frame with so many envelopes left, behind those that are read, and so many of its bytes read.
#[inline(always)]
fn envelopes_from(frame: Frame, entry: u32, read: u32, count: u32, done: usize) -> Frame
    requires small { done ≤ MAX_MESSAGE_BYTES }
    ensures { result ≡ behind_envelopes frame entry read count done }
{
    Frame {
        left: Remaining::Envelopes { entry, read, count },
        base: frame.base,
        done: done as u32,
        size: frame.size,
        nest: frame.nest,
        depth: frame.depth,
        in_envelope: frame.in_envelope,
    }
}

impl<'t, 'm, 's> Frames<'t, 'm, 's> {
    /// Reads the member of the envelope at a place in place, which is a leaf or a struct of leaves.
    #[inline(always)]
    fn read_enclosed(
        &self,
        entry: u32,
        kind: EntryKind,
        envelope: usize,
        depth: u8,
        state: &mut State<'_, '_>,
    ) -> Result<(), DecodeFault>
        requires entry { entry < (header_of (table self.now)).entries }
        requires kind { kind_of (entry_at (table self.now) entry).kind ≡ Some kind }
        requires flat { IsFlat (table self.now) (entry_at (table self.now) entry) kind }
        requires room { envelope + 8 ≤ length (came self.now) }
        requires holds { Holds self.now state.old }
        requires state { StateFine (message self.now) (at_of state.old) }
        requires ready { CanReadPlace self.now state.old envelope 8 8 }
        requires depth { depth ≤ MAX_DEPTH }
        requires budget { state.old.steps + byte_work * (length (came self.now) - state.old.next) +
            envelope_work < 2 ^ 40 }
        ensures holds { Holds self.now state.new }
        ensures ok { OnOk result (Opens (table self.now) (message self.now) depth (Some
            (ty.named entry)) envelope (at_of state.old) (at_of state.new)
            (state.new.steps - state.old.steps) None) }
        ensures pays { OnOk result (PaysEnvelope (came self.now) state.old.next state.new.next
            (state.new.steps - state.old.steps) None) }
        ensures fault_is_true { IfErr result (BreaksMember (declarations_of (table self.now))
            (message self.now) depth (Some (ty.named entry)) envelope (at_of state.old)) }
        ensures grows { OnOk result (state.old.steps ≤ state.new.steps) }
        ensures cost { state.new.steps ≤ state.old.steps + byte_work * (length (came self.now) -
            state.old.next) + envelope_work }
    {
        let frame = self.decoder.enter_member(entry, envelope, depth, state)?;
        let Remaining::Content { size, until, .. } = frame.left else {
            unreachable!()
        };
        self.read_whole(frame, entry, kind, size as usize, until, state)
    }

    /// Reads the known member of the envelope at a place in place, where it is a leaf or a struct
    /// of leaves. Else it is left to read.
    #[inline(always)]
    fn read_known(
        &self,
        entry: u32,
        envelope: usize,
        depth: u8,
        state: &mut State<'_, '_>,
    ) -> Result<Option<Frame>, DecodeFault>
        requires entry { entry < (header_of (table self.now)).entries }
        requires room { envelope + 8 ≤ length (came self.now) }
        requires holds { Holds self.now state.old }
        requires state { StateFine (message self.now) (at_of state.old) }
        requires ready { CanReadPlace self.now state.old envelope 8 8 }
        requires depth { depth ≤ MAX_DEPTH }
        requires budget { state.old.steps + byte_work * (length (came self.now) - state.old.next) +
            envelope_work < 2 ^ 40 }
        ensures holds { Holds self.now state.new }
        ensures ok { IfOk result (Opens (table self.now) (message self.now) depth (Some
            (ty.named entry)) envelope (at_of state.old) (at_of state.new)
            (state.new.steps - state.old.steps)) }
        ensures pays { IfOk result (PaysEnvelope (came self.now) state.old.next state.new.next
            (state.new.steps - state.old.steps)) }
        ensures fault_is_true { IfErr result (BreaksMember (declarations_of (table self.now))
            (message self.now) depth (Some (ty.named entry)) envelope (at_of state.old)) }
        ensures grows { OnOk result (state.old.steps ≤ state.new.steps) }
        ensures cost { state.new.steps ≤ state.old.steps + byte_work * (length (came self.now) -
            state.old.next) + envelope_work }
    {
        if self.decoder.pass_member(entry, envelope, depth, state) {
            return Ok(None);
        }
        let e = self.decoder.entry(entry);
        let Some(kind) = EntryKind::from_number(e.kind) else {
            unreachable!()
        };
        if self.decoder.is_flat(entry, kind) {
            self.read_enclosed(entry, kind, envelope, depth, state)?;
            return Ok(None);
        }
        let frame = self.decoder.enter_member(entry, envelope, depth, state)?;
        Ok(Some(frame))
    }

    /// Reads the member of an envelope at a place in place, where it is a leaf or a struct of
    /// leaves; one without a row is skipped. Any other is left to read.
    #[inline(always)]
    fn read_member(
        &self,
        member: Option<Row>,
        envelope: usize,
        depth: u8,
        state: &mut State<'_, '_>,
    ) -> Result<Option<Frame>, DecodeFault>
        requires member { IfSome member
            (λ row. row.entry < (header_of (table self.now)).entries) }
        requires room { envelope + 8 ≤ length (came self.now) }
        requires holds { Holds self.now state.old }
        requires state { StateFine (message self.now) (at_of state.old) }
        requires ready { CanReadPlace self.now state.old envelope 8 8 }
        requires depth { depth ≤ MAX_DEPTH }
        requires budget { state.old.steps + byte_work * (length (came self.now) - state.old.next) +
            envelope_work < 2 ^ 40 }
        ensures holds { Holds self.now state.new }
        ensures ok { IfOk result (Opens (table self.now) (message self.now) depth
            (member_term member) envelope (at_of state.old) (at_of state.new)
            (state.new.steps - state.old.steps)) }
        ensures pays { IfOk result (PaysEnvelope (came self.now) state.old.next state.new.next
            (state.new.steps - state.old.steps)) }
        ensures fault_is_true { IfErr result (BreaksMember (declarations_of (table self.now))
            (message self.now) depth (member_term member) envelope (at_of state.old)) }
        ensures grows { OnOk result (state.old.steps ≤ state.new.steps) }
        ensures cost { state.new.steps ≤ state.old.steps + byte_work * (length (came self.now) -
            state.old.next) + envelope_work }
    {
        let Some(row) = member else {
            self.decoder.skip_member(envelope, depth, state)?;
            return Ok(None);
        };
        self.read_known(row.entry, envelope, depth, state)
    }

    /// The row of an ordinal of a table, where there is one: the first look is at the place that it
    /// has where all ordinals below it are members. The probes of a search behind that are counted.
    #[inline(always)]
    fn row_of(&self, entry: u32, parts: &Entry, ordinal: u32, probes: &mut u64) -> Option<Row>
        requires entry { entry < (header_of (table self.now)).entries }
        requires kind { IsTrue (kind_is uses_ordinals (entry_at (table self.now) entry)) }
        requires parts { parts.now ≡ entry_at (table self.now) entry }
        requires some { 0 < ordinal }
        requires budget { probes.old < 2 ^ 62 }
        ensures none { IfNone result (find (members_of (table self.now) entry) ordinal ≡ None) }
        ensures some { IfSome result (λ row. find (members_of (table self.now) entry) ordinal
            ≡ Some (ty.named row.entry)) }
        ensures entry_below { IfSome result
            (λ row. row.entry < (header_of (table self.now)).entries) }
        ensures grows { probes.old ≤ probes.new }
        ensures few { probes.new ≤ probes.old + 17 }
    {
        // Read, so that the number of rows, and with it each row's, is known to have 32 bits.
        let _rows = self.decoder.table.rows();
        if ordinal <= parts.count {
            let row = self.decoder.row(parts.first + (ordinal - 1));
            if row.key == ordinal {
                return Some(row);
            }
        }
        self.decoder.table.member(entry, u64::from(ordinal), probes)
    }

    /// Reads the next envelope of a table, with its member, in place. What is left of the member is
    /// to be read next.
    #[inline(always)]
    fn take_envelope(
        &self,
        frame: Frame,
        entry: u32,
        parts: &Entry,
        read: u32,
        count: u32,
        state: &mut State<'_, '_>,
    ) -> Result<Option<Frame>, DecodeFault>
        requires left { frame.left ≡ left.Envelopes entry read count }
        requires parts { parts.now ≡ entry_at (table self.now) entry }
        requires some { 0 < count }
        requires frame { FrameFine (table self.now) (came self.now) frame }
        requires holds { Holds self.now state.old }
        requires state { StateFine (message self.now) (at_of state.old) }
        requires ready { CanReadFrame self.now state.old frame }
        requires budget { state.old.steps + turn_work (came self.now) state.old.next frame < 2 ^ 40 }
        ensures holds { Holds self.now state.new }
        ensures ok { IfOk result
            (λ below. Turns (table self.now) (message self.now)
            frame (at_of state.old) (at_of state.new) (state.new.steps - state.old.steps)
            (record {
              below = below;
              rest = Some (behind_envelopes frame entry (read + 1) (count - 1) (frame.done + 8));
            })) }
        ensures rises { OnOk result (state.old.steps < state.new.steps) }
        ensures cost { state.new.steps ≤ state.old.steps + turn_work (came self.now) state.old.next
            frame }
        ensures fault_is_true { IfErr result (BreaksFrame (table self.now) (message self.now)
            frame (at_of state.old)) }
    {
        state.steps += 1;
        let place = frame.base as usize + frame.done as usize;
        if self.decoder.is_absent(place, state) {
            return Ok(None);
        }
        let ordinal = read + 1;
        let member = self.row_of(entry, parts, ordinal, &mut state.steps);
        self.read_member(member, place, frame.depth, state)
    }

    /// Reads the envelopes of a table in place, with the members in and behind them and what these
    /// lead to, up to one that leads to more than is read there.
    #[inline(never)]
    pub(crate) fn read_envelopes(
        &self,
        frame: Frame,
        entry: u32,
        read: u32,
        count: u32,
        state: &mut State<'_, '_>,
    ) -> Result<Pending, DecodeFault>
        requires left { frame.left ≡ left.Envelopes entry read count }
        requires frame { FrameFine (table self.now) (came self.now) frame }
        requires holds { Holds self.now state.old }
        requires state { StateFine (message self.now) (at_of state.old) }
        requires ready { CanReadFrame self.now state.old frame }
        requires budget { state.old.steps + turn_work (came self.now) state.old.next frame < 2 ^ 40 }
        ensures holds { Holds self.now state.new }
        ensures ok { IfOk result (λ left. Leaves (table self.now) (message self.now) frame
            (at_of state.old) (at_of state.new) (state.new.steps - state.old.steps) left) }
        ensures rises { OnOk result (state.old.steps < state.new.steps) }
        ensures cost { state.new.steps ≤ state.old.steps + turn_work (came self.now) state.old.next
            frame }
        ensures fault_is_true { IfErr result (BreaksFrame (table self.now) (message self.now)
            frame (at_of state.old)) }
    {
        let parts = self.decoder.entry(entry);
        let mut passed = read;
        let mut many = count;
        let mut done = frame.done as usize;
        while many != 0 {
            let now = envelopes_from(frame, entry, passed, many, done);
            let below = self.take_envelope(now, entry, &parts, passed, many, state)?;
            passed += 1;
            many -= 1;
            done += 8;
            let Some(inner) = below else {
                continue;
            };
            let turn = self.read_inner(inner, state)?;
            if is_done(&turn) {
                continue;
            }
            return Ok(Pending {
                under: Some(envelopes_from(frame, entry, passed, many, done)),
                turn,
            });
        }
        state.steps += 1;
        Ok(Pending {
            under: None,
            turn: Turn {
                below: None,
                rest: None,
            },
        })
    }
}
