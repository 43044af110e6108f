//! The content of envelopes, and the members that are left of any frame.
ghost use Rattle.std.specs.Prelude.{◌≡◌, ◌+◌, ◌-◌, ◌^◌, ◌<◌, ◌≤◌, OnOk, IfOk, IfErr, IfNone, Some};
ghost use Rattle.std.specs.Prelude.{ℕ, ◌↔◌, IsTrue, IfSome, None};
ghost use Rattle.fidl_decode_model.specs.Envelopes.{IsUntil};
ghost use Rattle.fidl_table_format.specs.Kind.{kind_of};
ghost use Rattle.fidl_table_format.specs.Section.{entry_at};
ghost use Rattle.fidl_decode_model.specs.Invariants.{IsFlat};
ghost use Rattle.fidl_decode_model.specs.declared.frame.Remaining.TheVariants as left;
ghost use Rattle.fidl_decode_model.specs.Steps.{Spends};
ghost use Rattle.fidl_decode_model.specs.Machine.{StateFine, FrameFine, Turns, BreaksFrame};
ghost use Rattle.fidl_decode_model.specs.Machine.{turn_work, at_of};
ghost use Rattle.fidl_decode.specs.Pending.{Leaves};
ghost use Rattle.fidl_decode.specs.Reading.{table, came, message, Holds, CanReadFrame};

use crate::frames::Frames;
use crate::pending::Pending;
use fidl_decode_model::DecodeFault;
use fidl_decode_model::frame::{Frame, Remaining, State, Turn, Until};
use fidl_table_format::EntryKind;

/// Whether the next object and the next handle are where an envelope counts up to.
#[inline(always)]
fn is_counted(until: &Until, state: &State<'_, '_>) -> bool
    ensures { IsTrue result ↔ IsUntil until.now (at_of state.now) }
{
    state.next == until.next as usize && state.handle == until.handle as usize
}

impl<'t, 'm, 's> Frames<'t, 'm, 's> {
    /// Reads the end of an envelope's content, which has to be where the envelope counts up to.
    #[inline(always)]
    fn end_content(
        &self,
        frame: Frame,
        until: Until,
        state: &mut State<'_, '_>,
    ) -> Result<Turn, DecodeFault>
        requires left { (entry size : ℕ) × (frame.left ≡ left.Content entry size 0 until) }
        requires frame { FrameFine (table self.now) (came self.now) frame }
        requires holds { Holds self.now state.old }
        requires state { StateFine (message self.now) (at_of state.old) }
        requires ready { CanReadFrame self.now state.old frame }
        requires steps { state.old.steps < 2 ^ 40 }
        ensures holds { Holds self.now state.new }
        ensures ok { IfOk result (λ turn. Turns (table self.now) (message self.now) frame
            (at_of state.old) (at_of state.new) (state.new.steps - state.old.steps) turn) }
        ensures spends { Spends state.old.steps state.new.steps 1 (turn_work (came self.now)
            state.old.next frame) }
        ensures fault_is_true { IfErr result (BreaksFrame (table self.now) (message self.now)
            frame (at_of state.old)) }
    {
        let at = frame.base as usize + frame.done as usize;
        let stop = frame.base as usize + frame.size as usize;
        state.steps += (stop - at) as u64 + 1;
        self.decoder.zeros_at(at, stop, state)?;
        if !is_counted(&until, state) {
            return Err(DecodeFault::WrongCounts {
                at: until.envelope as usize,
            });
        }
        Ok(Turn {
            below: None,
            rest: None,
        })
    }

    /// Reads the value of an envelope's content, up to what it holds.
    #[inline(always)]
    fn begin_content(
        &self,
        frame: Frame,
        entry: u32,
        size: usize,
        count: u32,
        until: Until,
        state: &mut State<'_, '_>,
    ) -> Result<Turn, DecodeFault>
        requires some { 0 < count }
        requires left { frame.left ≡ left.Content entry size count until }
        requires frame { FrameFine (table self.now) (came self.now) frame }
        requires holds { Holds self.now state.old }
        requires state { StateFine (message self.now) (at_of state.old) }
        requires ready { CanReadFrame self.now state.old frame }
        requires steps { state.old.steps < 2 ^ 40 }
        ensures holds { Holds self.now state.new }
        ensures ok { IfOk result (λ turn. Turns (table self.now) (message self.now) frame
            (at_of state.old) (at_of state.new) (state.new.steps - state.old.steps) turn) }
        ensures behind { IfOk result (λ turn. IfSome turn.rest (λ rest. rest.left
            ≡ left.Content entry size (count - 1) until)) }
        ensures spends { Spends state.old.steps state.new.steps 1 (turn_work (came self.now)
            state.old.next frame) }
        ensures fault_is_true { IfErr result (BreaksFrame (table self.now) (message self.now)
            frame (at_of state.old)) }
    {
        state.steps += 1;
        let at = frame.base as usize + frame.done as usize;
        let below = self
            .decoder
            .visit(entry, at, frame.depth, frame.in_envelope, state)?;
        let left = Remaining::Content {
            entry,
            size: size as u32,
            count: count - 1,
            until,
        };
        let rest = Frame {
            left,
            base: frame.base,
            done: frame.done + size as u32,
            size: frame.size,
            nest: frame.nest,
            depth: frame.depth,
            in_envelope: frame.in_envelope,
        };
        Ok(Turn {
            below,
            rest: Some(rest),
        })
    }

    /// Reads the value of an envelope's content, or its end, which has to be where the envelope
    /// counts up to.
    #[inline(always)]
    fn take_content(
        &self,
        frame: Frame,
        entry: u32,
        size: usize,
        count: u32,
        until: Until,
        state: &mut State<'_, '_>,
    ) -> Result<Turn, DecodeFault>
        requires left { frame.left ≡ left.Content entry size count until }
        requires frame { FrameFine (table self.now) (came self.now) frame }
        requires holds { Holds self.now state.old }
        requires state { StateFine (message self.now) (at_of state.old) }
        requires ready { CanReadFrame self.now state.old frame }
        requires steps { state.old.steps < 2 ^ 40 }
        ensures holds { Holds self.now state.new }
        ensures ok { IfOk result (λ turn. Turns (table self.now) (message self.now) frame
            (at_of state.old) (at_of state.new) (state.new.steps - state.old.steps) turn) }
        ensures spends { Spends state.old.steps state.new.steps 1 (turn_work (came self.now)
            state.old.next frame) }
        ensures fault_is_true { IfErr result (BreaksFrame (table self.now) (message self.now)
            frame (at_of state.old)) }
    {
        if count == 0 {
            return self.end_content(frame, until, state);
        }
        self.begin_content(frame, entry, size, count, until, state)
    }

    /// Reads the content of an envelope in place, which is a leaf or a struct of leaves, up to its
    /// end.
    #[inline(always)]
    pub(crate) fn read_whole(
        &self,
        frame: Frame,
        entry: u32,
        kind: EntryKind,
        size: usize,
        until: Until,
        state: &mut State<'_, '_>,
    ) -> Result<(), DecodeFault>
        requires frame { FrameFine (table self.now) (came self.now) frame }
        requires left { frame.left ≡ left.Content entry size 1 until }
        requires kind { kind_of (entry_at (table self.now) entry).kind ≡ Some kind }
        requires flat { IsFlat (table self.now) (entry_at (table self.now) entry) kind }
        requires holds { Holds self.now state.old }
        requires state { StateFine (message self.now) (at_of state.old) }
        requires ready { CanReadFrame self.now state.old frame }
        requires budget { state.old.steps + turn_work (came self.now) state.old.next frame < 2 ^ 40 }
        ensures holds { Holds self.now state.new }
        ensures ok { OnOk result
            (Turns (table self.now) (message self.now) frame
            (at_of state.old) (at_of state.new) (state.new.steps - state.old.steps)
            (record { below = None; rest = None })) }
        ensures rises { OnOk result (state.old.steps < state.new.steps) }
        ensures cost { state.new.steps ≤ state.old.steps + turn_work (came self.now) state.old.next
            frame }
        ensures fault_is_true { IfErr result (BreaksFrame (table self.now) (message self.now)
            frame (at_of state.old)) }
    {
        let at = frame.base as usize + frame.done as usize;
        state.steps += 1;
        self.read_flat(entry, kind, at, frame.depth, state)?;
        let done = frame.done as usize + size;
        let over = frame.base as usize + done;
        let stop = frame.base as usize + frame.size as usize;
        state.steps += (stop - over) as u64 + 1;
        self.decoder.zeros_at(over, stop, state)?;
        if !is_counted(&until, state) {
            return Err(DecodeFault::WrongCounts {
                at: until.envelope as usize,
            });
        }
        Ok(())
    }

    /// Reads the content of an envelope in place, where it is a leaf or a struct of leaves, up to
    /// its end. Nothing is left then.
    #[inline(always)]
    pub(crate) fn read_content(
        &self,
        frame: Frame,
        entry: u32,
        size: usize,
        count: u32,
        until: Until,
        state: &mut State<'_, '_>,
    ) -> Result<Option<Frame>, DecodeFault>
        requires frame { FrameFine (table self.now) (came self.now) frame }
        requires left { frame.left ≡ left.Content entry size count until }
        requires holds { Holds self.now state.old }
        requires state { StateFine (message self.now) (at_of state.old) }
        requires ready { CanReadFrame self.now state.old frame }
        requires budget { state.old.steps + turn_work (came self.now) state.old.next frame < 2 ^ 40 }
        ensures holds { Holds self.now state.new }
        ensures ok { IfOk result
            (λ rest. Turns (table self.now) (message self.now)
            frame (at_of state.old) (at_of state.new) (state.new.steps - state.old.steps)
            (record { below = None; rest = rest })) }
        ensures grows { OnOk result (state.old.steps ≤ state.new.steps) }
        ensures ended { IfOk result (λ rest. IfNone rest (state.old.steps < state.new.steps)) }
        ensures cost { state.new.steps ≤ state.old.steps + turn_work (came self.now) state.old.next
            frame }
        ensures fault_is_true { IfErr result (BreaksFrame (table self.now) (message self.now)
            frame (at_of state.old)) }
    {
        if count != 1 {
            return Ok(Some(frame));
        }
        let e = self.decoder.entry(entry);
        let Some(kind) = EntryKind::from_number(e.kind) else {
            unreachable!()
        };
        if !self.decoder.is_flat(entry, kind) {
            return Ok(Some(frame));
        }
        self.read_whole(frame, entry, kind, size, until, state)?;
        Ok(None)
    }

    /// Reads the content of an envelope in place, and what it leads to where that is leaves alone, up
    /// to a member that leads to more.
    #[inline(always)]
    pub(crate) fn read_inner(
        &self,
        frame: Frame,
        state: &mut State<'_, '_>,
    ) -> Result<Turn, DecodeFault>
        requires frame { FrameFine (table self.now) (came self.now) frame }
        requires holds { Holds self.now state.old }
        requires state { StateFine (message self.now) (at_of state.old) }
        requires ready { CanReadFrame self.now state.old frame }
        requires budget { state.old.steps + turn_work (came self.now) state.old.next frame < 2 ^ 40 }
        ensures holds { Holds self.now state.new }
        ensures ok { IfOk result (λ turn. Turns (table self.now) (message self.now) frame
            (at_of state.old) (at_of state.new) (state.new.steps - state.old.steps) turn) }
        ensures grows { OnOk result (state.old.steps ≤ state.new.steps) }
        ensures cost { state.new.steps ≤ state.old.steps + turn_work (came self.now) state.old.next
            frame }
        ensures fault_is_true { IfErr result (BreaksFrame (table self.now) (message self.now)
            frame (at_of state.old)) }
    {
        let Remaining::Content {
            entry,
            size,
            count,
            until,
        } = frame.left
        else {
            return Ok(Turn {
                below: None,
                rest: Some(frame),
            });
        };
        if count != 1 {
            return Ok(Turn {
                below: None,
                rest: Some(frame),
            });
        }
        let turn = self.begin_content(frame, entry, size as usize, count, until, state)?;
        let Some(rest) = turn.rest else {
            return Ok(turn);
        };
        let Some(below) = turn.below else {
            return self.end_content(rest, until, state);
        };
        let Some(inner) = self.read_next_leaves(below, state)? else {
            return self.end_content(rest, until, state);
        };
        Ok(Turn {
            below: Some(inner),
            rest: Some(rest),
        })
    }

    /// Reads the next member of a frame, or its end; of a table all members that are read in place.
    #[inline(always)]
    pub(crate) fn take_member(
        &self,
        frame: Frame,
        state: &mut State<'_, '_>,
    ) -> Result<Pending, DecodeFault>
        requires frame { FrameFine (table self.now) (came self.now) frame }
        requires holds { Holds self.now state.old }
        requires state { StateFine (message self.now) (at_of state.old) }
        requires ready { CanReadFrame self.now state.old frame }
        requires budget { state.old.steps + turn_work (came self.now) state.old.next frame < 2 ^ 40 }
        ensures holds { Holds self.now state.new }
        ensures ok { IfOk result (λ left. Leaves (table self.now) (message self.now) frame
            (at_of state.old) (at_of state.new) (state.new.steps - state.old.steps) left) }
        ensures rises { OnOk result (state.old.steps < state.new.steps) }
        ensures cost { state.new.steps ≤ state.old.steps + turn_work (came self.now) state.old.next
            frame }
        ensures fault_is_true { IfErr result (BreaksFrame (table self.now) (message self.now)
            frame (at_of state.old)) }
    {
        let turn = match frame.left {
            Remaining::Envelopes { entry, read, count } => {
                return self.read_envelopes(frame, entry, read, count, state);
            }
            Remaining::Content {
                entry,
                size,
                count,
                until,
            } => self.take_content(frame, entry, size as usize, count, until, state)?,
            Remaining::Rows { first, count } => {
                if count > 1 {
                    let turn = self.take_rows(frame, first, count, state)?;
                    return Ok(Pending { under: None, turn });
                }
                self.take_row(frame, first, count, state)?
            }
            Remaining::Elements { entry, size, count } => {
                return self.take_elements(frame, entry, size as usize, count, state);
            }
        };
        Ok(Pending { under: None, turn })
    }
}
