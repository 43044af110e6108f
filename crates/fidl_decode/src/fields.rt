//! The fields of a frame, read in place: the rows of a struct, and the elements of an array or
//! vector.
ghost use Rattle.std.specs.Prelude.{◌≡◌, ◌+◌, ◌-◌, ◌^◌, ◌<◌, ◌≤◌, OnOk, IfOk, IfErr, IfNone, true};
ghost use Rattle.std.specs.Prelude.{Some, None};
ghost use Rattle.fidl_table_format.specs.Kind.{kind_of};
ghost use Rattle.fidl_table_format.specs.Section.{header_of, entry_at};
ghost use Rattle.fidl_decode_model.specs.Invariants.{is_leaf};
ghost use Rattle.fidl_decode_model.specs.declared.frame.Remaining.TheVariants as left;
ghost use Rattle.fidl_decode_model.specs.Machine.{StateFine, FrameFine, BreaksFrame, Turns};
ghost use Rattle.fidl_decode_model.specs.Machine.{IsKnown, turn_work, at_of};
ghost use Rattle.fidl_decode.specs.Reading.{table, came, message, Holds, CanReadFrame};

use crate::frames::Frames;
use crate::kinds::STRUCT;
use fidl_decode_columns::is_free;
use fidl_decode_model::DecodeFault;
use fidl_decode_model::frame::{Frame, Remaining, State};
use fidl_decode_values::Plain;
use fidl_table_format::EntryKind;

impl<'t, 'm, 's> Frames<'t, 'm, 's> {
    /// Reads the last member of a struct, where nothing is left behind it: what it leads to takes
    /// the struct's place. Else the frame is left as it is.
    #[inline(never)]
    fn read_last(
        &self,
        frame: Frame,
        first: u32,
        count: u32,
        state: &mut State<'_, '_>,
    ) -> Result<Option<Frame>, DecodeFault>
        requires frame { FrameFine (table self.now) (came self.now) frame }
        requires left { frame.left ≡ left.Rows first count }
        requires holds { Holds self.now state.old }
        requires state { StateFine (message self.now) (at_of state.old) }
        requires ready { CanReadFrame self.now state.old frame }
        requires budget { state.old.steps + turn_work (came self.now) state.old.next frame < 2 ^ 40 }
        ensures holds { Holds self.now state.new }
        ensures ok { IfOk result
            (λ rest. Turns (table self.now) (message self.now)
            frame (at_of state.old) (at_of state.new) (state.new.steps - state.old.steps)
            (record { below = None; rest = rest })) }
        ensures grows { OnOk result (state.old.steps ≤ state.new.steps) }
        ensures ended { IfOk result (λ rest. IfNone rest (state.old.steps < state.new.steps)) }
        ensures cost { state.new.steps ≤ state.old.steps + turn_work (came self.now) state.old.next
            frame }
        ensures fault_is_true { IfErr result (BreaksFrame (table self.now) (message self.now)
            frame (at_of state.old)) }
    {
        if count != 1 {
            return Ok(Some(frame));
        }
        let row = self.decoder.row(first);
        let e = self.decoder.entry(row.entry);
        let done = row.key as usize + e.size as usize;
        if done != frame.size as usize {
            return Ok(Some(frame));
        }
        let read = frame.base as usize + frame.done as usize;
        let place = frame.base as usize + row.key as usize;
        state.steps += (place - read) as u64 + 1;
        self.decoder.zeros_at(read, place, state)?;
        let below = self
            .decoder
            .visit(row.entry, place, frame.depth, frame.in_envelope, state)?;
        Ok(below)
    }

    /// Reads a struct in place, and what its last member leads to, up to the first member that is
    /// no leaf. Nothing is left at the end.
    pub(crate) fn read_struct(
        &self,
        frame: Frame,
        known: &Plain,
        state: &mut State<'_, '_>,
    ) -> Result<Option<Frame>, DecodeFault>
        requires frame { FrameFine (table self.now) (came self.now) frame }
        requires known { IsKnown (table self.now) (message self.now) known.now.rows
            known.now.first known.now.count known.now.done known.now.flag }
        requires holds { Holds self.now state.old }
        requires state { StateFine (message self.now) (at_of state.old) }
        requires ready { CanReadFrame self.now state.old frame }
        requires budget { state.old.steps + turn_work (came self.now) state.old.next frame < 2 ^ 40 }
        ensures holds { Holds self.now state.new }
        ensures ok { IfOk result
            (λ rest. Turns (table self.now) (message self.now)
            frame (at_of state.old) (at_of state.new) (state.new.steps - state.old.steps)
            (record { below = None; rest = rest })) }
        ensures grows { OnOk result (state.old.steps ≤ state.new.steps) }
        ensures ended { IfOk result (λ rest. IfNone rest (state.old.steps < state.new.steps)) }
        ensures cost { state.new.steps ≤ state.old.steps + turn_work (came self.now) state.old.next
            frame }
        ensures fault_is_true { IfErr result (BreaksFrame (table self.now) (message self.now)
            frame (at_of state.old)) }
    {
        let Some(now) = self.read_nested::<true>(frame, known, state)? else {
            return Ok(None);
        };
        let Remaining::Rows {
            first: next,
            count: left,
        } = now.left
        else {
            return Ok(Some(now));
        };
        if left != 1 {
            return Ok(Some(now));
        }
        let Some(below) = self.read_last(now, next, left, state)? else {
            return Ok(None);
        };
        let inner = self.read_leaves(below, state)?;
        Ok(inner)
    }

    /// Reads the elements of an array or vector, which are leaves.
    fn read_each(
        &self,
        frame: Frame,
        entry: u32,
        kind: EntryKind,
        size: usize,
        count: u32,
        state: &mut State<'_, '_>,
    ) -> Result<(), DecodeFault>
        requires frame { FrameFine (table self.now) (came self.now) frame }
        requires left { frame.left ≡ left.Elements entry size count }
        requires entry { entry < (header_of (table self.now)).entries }
        requires kind { kind_of (entry_at (table self.now) entry).kind ≡ Some kind }
        requires leaf { is_leaf (table self.now) (entry_at (table self.now) entry) kind ≡ true }
        requires holds { Holds self.now state.old }
        requires state { StateFine (message self.now) (at_of state.old) }
        requires ready { CanReadFrame self.now state.old frame }
        requires budget { state.old.steps + turn_work (came self.now) state.old.next frame < 2 ^ 40 }
        ensures holds { Holds self.now state.new }
        ensures ok { OnOk result
            (Turns (table self.now) (message self.now) frame
            (at_of state.old) (at_of state.new) (state.new.steps - state.old.steps)
            (record { below = None; rest = None })) }
        ensures ended { OnOk result (state.old.steps < state.new.steps) }
        ensures cost { state.new.steps ≤ state.old.steps + turn_work (came self.now) state.old.next
            frame }
        ensures fault_is_true { IfErr result (BreaksFrame (table self.now) (message self.now)
            frame (at_of state.old)) }
    {
        let mut done = frame.done as usize;
        for i in 0..count {
            let place = frame.base as usize + done;
            state.steps += 1;
            self.decoder
                .read_leaf(entry, kind, place, frame.depth, state)?;
            done += size;
        }
        let at = frame.base as usize + done;
        let stop = frame.base as usize + frame.size as usize;
        state.steps += (stop - at) as u64 + 1;
        self.decoder.zeros_at(at, stop, state)
    }

    /// Reads the elements of an array or vector in place, where they are leaves. Nothing is left at
    /// their end.
    fn read_elements(
        &self,
        frame: Frame,
        entry: u32,
        size: usize,
        count: u32,
        state: &mut State<'_, '_>,
    ) -> Result<Option<Frame>, DecodeFault>
        requires frame { FrameFine (table self.now) (came self.now) frame }
        requires left { frame.left ≡ left.Elements entry size count }
        requires holds { Holds self.now state.old }
        requires state { StateFine (message self.now) (at_of state.old) }
        requires ready { CanReadFrame self.now state.old frame }
        requires budget { state.old.steps + turn_work (came self.now) state.old.next frame < 2 ^ 40 }
        ensures holds { Holds self.now state.new }
        ensures ok { IfOk result
            (λ rest. Turns (table self.now) (message self.now)
            frame (at_of state.old) (at_of state.new) (state.new.steps - state.old.steps)
            (record { below = None; rest = rest })) }
        ensures grows { OnOk result (state.old.steps ≤ state.new.steps) }
        ensures ended { IfOk result (λ rest. IfNone rest (state.old.steps < state.new.steps)) }
        ensures cost { state.new.steps ≤ state.old.steps + turn_work (came self.now) state.old.next
            frame }
        ensures fault_is_true { IfErr result (BreaksFrame (table self.now) (message self.now)
            frame (at_of state.old)) }
    {
        if count == 0 {
            return Ok(Some(frame));
        }
        let e = self.decoder.entry(entry);
        let Some(kind) = EntryKind::from_number(e.kind) else {
            unreachable!()
        };
        if !self.decoder.is_leaf(entry, kind) {
            return Ok(Some(frame));
        }
        if is_free(&e, kind) {
            self.decoder
                .pass_elements(frame, entry, size, count, state)?;
            return Ok(None);
        }
        self.read_each(frame, entry, kind, size, count, state)?;
        Ok(None)
    }

    /// Reads the leaves of a frame in place, up to the first member that is none. Nothing is left
    /// at the frame's end.
    #[inline(never)]
    pub(crate) fn read_leaves(
        &self,
        frame: Frame,
        state: &mut State<'_, '_>,
    ) -> Result<Option<Frame>, DecodeFault>
        requires frame { FrameFine (table self.now) (came self.now) frame }
        requires holds { Holds self.now state.old }
        requires state { StateFine (message self.now) (at_of state.old) }
        requires ready { CanReadFrame self.now state.old frame }
        requires budget { state.old.steps + turn_work (came self.now) state.old.next frame < 2 ^ 40 }
        ensures holds { Holds self.now state.new }
        ensures ok { IfOk result
            (λ rest. Turns (table self.now) (message self.now)
            frame (at_of state.old) (at_of state.new) (state.new.steps - state.old.steps)
            (record { below = None; rest = rest })) }
        ensures grows { OnOk result (state.old.steps ≤ state.new.steps) }
        ensures ended { IfOk result (λ rest. IfNone rest (state.old.steps < state.new.steps)) }
        ensures cost { state.new.steps ≤ state.old.steps + turn_work (came self.now) state.old.next
            frame }
        ensures fault_is_true { IfErr result (BreaksFrame (table self.now) (message self.now)
            frame (at_of state.old)) }
    {
        match frame.left {
            Remaining::Rows { .. } => self.read_boxed(frame, state),
            Remaining::Elements { entry, size, count } => {
                self.read_elements(frame, entry, size as usize, count, state)
            }
            Remaining::Content {
                entry,
                size,
                count,
                until,
            } => self.read_content(frame, entry, size as usize, count, until, state),
            Remaining::Envelopes { .. } => Ok(Some(frame)),
        }
    }

    /// Whether values of an entry are neither leaves nor structs.
    #[inline(always)]
    fn leads_on(&self, entry: u32) -> bool
        requires { entry < (header_of (table self.now)).entries }
    {
        self.decoder.leaf_kind(entry).is_none() && self.decoder.entry(entry).kind != STRUCT
    }

    /// Reads leaves as `read_leaves` does. Where a member that is none comes first, nothing is called.
    #[inline(always)]
    pub(crate) fn read_next_leaves(
        &self,
        frame: Frame,
        state: &mut State<'_, '_>,
    ) -> Result<Option<Frame>, DecodeFault>
        requires frame { FrameFine (table self.now) (came self.now) frame }
        requires holds { Holds self.now state.old }
        requires state { StateFine (message self.now) (at_of state.old) }
        requires ready { CanReadFrame self.now state.old frame }
        requires budget { state.old.steps + turn_work (came self.now) state.old.next frame < 2 ^ 40 }
        ensures holds { Holds self.now state.new }
        ensures ok { IfOk result
            (λ rest. Turns (table self.now) (message self.now)
            frame (at_of state.old) (at_of state.new) (state.new.steps - state.old.steps)
            (record { below = None; rest = rest })) }
        ensures grows { OnOk result (state.old.steps ≤ state.new.steps) }
        ensures ended { IfOk result (λ rest. IfNone rest (state.old.steps < state.new.steps)) }
        ensures cost { state.new.steps ≤ state.old.steps + turn_work (came self.now) state.old.next
            frame }
        ensures fault_is_true { IfErr result (BreaksFrame (table self.now) (message self.now)
            frame (at_of state.old)) }
    {
        let none = match frame.left {
            Remaining::Rows { first, count } => {
                count != 0
                    && self
                        .decoder
                        .leaf_kind(self.decoder.row(first).entry)
                        .is_none()
                    && !self.ends_in_box(first, count, frame.size as usize)
            }
            Remaining::Elements { entry, count, .. } => {
                count == 0 || self.decoder.leaf_kind(entry).is_none()
            }
            Remaining::Envelopes { .. } => true,
            Remaining::Content { entry, count, .. } => count != 1 || self.leads_on(entry),
        };
        if none {
            return Ok(Some(frame));
        }
        self.read_leaves(frame, state)
    }
}
