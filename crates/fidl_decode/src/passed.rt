//! Rows of a struct that are passed over with what they lead to, without a frame.
ghost use Rattle.std.specs.Prelude.{◌≡◌, ◌+◌, ◌-◌, ◌^◌, ◌<◌, ◌≤◌, IsTrue, IsFalse, IfOk, IfErr, Some};
ghost use Rattle.std.specs.Prelude.{None, length};
ghost use Rattle.fidl_table_format.specs.Section.{header_of, entry_at, row_at};
ghost use Rattle.fidl_decode_model.specs.declared.frame.Remaining.TheVariants as left;
ghost use Rattle.fidl_decode_model.specs.Steps.{Spends};
ghost use Rattle.fidl_decode_model.specs.Machine.{StateFine, FrameFine, BreaksFrame, Turns};
ghost use Rattle.fidl_decode_model.specs.Machine.{behind_rows, turn_work, at_of};
ghost use Rattle.fidl_decode.specs.Reading.{table, came, message, Holds, CanReadFrame};
ghost use Rattle.fidl_decode.specs.Reading.{CanReadValue};

use crate::frames::Frames;
use crate::kinds::{BOX, UNION, VECTOR};
use fidl_decode_model::DecodeFault;
use fidl_decode_model::frame::{Frame, State, Turn};
use fidl_decode_values::rows_from;

impl<'t, 'm, 's> Frames<'t, 'm, 's> {
    /// Whether the value of an entry at a place may be one that is passed over: a union, a box or a
    /// vector without elements.
    #[inline(always)]
    fn may_be_passed(&self, entry: u32, place: usize, state: &State<'_, '_>) -> bool
        requires entry { entry < (header_of (table self.now)).entries }
        requires room { place + (entry_at (table self.now) entry).size ≤ length (came self.now) }
        requires holds { Holds self.now state.now }
        requires ready { CanReadValue self.now state.now entry place }
    {
        let kind = self.decoder.entry(entry).kind;
        if kind == VECTOR {
            // The count comes first.
            return self.decoder.is_absent(place, state);
        }
        kind == UNION || kind == BOX
    }

    /// Passes over the next of so many rows, and the zeros before it, where its value can be passed
    /// over. Else nothing is read. Where PASSING is false, none is.
    #[inline(always)]
    pub(crate) fn pass_row<const PASSING: bool>(
        &self,
        frame: Frame,
        first: u32,
        count: u32,
        state: &mut State<'_, '_>,
    ) -> bool
        requires frame { FrameFine (table self.now) (came self.now) frame }
        requires left { frame.left ≡ left.Rows first count }
        requires holds { Holds self.now state.old }
        requires state { StateFine (message self.now) (at_of state.old) }
        requires ready { CanReadFrame self.now state.old frame }
        requires budget { state.old.steps + turn_work (came self.now) state.old.next frame < 2 ^ 40 }
        ensures holds { Holds self.now state.new }
        ensures some { IsTrue result → 0 < count }
        ensures passed { let row = row_at (table self.now) (header_of (table self.now)) first in
            let done = row.key + (entry_at (table self.now) row.entry).size in
            IsTrue result → Turns (table self.now)
            (message self.now) frame (at_of state.old)
            (at_of state.new) (state.new.steps - state.old.steps) (record {
              below = None;
              rest = Some (behind_rows frame (first + 1) (count - 1) done);
            }) }
        ensures spends { IsTrue result → Spends state.old.steps state.new.steps 1 (turn_work
            (came self.now) state.old.next frame) }
        ensures kept { IsFalse result → at_of state.new ≡ at_of state.old }
        ensures uncounted { IsFalse result → state.new.steps ≡ state.old.steps }
    {
        if !PASSING {
            return false;
        }
        if count == 0 {
            return false;
        }
        let row = self.decoder.row(first);
        let front = frame.base as usize + frame.done as usize;
        let place = frame.base as usize + row.key as usize;
        if !self.may_be_passed(row.entry, place, state) {
            return false;
        }
        if !self
            .decoder
            .pass_value(row.entry, front, place, frame.depth, state)
        {
            return false;
        }
        state.steps += (place - front) as u64 + 1;
        true
    }

    /// Reads the next row of a struct as `take_row` does. One that can be passed over takes no frame.
    #[inline(always)]
    pub(crate) fn pass_or_take_row(
        &self,
        frame: Frame,
        first: u32,
        count: u32,
        state: &mut State<'_, '_>,
    ) -> Result<Turn, DecodeFault>
        requires frame { FrameFine (table self.now) (came self.now) frame }
        requires left { frame.left ≡ left.Rows first count }
        requires holds { Holds self.now state.old }
        requires state { StateFine (message self.now) (at_of state.old) }
        requires ready { CanReadFrame self.now state.old frame }
        requires budget { state.old.steps + turn_work (came self.now) state.old.next frame < 2 ^ 40 }
        ensures holds { Holds self.now state.new }
        ensures ok { IfOk result (λ turn. Turns (table self.now) (message self.now) frame
            (at_of state.old) (at_of state.new) (state.new.steps - state.old.steps) turn) }
        ensures spends { Spends state.old.steps state.new.steps 1 (turn_work (came self.now)
            state.old.next frame) }
        ensures fault_is_true { IfErr result (BreaksFrame (table self.now) (message self.now)
            frame (at_of state.old)) }
    {
        if !self.pass_row::<true>(frame, first, count, state) {
            return self.take_row(frame, first, count, state);
        }
        // Read, so that the number of rows, and with it each row's, is known to have 32 bits.
        let _rows = self.decoder.table.rows();
        let row = self.decoder.row(first);
        let done = row.key as usize + self.decoder.entry(row.entry).size as usize;
        Ok(Turn {
            below: None,
            rest: Some(rows_from(frame, first + 1, count - 1, done)),
        })
    }
}
