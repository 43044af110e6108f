//! The rows of a struct, one after the other.
ghost use Rattle.std.specs.Prelude.{◌≡◌, ◌+◌, ◌-◌, ◌^◌, ◌<◌, OnOk, IfOk, IfErr, Some, None, true};
ghost use Rattle.std.specs.Prelude.{◌≤◌, []};
ghost use Rattle.fidl_table_format.specs.declared.kind.EntryKind.TheVariants as kinds;
ghost use Rattle.fidl_table_format.specs.Kind.{kind_of};
ghost use Rattle.fidl_table_format.specs.Section.{header_of, entry_at, row_at};
ghost use Rattle.fidl_decode_model.specs.Invariants.{is_leaf};
ghost use Rattle.fidl_decode_model.specs.declared.frame.Remaining.TheVariants as left;
ghost use Rattle.fidl_decode_model.specs.Steps.{Spends};
ghost use Rattle.fidl_decode_model.specs.Machine.{StateFine, FrameFine, BreaksFrame, Turns};
ghost use Rattle.fidl_decode_model.specs.Machine.{IsPlain, rows_left, behind_rows, turn_work};
ghost use Rattle.fidl_decode_model.specs.Machine.{at_of};
ghost use Rattle.fidl_decode.specs.Reading.{table, came, message, Holds, CanReadFrame};

use crate::frames::Frames;
use fidl_decode_model::DecodeFault;
use fidl_decode_model::frame::{Frame, Remaining, State, Turn};
use fidl_decode_values::rows_from;
use fidl_table_format::EntryKind;

impl<'t, 'm, 's> Frames<'t, 'm, 's> {
    /// Reads the next row of a struct, which is a leaf, and the zeros before it.
    #[inline(always)]
    pub(crate) fn read_row(
        &self,
        frame: Frame,
        first: u32,
        count: u32,
        kind: EntryKind,
        state: &mut State<'_, '_>,
    ) -> Result<(), DecodeFault>
        requires frame { FrameFine (table self.now) (came self.now) frame }
        requires left { frame.left ≡ left.Rows first count }
        requires some { 0 < count }
        requires kind { let row = row_at (table self.now) (header_of (table self.now)) first in
            kind_of (entry_at (table self.now) row.entry).kind ≡ Some kind }
        requires leaf { let row = row_at (table self.now) (header_of (table self.now)) first in
            is_leaf (table self.now) (entry_at (table self.now) row.entry) kind ≡ true }
        requires holds { Holds self.now state.old }
        requires state { StateFine (message self.now) (at_of state.old) }
        requires ready { CanReadFrame self.now state.old frame }
        requires budget { state.old.steps + turn_work (came self.now) state.old.next frame < 2 ^ 40 }
        ensures holds { Holds self.now state.new }
        ensures ok { let row = row_at (table self.now) (header_of (table self.now)) first in
            let done = row.key + (entry_at (table self.now) row.entry).size in
            OnOk result (Turns (table self.now)
            (message self.now) frame (at_of state.old)
            (at_of state.new) (state.new.steps - state.old.steps) (record {
              below = None;
              rest = Some (behind_rows frame (first + 1) (count - 1) done);
            })) }
        ensures spends { Spends state.old.steps state.new.steps 1 (turn_work (came self.now)
            state.old.next frame) }
        ensures fault_is_true { IfErr result (BreaksFrame (table self.now) (message self.now)
            frame (at_of state.old)) }
    {
        let row = self.decoder.row(first);
        let front = frame.base as usize + frame.done as usize;
        let place = frame.base as usize + row.key as usize;
        state.steps += (place - front) as u64 + 1;
        self.decoder.zeros_at(front, place, state)?;
        self.decoder
            .read_leaf(row.entry, kind, place, frame.depth, state)?;
        Ok(())
    }

    /// Reads the next row of a struct, which is a vector of numbers, and the zeros before it.
    #[inline(always)]
    pub(crate) fn read_vector_row(
        &self,
        frame: Frame,
        first: u32,
        count: u32,
        state: &mut State<'_, '_>,
    ) -> Result<(), DecodeFault>
        requires frame { FrameFine (table self.now) (came self.now) frame }
        requires left { frame.left ≡ left.Rows first count }
        requires some { 0 < count }
        requires kind { let row = row_at (table self.now) (header_of (table self.now)) first in
            kind_of (entry_at (table self.now) row.entry).kind ≡ Some kinds.Vector }
        requires leaf { let row = row_at (table self.now) (header_of (table self.now)) first in
            is_leaf (table self.now) (entry_at (table self.now) row.entry) kinds.Vector ≡ true }
        requires holds { Holds self.now state.old }
        requires state { StateFine (message self.now) (at_of state.old) }
        requires ready { CanReadFrame self.now state.old frame }
        requires budget { state.old.steps + turn_work (came self.now) state.old.next frame < 2 ^ 40 }
        ensures holds { Holds self.now state.new }
        ensures ok { let row = row_at (table self.now) (header_of (table self.now)) first in
            let done = row.key + (entry_at (table self.now) row.entry).size in
            OnOk result (Turns (table self.now)
            (message self.now) frame (at_of state.old)
            (at_of state.new) (state.new.steps - state.old.steps) (record {
              below = None;
              rest = Some (behind_rows frame (first + 1) (count - 1) done);
            })) }
        ensures spends { Spends state.old.steps state.new.steps 1 (turn_work (came self.now)
            state.old.next frame) }
        ensures fault_is_true { IfErr result (BreaksFrame (table self.now) (message self.now)
            frame (at_of state.old)) }
    {
        let row = self.decoder.row(first);
        let front = frame.base as usize + frame.done as usize;
        let place = frame.base as usize + row.key as usize;
        state.steps += (place - front) as u64 + 1;
        self.decoder.zeros_at(front, place, state)?;
        self.decoder
            .pass_numbers(row.entry, place, frame.depth, state)?;
        Ok(())
    }

    /// Does what `read_row` does, a vector of numbers in line too.
    #[inline(always)]
    pub(crate) fn read_flat_row(
        &self,
        frame: Frame,
        first: u32,
        count: u32,
        kind: EntryKind,
        state: &mut State<'_, '_>,
    ) -> Result<(), DecodeFault>
        requires frame { FrameFine (table self.now) (came self.now) frame }
        requires left { frame.left ≡ left.Rows first count }
        requires some { 0 < count }
        requires kind { let row = row_at (table self.now) (header_of (table self.now)) first in
            kind_of (entry_at (table self.now) row.entry).kind ≡ Some kind }
        requires leaf { let row = row_at (table self.now) (header_of (table self.now)) first in
            is_leaf (table self.now) (entry_at (table self.now) row.entry) kind ≡ true }
        requires holds { Holds self.now state.old }
        requires state { StateFine (message self.now) (at_of state.old) }
        requires ready { CanReadFrame self.now state.old frame }
        requires budget { state.old.steps + turn_work (came self.now) state.old.next frame < 2 ^ 40 }
        ensures holds { Holds self.now state.new }
        ensures ok { let row = row_at (table self.now) (header_of (table self.now)) first in
            let done = row.key + (entry_at (table self.now) row.entry).size in
            OnOk result (Turns (table self.now)
            (message self.now) frame (at_of state.old)
            (at_of state.new) (state.new.steps - state.old.steps) (record {
              below = None;
              rest = Some (behind_rows frame (first + 1) (count - 1) done);
            })) }
        ensures spends { Spends state.old.steps state.new.steps 1 (turn_work (came self.now)
            state.old.next frame) }
        ensures fault_is_true { IfErr result (BreaksFrame (table self.now) (message self.now)
            frame (at_of state.old)) }
    {
        match kind {
            EntryKind::Vector => self.read_vector_row(frame, first, count, state),
            _ => self.read_row(frame, first, count, kind, state),
        }
    }

    /// Reads the zeros behind the last row of a struct. Nothing is left then.
    #[inline(always)]
    pub(crate) fn end_rows(
        &self,
        frame: Frame,
        state: &mut State<'_, '_>,
    ) -> Result<(), DecodeFault>
        requires frame { FrameFine (table self.now) (came self.now) frame }
        requires plain { IsPlain frame.left }
        requires over { rows_left (table self.now) frame.done frame.left ≡ [] }
        requires holds { Holds self.now state.old }
        requires state { StateFine (message self.now) (at_of state.old) }
        requires ready { CanReadFrame self.now state.old frame }
        requires budget { state.old.steps + turn_work (came self.now) state.old.next frame < 2 ^ 40 }
        ensures holds { Holds self.now state.new }
        ensures ok { OnOk result
            (Turns (table self.now) (message self.now) frame
            (at_of state.old) (at_of state.new) (state.new.steps - state.old.steps)
            (record { below = None; rest = None })) }
        ensures spends { Spends state.old.steps state.new.steps 1 (turn_work (came self.now)
            state.old.next frame) }
        ensures fault_is_true { IfErr result (BreaksFrame (table self.now) (message self.now)
            frame (at_of state.old)) }
    {
        let over = frame.base as usize + frame.done as usize;
        let stop = frame.base as usize + frame.size as usize;
        state.steps += (stop - over) as u64 + 1;
        self.decoder.zeros_at(over, stop, state)
    }

    /// Reads the zeros before the next row of a struct and its member, or the zeros at the end.
    #[inline(always)]
    pub(crate) fn take_row(
        &self,
        frame: Frame,
        first: u32,
        count: u32,
        state: &mut State<'_, '_>,
    ) -> Result<Turn, DecodeFault>
        requires frame { FrameFine (table self.now) (came self.now) frame }
        requires left { frame.left ≡ left.Rows first count }
        requires holds { Holds self.now state.old }
        requires state { StateFine (message self.now) (at_of state.old) }
        requires ready { CanReadFrame self.now state.old frame }
        requires budget { state.old.steps + turn_work (came self.now) state.old.next frame < 2 ^ 40 }
        ensures holds { Holds self.now state.new }
        ensures ok { IfOk result (λ turn. Turns (table self.now) (message self.now) frame
            (at_of state.old) (at_of state.new) (state.new.steps - state.old.steps) turn) }
        ensures spends { Spends state.old.steps state.new.steps 1 (turn_work (came self.now)
            state.old.next frame) }
        ensures fault_is_true { IfErr result (BreaksFrame (table self.now) (message self.now)
            frame (at_of state.old)) }
    {
        if count == 0 {
            self.end_rows(frame, state)?;
            return Ok(Turn {
                below: None,
                rest: None,
            });
        }
        // Read, so that the number of rows, and with it each row's, is known to have 32 bits.
        let _rows = self.decoder.table.rows();
        let row = self.decoder.row(first);
        let front = frame.base as usize + frame.done as usize;
        let place = frame.base as usize + row.key as usize;
        state.steps += (place - front) as u64 + 1;
        self.decoder.zeros_at(front, place, state)?;
        let below = self
            .decoder
            .visit(row.entry, place, frame.depth, frame.in_envelope, state)?;
        let done = row.key as usize + self.decoder.entry(row.entry).size as usize;
        Ok(Turn {
            below,
            rest: Some(rows_from(frame, first + 1, count - 1, done)),
        })
    }

    /// Whether a leaf is the next of so many rows.
    #[inline(always)]
    fn leaf_is_next(&self, first: u32, count: u32) -> bool
        requires { first + count ≤ (header_of (table self.now)).rows }
    {
        count != 0
            && self
                .decoder
                .leaf_kind(self.decoder.row(first).entry)
                .is_some()
    }

    /// Reads the next rows of a struct, and what they lead to where that is leaves alone: up to a leaf,
    /// up to a row that leads to more, or up to the end. It stands out of line, so that it takes no
    /// registers of the loops over structs.
    #[inline(never)]
    pub(crate) fn take_rows(
        &self,
        frame: Frame,
        first: u32,
        count: u32,
        state: &mut State<'_, '_>,
    ) -> Result<Turn, DecodeFault>
        requires frame { FrameFine (table self.now) (came self.now) frame }
        requires left { frame.left ≡ left.Rows first count }
        requires holds { Holds self.now state.old }
        requires state { StateFine (message self.now) (at_of state.old) }
        requires ready { CanReadFrame self.now state.old frame }
        requires budget { state.old.steps + turn_work (came self.now) state.old.next frame < 2 ^ 40 }
        ensures holds { Holds self.now state.new }
        ensures ok { IfOk result (λ turn. Turns (table self.now) (message self.now) frame
            (at_of state.old) (at_of state.new) (state.new.steps - state.old.steps) turn) }
        ensures rises { OnOk result (state.old.steps < state.new.steps) }
        ensures cost { state.new.steps ≤ state.old.steps + turn_work (came self.now) state.old.next
            frame }
        ensures fault_is_true { IfErr result (BreaksFrame (table self.now) (message self.now)
            frame (at_of state.old)) }
    {
        let mut rest = frame;
        let mut next = first;
        let mut many = count;
        loop {
            let turn = self.pass_or_take_row(rest, next, many, state)?;
            let Some(after) = turn.rest else {
                return Ok(turn);
            };
            let Remaining::Rows {
                first: ahead,
                count: left,
            } = after.left
            else {
                return Ok(turn);
            };
            let Some(below) = turn.below else {
                if self.leaf_is_next(ahead, left) {
                    return Ok(turn);
                }
                rest = after;
                next = ahead;
                many = left;
                continue;
            };
            let Some(inner) = self.read_next_leaves(below, state)? else {
                if self.leaf_is_next(ahead, left) {
                    return Ok(Turn {
                        below: None,
                        rest: Some(after),
                    });
                }
                rest = after;
                next = ahead;
                many = left;
                continue;
            };
            return Ok(Turn {
                below: Some(inner),
                rest: Some(after),
            });
        }
    }
}
