//! Structs whose last member is a box: the struct in it takes the place of the one that holds it.
ghost use Rattle.std.specs.Prelude.{◌≡◌, ◌+◌, ◌-◌, ◌^◌, ◌<◌, ◌≤◌, OnOk, IfOk, IfErr, IfNone};
ghost use Rattle.std.specs.Prelude.{IsTrue, Some, None};
ghost use Rattle.fidl_table_format.specs.declared.kind.EntryKind.TheVariants as kinds;
ghost use Rattle.fidl_table_format.specs.Kind.{kind_of};
ghost use Rattle.fidl_table_format.specs.Section.{header_of, entry_at, row_at};
ghost use Rattle.fidl_decode_model.specs.declared.frame.Remaining.TheVariants as left;
ghost use Rattle.fidl_decode_model.specs.Steps.{Spends};
ghost use Rattle.fidl_decode_model.specs.Machine.{StateFine, FrameFine, BreaksFrame, Turns};
ghost use Rattle.fidl_decode_model.specs.Machine.{IsKnown, turn_work, at_of};
ghost use Rattle.fidl_decode.specs.Reading.{table, came, message, Holds, CanReadFrame};

use crate::frames::Frames;
use crate::kinds::BOX;
use fidl_decode_model::DecodeFault;
use fidl_decode_model::frame::{Frame, Remaining, State};
use fidl_decode_values::{Plain, rows_from};

impl<'t, 'm, 's> Frames<'t, 'm, 's> {
    /// Whether a row is the last of a struct of this size, and a box behind which nothing is left.
    #[inline(always)]
    pub(crate) fn ends_in_box(&self, first: u32, count: u32, size: usize) -> bool
        requires within { first + count ≤ (header_of (table self.now)).rows }
        ensures { let row = row_at (table self.now) (header_of (table self.now)) first in
            IsTrue result → (count ≡ 1)
            × (kind_of (entry_at (table self.now) row.entry).kind ≡ Some kinds.Box)
            × (row.key + (entry_at (table self.now) row.entry).size ≡ size) }
    {
        if count != 1 {
            return false;
        }
        let row = self.decoder.row(first);
        let e = self.decoder.entry(row.entry);
        e.kind == BOX && row.key as usize + e.size as usize == size
    }

    /// Reads the box that is the last member of a struct, and behind which nothing is left: the
    /// struct in it takes the frame's place, or nothing is left where the box is absent.
    #[inline(always)]
    fn enter_box(
        &self,
        frame: Frame,
        first: u32,
        state: &mut State<'_, '_>,
    ) -> Result<Option<Frame>, DecodeFault>
        requires frame { FrameFine (table self.now) (came self.now) frame }
        requires left { frame.left ≡ left.Rows first 1 }
        requires kind { let row = row_at (table self.now) (header_of (table self.now)) first in
            kind_of (entry_at (table self.now) row.entry).kind ≡ Some kinds.Box }
        requires whole { let row = row_at (table self.now) (header_of (table self.now)) first in
            row.key + (entry_at (table self.now) row.entry).size ≡ frame.size }
        requires holds { Holds self.now state.old }
        requires state { StateFine (message self.now) (at_of state.old) }
        requires ready { CanReadFrame self.now state.old frame }
        requires budget { state.old.steps + turn_work (came self.now) state.old.next frame < 2 ^ 40 }
        ensures holds { Holds self.now state.new }
        ensures ok { IfOk result
            (λ rest. Turns (table self.now) (message self.now)
            frame (at_of state.old) (at_of state.new) (state.new.steps - state.old.steps)
            (record { below = None; rest = rest })) }
        ensures spends { Spends state.old.steps state.new.steps 1 (turn_work (came self.now)
            state.old.next frame) }
        ensures fault_is_true { IfErr result (BreaksFrame (table self.now) (message self.now)
            frame (at_of state.old)) }
    {
        let row = self.decoder.row(first);
        let read = frame.base as usize + frame.done as usize;
        let place = frame.base as usize + row.key as usize;
        state.steps += (place - read) as u64 + 1;
        self.decoder.zeros_at(read, place, state)?;
        let below = self.decoder.read_box(row.entry, place, frame.depth, state)?;
        Ok(below)
    }

    /// Reads the rows of a struct in place, and those of the struct in the box that its last member
    /// is, and so on, up to the first member that is neither. Nothing is left at the end. Where
    /// PASSING is true, members that can be passed over are read too.
    #[inline(always)]
    pub(crate) fn read_nested<const PASSING: bool>(
        &self,
        frame: Frame,
        known: &Plain,
        state: &mut State<'_, '_>,
    ) -> Result<Option<Frame>, DecodeFault>
        requires frame { FrameFine (table self.now) (came self.now) frame }
        requires known { IsKnown (table self.now) (message self.now) known.now.rows
            known.now.first known.now.count known.now.done known.now.flag }
        requires holds { Holds self.now state.old }
        requires state { StateFine (message self.now) (at_of state.old) }
        requires ready { CanReadFrame self.now state.old frame }
        requires budget { state.old.steps + turn_work (came self.now) state.old.next frame < 2 ^ 40 }
        ensures holds { Holds self.now state.new }
        ensures ok { IfOk result
            (λ rest. Turns (table self.now) (message self.now)
            frame (at_of state.old) (at_of state.new) (state.new.steps - state.old.steps)
            (record { below = None; rest = rest })) }
        ensures grows { OnOk result (state.old.steps ≤ state.new.steps) }
        ensures ended { IfOk result (λ rest. IfNone rest (state.old.steps < state.new.steps)) }
        ensures cost { state.new.steps ≤ state.old.steps + turn_work (came self.now) state.old.next
            frame }
        ensures fault_is_true { IfErr result (BreaksFrame (table self.now) (message self.now)
            frame (at_of state.old)) }
    {
        let Remaining::Rows { first, count } = frame.left else {
            return Ok(Some(frame));
        };
        // Read, so that the number of rows, and with it each row's, is known to have 32 bits.
        let _rows = self.decoder.table.rows();
        let mut holder = frame;
        let mut next = first;
        let mut many = count;
        let mut done = frame.done as usize;
        while many != 0 {
            let rest = rows_from(holder, next, many, done);
            let row = self.decoder.row(next);
            let e = self.decoder.entry(row.entry);
            if let Some(kind) = self.decoder.leaf_kind(row.entry) {
                self.read_row(rest, next, many, kind, state)?;
                done = row.key as usize + e.size as usize;
                next += 1;
                many -= 1;
                continue;
            }
            if !self.ends_in_box(next, many, holder.size as usize) {
                if !self.pass_row::<PASSING>(rest, next, many, state) {
                    return Ok(Some(rest));
                }
                done = row.key as usize + e.size as usize;
                next += 1;
                many -= 1;
                continue;
            }
            let Some(below) = self.enter_box(rest, next, state)? else {
                return Ok(None);
            };
            let content = self.decoder.pass_known(below, known, state);
            let Remaining::Rows {
                first: front,
                count: behind,
            } = content.left
            else {
                return Ok(Some(content));
            };
            holder = content;
            next = front;
            many = behind;
            done = content.done as usize;
        }
        self.end_rows(rows_from(holder, next, 0, done), state)?;
        Ok(None)
    }

    /// Reads a struct as `read_nested` does, which is inlined in the loop over the structs of a
    /// vector. No member is passed over, since the loop has no register to spare for it.
    pub(crate) fn read_boxed(
        &self,
        frame: Frame,
        state: &mut State<'_, '_>,
    ) -> Result<Option<Frame>, DecodeFault>
        requires frame { FrameFine (table self.now) (came self.now) frame }
        requires holds { Holds self.now state.old }
        requires state { StateFine (message self.now) (at_of state.old) }
        requires ready { CanReadFrame self.now state.old frame }
        requires budget { state.old.steps + turn_work (came self.now) state.old.next frame < 2 ^ 40 }
        ensures holds { Holds self.now state.new }
        ensures ok { IfOk result
            (λ rest. Turns (table self.now) (message self.now)
            frame (at_of state.old) (at_of state.new) (state.new.steps - state.old.steps)
            (record { below = None; rest = rest })) }
        ensures grows { OnOk result (state.old.steps ≤ state.new.steps) }
        ensures ended { IfOk result (λ rest. IfNone rest (state.old.steps < state.new.steps)) }
        ensures cost { state.new.steps ≤ state.old.steps + turn_work (came self.now) state.old.next
            frame }
        ensures fault_is_true { IfErr result (BreaksFrame (table self.now) (message self.now)
            frame (at_of state.old)) }
    {
        let Remaining::Rows { first, count } = frame.left else {
            return Ok(Some(frame));
        };
        let known = self.decoder.plain_below(first, count);
        self.read_nested::<false>(frame, &known, state)
    }
}
