//! Values that are read whole where they stand: leaves, and structs whose members are leaves.
ghost use Rattle.std.specs.Prelude.{◌≡◌, ◌+◌, ◌-◌, ◌^◌, ◌<◌, ◌≤◌, OnOk, IfErr, Some, None, length};
ghost use Rattle.fidl_limits.specs.declared.limits.TheConstants.{MAX_DEPTH};
ghost use Rattle.fidl_wire.specs.Term as ty;
ghost use Rattle.fidl_wire.specs.Term.{resolve};
ghost use Rattle.fidl_table_format.specs.Kind.{kind_of};
ghost use Rattle.fidl_table_format.specs.Section.{header_of, entry_at};
ghost use Rattle.fidl_table_format.specs.Terms.{declarations_of};
ghost use Rattle.fidl_decode_model.specs.Invariants.{AreLeaves, IsFlat};
ghost use Rattle.fidl_decode_model.specs.Breaks.{Breaks};
ghost use Rattle.fidl_decode_model.specs.declared.frame.Remaining.TheVariants as left;
ghost use Rattle.fidl_decode_model.specs.Steps.{Spends};
ghost use Rattle.fidl_decode_model.specs.Machine.{StateFine, FrameFine, BreaksFrame, Visits, Turns};
ghost use Rattle.fidl_decode_model.specs.Machine.{turn_work, value_work, at_of};
ghost use Rattle.fidl_decode.specs.Reading.{table, came, message, Holds, CanReadFrame};
ghost use Rattle.fidl_decode.specs.Reading.{CanReadValue};

use crate::frames::Frames;
use fidl_decode_model::DecodeFault;
use fidl_decode_model::frame::{Frame, Remaining, State};
use fidl_decode_values::rows_from;
use fidl_table_format::EntryKind;

impl<'t, 'm, 's> Frames<'t, 'm, 's> {
    /// Reads the rows of a struct in place, which are leaves, and the zeros before and behind them.
    #[inline(always)]
    pub(crate) fn read_fields(
        &self,
        frame: Frame,
        first: u32,
        count: u32,
        state: &mut State<'_, '_>,
    ) -> Result<(), DecodeFault>
        requires frame { FrameFine (table self.now) (came self.now) frame }
        requires left { frame.left ≡ left.Rows first count }
        requires leaves { AreLeaves (table self.now) first count }
        requires holds { Holds self.now state.old }
        requires state { StateFine (message self.now) (at_of state.old) }
        requires ready { CanReadFrame self.now state.old frame }
        requires budget { state.old.steps + turn_work (came self.now) state.old.next frame < 2 ^ 40 }
        ensures holds { Holds self.now state.new }
        ensures ok { OnOk result
            (Turns (table self.now) (message self.now) frame
            (at_of state.old) (at_of state.new) (state.new.steps - state.old.steps)
            (record { below = None; rest = None })) }
        ensures spends { Spends state.old.steps state.new.steps 1 (turn_work (came self.now)
            state.old.next frame) }
        ensures fault_is_true { IfErr result (BreaksFrame (table self.now) (message self.now)
            frame (at_of state.old)) }
    {
        // Read, so that the number of rows, and with it each row's, is known to have 32 bits.
        let _rows = self.decoder.table.rows();
        let mut next = first;
        let mut many = count;
        let mut done = frame.done as usize;
        while many != 0 {
            let rest = rows_from(frame, next, many, done);
            let row = self.decoder.row(next);
            let e = self.decoder.entry(row.entry);
            let Some(kind) = EntryKind::from_number(e.kind) else {
                unreachable!()
            };
            self.read_flat_row(rest, next, many, kind, state)?;
            done = row.key as usize + e.size as usize;
            next += 1;
            many -= 1;
        }
        self.end_rows(rows_from(frame, next, 0, done), state)
    }

    /// Does the same out of line.
    #[inline(never)]
    fn read_fields_apart(
        &self,
        frame: Frame,
        first: u32,
        count: u32,
        state: &mut State<'_, '_>,
    ) -> Result<(), DecodeFault>
        requires frame { FrameFine (table self.now) (came self.now) frame }
        requires left { frame.left ≡ left.Rows first count }
        requires leaves { AreLeaves (table self.now) first count }
        requires holds { Holds self.now state.old }
        requires state { StateFine (message self.now) (at_of state.old) }
        requires ready { CanReadFrame self.now state.old frame }
        requires budget { state.old.steps + turn_work (came self.now) state.old.next frame < 2 ^ 40 }
        ensures holds { Holds self.now state.new }
        ensures ok { OnOk result
            (Turns (table self.now) (message self.now) frame
            (at_of state.old) (at_of state.new) (state.new.steps - state.old.steps)
            (record { below = None; rest = None })) }
        ensures spends { Spends state.old.steps state.new.steps 1 (turn_work (came self.now)
            state.old.next frame) }
        ensures fault_is_true { IfErr result (BreaksFrame (table self.now) (message self.now)
            frame (at_of state.old)) }
    {
        self.read_fields(frame, first, count, state)
    }

    /// Reads a leaf, or a struct of leaves, at a place.
    #[inline(always)]
    pub(crate) fn read_flat(
        &self,
        entry: u32,
        kind: EntryKind,
        place: usize,
        depth: u8,
        state: &mut State<'_, '_>,
    ) -> Result<(), DecodeFault>
        requires entry { entry < (header_of (table self.now)).entries }
        requires kind { kind_of (entry_at (table self.now) entry).kind ≡ Some kind }
        requires flat { IsFlat (table self.now) (entry_at (table self.now) entry) kind }
        requires room { place + (entry_at (table self.now) entry).size ≤ length (came self.now) }
        requires holds { Holds self.now state.old }
        requires state { StateFine (message self.now) (at_of state.old) }
        requires ready { CanReadValue self.now state.old entry place }
        requires depth { depth ≤ MAX_DEPTH }
        requires budget { state.old.steps + value_work (came self.now) state.old.next
            (entry_at (table self.now) entry) < 2 ^ 40 }
        ensures holds { Holds self.now state.new }
        ensures ok { OnOk result (Visits (table self.now) (message self.now) depth entry place
            (at_of state.old) (at_of state.new) (state.new.steps - state.old.steps) None) }
        ensures fault_is_true { IfErr result (Breaks (declarations_of (table self.now))
            (message self.now) depth (resolve (declarations_of (table self.now)).terms
            (ty.named entry)) place (at_of state.old)) }
        ensures spends { Spends state.old.steps state.new.steps 0 (value_work (came self.now)
            state.old.next (entry_at (table self.now) entry)) }
    {
        if self.decoder.is_leaf(entry, kind) {
            return self.decoder.read_leaf(entry, kind, place, depth, state);
        }
        let e = self.decoder.entry(entry);
        let frame = Frame {
            left: Remaining::Rows {
                first: e.first,
                count: e.count,
            },
            base: place as u32,
            done: 0,
            size: e.size,
            nest: e.nest,
            depth,
            in_envelope: 0,
        };
        self.read_fields_apart(frame, e.first, e.count, state)
    }
}
