//! One struct of a vector or array, behind the members that it is known to begin with.
ghost use Rattle.std.specs.Prelude.{◌≡◌, ◌+◌, ◌-◌, ◌^◌, ◌<◌, ◌≤◌, OnOk, IfOk, IfErr, IfNone};
ghost use Rattle.std.specs.Prelude.{IsTrue, None};
ghost use Rattle.fidl_decode_model.specs.Invariants.{AreLeaves};
ghost use Rattle.fidl_decode_model.specs.declared.frame.Remaining.TheVariants as left;
ghost use Rattle.fidl_decode_model.specs.Machine.{StateFine, FrameFine, Turns, BreaksFrame, Passes};
ghost use Rattle.fidl_decode_model.specs.Machine.{IsKnown, turn_work, at_of};
ghost use Rattle.fidl_decode.specs.Over.{AreRowsOfLeaves};
ghost use Rattle.fidl_decode.specs.Reading.{table, came, message, Holds, CanReadFrame};

use crate::frames::Frames;
use fidl_decode_model::DecodeFault;
use fidl_decode_model::frame::{Frame, Remaining, State};
use fidl_decode_values::Plain;

impl<'t, 'm, 's> Frames<'t, 'm, 's> {
    /// Reads a struct as `read_struct` does, of which the first rows are known to take any bytes
    /// but for a bool.
    #[inline(always)]
    pub(crate) fn read_behind(
        &self,
        frame: Frame,
        plain: &Plain,
        known: &Plain,
        state: &mut State<'_, '_>,
    ) -> Result<Option<Frame>, DecodeFault>
        requires frame { FrameFine (table self.now) (came self.now) frame }
        requires start { frame.done ≡ 0 }
        requires passes { Passes (table self.now) (message self.now) frame.left plain.now.rows
            plain.now.first plain.now.count plain.now.done plain.now.flag }
        requires known { IsKnown (table self.now) (message self.now) known.now.rows
            known.now.first known.now.count known.now.done known.now.flag }
        requires holds { Holds self.now state.old }
        requires state { StateFine (message self.now) (at_of state.old) }
        requires ready { CanReadFrame self.now state.old frame }
        requires budget { state.old.steps + turn_work (came self.now) state.old.next frame < 2 ^ 40 }
        ensures holds { Holds self.now state.new }
        ensures ok { IfOk result
            (λ rest. Turns (table self.now) (message self.now)
            frame (at_of state.old) (at_of state.new) (state.new.steps - state.old.steps)
            (record { below = None; rest = rest })) }
        ensures grows { OnOk result (state.old.steps ≤ state.new.steps) }
        ensures ended { IfOk result (λ rest. IfNone rest (state.old.steps < state.new.steps)) }
        ensures cost { state.new.steps ≤ state.old.steps + turn_work (came self.now) state.old.next
            frame }
        ensures fault_is_true { IfErr result (BreaksFrame (table self.now) (message self.now)
            frame (at_of state.old)) }
    {
        let rest = self.decoder.pass_over(frame, plain, state);
        self.read_struct(rest, known, state)
    }

    /// Reads a struct of leaves, of which the first rows are known to take any bytes but for a
    /// bool.
    #[inline(always)]
    fn read_struct_of_leaves(
        &self,
        frame: Frame,
        plain: &Plain,
        state: &mut State<'_, '_>,
    ) -> Result<(), DecodeFault>
        requires frame { FrameFine (table self.now) (came self.now) frame }
        requires start { frame.done ≡ 0 }
        requires passes { Passes (table self.now) (message self.now) frame.left plain.now.rows
            plain.now.first plain.now.count plain.now.done plain.now.flag }
        requires leaves { AreRowsOfLeaves (table self.now) frame.left }
        requires behind { AreLeaves (table self.now) plain.now.first plain.now.count }
        requires holds { Holds self.now state.old }
        requires state { StateFine (message self.now) (at_of state.old) }
        requires ready { CanReadFrame self.now state.old frame }
        requires budget { state.old.steps + turn_work (came self.now) state.old.next frame < 2 ^ 40 }
        ensures holds { Holds self.now state.new }
        ensures ok { OnOk result
            (Turns (table self.now) (message self.now) frame
            (at_of state.old) (at_of state.new) (state.new.steps - state.old.steps)
            (record { below = None; rest = None })) }
        ensures rises { OnOk result (state.old.steps < state.new.steps) }
        ensures cost { state.new.steps ≤ state.old.steps + turn_work (came self.now) state.old.next
            frame }
        ensures fault_is_true { IfErr result (BreaksFrame (table self.now) (message self.now)
            frame (at_of state.old)) }
    {
        let rest = self.decoder.pass_over(frame, plain, state);
        let Remaining::Rows { first, count } = rest.left else {
            unreachable!()
        };
        self.read_fields(rest, first, count, state)
    }

    /// Reads a struct of a vector, as `read_behind` does. A loop over structs of leaves alone has
    /// no code for other structs in it, and nothing is left of one.
    #[inline(always)]
    pub(crate) fn read_struct_element<const FLAT: bool>(
        &self,
        frame: Frame,
        plain: &Plain,
        known: &Plain,
        state: &mut State<'_, '_>,
    ) -> Result<Option<Frame>, DecodeFault>
        requires frame { FrameFine (table self.now) (came self.now) frame }
        requires start { frame.done ≡ 0 }
        requires passes { Passes (table self.now) (message self.now) frame.left plain.now.rows
            plain.now.first plain.now.count plain.now.done plain.now.flag }
        requires known { IsKnown (table self.now) (message self.now) known.now.rows
            known.now.first known.now.count known.now.done known.now.flag }
        requires leaves { IsTrue FLAT → AreRowsOfLeaves (table self.now) frame.left }
        requires behind { IsTrue FLAT
            → AreLeaves (table self.now) plain.now.first plain.now.count }
        requires holds { Holds self.now state.old }
        requires state { StateFine (message self.now) (at_of state.old) }
        requires ready { CanReadFrame self.now state.old frame }
        requires budget { state.old.steps + turn_work (came self.now) state.old.next frame < 2 ^ 40 }
        ensures holds { Holds self.now state.new }
        ensures ok { IfOk result
            (λ rest. Turns (table self.now) (message self.now)
            frame (at_of state.old) (at_of state.new) (state.new.steps - state.old.steps)
            (record { below = None; rest = rest })) }
        ensures grows { OnOk result (state.old.steps ≤ state.new.steps) }
        ensures ended { IfOk result (λ rest. IfNone rest (state.old.steps < state.new.steps)) }
        ensures cost { state.new.steps ≤ state.old.steps + turn_work (came self.now) state.old.next
            frame }
        ensures fault_is_true { IfErr result (BreaksFrame (table self.now) (message self.now)
            frame (at_of state.old)) }
    {
        if FLAT {
            self.read_struct_of_leaves(frame, plain, state)?;
            return Ok(None);
        }
        self.read_behind(frame, plain, known, state)
    }
}
