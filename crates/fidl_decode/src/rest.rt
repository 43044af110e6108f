//! The rest of a struct, behind its first members.
ghost use Rattle.std.specs.Prelude.{◌≡◌, ◌+◌, ◌-◌, ◌^◌, ◌<◌, ◌≤◌, OnOk, IfOk, IfErr};
ghost use Rattle.fidl_decode_model.specs.Machine.{StateFine, FrameFine, BreaksFrame, Turns};
ghost use Rattle.fidl_decode_model.specs.Machine.{turn_work, at_of};
ghost use Rattle.fidl_decode.specs.Reading.{table, came, message, Holds, CanReadFrame};

use crate::frames::Frames;
use crate::turn::is_over;
use fidl_decode_model::DecodeFault;
use fidl_decode_model::frame::{Frame, Remaining, State, Turn};

impl<'t, 'm, 's> Frames<'t, 'm, 's> {
    /// Reads the rows that are left of a struct in place, and what they lead to where that is leaves
    /// alone, up to a row that leads to more.
    #[inline(never)]
    pub(crate) fn read_rest(
        &self,
        frame: Frame,
        state: &mut State<'_, '_>,
    ) -> Result<Turn, DecodeFault>
        requires frame { FrameFine (table self.now) (came self.now) frame }
        requires holds { Holds self.now state.old }
        requires state { StateFine (message self.now) (at_of state.old) }
        requires ready { CanReadFrame self.now state.old frame }
        requires budget { state.old.steps + turn_work (came self.now) state.old.next frame < 2 ^ 40 }
        ensures holds { Holds self.now state.new }
        ensures ok { IfOk result (λ turn. Turns (table self.now) (message self.now) frame
            (at_of state.old) (at_of state.new) (state.new.steps - state.old.steps) turn) }
        ensures grows { OnOk result (state.old.steps ≤ state.new.steps) }
        ensures cost { state.new.steps ≤ state.old.steps + turn_work (came self.now) state.old.next
            frame }
        ensures fault_is_true { IfErr result (BreaksFrame (table self.now) (message self.now)
            frame (at_of state.old)) }
    {
        let mut rest = frame;
        loop {
            let Some(now) = self.read_next_leaves(rest, state)? else {
                return Ok(Turn {
                    below: None,
                    rest: None,
                });
            };
            let Remaining::Rows { first, count } = now.left else {
                return Ok(Turn {
                    below: None,
                    rest: Some(now),
                });
            };
            let turn = self.take_row(now, first, count, state)?;
            let Some(after) = turn.rest else {
                return Ok(turn);
            };
            if is_over(&after) {
                let Some(below) = turn.below else {
                    return Ok(Turn {
                        below: None,
                        rest: None,
                    });
                };
                rest = below;
                continue;
            }
            let Some(below) = turn.below else {
                rest = after;
                continue;
            };
            let Some(inner) = self.read_next_leaves(below, state)? else {
                rest = after;
                continue;
            };
            return Ok(Turn {
                below: Some(inner),
                rest: Some(after),
            });
        }
    }
}
