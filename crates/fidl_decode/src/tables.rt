//! The tables of a vector, read by their members, which are noted.
ghost use Rattle.std.specs.Prelude.{◌≡◌, ◌-◌, ◌^◌, ◌<◌, ◌+◌, ◌≤◌, OnOk, IfOk, IfErr};
ghost use Rattle.fidl_decode_model.specs.declared.frame.Remaining.TheVariants as left;
ghost use Rattle.fidl_decode_model.specs.Machine.{StateFine, FrameFine, BreaksFrame, Turns};
ghost use Rattle.fidl_decode_model.specs.Machine.{turn_work, at_of};
ghost use Rattle.fidl_decode_members.specs.Members.{AreMembers};
ghost use Rattle.fidl_decode.specs.Reading.{table, came, message, Holds, CanReadFrame};

use crate::frames::Frames;
use crate::items::elements_behind;
use fidl_decode_members::Members;
use fidl_decode_model::DecodeFault;
use fidl_decode_model::frame::{Frame, State, Turn};
use fidl_decode_values::envelopes_left;

impl<'t, 'm, 's> Frames<'t, 'm, 's> {
    /// Reads tables of a vector in place, up to one of which something is left: that is to be read
    /// next.
    #[inline(never)]
    pub(crate) fn read_tables(
        &self,
        members: &Members,
        frame: Frame,
        size: usize,
        count: u32,
        state: &mut State<'_, '_>,
    ) -> Result<Turn, DecodeFault>
        requires members { AreMembers (table self.now) (message self.now) members.now }
        requires left { frame.left ≡ left.Elements members.now.entry size count }
        requires frame { FrameFine (table self.now) (came self.now) frame }
        requires holds { Holds self.now state.old }
        requires state { StateFine (message self.now) (at_of state.old) }
        requires ready { CanReadFrame self.now state.old frame }
        requires budget { state.old.steps + turn_work (came self.now) state.old.next frame < 2 ^ 40 }
        ensures holds { Holds self.now state.new }
        ensures ok { IfOk result (λ turn. Turns (table self.now) (message self.now) frame
            (at_of state.old) (at_of state.new) (state.new.steps - state.old.steps) turn) }
        ensures rises { OnOk result (state.old.steps < state.new.steps) }
        ensures cost { state.new.steps ≤ state.old.steps + turn_work (came self.now) state.old.next
            frame }
        ensures fault_is_true { IfErr result (BreaksFrame (table self.now) (message self.now)
            frame (at_of state.old)) }
    {
        // A copy, so that writing a link is known to leave it.
        let own = frame;
        let mut done = own.done as usize;
        for i in 0..count {
            let place = own.base as usize + done;
            state.steps += 1;
            done += size;
            let opened = members.read_table(&self.decoder, place, own.depth, state)?;
            if opened.read != opened.count {
                let entry = members.entry();
                let left = count - (i + 1);
                return Ok(Turn {
                    below: Some(envelopes_left(
                        entry,
                        opened.base,
                        opened.count,
                        opened.read,
                        own.depth + 1,
                    )),
                    rest: Some(elements_behind(&own, entry, size as u32, left, done as u32)),
                });
            }
        }
        let behind = own.base as usize + done;
        let stop = own.base as usize + own.size as usize;
        state.steps += (stop - behind) as u64 + 1;
        self.decoder.zeros_at(behind, stop, state)?;
        Ok(Turn {
            below: None,
            rest: None,
        })
    }
}
