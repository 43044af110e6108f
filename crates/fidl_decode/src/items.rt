//! The elements of an array or vector, each read in place with what it leads to. The members of the
//! tables of a long vector are looked up once.
ghost use Rattle.std.specs.Prelude.{◌≡◌, ◌+◌, ◌-◌, ◌^◌, ◌<◌, ◌≤◌, OnOk, IfOk, IfErr, Some, IsTrue};
ghost use Rattle.std.specs.Prelude.{None, IsFalse, length};
ghost use Rattle.fidl_limits.specs.declared.limits.TheConstants.{MAX_DEPTH};
ghost use Rattle.fidl_wire.specs.Term as ty;
ghost use Rattle.fidl_wire.specs.Term.{resolve};
ghost use Rattle.fidl_table_format.specs.declared.kind.EntryKind.TheVariants as kinds;
ghost use Rattle.fidl_table_format.specs.Kind.{kind_of};
ghost use Rattle.fidl_table_format.specs.Section.{header_of, entry_at};
ghost use Rattle.fidl_table_format.specs.Terms.{declarations_of};
ghost use Rattle.fidl_decode_model.specs.Breaks.{Breaks};
ghost use Rattle.fidl_decode_model.specs.declared.frame.Remaining.TheVariants as left;
ghost use Rattle.fidl_decode_model.specs.Machine.{StateFine, FrameFine, BreaksFrame, Turns};
ghost use Rattle.fidl_decode_model.specs.Machine.{IsInside, Visits, VisitFine, turn_work};
ghost use Rattle.fidl_decode_model.specs.Machine.{value_work, at_of};
ghost use Rattle.fidl_decode.specs.Reading.{table, came, message, Holds, CanReadFrame};
ghost use Rattle.fidl_decode.specs.Reading.{CanReadValue};

use crate::frames::Frames;
use crate::kinds::UNION;
use fidl_decode_members::Members;
use fidl_decode_model::DecodeFault;
use fidl_decode_model::frame::{Frame, Remaining, State, Turn};

/// The frame of the elements behind those that are read: so many, from so far on.
#[inline(always)]
pub(crate) fn elements_behind(frame: &Frame, entry: u32, size: u32, count: u32, done: u32) -> Frame
    ensures { result ≡ record {
      left = left.Elements entry size count;
      base = frame.now.base;
      done = done;
      size = frame.now.size;
      nest = frame.now.nest;
      depth = frame.now.depth;
      in_envelope = frame.now.in_envelope;
    } }
{
    Frame {
        left: Remaining::Elements { entry, size, count },
        base: frame.base,
        done,
        size: frame.size,
        nest: frame.nest,
        depth: frame.depth,
        in_envelope: frame.in_envelope,
    }
}

impl<'t, 'm, 's> Frames<'t, 'm, 's> {
    /// Reads a value at a place, and what it leads to where that is read in place. What is left of
    /// it, if anything, is to be read next.
    #[inline(always)]
    fn read_item(
        &self,
        entry: u32,
        place: usize,
        depth: u8,
        in_envelope: u8,
        state: &mut State<'_, '_>,
    ) -> Result<Option<Frame>, DecodeFault>
        requires entry { entry < (header_of (table self.now)).entries }
        requires room { place + (entry_at (table self.now) entry).size ≤ length (came self.now) }
        requires holds { Holds self.now state.old }
        requires state { StateFine (message self.now) (at_of state.old) }
        requires ready { CanReadValue self.now state.old entry place }
        requires depth { depth ≤ MAX_DEPTH }
        requires in_envelope { IsInside in_envelope (entry_at (table self.now) entry).size }
        requires budget { state.old.steps + value_work (came self.now) state.old.next
            (entry_at (table self.now) entry) < 2 ^ 40 }
        ensures holds { Holds self.now state.new }
        ensures ok { IfOk result (λ found. Visits (table self.now) (message self.now) depth entry
            place (at_of state.old) (at_of state.new) (state.new.steps - state.old.steps) found) }
        ensures fine { IfOk result (VisitFine (table self.now) (message self.now) depth
            in_envelope entry) }
        ensures grows { OnOk result (state.old.steps ≤ state.new.steps) }
        ensures cost { state.new.steps ≤ state.old.steps + value_work (came self.now)
            state.old.next (entry_at (table self.now) entry) }
        ensures fault_is_true { IfErr result (Breaks (declarations_of (table self.now))
            (message self.now) depth (resolve (declarations_of (table self.now)).terms
            (ty.named entry)) place (at_of state.old)) }
    {
        let Some(below) = self.decoder.visit(entry, place, depth, in_envelope, state)? else {
            return Ok(None);
        };
        self.read_leaves(below, state)
    }

    /// Passes over a union at a place, where it can be passed over. Else nothing is read.
    #[inline(always)]
    fn pass_item(&self, entry: u32, place: usize, depth: u8, state: &mut State<'_, '_>) -> bool
        requires entry { entry < (header_of (table self.now)).entries }
        requires room { place + (entry_at (table self.now) entry).size ≤ length (came self.now) }
        requires holds { Holds self.now state.old }
        requires state { StateFine (message self.now) (at_of state.old) }
        requires ready { CanReadValue self.now state.old entry place }
        requires depth { depth ≤ MAX_DEPTH }
        requires budget { state.old.steps < 2 ^ 40 }
        ensures holds { Holds self.now state.new }
        ensures passed { IsTrue result → Visits (table self.now) (message self.now) depth entry
            place (at_of state.old) (at_of state.new) (state.new.steps - state.old.steps) None }
        ensures kept { IsFalse result → at_of state.new ≡ at_of state.old }
        ensures uncounted { IsFalse result → state.new.steps ≡ state.old.steps }
        ensures grows { state.old.steps ≤ state.new.steps }
        ensures pays { state.new.steps + state.old.next ≤ state.old.steps + state.new.next + 2 }
    {
        if self.decoder.entry(entry).kind != UNION {
            return false;
        }
        self.decoder.pass_value(entry, place, place, depth, state)
    }

    /// Reads an element at a place, as `read_item` does. A loop over tables alone has no code for
    /// other values in it.
    #[inline(always)]
    fn read_element<const TABLES: bool>(
        &self,
        entry: u32,
        place: usize,
        depth: u8,
        in_envelope: u8,
        state: &mut State<'_, '_>,
    ) -> Result<Option<Frame>, DecodeFault>
        requires entry { entry < (header_of (table self.now)).entries }
        requires kind { IsTrue TABLES
            → kind_of (entry_at (table self.now) entry).kind ≡ Some kinds.Table }
        requires room { place + (entry_at (table self.now) entry).size ≤ length (came self.now) }
        requires holds { Holds self.now state.old }
        requires state { StateFine (message self.now) (at_of state.old) }
        requires ready { CanReadValue self.now state.old entry place }
        requires depth { depth ≤ MAX_DEPTH }
        requires in_envelope { IsInside in_envelope (entry_at (table self.now) entry).size }
        requires budget { state.old.steps + value_work (came self.now) state.old.next
            (entry_at (table self.now) entry) < 2 ^ 40 }
        ensures holds { Holds self.now state.new }
        ensures ok { IfOk result (λ found. Visits (table self.now) (message self.now) depth entry
            place (at_of state.old) (at_of state.new) (state.new.steps - state.old.steps) found) }
        ensures fine { IfOk result (VisitFine (table self.now) (message self.now) depth
            in_envelope entry) }
        ensures grows { OnOk result (state.old.steps ≤ state.new.steps) }
        ensures cost { state.new.steps ≤ state.old.steps + value_work (came self.now)
            state.old.next (entry_at (table self.now) entry) }
        ensures fault_is_true { IfErr result (Breaks (declarations_of (table self.now))
            (message self.now) depth (resolve (declarations_of (table self.now)).terms
            (ty.named entry)) place (at_of state.old)) }
    {
        if TABLES {
            return self.decoder.read_table(entry, place, depth, state);
        }
        if self.pass_item(entry, place, depth, state) {
            return Ok(None);
        }
        self.read_item(entry, place, depth, in_envelope, state)
    }

    /// Reads elements of an array or vector in place, up to one of which something is left: that is
    /// to be read next. Vectors of tables have a loop of their own.
    #[inline(never)]
    pub(crate) fn read_items<const TABLES: bool>(
        &self,
        frame: Frame,
        entry: u32,
        size: usize,
        count: u32,
        state: &mut State<'_, '_>,
    ) -> Result<Turn, DecodeFault>
        requires left { frame.left ≡ left.Elements entry size count }
        requires kind { IsTrue TABLES
            → kind_of (entry_at (table self.now) entry).kind ≡ Some kinds.Table }
        requires frame { FrameFine (table self.now) (came self.now) frame }
        requires holds { Holds self.now state.old }
        requires state { StateFine (message self.now) (at_of state.old) }
        requires ready { CanReadFrame self.now state.old frame }
        requires budget { state.old.steps + turn_work (came self.now) state.old.next frame < 2 ^ 40 }
        ensures holds { Holds self.now state.new }
        ensures ok { IfOk result (λ turn. Turns (table self.now) (message self.now) frame
            (at_of state.old) (at_of state.new) (state.new.steps - state.old.steps) turn) }
        ensures rises { OnOk result (state.old.steps < state.new.steps) }
        ensures cost { state.new.steps ≤ state.old.steps + turn_work (came self.now) state.old.next
            frame }
        ensures fault_is_true { IfErr result (BreaksFrame (table self.now) (message self.now)
            frame (at_of state.old)) }
    {
        // A copy, so that writing a link is known to leave it.
        let own = frame;
        let mut done = own.done as usize;
        for i in 0..count {
            // Behind as many tables as there are members to look up, so that this costs each little.
            if TABLES && i == self.decoder.entry(entry).count {
                if let Some(members) = Members::look_up(&self.decoder, entry) {
                    let rest = elements_behind(&own, entry, size as u32, count - i, done as u32);
                    let turn = self.read_tables(&members, rest, size, count - i, state)?;
                    return Ok(turn);
                }
            }
            let place = own.base as usize + done;
            state.steps += 1;
            done += size;
            let found = self.read_element::<TABLES>(
                entry,
                place,
                own.depth,
                own.in_envelope,
                state,
            )?;
            if let Some(inner) = found {
                let left = count - (i + 1);
                return Ok(Turn {
                    below: Some(inner),
                    rest: Some(elements_behind(&own, entry, size as u32, left, done as u32)),
                });
            }
        }
        let behind = own.base as usize + done;
        let stop = own.base as usize + own.size as usize;
        state.steps += (stop - behind) as u64 + 1;
        self.decoder.zeros_at(behind, stop, state)?;
        Ok(Turn {
            below: None,
            rest: None,
        })
    }
}
