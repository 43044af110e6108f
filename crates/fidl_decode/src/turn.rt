//! A turn of the decoder: it reads members of a frame in place, up to one that leads to more than
//! it reads there.
ghost use Rattle.std.specs.Prelude.{◌≡◌, ◌+◌, ◌-◌, ◌^◌, ◌<◌, ◌≤◌, ◌↔◌, OnOk, IfOk, IfErr, Some};
ghost use Rattle.std.specs.Prelude.{None, IsTrue, IsFalse};
ghost use Rattle.fidl_table_format.specs.declared.kind.EntryKind.TheVariants as kinds;
ghost use Rattle.fidl_table_format.specs.Kind.{kind_of};
ghost use Rattle.fidl_table_format.specs.Section.{header_of, entry_at};
ghost use Rattle.fidl_decode_model.specs.declared.frame.Remaining.TheVariants as left;
ghost use Rattle.fidl_decode_model.specs.Invariants.{AreLeaves};
ghost use Rattle.fidl_decode_model.specs.Machine.{StateFine, FrameFine, BreaksFrame, Turns};
ghost use Rattle.fidl_decode_model.specs.Machine.{turn_work, at_of};
ghost use Rattle.fidl_decode.specs.Over.{IsOver};
ghost use Rattle.fidl_decode.specs.Pending.{Leaves};
ghost use Rattle.fidl_decode.specs.Reading.{table, came, message, Holds, CanReadFrame};

use crate::frames::Frames;
use crate::pending::{Pending, is_done};
use fidl_decode_columns::Columns;
use fidl_decode_model::DecodeFault;
use fidl_decode_model::frame::{Frame, Remaining, State, Turn};
use fidl_table_format::EntryKind;

/// So many structs of numbers are read one after another, since to check them member by member
/// costs more before the first of them.
const FEW_STRUCTS: u32 = 2;

/// Whether all of a frame is read, up to its end: nothing is left behind what is below.
pub(crate) fn is_over(frame: &Frame) -> bool
    ensures { IsTrue result ↔ IsOver frame.now }
{
    match frame.left {
        Remaining::Rows { count, .. } => count == 0 && frame.done == frame.size,
        Remaining::Elements { count, .. } => count == 0 && frame.done == frame.size,
        Remaining::Envelopes { .. } | Remaining::Content { .. } => false,
    }
}

impl<'t, 'm, 's> Frames<'t, 'm, 's> {
    /// Reads structs of an array or vector in place, up to a struct that holds more than leaves:
    /// that one, where it stopped, is to be read next. Vectors of structs of leaves have a loop of
    /// their own.
    fn read_structs<const FLAT: bool>(
        &self,
        frame: Frame,
        entry: u32,
        size: usize,
        count: u32,
        state: &mut State<'_, '_>,
    ) -> Result<Pending, DecodeFault>
        requires left { frame.left ≡ left.Elements entry size count }
        requires entry { entry < (header_of (table self.now)).entries }
        requires kind { kind_of (entry_at (table self.now) entry).kind ≡ Some kinds.Struct }
        requires leaves { let e = entry_at (table self.now) entry in
            IsTrue FLAT → AreLeaves (table self.now) e.first e.count }
        requires frame { FrameFine (table self.now) (came self.now) frame }
        requires holds { Holds self.now state.old }
        requires state { StateFine (message self.now) (at_of state.old) }
        requires ready { CanReadFrame self.now state.old frame }
        requires budget { state.old.steps + turn_work (came self.now) state.old.next frame < 2 ^ 40 }
        ensures holds { Holds self.now state.new }
        ensures ok { IfOk result (λ left. Leaves (table self.now) (message self.now) frame
            (at_of state.old) (at_of state.new) (state.new.steps - state.old.steps) left) }
        ensures rises { OnOk result (state.old.steps < state.new.steps) }
        ensures cost { state.new.steps ≤ state.old.steps + turn_work (came self.now) state.old.next
            frame }
        ensures fault_is_true { IfErr result (BreaksFrame (table self.now) (message self.now)
            frame (at_of state.old)) }
    {
        let e = self.decoder.entry(entry);
        let plain = self.decoder.plain_rows(e.first, e.count);
        let known = self.decoder.plain_below(e.first, e.count);
        let mut done = frame.done as usize;
        for i in 0..count {
            let place = frame.base as usize + done;
            let below = Frame {
                left: Remaining::Rows {
                    first: e.first,
                    count: e.count,
                },
                base: place as u32,
                done: 0,
                size: e.size,
                nest: e.nest,
                depth: frame.depth,
                in_envelope: frame.in_envelope,
            };
            state.steps += 1;
            let found = self.read_struct_element::<FLAT>(below, &plain, &known, state)?;
            done += size;
            let Some(inner) = found else {
                continue;
            };
            let turn = self.read_rest(inner, state)?;
            if is_done(&turn) {
                continue;
            }
            return Ok(Pending {
                under: Some(Frame {
                    left: Remaining::Elements {
                        entry,
                        size: size as u32,
                        count: count - (i + 1),
                    },
                    base: frame.base,
                    done: done as u32,
                    size: frame.size,
                    nest: frame.nest,
                    depth: frame.depth,
                    in_envelope: frame.in_envelope,
                }),
                turn,
            });
        }
        let behind = frame.base as usize + done;
        let stop = frame.base as usize + frame.size as usize;
        state.steps += (stop - behind) as u64 + 1;
        self.decoder.zeros_at(behind, stop, state)?;
        Ok(Pending {
            under: None,
            turn: Turn {
                below: None,
                rest: None,
            },
        })
    }

    /// Reads structs of leaves of an array or vector in place, in a loop of their own. It stands out
    /// of line, so that it takes no registers of the loop over other structs.
    #[inline(never)]
    fn read_flat_structs(
        &self,
        frame: Frame,
        entry: u32,
        size: usize,
        count: u32,
        state: &mut State<'_, '_>,
    ) -> Result<Pending, DecodeFault>
        requires left { frame.left ≡ left.Elements entry size count }
        requires entry { entry < (header_of (table self.now)).entries }
        requires kind { kind_of (entry_at (table self.now) entry).kind ≡ Some kinds.Struct }
        requires leaves { let e = entry_at (table self.now) entry in
            AreLeaves (table self.now) e.first e.count }
        requires frame { FrameFine (table self.now) (came self.now) frame }
        requires holds { Holds self.now state.old }
        requires state { StateFine (message self.now) (at_of state.old) }
        requires ready { CanReadFrame self.now state.old frame }
        requires budget { state.old.steps + turn_work (came self.now) state.old.next frame < 2 ^ 40 }
        ensures holds { Holds self.now state.new }
        ensures ok { IfOk result (λ left. Leaves (table self.now) (message self.now) frame
            (at_of state.old) (at_of state.new) (state.new.steps - state.old.steps) left) }
        ensures rises { OnOk result (state.old.steps < state.new.steps) }
        ensures cost { state.new.steps ≤ state.old.steps + turn_work (came self.now) state.old.next
            frame }
        ensures fault_is_true { IfErr result (BreaksFrame (table self.now) (message self.now)
            frame (at_of state.old)) }
    {
        self.read_structs::<true>(frame, entry, size, count, state)
    }

    /// Checks the structs of an array or vector member by member, where their members are numbers
    /// alone. Else nothing is read.
    #[inline(never)]
    fn check_columns(
        &self,
        frame: Frame,
        entry: u32,
        size: usize,
        count: u32,
        state: &mut State<'_, '_>,
    ) -> Result<bool, DecodeFault>
        requires left { frame.left ≡ left.Elements entry size count }
        requires some { 0 < count }
        requires entry { entry < (header_of (table self.now)).entries }
        requires kind { kind_of (entry_at (table self.now) entry).kind ≡ Some kinds.Struct }
        requires frame { FrameFine (table self.now) (came self.now) frame }
        requires holds { Holds self.now state.old }
        requires state { StateFine (message self.now) (at_of state.old) }
        requires ready { CanReadFrame self.now state.old frame }
        requires budget { state.old.steps + turn_work (came self.now) state.old.next frame < 2 ^ 40 }
        ensures holds { Holds self.now state.new }
        ensures ok { IfOk result (λ all. IsTrue all
            → Turns (table self.now) (message self.now) frame
            (at_of state.old) (at_of state.new) (state.new.steps - state.old.steps)
            (record { below = None; rest = None })) }
        ensures rises { IfOk result (λ all. IsTrue all → state.old.steps < state.new.steps) }
        ensures kept { IfOk result (λ all. IsFalse all → state.new ≡ state.old) }
        ensures cost { state.new.steps ≤ state.old.steps + turn_work (came self.now) state.old.next
            frame }
        ensures fault_is_true { IfErr result (BreaksFrame (table self.now) (message self.now)
            frame (at_of state.old)) }
    {
        let columns = Columns {
            table: self.decoder.table,
            links: &state.links,
            handles: self.decoder.handles,
        };
        columns.check_structs(frame, entry, size, count, &mut state.steps)
    }

    /// Whether no struct of an array or vector is read yet, and their members are leaves.
    #[inline(always)]
    fn are_structs_of_leaves(&self, frame: &Frame, entry: u32) -> bool
        requires entry { entry < (header_of (table self.now)).entries }
        requires kind { kind_of (entry_at (table self.now) entry).kind ≡ Some kinds.Struct }
        ensures { let e = entry_at (table self.now) entry in
            IsTrue result → AreLeaves (table self.now) e.first e.count }
    {
        // Structs of leaves are read whole, so none is left to go on with.
        if frame.done != 0 {
            return false;
        }
        let e = self.decoder.entry(entry);
        self.decoder.are_leaves(e.first, e.count)
    }

    /// Reads structs of an array or vector in place: member by member where these are numbers
    /// alone, else up to a struct that holds more than leaves.
    #[inline(always)]
    fn take_structs(
        &self,
        frame: Frame,
        entry: u32,
        size: usize,
        count: u32,
        state: &mut State<'_, '_>,
    ) -> Result<Pending, DecodeFault>
        requires left { frame.left ≡ left.Elements entry size count }
        requires some { 0 < count }
        requires entry { entry < (header_of (table self.now)).entries }
        requires kind { kind_of (entry_at (table self.now) entry).kind ≡ Some kinds.Struct }
        requires frame { FrameFine (table self.now) (came self.now) frame }
        requires holds { Holds self.now state.old }
        requires state { StateFine (message self.now) (at_of state.old) }
        requires ready { CanReadFrame self.now state.old frame }
        requires budget { state.old.steps + turn_work (came self.now) state.old.next frame < 2 ^ 40 }
        ensures holds { Holds self.now state.new }
        ensures ok { IfOk result (λ left. Leaves (table self.now) (message self.now) frame
            (at_of state.old) (at_of state.new) (state.new.steps - state.old.steps) left) }
        ensures rises { OnOk result (state.old.steps < state.new.steps) }
        ensures cost { state.new.steps ≤ state.old.steps + turn_work (came self.now) state.old.next
            frame }
        ensures fault_is_true { IfErr result (BreaksFrame (table self.now) (message self.now)
            frame (at_of state.old)) }
    {
        // Structs of numbers are read whole, so none is left to go on with.
        if frame.done == 0
            && count > FEW_STRUCTS
            && self.check_columns(frame, entry, size, count, state)?
        {
            return Ok(Pending {
                under: None,
                turn: Turn {
                    below: None,
                    rest: None,
                },
            });
        }
        if self.are_structs_of_leaves(&frame, entry) {
            return self.read_flat_structs(frame, entry, size, count, state);
        }
        self.read_structs::<false>(frame, entry, size, count, state)
    }

    /// Reads elements of an array or vector in place, up to one that holds more than is read there.
    #[inline(always)]
    pub(crate) fn take_elements(
        &self,
        frame: Frame,
        entry: u32,
        size: usize,
        count: u32,
        state: &mut State<'_, '_>,
    ) -> Result<Pending, DecodeFault>
        requires left { frame.left ≡ left.Elements entry size count }
        requires frame { FrameFine (table self.now) (came self.now) frame }
        requires holds { Holds self.now state.old }
        requires state { StateFine (message self.now) (at_of state.old) }
        requires ready { CanReadFrame self.now state.old frame }
        requires budget { state.old.steps + turn_work (came self.now) state.old.next frame < 2 ^ 40 }
        ensures holds { Holds self.now state.new }
        ensures ok { IfOk result (λ left. Leaves (table self.now) (message self.now) frame
            (at_of state.old) (at_of state.new) (state.new.steps - state.old.steps) left) }
        ensures rises { OnOk result (state.old.steps < state.new.steps) }
        ensures cost { state.new.steps ≤ state.old.steps + turn_work (came self.now) state.old.next
            frame }
        ensures fault_is_true { IfErr result (BreaksFrame (table self.now) (message self.now)
            frame (at_of state.old)) }
    {
        if count == 0 {
            let turn = self.read_items::<false>(frame, entry, size, count, state)?;
            return Ok(Pending { under: None, turn });
        }
        let e = self.decoder.entry(entry);
        let turn = match EntryKind::from_number(e.kind) {
            Some(EntryKind::Struct) => return self.take_structs(frame, entry, size, count, state),
            Some(EntryKind::Table) => self.read_items::<true>(frame, entry, size, count, state)?,
            _ => self.read_items::<false>(frame, entry, size, count, state)?,
        };
        Ok(Pending { under: None, turn })
    }

    /// Reads a frame in place, and what it holds, up to a frame that holds another: that one, where
    /// it stopped, is to be read next. The last object that a frame holds takes its place.
    pub(crate) fn take_turn(
        &self,
        frame: Frame,
        state: &mut State<'_, '_>,
    ) -> Result<Pending, DecodeFault>
        requires frame { FrameFine (table self.now) (came self.now) frame }
        requires holds { Holds self.now state.old }
        requires state { StateFine (message self.now) (at_of state.old) }
        requires ready { CanReadFrame self.now state.old frame }
        requires budget { state.old.steps + turn_work (came self.now) state.old.next frame < 2 ^ 40 }
        ensures holds { Holds self.now state.new }
        ensures ok { IfOk result (λ left. Leaves (table self.now) (message self.now) frame
            (at_of state.old) (at_of state.new) (state.new.steps - state.old.steps) left) }
        ensures rises { OnOk result (state.old.steps < state.new.steps) }
        ensures cost { state.new.steps ≤ state.old.steps + turn_work (came self.now) state.old.next
            frame }
        ensures fault_is_true { IfErr result (BreaksFrame (table self.now) (message self.now)
            frame (at_of state.old)) }
    {
        let mut rest = frame;
        loop {
            let Some(now) = self.read_next_leaves(rest, state)? else {
                return Ok(Pending {
                    under: None,
                    turn: Turn {
                        below: None,
                        rest: None,
                    },
                });
            };
            let left = self.take_member(now, state)?;
            let None = left.under else {
                return Ok(left);
            };
            let turn = left.turn;
            let Some(after) = turn.rest else {
                return Ok(Pending { under: None, turn });
            };
            if is_over(&after) {
                let Some(below) = turn.below else {
                    return Ok(Pending {
                        under: None,
                        turn: Turn {
                            below: None,
                            rest: None,
                        },
                    });
                };
                rest = below;
                continue;
            }
            let Some(below) = turn.below else {
                rest = after;
                continue;
            };
            let Some(inner) = self.read_next_leaves(below, state)? else {
                rest = after;
                continue;
            };
            return Ok(Pending {
                under: None,
                turn: Turn {
                    below: Some(inner),
                    rest: Some(after),
                },
            });
        }
    }
}
