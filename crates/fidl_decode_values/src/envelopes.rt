//! Envelopes: the three numbers of one, and the member that it holds, in it or as the next object.
ghost use Rattle.std.specs.Prelude.{◌≡◌, ◌⊎◌, ◌+◌, ◌-◌, ◌*◌, ◌%◌, ◌<◌, ◌≤◌, ◌↔◌, IfOk, IfErr, OnOk};
ghost use Rattle.std.specs.Prelude.{ℕ, Some, None, length, slice_get};
ghost use Rattle.fidl_limits.specs.declared.limits.TheConstants.{MAX_DEPTH};
ghost use Rattle.fidl_wire.specs.declared.handle.HandleInfo.{HandleInfo};
ghost use Rattle.fidl_wire.specs.Typed.{IsHandle};
ghost use Rattle.fidl_wire.specs.Term as ty;
ghost use Rattle.fidl_table_format.specs.Section.{header_of, entry_at};
ghost use Rattle.fidl_table_format.specs.Terms.{declarations_of};
ghost use Rattle.fidl_decode_model.specs.declared.fault.DecodeFault.{DecodeFault};
ghost use Rattle.fidl_decode_model.specs.declared.frame.Remaining.TheVariants as left;
ghost use Rattle.fidl_decode_model.specs.declared.frame.Until.{Until};
ghost use Rattle.fidl_decode_model.specs.Envelopes.{Contained};
ghost use Rattle.fidl_decode_model.specs.Breaks.{BreaksMember};
ghost use Rattle.fidl_decode_model.specs.State.{Position};
ghost use Rattle.fidl_decode_model.specs.Machine.{Reads, BreaksFrame, FrameFine, StateFine, at_of};
ghost use Rattle.fidl_decode_model.specs.Machine.{level, height, most_nest, inline_work};
ghost use Rattle.fidl_decode_model.specs.Machine.{frame_work};
ghost use Rattle.fidl_decode_model.specs.Worth.{ReadsWorth, ContainedWorth};
ghost use Rattle.fidl_decode_model.specs.Frontier.{IsAhead, CanRead, Moves};
ghost use Rattle.fidl_decode_values.specs.Reading.{came, message, Holds};
ghost use Rattle.fidl_decode_values.specs.Ready.{CanReadPlace};

use crate::decoder::Decoder;
use fidl_decode_model::DecodeFault;
use fidl_decode_model::frame::{Frame, Remaining, State, Until};
use fidl_table_format::Entry;
use fidl_wire::{HandleInfo, MAX_DEPTH, MAX_MESSAGE_BYTES, MAX_MESSAGE_HANDLES};

/// The frame of the content of an envelope, which is one value of an entry, and zeros behind it.
fn content_frame(
    entry: u32,
    content: &Entry,
    until: Until,
    base: usize,
    size: usize,
    depth: u8,
    in_envelope: u8,
) -> Frame
    requires nest { content.now.nest < 255 }
    requires near { base ≤ MAX_MESSAGE_BYTES }
    requires small { size ≤ MAX_MESSAGE_BYTES }
    ensures { result ≡ record {
      left = left.Content entry content.now.size 1 until;
      base = base;
      done = 0;
      size = size;
      nest = content.now.nest + 1;
      depth = depth;
      in_envelope = in_envelope;
    } }
{
    let left = Remaining::Content {
        entry,
        size: content.size,
        count: 1,
        until,
    };
    Frame {
        left,
        base: base as u32,
        done: 0,
        size: size as u32,
        nest: content.nest + 1,
        depth,
        in_envelope,
    }
}

/// The numbers of a record have 32 bits.
fn is_handle(info: HandleInfo)
    ensures { IsHandle info }
{}

/// Reads so many records from one on, so that their numbers are known to have 32 bits.
fn are_handles(handles: &[HandleInfo], from: usize, count: usize)
    requires { from + count ≤ length handles.now }
    ensures { (i : ℕ) → (h : HandleInfo) → from ≤ i → i < from + count
        → slice_get handles.now i ≡ Some h → IsHandle h }
{
    for i in from..from + count {
        is_handle(handles[i]);
    }
}

impl<'t, 'm, 's> Decoder<'t, 'm, 's> {
    /// Reads the numbers of the envelope at a place, which holds a known member: its content, in
    /// the envelope or linked as the next object, is left to read.
    #[inline(always)]
    pub fn enter_member(
        &self,
        entry: u32,
        envelope: usize,
        depth: u8,
        state: &mut State<'_, '_>,
    ) -> Result<Frame, DecodeFault>
        requires entry { entry < (header_of self.now.table.now).entries }
        requires room { envelope + 8 ≤ length (came self.now) }
        requires holds { Holds self.now state.old }
        requires state { StateFine (message self.now) (at_of state.old) }
        requires ready { CanReadPlace self.now state.old envelope 8 8 }
        requires depth { depth ≤ MAX_DEPTH }
        ensures holds { Holds self.now state.new }
        ensures ok { IfOk result (λ frame. (to : Position) → Contained
            (declarations_of self.now.table.now) (message self.now) depth (Some (ty.named entry))
            envelope (at_of state.old) to ↔ Reads self.now.table.now (message self.now) frame
            (at_of state.new) to) }
        ensures breaks { IfOk result (λ frame. (fault : DecodeFault) → BreaksFrame
            self.now.table.now (message self.now) frame (at_of state.new) fault → BreaksMember
            (declarations_of self.now.table.now) (message self.now) depth (Some (ty.named entry))
            envelope (at_of state.old) fault) }
        ensures least { IfOk result (λ frame. (to : Position) → (w : ℕ) → ReadsWorth
            self.now.table.now (message self.now) frame (at_of state.new) to w → ContainedWorth
            (declarations_of self.now.table.now) (message self.now) depth (Some (ty.named entry))
            envelope (at_of state.old) to w) }
        ensures moves { IfOk result (λ frame. IsAhead (message self.now) (at_of state.old)
            → CanRead (at_of state.old) envelope 8 → envelope % 8 ≡ 0
            → Moves self.now.table.now (message self.now) envelope (envelope + 8)
            (at_of state.old) (at_of state.new) (Some frame) None) }
        ensures fine { IfOk result (λ frame. FrameFine self.now.table.now (came self.now) frame) }
        ensures deeper { IfOk result (λ frame. level depth 1 most_nest ≤ height frame) }
        ensures left { IfOk result (λ frame. (until : Until) × (frame.left ≡ left.Content entry
            (entry_at self.now.table.now entry).size 1 until)) }
        ensures state { StateFine (message self.now) (at_of state.new) }
        ensures fault_is_true { IfErr result (BreaksMember (declarations_of self.now.table.now)
            (message self.now) depth (Some (ty.named entry)) envelope (at_of state.old)) }
        ensures steps { state.new.steps ≡ state.old.steps }
        ensures grows { state.old.next ≤ state.new.next }
        ensures work { IfOk result (λ frame.
            ((state.new.next ≡ state.old.next)
            × (frame_work frame ≤ inline_work most_nest * 4 + 1))
            ⊎ (frame_work frame
            ≤ inline_work most_nest * (state.new.next - state.old.next) + 1)) }
    {
        let content = self.entry(entry);
        let counted = self.byte_count_at(envelope, state) as usize;
        let handles = self.handle_count_at(envelope, state) as usize;
        let flags = self.flags_at(envelope, state);
        let size = content.size as usize;
        let next = state.next;
        if size <= 4 {
            if flags != 1 {
                return Err(DecodeFault::BadEnvelope { at: envelope });
            }
            if handles > MAX_MESSAGE_HANDLES {
                return Err(DecodeFault::WrongCounts { at: envelope });
            }
            state.links.link_inside(envelope, state.handle);
            let until = Until {
                envelope: envelope as u32,
                next: next as u32,
                handle: (state.handle + handles) as u32,
            };
            return Ok(content_frame(entry, &content, until, envelope, 4, depth, 1));
        }
        if flags != 0 || counted == 0 || counted % 8 != 0 {
            return Err(DecodeFault::BadEnvelope { at: envelope });
        }
        if depth as usize == MAX_DEPTH {
            return Err(DecodeFault::TooDeep { at: envelope });
        }
        let whole = size.next_multiple_of(8);
        if whole > self.size - next {
            return Err(DecodeFault::Truncated { at: next });
        }
        if handles > MAX_MESSAGE_HANDLES || counted > MAX_MESSAGE_BYTES {
            return Err(DecodeFault::WrongCounts { at: envelope });
        }
        state.links.link_outside(envelope, next, state.handle);
        state.next = next + whole;
        let until = Until {
            envelope: envelope as u32,
            next: (next + counted) as u32,
            handle: (state.handle + handles) as u32,
        };
        Ok(content_frame(entry, &content, until, next, whole, depth + 1, 0))
    }

    /// Reads the numbers of the envelope at a place, which holds an unknown member, and skips what
    /// it counts: bytes, in it or the next ones out of line, and handles.
    pub fn skip_member(
        &self,
        envelope: usize,
        depth: u8,
        state: &mut State<'_, '_>,
    ) -> Result<(), DecodeFault>
        requires room { envelope + 8 ≤ length (came self.now) }
        requires holds { Holds self.now state.old }
        requires state { StateFine (message self.now) (at_of state.old) }
        requires ready { CanReadPlace self.now state.old envelope 8 8 }
        requires depth { depth ≤ MAX_DEPTH }
        ensures holds { Holds self.now state.new }
        ensures ok { OnOk result ((to : Position) → Contained (declarations_of self.now.table.now)
            (message self.now) depth None envelope (at_of state.old) to ↔ (at_of state.new ≡ to)) }
        ensures state { StateFine (message self.now) (at_of state.new) }
        ensures fault_is_true { IfErr result (BreaksMember (declarations_of self.now.table.now)
            (message self.now) depth None envelope (at_of state.old)) }
        ensures steps { state.new.steps ≡ state.old.steps }
        ensures grows { state.old.next ≤ state.new.next }
    {
        let counted = self.byte_count_at(envelope, state) as usize;
        let handles = self.handle_count_at(envelope, state) as usize;
        let flags = self.flags_at(envelope, state);
        if flags == 1 {
            if handles > self.handles.len() - state.handle {
                return Err(DecodeFault::HandleMissing { at: envelope });
            }
            are_handles(self.handles, state.handle, handles);
            state.links.link_inside(envelope, state.handle);
            state.handle += handles;
            return Ok(());
        }
        if flags != 0 || counted == 0 || counted % 8 != 0 {
            return Err(DecodeFault::BadEnvelope { at: envelope });
        }
        if depth as usize == MAX_DEPTH {
            return Err(DecodeFault::TooDeep { at: envelope });
        }
        let next = state.next;
        if counted > self.size - next {
            return Err(DecodeFault::Truncated { at: next });
        }
        if handles > self.handles.len() - state.handle {
            return Err(DecodeFault::HandleMissing { at: envelope });
        }
        are_handles(self.handles, state.handle, handles);
        state.links.link_outside(envelope, next, state.handle);
        state.next = next + counted;
        state.handle += handles;
        Ok(())
    }
}
