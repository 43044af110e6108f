//! Envelopes of texts of ASCII, which are passed over: their numbers, counts and markers, and their
//! bytes, eight at a time.
ghost use Rattle.std.specs.Prelude.{◌≡◌, ◌+◌, ◌-◌, ◌^◌, ◌%◌, ◌<◌, ◌≤◌, IsTrue, IsFalse, Some, None};
ghost use Rattle.std.specs.Prelude.{ℕ, length, slice_index};
ghost use Rattle.fidl_limits.specs.declared.limits.TheConstants.{MAX_DEPTH, MAX_MESSAGE_BYTES};
ghost use Rattle.fidl_wire.specs.Term as ty;
ghost use Rattle.fidl_table_format.specs.declared.kind.EntryKind.TheVariants as kinds;
ghost use Rattle.fidl_table_format.specs.Kind.{kind_of};
ghost use Rattle.fidl_table_format.specs.Section.{header_of, entry_at};
ghost use Rattle.fidl_decode_model.specs.Machine.{StateFine, Opens, at_of};
ghost use Rattle.fidl_decode_values.specs.Reading.{came, message, Holds};
ghost use Rattle.fidl_decode_values.specs.Ready.{CanReadPlace};

use crate::decoder::Decoder;
use fidl_decode_model::frame::State;
use fidl_wire::{MAX_DEPTH, u64_at};

/// The high bits of eight bytes.
const HIGH_BITS: u64 = 0x8080_8080_8080_8080;

/// Whether so many bytes from a place on, whose number is a multiple of eight, are ASCII.
#[inline(always)]
pub(crate) fn are_ascii(bytes: &[u8], from: usize, size: usize) -> bool
    requires eights { size % 8 ≡ 0 }
    requires room { from + size ≤ length bytes.now }
    requires short { length bytes.now ≤ MAX_MESSAGE_BYTES }
    ensures { IsTrue result → (k : ℕ) → k < size → slice_index bytes.now (from + k) < 128 }
{
    let mut at = from;
    let end = from + size;
    while at != end {
        if u64_at(bytes, at) & HIGH_BITS != 0 {
            return false;
        }
        at += 8;
    }
    true
}

impl<'t, 'm, 's> Decoder<'t, 'm, 's> {
    /// Passes over the envelope at a place, whose member is a text of ASCII that is there, where
    /// its
    /// numbers are right. Else nothing is read.
    #[inline(always)]
    pub fn pass_text(
        &self,
        entry: u32,
        envelope: usize,
        depth: u8,
        state: &mut State<'_, '_>,
    ) -> bool
        requires entry { entry < (header_of self.now.table.now).entries }
        requires kind { kind_of (entry_at self.now.table.now entry).kind ≡ Some kinds.String }
        requires room { envelope + 8 ≤ length (came self.now) }
        requires holds { Holds self.now state.old }
        requires state { StateFine (message self.now) (at_of state.old) }
        requires ready { CanReadPlace self.now state.old envelope 8 8 }
        requires depth { depth ≤ MAX_DEPTH }
        requires budget { state.old.steps < 2 ^ 44 }
        ensures holds { Holds self.now state.new }
        ensures passed { IsTrue result → Opens self.now.table.now (message self.now) depth (Some
            (ty.named entry)) envelope (at_of state.old) (at_of state.new)
            (state.new.steps - state.old.steps) None }
        ensures kept { IsFalse result → at_of state.new ≡ at_of state.old }
        ensures grows { state.old.steps ≤ state.new.steps }
        ensures pays { state.new.steps + state.old.next ≤ state.old.steps + state.new.next }
    {
        let bound = self.entry(entry).bound;
        let counted = self.u64_at(envelope, state);
        let next = state.next;
        let rest = (self.size - next) as u64;
        if counted < 16 || counted > rest || depth as usize + 1 >= MAX_DEPTH {
            return false;
        }
        let count = self.u64_at(next, state);
        if count > bound || count > rest || !self.is_present(next + 8, state) {
            return false;
        }
        let behind = count as usize;
        let size = behind.next_multiple_of(8);
        if counted as usize != 16 + size {
            return false;
        }
        let from = next + 16;
        if !self.are_ascii(from, size, state) {
            return false;
        }
        if self.padding_at(from + behind, from + size, state).is_err() {
            return false;
        }
        state.steps += size as u64;
        state.links.link_outside(envelope, next, state.handle);
        state.links.link_marker(next + 8, from);
        state.next = from + size;
        true
    }
}
