//! Tables: a count and a marker, and the envelopes, which are the next object.
ghost use Rattle.std.specs.Prelude.{◌≡◌, ◌+◌, ◌-◌, ◌*◌, ◌^◌, ◌<◌, ◌≤◌, ℕ, OnOk, IfOk, IfErr, Some};
ghost use Rattle.std.specs.Prelude.{length};
ghost use Rattle.fidl_limits.specs.declared.limits.TheConstants.{MAX_DEPTH, MAX_MESSAGE_BYTES};
ghost use Rattle.fidl_table_format.specs.declared.kind.EntryKind.TheVariants as kinds;
ghost use Rattle.fidl_table_format.specs.Kind.{kind_of};
ghost use Rattle.fidl_table_format.specs.Section.{header_of, entry_at};
ghost use Rattle.fidl_decode_model.specs.Breaks.{BreaksTable};
ghost use Rattle.fidl_decode_values.specs.Body.{envelopes_of, envelopes_behind};
ghost use Rattle.fidl_decode_model.specs.Steps.{Spends};
ghost use Rattle.fidl_decode_model.specs.Machine.{StateFine, Visits, VisitFine, at_of};
ghost use Rattle.fidl_decode_values.specs.Reading.{came, message, Holds};
ghost use Rattle.fidl_decode_values.specs.Ready.{CanReadPlace};

use crate::decoder::Decoder;
use fidl_decode_model::DecodeFault;
use fidl_decode_model::frame::{Frame, Remaining, State};
use fidl_wire::{MAX_DEPTH, MAX_NEST};

/// The frame of so many envelopes of a value of a table entry, from a place on, of which these are
/// read.
#[inline(always)]
pub fn envelopes_left(entry: u32, base: usize, count: u32, read: u32, depth: u8) -> Frame
    requires near { base + 8 * count ≤ MAX_MESSAGE_BYTES }
    requires few { read ≤ count }
    ensures { result ≡ envelopes_behind entry base count depth read }
{
    Frame {
        left: Remaining::Envelopes {
            entry,
            read,
            count: count - read,
        },
        base: base as u32,
        done: 8 * read,
        size: 8 * count,
        nest: MAX_NEST as u8 + 1,
        depth,
        in_envelope: 0,
    }
}

impl<'t, 'm, 's> Decoder<'t, 'm, 's> {
    /// Reads the count and the marker of a table at a place, and links its envelopes; answers how
    /// many these are.
    #[inline(always)]
    pub fn open_table(
        &self,
        entry: u32,
        place: usize,
        depth: u8,
        state: &mut State<'_, '_>,
    ) -> Result<u32, DecodeFault>
        requires entry { entry < (header_of self.now.table.now).entries }
        requires kind { kind_of (entry_at self.now.table.now entry).kind ≡ Some kinds.Table }
        requires room { place + 16 ≤ length (came self.now) }
        requires holds { Holds self.now state.old }
        requires state { StateFine (message self.now) (at_of state.old) }
        requires ready { CanReadPlace self.now state.old place 16 8 }
        requires depth { depth ≤ MAX_DEPTH }
        ensures holds { Holds self.now state.new }
        ensures ok { IfOk result (λ count. Visits self.now.table.now (message self.now) depth entry
            place (at_of state.old) (at_of state.new) 0 (Some (envelopes_of entry state.old.next
            count (depth + 1)))) }
        ensures fine { (in_envelope : ℕ) → in_envelope ≤ 1 → IfOk result (λ count. VisitFine
            self.now.table.now (message self.now) depth in_envelope entry (Some (envelopes_of entry
            state.old.next count (depth + 1)))) }
        ensures next { IfOk result (λ count. state.new.next ≡ state.old.next + 8 * count) }
        ensures shallow { OnOk result (depth < MAX_DEPTH) }
        ensures fault_is_true { IfErr result (BreaksTable (message self.now) depth place
            state.old.next) }
        ensures steps { state.new.steps ≡ state.old.steps }
    {
        let count = self.u64_at(place, state);
        if !self.is_present(place + 8, state) {
            if !self.is_absent(place + 8, state) {
                return Err(DecodeFault::BadMarker { at: place + 8 });
            }
            if count != 0 {
                return Err(DecodeFault::BadCount { at: place });
            }
            return Err(DecodeFault::AbsentRequired { at: place });
        }
        let from = state.next;
        let rest = self.size - from;
        if count > rest as u64 / 8 {
            return Err(DecodeFault::BadCount { at: place });
        }
        if depth as usize == MAX_DEPTH {
            return Err(DecodeFault::TooDeep { at: place });
        }
        state.links.link_marker(place + 8, from);
        state.next = from + 8 * count as usize;
        Ok(count as u32)
    }

    /// Reads the count and the marker of a table at a place, links its envelopes, and reads those
    /// that it begins with as far as this can be done in place; the others are left to read.
    #[inline(always)]
    pub fn read_table(
        &self,
        entry: u32,
        place: usize,
        depth: u8,
        state: &mut State<'_, '_>,
    ) -> Result<Option<Frame>, DecodeFault>
        requires entry { entry < (header_of self.now.table.now).entries }
        requires kind { kind_of (entry_at self.now.table.now entry).kind ≡ Some kinds.Table }
        requires room { place + 16 ≤ length (came self.now) }
        requires holds { Holds self.now state.old }
        requires state { StateFine (message self.now) (at_of state.old) }
        requires ready { CanReadPlace self.now state.old place 16 8 }
        requires depth { depth ≤ MAX_DEPTH }
        requires budget { state.old.steps < 2 ^ 41 }
        ensures holds { Holds self.now state.new }
        ensures ok { IfOk result (λ found. Visits self.now.table.now (message self.now) depth entry
            place (at_of state.old) (at_of state.new) (state.new.steps - state.old.steps) found) }
        ensures fine { (in_envelope : ℕ) → in_envelope ≤ 1 → IfOk result (VisitFine
            self.now.table.now (message self.now) depth in_envelope entry) }
        ensures fault_is_true { IfErr result (BreaksTable (message self.now) depth place
            state.old.next) }
        ensures spends { Spends state.old.steps state.new.steps 0 (1 + (length (came self.now) -
            state.old.next)) }
    {
        let from = state.next;
        let count = self.open_table(entry, place, depth, state)?;
        let read = self.pass_front(entry, from, count, depth + 1, state);
        if read == count {
            state.steps += 1;
            return Ok(None);
        }
        Ok(Some(envelopes_left(entry, from, count, read, depth + 1)))
    }
}
