//! The envelopes of a table whose members are noted.
ghost use Rattle.std.specs.Prelude.{◌≡◌, ◌+◌, ◌-◌, ◌*◌, ◌^◌, ◌<◌, ◌≤◌, ℕ, IfOk, IfErr, Some, None};
ghost use Rattle.std.specs.Prelude.{IsTrue, IsFalse, length};
ghost use Rattle.fidl_limits.specs.declared.limits.TheConstants.{MAX_DEPTH, MAX_MESSAGE_BYTES};
ghost use Rattle.fidl_decode_model.specs.Breaks.{BreaksTable};
ghost use Rattle.fidl_decode_model.specs.Steps.{Spends};
ghost use Rattle.fidl_decode_model.specs.Machine.{StateFine, FrameFine, Turns, Visits, VisitFine};
ghost use Rattle.fidl_decode_model.specs.Machine.{at_of};
ghost use Rattle.fidl_decode_values.specs.Reading.{came, message, Holds};
ghost use Rattle.fidl_decode_values.specs.Ready.{CanReadPlace, CanReadFrame};
ghost use Rattle.fidl_decode_members.specs.Members.{AreMembers, rest_of, left_of};

use crate::members::Members;
use fidl_decode_model::DecodeFault;
use fidl_decode_model::frame::State;
use fidl_decode_values::Decoder;

/// The envelopes of one table: where the first stands in the message, how many there are, and how
/// deep their members lie.
#[derive(Clone, Copy, Drop)]
pub(crate) struct Envelopes {
    pub base: usize,
    pub count: u32,
    pub depth: u8,
}

/// A table that is opened: where its first envelope stands in the message, how many there are, and
/// how many of them are read.
#[derive(Clone, Copy, Drop)]
pub struct Opened {
    pub base: usize,
    pub count: u32,
    pub read: u32,
}

impl Members {
    /// Passes over the next envelope, behind so many that are read. Else nothing is read. The step
    /// that this takes is not counted yet.
    #[inline(always)]
    fn pass_next(
        &self,
        decoder: &Decoder<'_, '_, '_>,
        envelopes: &Envelopes,
        read: u32,
        state: &mut State<'_, '_>,
    ) -> bool
        requires members { AreMembers decoder.now.table.now (message decoder.now) self.now }
        requires known { read < self.now.count }
        requires more { read < envelopes.now.count }
        requires frame { FrameFine decoder.now.table.now (came decoder.now)
            (rest_of self.now envelopes.now read) }
        requires holds { Holds decoder.now state.old }
        requires state { StateFine (message decoder.now) (at_of state.old) }
        requires ready { CanReadFrame decoder.now state.old (rest_of self.now envelopes.now read) }
        requires budget { state.old.steps < 2 ^ 43 }
        ensures holds { Holds decoder.now state.new }
        ensures passed { IsTrue result → Turns decoder.now.table.now (message decoder.now)
            (rest_of self.now envelopes.now read) (at_of state.old) (at_of state.new)
            (state.new.steps + 1 - state.old.steps)
            (record { below = None; rest = Some (rest_of self.now envelopes.now (read + 1)) }) }
        ensures kept { IsFalse result → at_of state.new ≡ at_of state.old }
        ensures grows { state.old.steps ≤ state.new.steps }
        ensures pays { state.new.steps + state.old.next ≤ state.old.steps + state.new.next }
    {
        let place = envelopes.base + 8 * read as usize;
        if decoder.is_absent(place, state) {
            return true;
        }
        let member = self.members[read as usize];
        member.pass(decoder, place, envelopes.depth, state)
    }

    /// Passes over the first envelopes of a table's value, and answers how many are read then.
    #[inline(always)]
    fn pass_front(
        &self,
        decoder: &Decoder<'_, '_, '_>,
        envelopes: &Envelopes,
        state: &mut State<'_, '_>,
    ) -> u32
        requires members { AreMembers decoder.now.table.now (message decoder.now) self.now }
        requires frame { FrameFine decoder.now.table.now (came decoder.now)
            (rest_of self.now envelopes.now 0) }
        requires holds { Holds decoder.now state.old }
        requires state { StateFine (message decoder.now) (at_of state.old) }
        requires ready { CanReadFrame decoder.now state.old (rest_of self.now envelopes.now 0) }
        requires budget { state.old.steps < 2 ^ 41 }
        ensures holds { Holds decoder.now state.new }
        ensures turns { Turns decoder.now.table.now (message decoder.now)
            (rest_of self.now envelopes.now 0) (at_of state.old) (at_of state.new)
            (state.new.steps - state.old.steps)
            (record { below = None; rest = Some (rest_of self.now envelopes.now result) }) }
        ensures few { result ≤ envelopes.now.count }
        ensures grows { state.old.steps ≤ state.new.steps }
        ensures pays { state.new.steps + state.old.next
            ≤ state.old.steps + result + state.new.next }
    {
        let known = self.count.min(envelopes.count);
        let mut read = 0;
        while read != known && self.pass_next(decoder, envelopes, read, state) {
            read += 1;
        }
        state.steps += u64::from(read);
        read
    }

    /// Reads the count and the marker of a table at a place, links its envelopes, and reads those
    /// that it begins with as far as this can be done in place; answers how many there are, and how
    /// many of them are read.
    #[inline(always)]
    pub fn read_table(
        &self,
        decoder: &Decoder<'_, '_, '_>,
        place: usize,
        depth: u8,
        state: &mut State<'_, '_>,
    ) -> Result<Opened, DecodeFault>
        requires members { AreMembers decoder.now.table.now (message decoder.now) self.now }
        requires room { place + 16 ≤ length (came decoder.now) }
        requires holds { Holds decoder.now state.old }
        requires state { StateFine (message decoder.now) (at_of state.old) }
        requires ready { CanReadPlace decoder.now state.old place 16 8 }
        requires depth { depth ≤ MAX_DEPTH }
        requires budget { state.old.steps < 2 ^ 41 }
        ensures holds { Holds decoder.now state.new }
        ensures few { IfOk result (λ opened. opened.read ≤ opened.count) }
        ensures near { IfOk result (λ opened. opened.base + 8 * opened.count
            ≤ MAX_MESSAGE_BYTES) }
        ensures whole { IfOk result (λ opened. opened.read ≡ opened.count
            → Visits decoder.now.table.now (message decoder.now) depth self.now.entry place
            (at_of state.old) (at_of state.new) (state.new.steps - state.old.steps) None) }
        ensures left { IfOk result (λ opened. opened.read < opened.count
            → Visits decoder.now.table.now (message decoder.now) depth self.now.entry place
            (at_of state.old) (at_of state.new) (state.new.steps - state.old.steps)
            (Some (left_of self.now.entry (depth + 1) opened))) }
        ensures fine { IfOk result (λ opened. (in_envelope : ℕ) → in_envelope ≤ 1
            → VisitFine decoder.now.table.now (message decoder.now) depth in_envelope
            self.now.entry (Some (left_of self.now.entry (depth + 1) opened))) }
        ensures fault_is_true { IfErr result (BreaksTable (message decoder.now) depth place
            state.old.next) }
        ensures spends { Spends state.old.steps state.new.steps 0
            (1 + (length (came decoder.now) - state.old.next)) }
    {
        let base = state.next;
        let count = decoder.open_table(self.entry, place, depth, state)?;
        let envelopes = Envelopes {
            base,
            count,
            depth: depth + 1,
        };
        let read = self.pass_front(decoder, &envelopes, state);
        if read == count {
            state.steps += 1;
            return Ok(Opened { base, count, read });
        }
        Ok(Opened { base, count, read })
    }
}
