//! Strings: a count and a marker, and the text, which is the next object.
ghost use Rattle.std.specs.Prelude.{◌≡◌, ◌+◌, ◌-◌, ◌%◌, ◌^◌, ◌<◌, ◌≤◌, ◌↔◌, OnOk, IfErr, length};
ghost use Rattle.std.specs.Prelude.{IsTrue, IsUtf8, slice_range};
ghost use Rattle.fidl_limits.specs.declared.limits.TheConstants.{MAX_DEPTH};
ghost use Rattle.fidl_wire.specs.Term as ty;
ghost use Rattle.fidl_table_format.specs.Terms.{declarations_of, is_optional};
ghost use Rattle.fidl_decode_model.specs.Breaks.{BreaksText};
ghost use Rattle.fidl_decode_model.specs.Steps.{Spends};
ghost use Rattle.fidl_decode_model.specs.State.{Position, ValueAt};
ghost use Rattle.fidl_decode_model.specs.Work.{Work};
ghost use Rattle.fidl_decode_model.specs.Machine.{StateFine, Leads, at_of};
ghost use Rattle.fidl_decode_values.specs.Reading.{came, message, Holds};
ghost use Rattle.fidl_decode_values.specs.Ready.{CanReadPlace};
ghost use Rattle.fidl_decode_model.specs.Frontier.{AreFree};

use crate::decoder::Decoder;
use crate::handles::is_optional;
use fidl_decode_model::DecodeFault;
use fidl_decode_model::frame::State;
use fidl_table_format::Entry;
use fidl_wire::MAX_DEPTH;
use simdutf8::is_utf8;

/// The length up to which a text is looked at eight bytes at a time, before it is in blocks of 64.
const SHORT: usize = 128;

impl<'t, 'm, 's> Decoder<'t, 'm, 's> {
    /// Whether so many bytes from a place on are UTF-8, of an object of this size. All bytes of a
    /// short one are looked at first, since most are ASCII, and so are the zeros behind them.
    #[inline(always)]
    fn is_text(&self, from: usize, count: usize, size: usize, state: &State<'_, '_>) -> bool
        requires holds { Holds self.now state.now }
        requires free { AreFree (at_of state.now) from (from + size) }
        requires eights { size % 8 ≡ 0 }
        requires within { count ≤ size }
        requires room { from + size ≤ length (came self.now) }
        ensures { IsTrue result ↔ IsUtf8 (slice_range (came self.now) from (from + count)) }
    {
        if size <= SHORT && self.are_ascii(from, size, state) {
            return true;
        }
        is_utf8(state.links.part(from, from + count))
    }

    /// Reads a string at a place: its count and marker, and its text, which is linked.
    #[inline(always)]
    pub(crate) fn read_text(
        &self,
        entry: &Entry,
        place: usize,
        depth: u8,
        state: &mut State<'_, '_>,
    ) -> Result<(), DecodeFault>
        requires room { place + 16 ≤ length (came self.now) }
        requires depth { depth ≤ MAX_DEPTH }
        requires holds { Holds self.now state.old }
        requires state { StateFine (message self.now) (at_of state.old) }
        requires ready { CanReadPlace self.now state.old place 16 8 }
        requires budget { state.old.steps < 2 ^ 41 }
        ensures holds { Holds self.now state.new }
        ensures ok { OnOk result (Leads (declarations_of self.now.table.now) (message self.now)
            depth (ty.string (is_optional entry.now) entry.now.bound) place (at_of state.old)
            (at_of state.new)) }
        ensures fault_is_true { IfErr result (BreaksText (message self.now) depth
            (is_optional entry.now) entry.now.bound place state.old.next) }
        ensures state { OnOk result (StateFine (message self.now) (at_of state.new)) }
        ensures spent { OnOk result
            (state.new.steps + state.old.next ≡ state.old.steps + state.new.next) }
        ensures least { OnOk result ((to : Position) → (x : ValueAt
            (declarations_of self.now.table.now) (message self.now) depth (ty.string
            (is_optional entry.now) entry.now.bound) place (at_of state.old) to) → Work x.value ≤
            state.new.steps - state.old.steps + 1) }
        ensures spends { Spends state.old.steps state.new.steps 0 (length (came self.now) -
            state.old.next) }
    {
        let count = self.u64_at(place, state);
        if !self.is_present(place + 8, state) {
            if !self.is_absent(place + 8, state) {
                return Err(DecodeFault::BadMarker { at: place + 8 });
            }
            if count != 0 {
                return Err(DecodeFault::BadCount { at: place });
            }
            if !is_optional(entry) {
                return Err(DecodeFault::AbsentRequired { at: place });
            }
            return Ok(());
        }
        let from = state.next;
        let rest = self.size - from;
        if count > rest as u64 {
            return Err(DecodeFault::BadCount { at: place });
        }
        if count > entry.bound {
            return Err(DecodeFault::OverBound { at: place });
        }
        if depth as usize == MAX_DEPTH {
            return Err(DecodeFault::TooDeep { at: place });
        }
        let behind = count as usize;
        let size = behind.next_multiple_of(8);
        if size > rest {
            return Err(DecodeFault::Truncated { at: from });
        }
        state.steps += size as u64;
        if !self.is_text(from, behind, size, state) {
            return Err(DecodeFault::NotUtf8 { at: from });
        }
        self.padding_at(from + behind, from + size, state)?;
        state.links.link_marker(place + 8, from);
        state.next = from + size;
        Ok(())
    }
}
