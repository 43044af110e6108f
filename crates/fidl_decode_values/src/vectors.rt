//! Vectors: a count and a marker, and the elements, which are the next object.
ghost use Rattle.std.specs.Prelude.{◌≡◌, ◌+◌, ◌-◌, ◌*◌, ◌^◌, ◌<◌, ◌≤◌, ℕ, OnOk, IfOk, IfErr};
ghost use Rattle.std.specs.Prelude.{IfSome, Some, None, true, length};
ghost use Rattle.fidl_limits.specs.declared.limits.TheConstants.{MAX_DEPTH};
ghost use Rattle.fidl_table_format.specs.declared.kind.EntryKind.TheVariants as kinds;
ghost use Rattle.fidl_table_format.specs.Kind.{kind_of};
ghost use Rattle.fidl_table_format.specs.Section.{header_of, entry_at};
ghost use Rattle.fidl_wire.specs.Term as ty;
ghost use Rattle.fidl_wire.specs.Term.{resolve};
ghost use Rattle.fidl_table_format.specs.Terms.{declarations_of, is_optional};
ghost use Rattle.fidl_decode_model.specs.Invariants.{is_free_at};
ghost use Rattle.fidl_decode_values.specs.Body.{elements_of};
ghost use Rattle.fidl_decode_model.specs.Steps.{Spends};
ghost use Rattle.fidl_decode_model.specs.Breaks.{Breaks, BreaksCounted, count_at};
ghost use Rattle.fidl_decode_model.specs.Machine.{StateFine, Visits, VisitFine, at_of, probes};
ghost use Rattle.fidl_decode_model.specs.Machine.{FrameFine, BreaksFrame, Turns};
ghost use Rattle.fidl_decode_values.specs.Reading.{came, message, Holds};
ghost use Rattle.fidl_decode_values.specs.Ready.{CanReadPlace, CanReadFrame};
ghost use Rattle.fidl_decode_model.specs.declared.frame.Remaining.TheVariants as left;

use crate::decoder::Decoder;
use crate::handles::is_optional;
use fidl_decode_model::DecodeFault;
use fidl_decode_model::frame::{Frame, Remaining, State};
use fidl_wire::MAX_DEPTH;

impl<'t, 'm, 's> Decoder<'t, 'm, 's> {
    /// Reads the count and the marker of a vector at a place, and links its elements, which are
    /// left to read where there are any.
    #[inline(always)]
    pub(crate) fn read_vector(
        &self,
        entry: u32,
        place: usize,
        depth: u8,
        state: &mut State<'_, '_>,
    ) -> Result<Option<Frame>, DecodeFault>
        requires entry { entry < (header_of self.now.table.now).entries }
        requires kind { kind_of (entry_at self.now.table.now entry).kind ≡ Some kinds.Vector }
        requires room { place + 16 ≤ length (came self.now) }
        requires holds { Holds self.now state.old }
        requires state { StateFine (message self.now) (at_of state.old) }
        requires ready { CanReadPlace self.now state.old place 16 8 }
        requires depth { depth ≤ MAX_DEPTH }
        ensures holds { Holds self.now state.new }
        ensures ok { IfOk result (λ found. Visits self.now.table.now (message self.now) depth entry
            place (at_of state.old) (at_of state.new) (state.new.steps - state.old.steps) found) }
        ensures fine { (in_envelope : ℕ) → in_envelope ≤ 1 → IfOk result (VisitFine
            self.now.table.now (message self.now) depth in_envelope entry) }
        ensures fault_is_true { let t = self.now.table.now in
            let d = entry_at t entry in
            let size = (entry_at t d.first).size * count_at (came self.now) place in
            IfErr result (BreaksCounted (message self.now) depth
            (is_optional d) d.bound size place state.old.next) }
        ensures frame { IfOk result (λ found. IfSome found (λ f. f ≡ elements_of self.now.table.now
            entry state.old.next (count_at (came self.now) place) (depth + 1))) }
        ensures steps { state.new.steps ≡ state.old.steps }
    {
        let e = self.entry(entry);
        let count = self.u64_at(place, state);
        if !self.is_present(place + 8, state) {
            if !self.is_absent(place + 8, state) {
                return Err(DecodeFault::BadMarker { at: place + 8 });
            }
            if count != 0 {
                return Err(DecodeFault::BadCount { at: place });
            }
            if !is_optional(&e) {
                return Err(DecodeFault::AbsentRequired { at: place });
            }
            return Ok(None);
        }
        let element = self.entry(e.first);
        let from = state.next;
        let rest = self.size - from;
        // An element has a byte at least, so that the product of a count that is no greater is
        // small.
        if count > rest as u64 {
            return Err(DecodeFault::BadCount { at: place });
        }
        let each = element.size as usize;
        let used = each * count as usize;
        if used > rest {
            return Err(DecodeFault::BadCount { at: place });
        }
        if count > e.bound {
            return Err(DecodeFault::OverBound { at: place });
        }
        if depth as usize == MAX_DEPTH {
            return Err(DecodeFault::TooDeep { at: place });
        }
        let size = used.next_multiple_of(8);
        if size > rest {
            return Err(DecodeFault::Truncated { at: from });
        }
        state.links.link_marker(place + 8, from);
        state.next = from + size;
        if count == 0 {
            return Ok(None);
        }
        let left = Remaining::Elements {
            entry: e.first,
            size: each as u32,
            count: count as u32,
        };
        Ok(Some(Frame {
            left,
            base: from as u32,
            done: 0,
            size: size as u32,
            nest: element.nest + 1,
            depth: depth + 1,
            in_envelope: 0,
        }))
    }

    /// Reads a vector at a place, with its elements, which any bytes are values of.
    #[inline(always)]
    pub fn pass_numbers(
        &self,
        entry: u32,
        place: usize,
        depth: u8,
        state: &mut State<'_, '_>,
    ) -> Result<(), DecodeFault>
        requires entry { entry < (header_of self.now.table.now).entries }
        requires kind { kind_of (entry_at self.now.table.now entry).kind ≡ Some kinds.Vector }
        requires free { let d = entry_at self.now.table.now entry in
            is_free_at self.now.table.now d.first ≡ true }
        requires room { place + 16 ≤ length (came self.now) }
        requires holds { Holds self.now state.old }
        requires state { StateFine (message self.now) (at_of state.old) }
        requires ready { CanReadPlace self.now state.old place 16 8 }
        requires depth { depth ≤ MAX_DEPTH }
        requires budget { state.old.steps < 2 ^ 41 }
        ensures holds { Holds self.now state.new }
        ensures ok { OnOk result (Visits self.now.table.now (message self.now) depth entry place
            (at_of state.old) (at_of state.new) (state.new.steps - state.old.steps) None) }
        ensures fault_is_true { IfErr result (Breaks (declarations_of self.now.table.now)
            (message self.now) depth (resolve (declarations_of self.now.table.now).terms
            (ty.named entry)) place (at_of state.old)) }
        ensures spends { Spends state.old.steps state.new.steps 0 (probes + (length (came self.now)
            - state.old.next)) }
    {
        let Some(frame) = self.read_vector(entry, place, depth, state)? else {
            return Ok(());
        };
        let Remaining::Elements { entry, size, count } = frame.left else {
            unreachable!()
        };
        self.pass_elements(frame, entry, size as usize, count, state)
    }

    /// Does the same out of line, for what reads many kinds.
    #[inline(never)]
    pub(crate) fn read_numbers(
        &self,
        entry: u32,
        place: usize,
        depth: u8,
        state: &mut State<'_, '_>,
    ) -> Result<(), DecodeFault>
        requires entry { entry < (header_of self.now.table.now).entries }
        requires kind { kind_of (entry_at self.now.table.now entry).kind ≡ Some kinds.Vector }
        requires free { let d = entry_at self.now.table.now entry in
            is_free_at self.now.table.now d.first ≡ true }
        requires room { place + 16 ≤ length (came self.now) }
        requires holds { Holds self.now state.old }
        requires state { StateFine (message self.now) (at_of state.old) }
        requires ready { CanReadPlace self.now state.old place 16 8 }
        requires depth { depth ≤ MAX_DEPTH }
        requires budget { state.old.steps < 2 ^ 41 }
        ensures holds { Holds self.now state.new }
        ensures ok { OnOk result (Visits self.now.table.now (message self.now) depth entry place
            (at_of state.old) (at_of state.new) (state.new.steps - state.old.steps) None) }
        ensures fault_is_true { IfErr result (Breaks (declarations_of self.now.table.now)
            (message self.now) depth (resolve (declarations_of self.now.table.now).terms
            (ty.named entry)) place (at_of state.old)) }
        ensures spends { Spends state.old.steps state.new.steps 0 (probes + (length (came self.now)
            - state.old.next)) }
    {
        self.pass_numbers(entry, place, depth, state)
    }

    /// Passes over elements that any bytes are values of, and reads the zeros behind them.
    #[inline(always)]
    pub fn pass_elements(
        &self,
        frame: Frame,
        entry: u32,
        size: usize,
        count: u32,
        state: &mut State<'_, '_>,
    ) -> Result<(), DecodeFault>
        requires frame { FrameFine self.now.table.now (came self.now) frame }
        requires left { frame.left ≡ left.Elements entry size count }
        requires free { is_free_at self.now.table.now entry ≡ true }
        requires holds { Holds self.now state.old }
        requires state { StateFine (message self.now) (at_of state.old) }
        requires ready { CanReadFrame self.now state.old frame }
        requires budget { state.old.steps < 2 ^ 42 }
        ensures holds { Holds self.now state.new }
        ensures ok { OnOk result
            (Turns self.now.table.now (message self.now) frame
            (at_of state.old) (at_of state.new) (state.new.steps - state.old.steps)
            (record { below = None; rest = None })) }
        ensures spends { Spends state.old.steps state.new.steps 1 (1 + (frame.size - frame.done)) }
        ensures fault_is_true { IfErr result (BreaksFrame self.now.table.now (message self.now)
            frame (at_of state.old)) }
    {
        let from = frame.base as usize + frame.done as usize + size * count as usize;
        let stop = frame.base as usize + frame.size as usize;
        state.steps += (stop - from) as u64 + 1;
        self.zeros_at(from, stop, state)
    }
}
