//! Unions, boxes and vectors that are passed over: those that are absent or empty, or lead to one
//! value that is passed over too.
ghost use Rattle.std.specs.Prelude.{◌≡◌, ◌+◌, ◌-◌, ◌^◌, ◌<◌, ◌≤◌, IsTrue, IsFalse, Some, None};
ghost use Rattle.std.specs.Prelude.{length};
ghost use Rattle.fidl_limits.specs.declared.limits.TheConstants.{MAX_DEPTH};
ghost use Rattle.fidl_wire.specs.Encoding.{zeros};
ghost use Rattle.fidl_wire.specs.Standing.{Stands};
ghost use Rattle.fidl_table_format.specs.declared.kind.EntryKind.TheVariants as kinds;
ghost use Rattle.fidl_table_format.specs.Kind.{kind_of};
ghost use Rattle.fidl_table_format.specs.Section.{header_of, entry_at};
ghost use Rattle.fidl_decode_model.specs.Machine.{StateFine, Visits, at_of};
ghost use Rattle.fidl_decode_model.specs.Frontier.{AreFree};
ghost use Rattle.fidl_decode_values.specs.Reading.{came, message, Holds};
ghost use Rattle.fidl_decode_values.specs.Ready.{CanReadPlace, CanReadValue};

use crate::decoder::Decoder;
use crate::handles::is_optional;
use fidl_decode_model::frame::State;
use fidl_table_format::EntryKind;
use fidl_wire::MAX_DEPTH;

/// The most members of a layout in which an ordinal is looked up at its own place alone.
const MOST_MEMBERS: u32 = 64;

impl<'t, 'm, 's> Decoder<'t, 'm, 's> {
    /// Passes over a union at a place, which is absent, or whose member is one that is passed over.
    /// Else nothing is read.
    #[inline(always)]
    fn pass_union(&self, entry: u32, place: usize, depth: u8, state: &mut State<'_, '_>) -> bool
        requires entry { entry < (header_of self.now.table.now).entries }
        requires kind { kind_of (entry_at self.now.table.now entry).kind ≡ Some kinds.Union }
        requires room { place + 16 ≤ length (came self.now) }
        requires holds { Holds self.now state.old }
        requires state { StateFine (message self.now) (at_of state.old) }
        requires ready { CanReadPlace self.now state.old place 16 8 }
        requires depth { depth ≤ MAX_DEPTH }
        requires budget { state.old.steps < 2 ^ 43 }
        ensures holds { Holds self.now state.new }
        ensures passed { IsTrue result → Visits self.now.table.now (message self.now) depth entry
            place (at_of state.old) (at_of state.new) (state.new.steps - state.old.steps) None }
        ensures kept { IsFalse result → at_of state.new ≡ at_of state.old }
        ensures uncounted { IsFalse result → state.new.steps ≡ state.old.steps }
        ensures grows { state.old.steps ≤ state.new.steps }
        ensures pays { state.new.steps + state.old.next ≤ state.old.steps + state.new.next + 2 }
    {
        let e = self.entry(entry);
        let ordinal = self.u64_at(place, state);
        if ordinal == 0 {
            if !is_optional(&e) {
                return false;
            }
            return self.is_absent(place + 8, state);
        }
        if e.count > MOST_MEMBERS || ordinal > u64::from(e.count) {
            return false;
        }
        let _rows = self.table.rows();
        let row = self.row(e.first + (ordinal as u32 - 1));
        if u64::from(row.key) != ordinal {
            return false;
        }
        if !self.pass_member(row.entry, place + 8, depth, state) {
            return false;
        }
        state.steps += 2;
        true
    }

    /// Passes over a box at a place, which is absent, or holds a struct of numbers, of which any
    /// bytes are a value. Else nothing is read.
    #[inline(always)]
    fn pass_box(&self, entry: u32, place: usize, depth: u8, state: &mut State<'_, '_>) -> bool
        requires entry { entry < (header_of self.now.table.now).entries }
        requires kind { kind_of (entry_at self.now.table.now entry).kind ≡ Some kinds.Box }
        requires room { place + 8 ≤ length (came self.now) }
        requires holds { Holds self.now state.old }
        requires state { StateFine (message self.now) (at_of state.old) }
        requires ready { CanReadPlace self.now state.old place 8 8 }
        requires depth { depth ≤ MAX_DEPTH }
        requires budget { state.old.steps < 2 ^ 43 }
        ensures holds { Holds self.now state.new }
        ensures passed { IsTrue result → Visits self.now.table.now (message self.now) depth entry
            place (at_of state.old) (at_of state.new) (state.new.steps - state.old.steps) None }
        ensures kept { IsFalse result → at_of state.new ≡ at_of state.old }
        ensures uncounted { IsFalse result → state.new.steps ≡ state.old.steps }
        ensures grows { state.old.steps ≤ state.new.steps }
        ensures pays { state.new.steps + state.old.next ≤ state.old.steps + state.new.next + 2 }
    {
        if !self.is_present(place, state) {
            return self.is_absent(place, state);
        }
        let content = self.entry(self.entry(entry).first);
        let size = content.size as usize;
        let whole = size.next_multiple_of(8);
        let next = state.next;
        if whole > self.size - next || depth as usize == MAX_DEPTH {
            return false;
        }
        let Some(done) = self.free_size(content.first, content.count) else {
            return false;
        };
        if self.zeros_at(next + done, next + whole, state).is_err() {
            return false;
        }
        state.steps += u64::from(content.count);
        state.links.link_marker(place, next);
        state.next = next + whole;
        true
    }

    /// Passes over a vector at a place, which is absent or has no elements. Else nothing is read.
    #[inline(always)]
    fn pass_empty(&self, entry: u32, place: usize, depth: u8, state: &mut State<'_, '_>) -> bool
        requires entry { entry < (header_of self.now.table.now).entries }
        requires kind { kind_of (entry_at self.now.table.now entry).kind ≡ Some kinds.Vector }
        requires room { place + 16 ≤ length (came self.now) }
        requires holds { Holds self.now state.old }
        requires state { StateFine (message self.now) (at_of state.old) }
        requires ready { CanReadPlace self.now state.old place 16 8 }
        requires depth { depth ≤ MAX_DEPTH }
        ensures holds { Holds self.now state.new }
        ensures passed { IsTrue result → Visits self.now.table.now (message self.now) depth entry
            place (at_of state.old) (at_of state.new) (state.new.steps - state.old.steps) None }
        ensures kept { IsFalse result → at_of state.new ≡ at_of state.old }
        ensures steps { state.new.steps ≡ state.old.steps }
        ensures still { state.new.next ≡ state.old.next }
    {
        if self.u64_at(place, state) != 0 {
            return false;
        }
        if !self.is_present(place + 8, state) {
            if !is_optional(&self.entry(entry)) {
                return false;
            }
            return self.is_absent(place + 8, state);
        }
        if depth as usize == MAX_DEPTH {
            return false;
        }
        state.links.link_marker(place + 8, state.next);
        true
    }

    /// Passes over the zeros from a place up to another, and over a value there: a union, a box or a
    /// vector that is absent or empty, or leads to one value that is passed over. Else nothing is
    /// read.
    #[inline(never)]
    pub fn pass_value(
        &self,
        entry: u32,
        front: usize,
        place: usize,
        depth: u8,
        state: &mut State<'_, '_>,
    ) -> bool
        requires entry { entry < (header_of self.now.table.now).entries }
        requires order { front ≤ place }
        requires room { place + (entry_at self.now.table.now entry).size ≤ length (came self.now) }
        requires holds { Holds self.now state.old }
        requires state { StateFine (message self.now) (at_of state.old) }
        requires free { AreFree (at_of state.old) front place }
        requires ready { CanReadValue self.now state.old entry place }
        requires depth { depth ≤ MAX_DEPTH }
        requires budget { state.old.steps < 2 ^ 43 }
        ensures holds { Holds self.now state.new }
        ensures gap { IsTrue result → Stands (came self.now) front (zeros (place - front)) }
        ensures passed { IsTrue result → Visits self.now.table.now (message self.now) depth entry
            place (at_of state.old) (at_of state.new) (state.new.steps - state.old.steps) None }
        ensures kept { IsFalse result → at_of state.new ≡ at_of state.old }
        ensures uncounted { IsFalse result → state.new.steps ≡ state.old.steps }
        ensures grows { state.old.steps ≤ state.new.steps }
        ensures pays { state.new.steps + state.old.next ≤ state.old.steps + state.new.next + 2 }
    {
        if self.zeros_at(front, place, state).is_err() {
            return false;
        }
        let e = self.entry(entry);
        match EntryKind::from_number(e.kind) {
            Some(EntryKind::Union) => self.pass_union(entry, place, depth, state),
            Some(EntryKind::Box) => self.pass_box(entry, place, depth, state),
            Some(EntryKind::Vector) => self.pass_empty(entry, place, depth, state),
            _ => false,
        }
    }
}
