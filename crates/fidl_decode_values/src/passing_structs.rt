//! Structs of numbers that stand behind one another, and their envelopes, which are passed over.
ghost use Rattle.std.specs.Prelude.{◌≡◌, ◌+◌, ◌-◌, ◌^◌, ◌<◌, ◌≤◌, IsTrue, IsFalse, IfSome, Some};
ghost use Rattle.std.specs.Prelude.{None, length};
ghost use Rattle.fidl_limits.specs.declared.limits.TheConstants.{MAX_DEPTH};
ghost use Rattle.fidl_wire.specs.Term as ty;
ghost use Rattle.fidl_table_format.specs.declared.kind.EntryKind.TheVariants as kinds;
ghost use Rattle.fidl_table_format.specs.Kind.{kind_of};
ghost use Rattle.fidl_table_format.specs.Section.{header_of, entry_at};
ghost use Rattle.fidl_decode_model.specs.declared.frame.Remaining.TheVariants as left;
ghost use Rattle.fidl_decode_model.specs.Machine.{StateFine, Opens, Passes, at_of};
ghost use Rattle.fidl_decode_values.specs.Reading.{came, message, Holds};
ghost use Rattle.fidl_decode_values.specs.Ready.{CanReadPlace};
ghost use Rattle.fidl_decode_values.specs.Structs.{IsFreeStruct};

use crate::decoder::Decoder;
use fidl_decode_columns::MOST_ROWS;
use fidl_decode_model::frame::State;
use fidl_wire::MAX_DEPTH;

/// A struct of numbers, of which any bytes are a value but for zeros behind its members.
#[derive(Clone, Copy, Drop)]
pub struct FreeStruct {
    /// The number of its entry, and how many bytes it has.
    pub entry: u32,
    pub size: u32,
    /// How many bytes its members have, which stand behind one another without a gap.
    pub done: usize,
}

impl<'t, 'm, 's> Decoder<'t, 'm, 's> {
    /// How many bytes the members of these rows have, where they are no more than are looked at:
    /// any bytes are values of them, and they stand behind one another without a gap.
    #[inline(always)]
    pub(crate) fn free_size(&self, first: u32, count: u32) -> Option<usize>
        requires within { first + count ≤ (header_of self.now.table.now).rows }
        ensures wide { IfSome result (λ done. count ≤ done) }
        ensures passes { IfSome result (λ done. Passes self.now.table.now (message self.now)
            (left.Rows first count) count (first + count) 0 done None) }
    {
        if count > MOST_ROWS {
            return None;
        }
        let _rows = self.table.rows();
        let end = first + count;
        let mut done = 0;
        for i in first..end {
            let row = self.row(i);
            if !self.takes_any(&row, done) {
                return None;
            }
            done = row.key as usize + self.entry(row.entry).size as usize;
        }
        Some(done)
    }

    /// What is known of the struct of this entry, where its members are numbers, no more than are
    /// looked at, and stand behind one another without a gap.
    #[inline(always)]
    pub fn free_struct(&self, entry: u32) -> Option<FreeStruct>
        requires entry { entry < (header_of self.now.table.now).entries }
        requires kind { kind_of (entry_at self.now.table.now entry).kind ≡ Some kinds.Struct }
        ensures known { IfSome result (IsFreeStruct self.now.table.now (message self.now)) }
        ensures entry { IfSome result (λ known. known.entry ≡ entry) }
    {
        let e = self.entry(entry);
        let done = self.free_size(e.first, e.count)?;
        Some(FreeStruct {
            entry,
            size: e.size,
            done,
        })
    }

    /// Passes over the envelope at a place, whose member is a struct of which this is known, where
    /// its numbers are right. Else nothing is read.
    #[inline(always)]
    pub fn pass_object(
        &self,
        known: &FreeStruct,
        envelope: usize,
        depth: u8,
        state: &mut State<'_, '_>,
    ) -> bool
        requires known { IsFreeStruct self.now.table.now (message self.now) known.now }
        requires room { envelope + 8 ≤ length (came self.now) }
        requires holds { Holds self.now state.old }
        requires state { StateFine (message self.now) (at_of state.old) }
        requires ready { CanReadPlace self.now state.old envelope 8 8 }
        requires depth { depth ≤ MAX_DEPTH }
        requires budget { state.old.steps < 2 ^ 44 }
        ensures holds { Holds self.now state.new }
        ensures passed { IsTrue result → Opens self.now.table.now (message self.now) depth (Some
            (ty.named known.now.entry)) envelope (at_of state.old) (at_of state.new)
            (state.new.steps - state.old.steps) None }
        ensures kept { IsFalse result → at_of state.new ≡ at_of state.old }
        ensures grows { state.old.steps ≤ state.new.steps }
        ensures pays { state.new.steps + state.old.next ≤ state.old.steps + state.new.next }
    {
        let size = known.size as usize;
        let whole = size.next_multiple_of(8);
        let next = state.next;
        if self.u64_at(envelope, state) != whole as u64 || size <= 4 {
            return false;
        }
        if whole > self.size - next || depth as usize == MAX_DEPTH {
            return false;
        }
        if self
            .zeros_at(next + known.done, next + whole, state)
            .is_err()
        {
            return false;
        }
        state.steps += whole as u64;
        state.links.link_outside(envelope, next, state.handle);
        state.next = next + whole;
        true
    }

    /// Passes over the envelope at a place, whose member is a struct of numbers, of which any bytes
    /// are a value, where its numbers are right. Else nothing is read.
    #[inline(always)]
    pub(crate) fn pass_struct(
        &self,
        entry: u32,
        envelope: usize,
        depth: u8,
        state: &mut State<'_, '_>,
    ) -> bool
        requires entry { entry < (header_of self.now.table.now).entries }
        requires kind { kind_of (entry_at self.now.table.now entry).kind ≡ Some kinds.Struct }
        requires room { envelope + 8 ≤ length (came self.now) }
        requires holds { Holds self.now state.old }
        requires state { StateFine (message self.now) (at_of state.old) }
        requires ready { CanReadPlace self.now state.old envelope 8 8 }
        requires depth { depth ≤ MAX_DEPTH }
        requires budget { state.old.steps < 2 ^ 44 }
        ensures holds { Holds self.now state.new }
        ensures passed { IsTrue result → Opens self.now.table.now (message self.now) depth (Some
            (ty.named entry)) envelope (at_of state.old) (at_of state.new)
            (state.new.steps - state.old.steps) None }
        ensures kept { IsFalse result → at_of state.new ≡ at_of state.old }
        ensures grows { state.old.steps ≤ state.new.steps }
        ensures pays { state.new.steps + state.old.next ≤ state.old.steps + state.new.next }
    {
        // Asked first, so that the rows are looked at only where the envelope counts the struct alone.
        let size = self.entry(entry).size as usize;
        if self.u64_at(envelope, state) != size.next_multiple_of(8) as u64 {
            return false;
        }
        let Some(known) = self.free_struct(entry) else {
            return false;
        };
        self.pass_object(&known, envelope, depth, state)
    }
}
