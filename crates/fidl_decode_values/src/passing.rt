//! Envelopes of members that are passed over by their numbers: of up to four bytes, or eight, that may
//! be any, of a bool, and, where the two files beside this say so, of a text or a struct.
ghost use Rattle.std.specs.Prelude.{◌≡◌, ◌+◌, ◌-◌, ◌^◌, ◌<◌, ◌≤◌, IsTrue, IsFalse, true, Some};
ghost use Rattle.std.specs.Prelude.{None, length};
ghost use Rattle.fidl_limits.specs.declared.limits.TheConstants.{MAX_DEPTH};
ghost use Rattle.fidl_wire.specs.Term as ty;
ghost use Rattle.fidl_table_format.specs.declared.kind.EntryKind.{EntryKind};
ghost use Rattle.fidl_table_format.specs.declared.kind.EntryKind.TheVariants as kinds;
ghost use Rattle.fidl_table_format.specs.Kind.{kind_of};
ghost use Rattle.fidl_table_format.specs.Section.{header_of, entry_at};
ghost use Rattle.fidl_decode_model.specs.Invariants.{is_free};
ghost use Rattle.fidl_decode_model.specs.Machine.{StateFine, Opens, at_of};
ghost use Rattle.fidl_decode_values.specs.Reading.{came, message, Holds};
ghost use Rattle.fidl_decode_values.specs.Ready.{CanReadPlace};

use crate::decoder::Decoder;
use fidl_decode_columns::is_free;
use fidl_decode_model::frame::State;
use fidl_table_format::EntryKind;
use fidl_wire::MAX_DEPTH;

/// The last four bytes of an envelope that counts no handles and holds its member, as one number.
const NO_HANDLES_INSIDE: u32 = 0x1_0000;

/// An envelope that holds a bool and counts no handles, as one number without its lowest bit, which
/// is the bool.
const BOOL_INSIDE: u64 = 0x8000_0000_0000;

impl<'t, 'm, 's> Decoder<'t, 'm, 's> {
    /// Passes over the envelope at a place, in which a member of this size stands that any bytes
    /// are a value of, where its numbers and the bytes behind the member are right. Else nothing is
    /// read.
    #[inline(always)]
    pub fn pass_inside(
        &self,
        entry: u32,
        size: usize,
        envelope: usize,
        depth: u8,
        state: &mut State<'_, '_>,
    ) -> bool
        requires entry { entry < (header_of self.now.table.now).entries }
        requires free { (kind : EntryKind)
            × (kind_of (entry_at self.now.table.now entry).kind ≡ Some kind)
            × (is_free kind (entry_at self.now.table.now entry) ≡ true) }
        requires size { (entry_at self.now.table.now entry).size ≡ size }
        requires small { size ≤ 4 }
        requires room { envelope + 8 ≤ length (came self.now) }
        requires holds { Holds self.now state.old }
        requires state { StateFine (message self.now) (at_of state.old) }
        requires ready { CanReadPlace self.now state.old envelope 8 8 }
        requires depth { depth ≤ MAX_DEPTH }
        ensures holds { Holds self.now state.new }
        ensures passed { IsTrue result → Opens self.now.table.now (message self.now) depth (Some
            (ty.named entry)) envelope (at_of state.old) (at_of state.new)
            (state.new.steps - state.old.steps) None }
        ensures kept { IsFalse result → at_of state.new ≡ at_of state.old }
        ensures steps { state.new.steps ≡ state.old.steps }
        ensures grows { state.old.next ≤ state.new.next }
    {
        if self.u32_at(envelope + 4, state) != NO_HANDLES_INSIDE {
            return false;
        }
        // No byte behind the member's.
        if u64::from(self.u32_at(envelope, state)) >> (8 * size) != 0 {
            return false;
        }
        state.links.link_inside(envelope, state.handle);
        true
    }

    /// Passes over the envelope at a place, whose member has eight bytes out of line that any bytes
    /// are a value of, where its numbers are right. Else nothing is read.
    #[inline(always)]
    pub fn pass_below(
        &self,
        entry: u32,
        envelope: usize,
        depth: u8,
        state: &mut State<'_, '_>,
    ) -> bool
        requires entry { entry < (header_of self.now.table.now).entries }
        requires free { (kind : EntryKind)
            × (kind_of (entry_at self.now.table.now entry).kind ≡ Some kind)
            × (is_free kind (entry_at self.now.table.now entry) ≡ true) }
        requires size { (entry_at self.now.table.now entry).size ≡ 8 }
        requires room { envelope + 8 ≤ length (came self.now) }
        requires holds { Holds self.now state.old }
        requires state { StateFine (message self.now) (at_of state.old) }
        requires ready { CanReadPlace self.now state.old envelope 8 8 }
        requires depth { depth ≤ MAX_DEPTH }
        ensures holds { Holds self.now state.new }
        ensures passed { IsTrue result → Opens self.now.table.now (message self.now) depth (Some
            (ty.named entry)) envelope (at_of state.old) (at_of state.new)
            (state.new.steps - state.old.steps) None }
        ensures kept { IsFalse result → at_of state.new ≡ at_of state.old }
        ensures steps { state.new.steps ≡ state.old.steps }
        ensures grows { state.old.next ≤ state.new.next }
    {
        if self.u64_at(envelope, state) != 8 {
            return false;
        }
        let next = state.next;
        if depth as usize == MAX_DEPTH || self.size - next < 8 {
            return false;
        }
        state.links.link_outside(envelope, next, state.handle);
        state.next = next + 8;
        true
    }

    /// Passes over the envelope at a place, in which a bool stands, where its numbers are right and
    /// it is one. Else nothing is read.
    #[inline(always)]
    pub fn pass_bool(
        &self,
        entry: u32,
        envelope: usize,
        depth: u8,
        state: &mut State<'_, '_>,
    ) -> bool
        requires entry { entry < (header_of self.now.table.now).entries }
        requires kind { kind_of (entry_at self.now.table.now entry).kind ≡ Some kinds.Bool }
        requires room { envelope + 8 ≤ length (came self.now) }
        requires holds { Holds self.now state.old }
        requires state { StateFine (message self.now) (at_of state.old) }
        requires ready { CanReadPlace self.now state.old envelope 8 8 }
        requires depth { depth ≤ MAX_DEPTH }
        requires budget { state.old.steps < 2 ^ 44 }
        ensures holds { Holds self.now state.new }
        ensures passed { IsTrue result → Opens self.now.table.now (message self.now) depth (Some
            (ty.named entry)) envelope (at_of state.old) (at_of state.new)
            (state.new.steps - state.old.steps) None }
        ensures kept { IsFalse result → at_of state.new ≡ at_of state.old }
        ensures grows { state.old.steps ≤ state.new.steps }
        ensures pays { state.new.steps + state.old.next ≤ state.old.steps + state.new.next }
    {
        if self.u64_at(envelope, state) / 2 != BOOL_INSIDE {
            return false;
        }
        state.links.link_inside(envelope, state.handle);
        true
    }

    /// Passes over the envelope of a member at a place, where the member has at most four bytes, or
    /// eight, and any bytes are its value, and the envelope is right. Else nothing is read.
    #[inline(always)]
    fn pass_free(
        &self,
        entry: u32,
        kind: EntryKind,
        envelope: usize,
        depth: u8,
        state: &mut State<'_, '_>,
    ) -> bool
        requires entry { entry < (header_of self.now.table.now).entries }
        requires kind { kind_of (entry_at self.now.table.now entry).kind ≡ Some kind }
        requires room { envelope + 8 ≤ length (came self.now) }
        requires holds { Holds self.now state.old }
        requires state { StateFine (message self.now) (at_of state.old) }
        requires ready { CanReadPlace self.now state.old envelope 8 8 }
        requires depth { depth ≤ MAX_DEPTH }
        ensures holds { Holds self.now state.new }
        ensures passed { IsTrue result → Opens self.now.table.now (message self.now) depth (Some
            (ty.named entry)) envelope (at_of state.old) (at_of state.new)
            (state.new.steps - state.old.steps) None }
        ensures kept { IsFalse result → at_of state.new ≡ at_of state.old }
        ensures grows { state.old.next ≤ state.new.next }
        ensures steps { state.new.steps ≡ state.old.steps }
    {
        let e = self.entry(entry);
        if !is_free(&e, kind) {
            return false;
        }
        let size = e.size as usize;
        if size <= 4 {
            return self.pass_inside(entry, size, envelope, depth, state);
        }
        if size != 8 {
            return false;
        }
        self.pass_below(entry, envelope, depth, state)
    }

    /// Passes over the envelope of a member of this kind at a place, where the member is a number,
    /// a bool, a text or a struct of numbers, and the envelope's numbers are right. Else nothing is
    /// read.
    #[inline(always)]
    pub(crate) fn pass_kind(
        &self,
        entry: u32,
        kind: EntryKind,
        envelope: usize,
        depth: u8,
        state: &mut State<'_, '_>,
    ) -> bool
        requires entry { entry < (header_of self.now.table.now).entries }
        requires kind { kind_of (entry_at self.now.table.now entry).kind ≡ Some kind }
        requires room { envelope + 8 ≤ length (came self.now) }
        requires holds { Holds self.now state.old }
        requires state { StateFine (message self.now) (at_of state.old) }
        requires ready { CanReadPlace self.now state.old envelope 8 8 }
        requires depth { depth ≤ MAX_DEPTH }
        requires budget { state.old.steps < 2 ^ 44 }
        ensures holds { Holds self.now state.new }
        ensures passed { IsTrue result → Opens self.now.table.now (message self.now) depth (Some
            (ty.named entry)) envelope (at_of state.old) (at_of state.new)
            (state.new.steps - state.old.steps) None }
        ensures kept { IsFalse result → at_of state.new ≡ at_of state.old }
        ensures grows { state.old.steps ≤ state.new.steps }
        ensures pays { state.new.steps + state.old.next ≤ state.old.steps + state.new.next }
    {
        match kind {
            EntryKind::Bool => self.pass_bool(entry, envelope, depth, state),
            EntryKind::String => self.pass_text(entry, envelope, depth, state),
            EntryKind::Struct => self.pass_struct(entry, envelope, depth, state),
            _ => self.pass_free(entry, kind, envelope, depth, state),
        }
    }

    /// The same of a member whose kind is that of its entry.
    #[inline(always)]
    pub fn pass_member(
        &self,
        entry: u32,
        envelope: usize,
        depth: u8,
        state: &mut State<'_, '_>,
    ) -> bool
        requires entry { entry < (header_of self.now.table.now).entries }
        requires room { envelope + 8 ≤ length (came self.now) }
        requires holds { Holds self.now state.old }
        requires state { StateFine (message self.now) (at_of state.old) }
        requires ready { CanReadPlace self.now state.old envelope 8 8 }
        requires depth { depth ≤ MAX_DEPTH }
        requires budget { state.old.steps < 2 ^ 44 }
        ensures holds { Holds self.now state.new }
        ensures passed { IsTrue result → Opens self.now.table.now (message self.now) depth (Some
            (ty.named entry)) envelope (at_of state.old) (at_of state.new)
            (state.new.steps - state.old.steps) None }
        ensures kept { IsFalse result → at_of state.new ≡ at_of state.old }
        ensures grows { state.old.steps ≤ state.new.steps }
        ensures pays { state.new.steps + state.old.next ≤ state.old.steps + state.new.next }
    {
        let e = self.entry(entry);
        let Some(kind) = EntryKind::from_number(e.kind) else {
            unreachable!()
        };
        self.pass_kind(entry, kind, envelope, depth, state)
    }
}
