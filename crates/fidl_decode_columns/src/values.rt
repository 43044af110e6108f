//! One member of each of some structs, by the entry of its type.
ghost use Rattle.std.specs.Prelude.{◌≡◌, ℕ, ◌+◌, ◌*◌, ◌^◌, ◌<◌, ◌≤◌, IsTrue, Some, IfSome};
ghost use Rattle.std.specs.Prelude.{Contains, true};
ghost use Rattle.std.specs.Int.{byte_len};
ghost use Rattle.fidl_wire.specs.Term.{width};
ghost use Rattle.fidl_wire.specs.Typed.{InMask};
ghost use Rattle.fidl_table_format.specs.declared.kind.EntryKind.TheVariants as kinds;
ghost use Rattle.fidl_table_format.specs.Kind.{kind_of};
ghost use Rattle.fidl_table_format.specs.Number.{number_standing};
ghost use Rattle.fidl_table_format.specs.Section.{header_of, entry_at};
ghost use Rattle.fidl_table_format.specs.Entry.{subtype_is};
ghost use Rattle.fidl_table_format.specs.Uses.{is_unsigned};
ghost use Rattle.fidl_table_format.specs.Terms.{underlying, mask_of, strict_values, term_as};
ghost use Rattle.fidl_decode_model.specs.declared.fault.DecodeFault.TheVariants as faults;
ghost use Rattle.fidl_decode_model.specs.Faults.{message_of};
ghost use Rattle.fidl_decode_model.specs.Breaks.{BreaksField};
ghost use Rattle.fidl_decode_columns.specs.Columns.{place_of, HasRoom, IsFirstNot, IsFirstWrong};
ghost use Rattle.fidl_decode_columns.specs.Columns.{IsGoodAt, IsWindow, has_numbers};

use crate::column::{Column, Wrong};
use crate::columns::Columns;
use crate::window::Window;
use fidl_decode_model::DecodeFault;
use fidl_table_format::{Entry, EntryKind};

/// The fault of a number of an entry of this kind that is none of its values.
fn fault_of(kind: EntryKind, at: usize) -> DecodeFault
    ensures flag { kind ≡ kinds.Bool → result ≡ faults.BadBool at }
    ensures mask { kind ≡ kinds.Bits → result ≡ faults.UnknownBits at }
    ensures value { kind ≡ kinds.Enum → result ≡ faults.UnknownValue at }
{
    match kind {
        EntryKind::Bool => DecodeFault::BadBool { at },
        EntryKind::Bits => DecodeFault::UnknownBits { at },
        _ => DecodeFault::UnknownValue { at },
    }
}

impl<'t, 'a, 'm, 's> Columns<'t, 'a, 'm, 's> {
    /// Whether all bools or strict bits of an entry, which is of this kind, are values, as far as a
    /// window shows. Of other kinds it shows nothing.
    pub(crate) fn are_seen_good(
        &self,
        column: Column,
        entry: u32,
        kind: EntryKind,
        limit: u32,
        window: &mut Window,
    ) -> bool
        requires entry { entry < (header_of self.now.table.now).entries }
        requires kind { kind_of (entry_at self.now.table.now entry).kind ≡ Some kind }
        requires room { HasRoom self.now.links.now column (entry_at self.now.table.now entry).size
            limit }
        requires window { IsWindow self.now.links.now.came column.base column.size window.old }
        ensures window { IsWindow self.now.links.now.came column.base column.size window.new }
        ensures value { IsTrue result → (k : ℕ) → k < limit → IsGoodAt self.now.table.now
            self.now.links.now.came (entry_at self.now.table.now entry) kind (place_of column k) }
    {
        if limit == 0 {
            return true;
        }
        match kind {
            EntryKind::Bool => self.are_within(column, 1, 1, limit, window),
            EntryKind::Bits => {
                let e = self.table.entry(entry);
                e.is_strict() && self.are_within(column, e.size as usize, e.bound, limit, window)
            }
            _ => false,
        }
    }

    /// The first of so many bits with a bit outside the mask, where they are strict.
    fn first_bad_bits(&self, column: Column, entry: &Entry, limit: u32) -> u32
        requires kind { IsTrue (subtype_is is_unsigned entry.now) }
        requires room { HasRoom self.now.links.now column
            (byte_len (width (underlying entry.now))) limit }
        ensures { IsFirstNot (λ k. IfSome (mask_of entry.now)
            (λ mask. InMask mask (number_standing (underlying entry.now) self.now.links.now.came
            (place_of column k)))) limit result }
    {
        if !entry.is_strict() {
            return limit;
        }
        self.first_outside_mask_by_kind(column, entry.underlying(), entry.bound, limit)
    }

    /// The first of so many enums that is none of the values, where they are strict. Those of one
    /// range are not searched.
    fn first_bad_enum(&self, column: Column, entry: u32, limit: u32, steps: &mut u64) -> u32
        requires entry { entry < (header_of self.now.table.now).entries }
        requires kind { kind_of (entry_at self.now.table.now entry).kind ≡ Some kinds.Enum }
        requires room { HasRoom self.now.links.now column
            (byte_len (width (underlying (entry_at self.now.table.now entry)))) limit }
        requires budget { steps.old < 2 ^ 42 }
        ensures value { let t = self.now.table.now in
            let e = entry_at t entry in
            IsFirstNot (λ k. IfSome (strict_values t (header_of t) e)
            (λ values. Contains values (number_standing (underlying e) self.now.links.now.came
            (place_of column k)))) limit result }
        ensures grows { steps.old ≤ steps.new }
        ensures cost { steps.new ≤ steps.old + 16 * limit }
    {
        let e = self.table.entry(entry);
        if !e.is_strict() {
            return limit;
        }
        if e.count != 1 {
            return self.first_no_value(column, entry, limit, steps);
        }
        // Read, so that the number of ranges, and with it each range's, is known to have 32 bits.
        let _values = self.table.values();
        let range = self.table.range(e.first);
        self.first_outside_range_by_kind(column, e.underlying(), range, limit)
    }

    /// The first of so many numbers of an entry, which is of this kind, that is none of its values.
    fn first_bad(
        &self,
        column: Column,
        entry: u32,
        kind: EntryKind,
        limit: u32,
        steps: &mut u64,
    ) -> u32
        requires entry { entry < (header_of self.now.table.now).entries }
        requires kind { kind_of (entry_at self.now.table.now entry).kind ≡ Some kind }
        requires room { HasRoom self.now.links.now column (entry_at self.now.table.now entry).size
            limit }
        requires budget { steps.old < 2 ^ 42 }
        ensures value { IsFirstNot (λ k. IsGoodAt self.now.table.now self.now.links.now.came
            (entry_at self.now.table.now entry) kind (place_of column k)) limit result }
        ensures grows { steps.old ≤ steps.new }
        ensures cost { steps.new ≤ steps.old + 16 * limit }
    {
        match kind {
            EntryKind::Bool => self.first_no_bool(column, limit),
            EntryKind::Bits => self.first_bad_bits(column, &self.table.entry(entry), limit),
            EntryKind::Enum => self.first_bad_enum(column, entry, limit, steps),
            _ => limit,
        }
    }

    /// The first of so many numbers of an entry that is none of its values, with its fault.
    pub(crate) fn first_wrong(
        &self,
        column: Column,
        entry: u32,
        kind: EntryKind,
        limit: u32,
        steps: &mut u64,
    ) -> Option<Wrong>
        requires entry { entry < (header_of self.now.table.now).entries }
        requires kind { kind_of (entry_at self.now.table.now entry).kind ≡ Some kind }
        requires numbers { has_numbers kind ≡ true }
        requires room { HasRoom self.now.links.now column (entry_at self.now.table.now entry).size
            limit }
        requires budget { steps.old < 2 ^ 42 }
        ensures value { let t = self.now.table.now in
            let e = entry_at t entry in
            IsFirstWrong (λ k. IsGoodAt t self.now.links.now.came e kind (place_of column k))
            (λ k. BreaksField (message_of self.now.links.now.came self.now.handles.now)
            (term_as kind t (header_of t) e) (place_of column k)) limit result }
        ensures grows { steps.old ≤ steps.new }
        ensures cost { steps.new ≤ steps.old + 16 * limit }
    {
        let element = self.first_bad(column, entry, kind, limit, steps);
        if element == limit {
            return None;
        }
        let at = column.base + column.size * element as usize + column.offset;
        Some(Wrong {
            element,
            fault: fault_of(kind, at),
        })
    }
}
