//! Enums of several ranges. Each number is searched, but small ones that were found before.
ghost use Rattle.std.specs.Prelude.{◌≡◌, ℕ, ◌+◌, ◌*◌, ◌^◌, ◌<◌, ◌≤◌, ◌↔◌, IsTrue, Some, Contains};
ghost use Rattle.std.specs.Prelude.{List, slice_index_or, false};
ghost use Rattle.std.specs.Int.{byte_len};
ghost use Rattle.fidl_wire.specs.Term.{width};
ghost use Rattle.fidl_table_format.specs.declared.kind.EntryKind.TheVariants as kinds;
ghost use Rattle.fidl_table_format.specs.Kind.{kind_of};
ghost use Rattle.fidl_table_format.specs.Number.{number_standing};
ghost use Rattle.fidl_table_format.specs.Section.{header_of, entry_at};
ghost use Rattle.fidl_table_format.specs.Terms.{as_number, underlying, value_number};
ghost use Rattle.fidl_table_format.specs.Terms.{values_from};
ghost use Rattle.fidl_decode_columns.specs.Columns.{place_of, HasRoom, IsFirstNot, AreValues};

use crate::column::Column;
use crate::columns::Columns;
use fidl_table_format::{EntryKind, number_bits};

/// How many numbers, from 0 on, are searched once alone.
const NOTED: usize = 256;

/// How many numbers are looked at together.
const PART: u32 = 32;

impl<'t, 'a, 'm, 's> Columns<'t, 'a, 'm, 's> {
    /// Whether a number is a value of an enum. One that is noted as such is not searched, and a
    /// small one that is found is noted. A search's probes are steps.
    #[inline(always)]
    fn is_value(&self, entry: u32, number: u64, noted: &mut [bool; NOTED], steps: &mut u64) -> bool
        requires entry { entry < (header_of self.now.table.now).entries }
        requires kind { kind_of (entry_at self.now.table.now entry).kind ≡ Some kinds.Enum }
        requires noted { AreValues self.now.table.now entry noted.old }
        requires budget { steps.old < 2 ^ 62 }
        ensures value { let t = self.now.table.now in
            let e = entry_at t entry in
            IsTrue result ↔ Contains (values_from t (header_of t) (underlying e) e.first e.count)
            (value_number (underlying e) number) }
        ensures noted { AreValues self.now.table.now entry noted.new }
        ensures grows { steps.old ≤ steps.new }
        ensures few { steps.new ≤ steps.old + 16 }
    {
        if number >= NOTED as u64 {
            return self.table.has_value(entry, number, steps);
        }
        let place = number as usize;
        if noted[place] {
            return true;
        }
        if !self.table.has_value(entry, number, steps) {
            return false;
        }
        noted[place] = true;
        true
    }

    /// Whether so many numbers of a kind are all small and noted. A caller names the kind.
    #[inline(always)]
    fn are_noted(&self, column: Column, kind: EntryKind, noted: &[bool; NOTED], limit: u32) -> bool
        requires room { HasRoom self.now.links.now column (byte_len (width (as_number kind)))
            limit }
        ensures { IsTrue result → (k : ℕ) → k < limit → (n : ℕ)
            × (value_number (as_number kind) n
            ≡ number_standing (as_number kind) self.now.links.now.came (place_of column k))
            × IsTrue (slice_index_or noted.now n false) }
    {
        let bytes = self.links.raw();
        let mut start = column.base;
        let mut all = true;
        let mut seen = 0;
        for _i in 0..limit {
            let number = number_bits(kind, bytes, start + column.offset);
            seen |= number;
            all &= noted[(number % NOTED as u64) as usize];
            start += column.size;
        }
        all && seen < NOTED as u64
    }

    /// The first of so many numbers of a kind that is no value of an enum. A caller names the kind,
    /// so that it is not looked up for each number.
    #[inline(always)]
    fn first_not_found(
        &self,
        column: Column,
        entry: u32,
        kind: EntryKind,
        noted: &mut [bool; NOTED],
        limit: u32,
        steps: &mut u64,
    ) -> u32
        requires entry { entry < (header_of self.now.table.now).entries }
        requires kind { kind_of (entry_at self.now.table.now entry).kind ≡ Some kinds.Enum }
        requires underlying { as_number kind ≡ underlying (entry_at self.now.table.now entry) }
        requires room { HasRoom self.now.links.now column
            (byte_len (width (underlying (entry_at self.now.table.now entry)))) limit }
        requires noted { AreValues self.now.table.now entry noted.old }
        requires budget { steps.old < 2 ^ 43 }
        ensures value { let t = self.now.table.now in
            let e = entry_at t entry in
            IsFirstNot (λ k. Contains (values_from t (header_of t) (underlying e) e.first e.count)
            (number_standing (underlying e) self.now.links.now.came (place_of column k)))
            limit result }
        ensures noted { AreValues self.now.table.now entry noted.new }
        ensures grows { steps.old ≤ steps.new }
        ensures cost { steps.new ≤ steps.old + 16 * limit }
    {
        let bytes = self.links.raw();
        let mut start = column.base;
        for i in 0..limit {
            let number = number_bits(kind, bytes, start + column.offset);
            if !self.is_value(entry, number, noted, steps) {
                return i;
            }
            start += column.size;
        }
        limit
    }

    /// The first of so many numbers of a kind that is no value of an enum. They are looked at in
    /// parts, and one by one in the first part alone and where not all of a part are noted.
    #[inline(always)]
    fn first_in_parts(
        &self,
        column: Column,
        entry: u32,
        kind: EntryKind,
        limit: u32,
        steps: &mut u64,
    ) -> u32
        requires entry { entry < (header_of self.now.table.now).entries }
        requires kind { kind_of (entry_at self.now.table.now entry).kind ≡ Some kinds.Enum }
        requires underlying { as_number kind ≡ underlying (entry_at self.now.table.now entry) }
        requires room { HasRoom self.now.links.now column
            (byte_len (width (underlying (entry_at self.now.table.now entry)))) limit }
        requires budget { steps.old < 2 ^ 42 }
        ensures value { let t = self.now.table.now in
            let e = entry_at t entry in
            IsFirstNot (λ k. Contains (values_from t (header_of t) (underlying e) e.first e.count)
            (number_standing (underlying e) self.now.links.now.came (place_of column k)))
            limit result }
        ensures grows { steps.old ≤ steps.new }
        ensures cost { steps.new ≤ steps.old + 16 * limit }
    {
        let mut noted = [false; NOTED];
        let mut done = 0;
        while done < limit {
            let count = if limit - done < PART {
                limit - done
            } else {
                PART
            };
            let part = Column {
                base: column.base + column.size * done as usize,
                size: column.size,
                offset: column.offset,
            };
            if done == 0 || !self.are_noted(part, kind, &noted, count) {
                let first = self.first_not_found(part, entry, kind, &mut noted, count, steps);
                if first < count {
                    return done + first;
                }
            }
            done += count;
        }
        limit
    }

    /// The first of so many numbers that is no value of an enum, by a loop for its kind.
    pub(crate) fn first_no_value(
        &self,
        column: Column,
        entry: u32,
        limit: u32,
        steps: &mut u64,
    ) -> u32
        requires entry { entry < (header_of self.now.table.now).entries }
        requires kind { kind_of (entry_at self.now.table.now entry).kind ≡ Some kinds.Enum }
        requires room { HasRoom self.now.links.now column
            (byte_len (width (underlying (entry_at self.now.table.now entry)))) limit }
        requires budget { steps.old < 2 ^ 42 }
        ensures value { let t = self.now.table.now in
            let e = entry_at t entry in
            IsFirstNot (λ k. Contains (values_from t (header_of t) (underlying e) e.first e.count)
            (number_standing (underlying e) self.now.links.now.came (place_of column k)))
            limit result }
        ensures grows { steps.old ≤ steps.new }
        ensures cost { steps.new ≤ steps.old + 16 * limit }
    {
        match self.table.entry(entry).underlying() {
            EntryKind::Int8 => self.first_in_parts(column, entry, EntryKind::Int8, limit, steps),
            EntryKind::Int16 => self.first_in_parts(column, entry, EntryKind::Int16, limit, steps),
            EntryKind::Int32 => self.first_in_parts(column, entry, EntryKind::Int32, limit, steps),
            EntryKind::Int64 => self.first_in_parts(column, entry, EntryKind::Int64, limit, steps),
            EntryKind::Uint16 => {
                self.first_in_parts(column, entry, EntryKind::Uint16, limit, steps)
            }
            EntryKind::Uint32 => {
                self.first_in_parts(column, entry, EntryKind::Uint32, limit, steps)
            }
            EntryKind::Uint64 => {
                self.first_in_parts(column, entry, EntryKind::Uint64, limit, steps)
            }
            _ => self.first_in_parts(column, entry, EntryKind::Uint8, limit, steps),
        }
    }
}
