//! One member of each of some structs that stand behind one another: a loop for each kind of test.
ghost use Rattle.std.specs.Prelude.{ℕ, ◌+◌, ◌-◌, ◌<◌, ◌≤◌, ◌≤ℤ◌, ◌↔◌, IsTrue};
ghost use Rattle.std.specs.Prelude.{Some, slice_index};
ghost use Rattle.std.specs.Int.{byte_len};
ghost use Rattle.fidl_wire.specs.Term.{width};
ghost use Rattle.fidl_wire.specs.Typed.{InMask};
ghost use Rattle.fidl_table_format.specs.Number.{number_standing};
ghost use Rattle.fidl_table_format.specs.Terms.{as_number, value_number};
ghost use Rattle.fidl_decode_columns.specs.Columns.{place_of, HasRoom, HasNoSign, IsFirstNot};

use crate::columns::Columns;
use fidl_decode_model::DecodeFault;
use fidl_table_format::{EntryKind, ValueRange, number_bits};

/// One member of structs that stand behind one another: where the first struct begins, how many
/// bytes each has, and how far behind its struct's start the member begins.
#[derive(Clone, Copy, Drop)]
pub(crate) struct Column {
    pub base: usize,
    pub size: usize,
    pub offset: usize,
}

/// A struct that is wrong, by its number among those that stand behind one another, and why.
#[derive(Clone, Copy, Drop)]
pub(crate) struct Wrong {
    pub element: u32,
    pub fault: DecodeFault,
}

/// Whether one number of a kind of numbers is at most another, both in 64 bits.
#[inline(always)]
fn is_at_most(kind: EntryKind, a: u64, b: u64) -> bool
    ensures { IsTrue result ↔ (value_number (as_number kind) a ≤ℤ value_number (as_number kind) b) }
{
    match kind {
        EntryKind::Int8 | EntryKind::Int16 | EntryKind::Int32 | EntryKind::Int64 => {
            a.cast_signed() <= b.cast_signed()
        }
        _ => a <= b,
    }
}

/// Whether a number of a kind of numbers is in a range, all in 64 bits.
#[inline(always)]
fn is_within(kind: EntryKind, number: u64, range: ValueRange) -> bool
    ensures { let value = value_number (as_number kind) in
        IsTrue result ↔ ((value range.lowest ≤ℤ value number)
        × (value number ≤ℤ value range.highest)) }
{
    is_at_most(kind, range.lowest, number) && is_at_most(kind, number, range.highest)
}

impl<'t, 'a, 'm, 's> Columns<'t, 'a, 'm, 's> {
    /// The first of so many bools that is neither 0 nor 1.
    pub(crate) fn first_no_bool(&self, column: Column, limit: u32) -> u32
        requires room { HasRoom self.now.links.now column 1 limit }
        ensures { IsFirstNot (λ k. slice_index self.now.links.now.came (place_of column k) ≤ 1)
            limit result }
    {
        let bytes = self.links.raw();
        let mut start = column.base;
        for i in 0..limit {
            if bytes[start + column.offset] > 1 {
                return i;
            }
            start += column.size;
        }
        limit
    }

    /// The first of so many numbers of a kind with a bit outside a mask. A caller names the kind,
    /// so that it is not looked up for each number.
    #[inline(always)]
    fn first_outside_mask(&self, column: Column, kind: EntryKind, mask: u64, limit: u32) -> u32
        requires kind { HasNoSign (as_number kind) }
        requires room { let size = byte_len (width (as_number kind)) in
            HasRoom self.now.links.now column size limit }
        ensures { IsFirstNot (λ k. InMask mask
            (number_standing (as_number kind) self.now.links.now.came (place_of column k)))
            limit result }
    {
        let bytes = self.links.raw();
        let mut start = column.base;
        for i in 0..limit {
            let number = number_bits(kind, bytes, start + column.offset);
            if number | mask != mask {
                return i;
            }
            start += column.size;
        }
        limit
    }

    /// Whether so many numbers of a kind are all in a range, which its ends show and the lowest and
    /// highest number among them. A caller names the kind.
    #[inline(always)]
    fn are_within_range(
        &self,
        column: Column,
        kind: EntryKind,
        range: ValueRange,
        limit: u32,
    ) -> bool
        requires room { let size = byte_len (width (as_number kind)) in
            HasRoom self.now.links.now column size limit }
        ensures { let value = value_number (as_number kind) in
            let at = λ (k : ℕ). number_standing (as_number kind) self.now.links.now.came
            (place_of column k) in
            IsTrue result → (k : ℕ) → k < limit
            → (value range.lowest ≤ℤ at k) × (at k ≤ℤ value range.highest) }
    {
        let bytes = self.links.raw();
        let mut start = column.base;
        let mut low = range.lowest;
        let mut high = range.highest;
        for _i in 0..limit {
            let number = number_bits(kind, bytes, start + column.offset);
            if !is_at_most(kind, low, number) {
                low = number;
            }
            if !is_at_most(kind, number, high) {
                high = number;
            }
            start += column.size;
        }
        low == range.lowest && high == range.highest
    }

    /// The first of so many numbers of a kind that is not in a range. A caller names the kind, so
    /// that it is not looked up for each number.
    #[inline(always)]
    fn first_outside_range(
        &self,
        column: Column,
        kind: EntryKind,
        range: ValueRange,
        limit: u32,
    ) -> u32
        requires room { let size = byte_len (width (as_number kind)) in
            HasRoom self.now.links.now column size limit }
        ensures { let value = value_number (as_number kind) in
            let at = λ (k : ℕ). number_standing (as_number kind) self.now.links.now.came
            (place_of column k) in
            IsFirstNot (λ k. (value range.lowest ≤ℤ at k) × (at k ≤ℤ value range.highest))
            limit result }
    {
        if self.are_within_range(column, kind, range, limit) {
            return limit;
        }
        let bytes = self.links.raw();
        let mut start = column.base;
        for i in 0..limit {
            let number = number_bits(kind, bytes, start + column.offset);
            if !is_within(kind, number, range) {
                return i;
            }
            start += column.size;
        }
        limit
    }

    /// The first of so many numbers of a kind with a bit outside a mask, by a loop for its kind.
    pub(crate) fn first_outside_mask_by_kind(
        &self,
        column: Column,
        kind: EntryKind,
        mask: u64,
        limit: u32,
    ) -> u32
        requires kind { HasNoSign (as_number kind) }
        requires room { let size = byte_len (width (as_number kind)) in
            HasRoom self.now.links.now column size limit }
        ensures { IsFirstNot (λ k. InMask mask
            (number_standing (as_number kind) self.now.links.now.came (place_of column k)))
            limit result }
    {
        match kind {
            EntryKind::Uint16 => self.first_outside_mask(column, EntryKind::Uint16, mask, limit),
            EntryKind::Uint32 => self.first_outside_mask(column, EntryKind::Uint32, mask, limit),
            EntryKind::Uint64 => self.first_outside_mask(column, EntryKind::Uint64, mask, limit),
            _ => self.first_outside_mask(column, EntryKind::Uint8, mask, limit),
        }
    }

    /// The first of so many numbers of a kind that is not in a range, by a loop for its kind.
    pub(crate) fn first_outside_range_by_kind(
        &self,
        column: Column,
        kind: EntryKind,
        range: ValueRange,
        limit: u32,
    ) -> u32
        requires room { let size = byte_len (width (as_number kind)) in
            HasRoom self.now.links.now column size limit }
        ensures { let value = value_number (as_number kind) in
            let at = λ (k : ℕ). number_standing (as_number kind) self.now.links.now.came
            (place_of column k) in
            IsFirstNot (λ k. (value range.lowest ≤ℤ at k) × (at k ≤ℤ value range.highest))
            limit result }
    {
        match kind {
            EntryKind::Int8 => self.first_outside_range(column, EntryKind::Int8, range, limit),
            EntryKind::Int16 => self.first_outside_range(column, EntryKind::Int16, range, limit),
            EntryKind::Int32 => self.first_outside_range(column, EntryKind::Int32, range, limit),
            EntryKind::Int64 => self.first_outside_range(column, EntryKind::Int64, range, limit),
            EntryKind::Uint16 => self.first_outside_range(column, EntryKind::Uint16, range, limit),
            EntryKind::Uint32 => self.first_outside_range(column, EntryKind::Uint32, range, limit),
            EntryKind::Uint64 => self.first_outside_range(column, EntryKind::Uint64, range, limit),
            _ => self.first_outside_range(column, EntryKind::Uint8, range, limit),
        }
    }
}
