//! What an entry declares, but for the parts that it names.
ghost use Rattle.std.specs.Prelude.{◌≡◌, ℕ, List, Some, IsTrue};
ghost use Rattle.fidl_wire.specs.Term as ty;
ghost use Rattle.fidl_ir.specs.Terms.{number_kind_view};
ghost use Rattle.fidl_table_format.specs.declared.record.Header.{Header};
ghost use Rattle.fidl_table_format.specs.Kind.{number_type};
ghost use Rattle.fidl_table_format.specs.Terms.{term_of, is_optional, strict_values, fields_from};
ghost use Rattle.fidl_table_format.specs.Terms.{rows_from, underlying, mask_of};
ghost use Rattle.fidl_table_format.specs.Entry.{IsOf};

use fidl_ir::NumberKind;
use fidl_table_format::{Entry, EntryKind};

/// The kind of entries that stands for a type of numbers.
pub(crate) fn kind_of(kind: NumberKind) -> EntryKind
    ensures { number_type result ≡ Some (number_kind_view kind) }
{
    match kind {
        NumberKind::Int8 => EntryKind::Int8,
        NumberKind::Int16 => EntryKind::Int16,
        NumberKind::Int32 => EntryKind::Int32,
        NumberKind::Int64 => EntryKind::Int64,
        NumberKind::Uint8 => EntryKind::Uint8,
        NumberKind::Uint16 => EntryKind::Uint16,
        NumberKind::Uint32 => EntryKind::Uint32,
        NumberKind::Uint64 => EntryKind::Uint64,
    }
}

/// Whether two kinds of entries are the same.
pub(crate) fn same_kind(a: EntryKind, b: EntryKind) -> bool
    ensures { IsTrue result → a ≡ b }
{
    a == b
}

/// Whether an entry is of this kind.
pub(crate) fn is_of(entry: &Entry, kind: EntryKind) -> bool
    ensures { IsTrue result → IsOf kind entry.now }
{
    match EntryKind::from_number(entry.kind) {
        Some(found) => same_kind(found, kind),
        None => false,
    }
}

/// Whether the flag of optional types is set.
fn is_optional(entry: &Entry) -> bool
    ensures { result ≡ is_optional entry.now }
{
    entry.flags % 2 == 1
}

/// Whether an entry is a bool.
pub(crate) fn is_bool(entry: &Entry) -> bool
    ensures { IsTrue result
        → (bytes : List ℕ) (h : Header) → term_of bytes h entry.now ≡ ty.bool }
{
    is_of(entry, EntryKind::Bool)
}

/// Whether an entry is of a type of numbers.
pub(crate) fn is_number(entry: &Entry, kind: NumberKind) -> bool
    ensures { IsTrue result
        → (bytes : List ℕ) (h : Header) → term_of bytes h entry.now ≡ ty.number (number_kind_view kind) }
{
    is_of(entry, kind_of(kind))
}

/// Whether an entry is a handle of this object type, with these rights.
pub(crate) fn is_handle(entry: &Entry, optional: bool, subtype: u32, rights: u32) -> bool
    ensures { IsTrue result → (bytes : List ℕ) (h : Header) → term_of bytes h entry.now
        ≡ ty.handle optional subtype rights }
{
    is_of(entry, EntryKind::Handle)
        && is_optional(entry) == optional
        && entry.subtype == subtype
        && entry.rights == rights
}

/// Whether an entry is a string of this bound.
pub(crate) fn is_text(entry: &Entry, optional: bool, bound: u32) -> bool
    ensures { IsTrue result
        → (bytes : List ℕ) (h : Header) → term_of bytes h entry.now ≡ ty.string optional bound }
{
    is_of(entry, EntryKind::String)
        && is_optional(entry) == optional
        && entry.bound == u64::from(bound)
}

/// Whether an entry is a vector of this bound.
pub(crate) fn is_vector(entry: &Entry, optional: bool, bound: u32) -> bool
    ensures { IsTrue result → (bytes : List ℕ) (h : Header) → term_of bytes h entry.now
        ≡ ty.vector optional bound (ty.named entry.now.first) }
{
    is_of(entry, EntryKind::Vector)
        && is_optional(entry) == optional
        && entry.bound == u64::from(bound)
}

/// Whether an entry is an array of this many elements.
pub(crate) fn is_array(entry: &Entry, count: u32) -> bool
    ensures { IsTrue result → (bytes : List ℕ) (h : Header) → term_of bytes h entry.now
        ≡ ty.array (ty.named entry.now.first) count }
{
    is_of(entry, EntryKind::Array) && entry.count == count
}

/// Whether an entry is a box.
pub(crate) fn is_box(entry: &Entry) -> bool
    ensures { IsTrue result → (bytes : List ℕ) (h : Header) → term_of bytes h entry.now
        ≡ ty.box (ty.named entry.now.first) }
{
    is_of(entry, EntryKind::Box)
}

/// Whether an entry has this underlying type.
fn is_over(entry: &Entry, kind: NumberKind) -> bool
    ensures { IsTrue result → underlying entry.now ≡ number_kind_view kind }
{
    same_kind(entry.underlying(), kind_of(kind))
}

/// Whether an entry has this mask, and is strict where there is one.
fn has_mask(entry: &Entry, mask: Option<u64>) -> bool
    ensures { IsTrue result → mask_of entry.now ≡ mask }
{
    match mask {
        Some(mask) => entry.is_strict() && entry.bound == mask,
        None => !entry.is_strict(),
    }
}

/// Whether an entry is of bits of this type, with this mask.
pub(crate) fn is_bits(entry: &Entry, kind: NumberKind, mask: Option<u64>) -> bool
    ensures { IsTrue result → (bytes : List ℕ) (h : Header) → term_of bytes h entry.now
        ≡ ty.bits (number_kind_view kind) mask }
{
    is_of(entry, EntryKind::Bits) && is_over(entry, kind) && has_mask(entry, mask)
}

/// Whether an entry is an enum of this type.
pub(crate) fn is_enum(entry: &Entry, kind: NumberKind) -> bool
    ensures of_kind { IsTrue result → IsOf EntryKind.Enum entry.now }
    ensures declares { IsTrue result → (bytes : List ℕ) (h : Header) → term_of bytes h entry.now
        ≡ ty.enum (number_kind_view kind) (strict_values bytes h entry.now) }
{
    is_of(entry, EntryKind::Enum) && is_over(entry, kind)
}

/// Whether an entry is a struct.
pub(crate) fn is_struct(entry: &Entry) -> bool
    ensures of_kind { IsTrue result → IsOf EntryKind.Struct entry.now }
    ensures declares { IsTrue result → (bytes : List ℕ) (h : Header) → term_of bytes h entry.now
        ≡ ty.struct (fields_from bytes h entry.now.first entry.now.count) }
{
    is_of(entry, EntryKind::Struct)
}

/// Whether an entry is a table.
pub(crate) fn is_table(entry: &Entry) -> bool
    ensures of_kind { IsTrue result → IsOf EntryKind.Table entry.now }
    ensures declares { IsTrue result → (bytes : List ℕ) (h : Header) → term_of bytes h entry.now
        ≡ ty.table (rows_from bytes h entry.now.first entry.now.count) }
{
    is_of(entry, EntryKind::Table)
}

/// Whether an entry is a union that may or may not be absent, and is or is not strict.
pub(crate) fn is_union(entry: &Entry, optional: bool, strict: bool) -> bool
    ensures of_kind { IsTrue result → IsOf EntryKind.Union entry.now }
    ensures declares { IsTrue result → (bytes : List ℕ) (h : Header) → term_of bytes h entry.now
        ≡ ty.union optional strict (rows_from bytes h entry.now.first entry.now.count) }
{
    is_of(entry, EntryKind::Union) && is_optional(entry) == optional && entry.is_strict() == strict
}
