//! Numbers, bits and enums.
ghost use Rattle.std.specs.Prelude.{ℤ, ◌≡◌, ◌≢◌, ◌↔◌, ◌≤◌, ◌<◌, ◌+◌, Contains, length, OnOk, OnErr, IfOk, IfErr, OnSome, IfSome, IfNone};
ghost use Rattle.std.specs.Prelude.{IsSome, IsTrue};
ghost use Rattle.std.specs.Int.{byte_len};
ghost use Rattle.fidl_wire.specs.Term as ty;
ghost use Rattle.fidl_wire.specs.Term.{width};
ghost use Rattle.fidl_wire.specs.Typed.{InMask, InRange};
ghost use Rattle.fidl_wire.specs.Figure.{Declarations};
ghost use Rattle.fidl_wire.specs.Value.{number};
ghost use Rattle.fidl_wire.specs.Views.{value_view};
ghost use Rattle.fidl_wire.specs.Encoding.{number_bytes};
ghost use Rattle.fidl_table_format.specs.Kind.{number_type};
ghost use Rattle.fidl_table_format.specs.declared.kind.EntryKind.TheVariants as EntryKind;
ghost use Rattle.fidl_table_format.specs.Section.{header_of, entry_at};
ghost use Rattle.fidl_table_format.specs.Terms.{as_number, underlying, mask_of, value_number};
ghost use Rattle.fidl_table_format.specs.Terms.{strict_values};
ghost use Rattle.fidl_table_format.specs.Uses.{is_unsigned};
ghost use Rattle.fidl_table_format.specs.Entry.{subtype_is, IsOf};
ghost use Rattle.fidl_encode.specs.declared.fault.EncodeFault.TheVariants.{WrongShape};
ghost use Rattle.fidl_encode.specs.Writing.{IsOver, IsWithin, written};
ghost use Rattle.fidl_encode.specs.Parts.{value_part, enum_at, IsWritten, IsRefused};

use crate::fault::EncodeFault;
use crate::message::Message;
use crate::shape::as_number;
use crate::target::Target;
use fidl_table_format::{Entry, EntryKind};
use fidl_verify::Table;
use fidl_wire::Value;

/// Writes the bytes of a number of a kind of numbers, and answers it in 64 bits: a negative one in
/// two's complement. None is written of a number out of the kind's range.
#[inline(always)]
fn put_number(kind: EntryKind, number: i128, at: usize, out: &mut Message) -> Option<u64>
    requires { at + byte_len (width (as_number kind)) ≤ length out.old.bytes.items }
    ensures over { OnSome result (IsOver out.old.bytes.items out.new.bytes.items at
        (number_bytes (as_number kind) number)) }
    ensures range { OnSome result (InRange (as_number kind) number) }
    ensures word { IfSome result (λ word. value_number (as_number kind) word ≡ number) }
    ensures none { IfNone result (InRange (as_number kind) number → ⊥) }
    ensures same { length out.new.bytes.items ≡ length out.old.bytes.items }
    ensures handles { out.new.handles.items ≡ out.old.handles.items }
{
    match kind {
        EntryKind::Int8 => {
            let own = i8::try_from(number).ok()?;
            out.put(at, &own.to_le_bytes());
            Some(i64::from(own).cast_unsigned())
        }
        EntryKind::Int16 => {
            let own = i16::try_from(number).ok()?;
            out.put(at, &own.to_le_bytes());
            Some(i64::from(own).cast_unsigned())
        }
        EntryKind::Int32 => {
            let own = i32::try_from(number).ok()?;
            out.put(at, &own.to_le_bytes());
            Some(i64::from(own).cast_unsigned())
        }
        EntryKind::Int64 => {
            let own = i64::try_from(number).ok()?;
            out.put(at, &own.to_le_bytes());
            Some(own.cast_unsigned())
        }
        EntryKind::Uint16 => {
            let own = u16::try_from(number).ok()?;
            out.put(at, &own.to_le_bytes());
            Some(u64::from(own))
        }
        EntryKind::Uint32 => {
            let own = u32::try_from(number).ok()?;
            out.put(at, &own.to_le_bytes());
            Some(u64::from(own))
        }
        EntryKind::Uint64 => {
            let own = u64::try_from(number).ok()?;
            out.put(at, &own.to_le_bytes());
            Some(own)
        }
        _ => {
            let own = u8::try_from(number).ok()?;
            out.put(at, &own.to_le_bytes());
            Some(u64::from(own))
        }
    }
}

/// Writes a number of a kind of numbers.
#[inline(always)]
pub(crate) fn write_number(
    kind: EntryKind,
    value: &Value,
    target: Target,
    out: &mut Message,
) -> Result<(), EncodeFault>
    requires within { IsWithin (written out.old) }
    requires room { target.at + byte_len (width (as_number kind)) ≤ length out.old.bytes.items }
    ensures ok { OnOk result ((ds : Declarations) → IsWritten
        (value_part ds (ty.number (as_number kind)) (value_view value.now)) target.depth target.at
        (written out.old) (written out.new)) }
    ensures fault_is_true { IfErr result (λ f. (ds : Declarations) → IsRefused
        (value_part ds (ty.number (as_number kind)) (value_view value.now)) target.depth
        (written out.old) f) }
{
    let Some(number) = as_number(value) else {
        return Err(EncodeFault::WrongShape);
    };
    match put_number(kind, number, target.at, out) {
        Some(_) => Ok(()),
        None => Err(EncodeFault::WrongShape),
    }
}

/// Whether a number, in 64 bits, has no bit outside the mask of strict bits; each has of flexible
/// ones.
fn is_masked(entry: &Entry, word: u64) -> bool
    requires { IsTrue (subtype_is is_unsigned entry.now) }
    ensures { IsTrue result ↔ IfSome (mask_of entry.now)
        (λ mask. InMask mask (value_number (underlying entry.now) word)) }
{
    !entry.is_strict() || word | entry.bound == entry.bound
}

/// Writes the number of bits or an enum, and answers it in 64 bits.
fn put_underlying(
    entry: &Entry,
    value: &Value,
    at: usize,
    out: &mut Message,
) -> Result<u64, EncodeFault>
    requires { at + byte_len (width (underlying entry.now)) ≤ length out.old.bytes.items }
    ensures value { IfOk result (λ word. value_view value.now
        ≡ number (value_number (underlying entry.now) word)) }
    ensures range { IfOk result (λ word. InRange (underlying entry.now)
        (value_number (underlying entry.now) word)) }
    ensures over { IfOk result (λ word. IsOver out.old.bytes.items out.new.bytes.items at
        (number_bytes (underlying entry.now) (value_number (underlying entry.now) word))) }
    ensures same { length out.new.bytes.items ≡ length out.old.bytes.items }
    ensures handles { out.new.handles.items ≡ out.old.handles.items }
    ensures none { OnErr result ((z : ℤ) → InRange (underlying entry.now) z
        → value_view value.now ≢ number z) }
    ensures fault { IfErr result (λ f. f ≡ WrongShape) }
{
    let Some(number) = as_number(value) else {
        return Err(EncodeFault::WrongShape);
    };
    put_number(entry.underlying(), number, at, out).ok_or(EncodeFault::WrongShape)
}

/// Whether a number, in 64 bits, is one of the values of a strict enum; each is of a flexible one.
fn is_listed(table: &Table<'_>, index: u32, entry: &Entry, word: u64) -> bool
    requires entry { index < (header_of table.now).entries }
    requires same { entry.now ≡ entry_at table.now index }
    requires kind { IsOf EntryKind.Enum entry.now }
    ensures { IsTrue result ↔ IfSome (strict_values table.now (header_of table.now) entry.now)
        (λ values. Contains values (value_number (underlying entry.now) word)) }
{
    let mut probes = 0;
    !entry.is_strict() || table.has_value(index, word, &mut probes)
}

/// Writes the number of bits: where they are strict, with no bit outside their mask.
pub(crate) fn write_bits(
    entry: &Entry,
    value: &Value,
    target: Target,
    out: &mut Message,
) -> Result<(), EncodeFault>
    requires within { IsWithin (written out.old) }
    requires room { target.at + byte_len (width (underlying entry.now))
        ≤ length out.old.bytes.items }
    requires unsigned { IsTrue (subtype_is is_unsigned entry.now) }
    ensures ok { OnOk result ((ds : Declarations) → IsWritten
        (value_part ds (ty.bits (underlying entry.now) (mask_of entry.now)) (value_view value.now))
        target.depth target.at (written out.old) (written out.new)) }
    ensures fault_is_true { IfErr result (λ f. (ds : Declarations) → IsRefused
        (value_part ds (ty.bits (underlying entry.now) (mask_of entry.now)) (value_view value.now))
        target.depth (written out.old) f) }
{
    let word = put_underlying(entry, value, target.at, out)?;
    if is_masked(entry, word) {
        Ok(())
    } else {
        Err(EncodeFault::UnknownValue)
    }
}

/// Writes the number of an enum: where it is strict, one of its values.
pub(crate) fn write_enum(
    table: &Table<'_>,
    index: u32,
    value: &Value,
    target: Target,
    out: &mut Message,
) -> Result<(), EncodeFault>
    requires entry { index < (header_of table.now).entries }
    requires kind { IsOf EntryKind.Enum (entry_at table.now index) }
    requires within { IsWithin (written out.old) }
    requires room { target.at + byte_len (width (underlying (entry_at table.now index)))
        ≤ length out.old.bytes.items }
    ensures ok { OnOk result ((ds : Declarations) → IsWritten (value_part ds
        (enum_at table.now index) (value_view value.now))
        target.depth target.at (written out.old) (written out.new)) }
    ensures fault_is_true { IfErr result (λ f. (ds : Declarations) → IsRefused (value_part ds
        (enum_at table.now index) (value_view value.now)) target.depth (written out.old) f) }
{
    let entry = table.entry(index);
    let word = put_underlying(&entry, value, target.at, out)?;
    if is_listed(table, index, &entry, word) {
        Ok(())
    } else {
        Err(EncodeFault::UnknownValue)
    }
}
