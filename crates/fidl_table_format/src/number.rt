//! Numbers in a message, by the kind of their type.
ghost use Rattle.std.specs.Prelude.{◌≡◌, ◌+◌, ◌≤◌, ◌↔◌, ◌<ℤ◌, length, IsTrue};
ghost use Rattle.std.specs.Int.{byte_len};
ghost use Rattle.fidl_wire.specs.Term.{width};
ghost use Rattle.fidl_table_format.specs.Number.{number_standing};
ghost use Rattle.fidl_table_format.specs.Terms.{as_number, value_number};

use crate::kind::EntryKind;
use fidl_wire::{u16_at, u32_at, u64_at};

/// The number of a kind of numbers at a place, in 64 bits: a negative one in two's complement, as a
/// table states the values of enums. Other kinds are read as uint8.
#[inline(always)]
pub fn number_bits(kind: EntryKind, bytes: &[u8], place: usize) -> u64
    requires { place + byte_len (width (as_number kind)) ≤ length bytes.now }
    ensures { value_number (as_number kind) result ≡ number_standing (as_number kind) bytes.now
        place }
{
    match kind {
        EntryKind::Int8 => i64::from(bytes[place].cast_signed()).cast_unsigned(),
        EntryKind::Int16 => i64::from(u16_at(bytes, place).cast_signed()).cast_unsigned(),
        EntryKind::Int32 => i64::from(u32_at(bytes, place).cast_signed()).cast_unsigned(),
        EntryKind::Int64 | EntryKind::Uint64 => u64_at(bytes, place),
        EntryKind::Uint16 => u64::from(u16_at(bytes, place)),
        EntryKind::Uint32 => u64::from(u32_at(bytes, place)),
        _ => u64::from(bytes[place]),
    }
}

/// The number of a kind of numbers that 64 bits stand for.
pub fn number_of(kind: EntryKind, bits: u64) -> i128
    ensures { result ≡ value_number (as_number kind) bits }
{
    match kind {
        EntryKind::Int8 | EntryKind::Int16 | EntryKind::Int32 | EntryKind::Int64 => {
            i128::from(bits.cast_signed())
        }
        _ => i128::from(bits),
    }
}

/// Whether one number of a kind of numbers is less than another, both in 64 bits.
pub fn is_less(kind: EntryKind, a: u64, b: u64) -> bool
    ensures { IsTrue result ↔ (value_number (as_number kind) a <ℤ value_number (as_number kind) b) }
{
    match kind {
        EntryKind::Int8 | EntryKind::Int16 | EntryKind::Int32 | EntryKind::Int64 => {
            a.cast_signed() < b.cast_signed()
        }
        _ => a < b,
    }
}
