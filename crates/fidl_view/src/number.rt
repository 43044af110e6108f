//! Numbers in a message.
ghost use Rattle.std.specs.Prelude.{◌≡◌, ◌+◌, ◌≤◌, length};
ghost use Rattle.std.specs.Int.{byte_len};
ghost use Rattle.fidl_wire.specs.Term.{width};
ghost use Rattle.fidl_table_format.specs.Kind.{number_type};
ghost use Rattle.fidl_table_format.specs.Terms.{as_number};
ghost use Rattle.fidl_view.specs.Numbers.{unsigned_at, signed_at};

use fidl_table_format::EntryKind;
use fidl_wire::{u16_at, u32_at, u64_at};

/// The number of an unsigned kind at a place, none for the other kinds.
#[inline(always)]
pub(crate) fn unsigned(kind: EntryKind, bytes: &[u8], place: usize) -> Option<u64>
    requires { place + byte_len (width (as_number kind)) ≤ length bytes.now }
    ensures { result ≡ unsigned_at (number_type kind) bytes.now place }
{
    match kind {
        EntryKind::Uint8 => Some(u64::from(bytes[place])),
        EntryKind::Uint16 => Some(u64::from(u16_at(bytes, place))),
        EntryKind::Uint32 => Some(u64::from(u32_at(bytes, place))),
        EntryKind::Uint64 => Some(u64_at(bytes, place)),
        _ => None,
    }
}

/// The number of a signed kind at a place, none for the other kinds.
#[inline(always)]
pub(crate) fn signed(kind: EntryKind, bytes: &[u8], place: usize) -> Option<i64>
    requires { place + byte_len (width (as_number kind)) ≤ length bytes.now }
    ensures { result ≡ signed_at (number_type kind) bytes.now place }
{
    match kind {
        EntryKind::Int8 => Some(i64::from(bytes[place].cast_signed())),
        EntryKind::Int16 => Some(i64::from(u16_at(bytes, place).cast_signed())),
        EntryKind::Int32 => Some(i64::from(u32_at(bytes, place).cast_signed())),
        EntryKind::Int64 => Some(u64_at(bytes, place).cast_signed()),
        _ => None,
    }
}
