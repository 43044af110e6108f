//! Little-endian numbers at places of messages and tables.
ghost use Rattle.std.specs.Prelude.{◌≡◌, ◌+◌, ◌≤◌, length, slice_index};
ghost use Rattle.std.specs.Int.{w16, w32, w64};
ghost use Rattle.fidl_wire.specs.Field.{number_at};

/// The number of two bytes at a place.
pub fn u16_at(bytes: &[u8], place: usize) -> u16
    requires { place + 2 ≤ length bytes.now }
    ensures { result ≡ number_at w16 bytes.now place }
{
    match bytes[place..place + 2].first_chunk::<2>() {
        Some(chunk) => u16::from_le_bytes(*chunk),
        None => unreachable!(),
    }
}

/// The number of four bytes at a place.
pub fn u32_at(bytes: &[u8], place: usize) -> u32
    requires { place + 4 ≤ length bytes.now }
    ensures { result ≡ number_at w32 bytes.now place }
{
    match bytes[place..place + 4].first_chunk::<4>() {
        Some(chunk) => u32::from_le_bytes(*chunk),
        None => unreachable!(),
    }
}

/// The number of eight bytes at a place.
pub fn u64_at(bytes: &[u8], place: usize) -> u64
    requires { place + 8 ≤ length bytes.now }
    ensures { result ≡ number_at w64 bytes.now place }
{
    match bytes[place..place + 8].first_chunk::<8>() {
        Some(chunk) => u64::from_le_bytes(*chunk),
        None => unreachable!(),
    }
}
