//! Envelopes: the eight bytes that say where a member of a table or a union lies.
ghost use Rattle.std.specs.Prelude.{◌≡◌, ◌+◌, ◌≤◌, length};
ghost use Rattle.fidl_wire.specs.Envelope.{bytes_below, handles_below, flags_at, Holds};

use crate::field::{u16_at, u32_at, u64_at};

/// Where the member of an envelope lies (public source: the FIDL wire format, "Envelopes").
#[derive(Clone, Copy, PartialEq, Eq, Debug, Drop)]
pub enum EnvelopeContent {
    /// All eight bytes are zeros: there is no member.
    Absent,
    /// Flags 1: the member stands in the envelope's first four bytes.
    Inline,
    /// Flags 0: the member is an object out of line.
    OutOfLine,
    /// No envelope has these flags.
    Refused,
}

/// How many bytes lie out of line below the envelope at a place. In an envelope whose flags are 1
/// these four bytes are the member itself.
#[inline(always)]
pub fn byte_count_at(bytes: &[u8], envelope: usize) -> u32
    requires room { envelope + 8 ≤ length bytes.now }
    ensures { result ≡ bytes_below bytes.now envelope }
{
    u32_at(bytes, envelope)
}

/// How many handles lie below the envelope at a place.
#[inline(always)]
pub fn handle_count_at(bytes: &[u8], envelope: usize) -> u16
    requires room { envelope + 8 ≤ length bytes.now }
    ensures { result ≡ handles_below bytes.now envelope }
{
    u16_at(bytes, envelope + 4)
}

/// The flags of the envelope at a place.
#[inline(always)]
pub fn flags_at(bytes: &[u8], envelope: usize) -> u16
    requires room { envelope + 8 ≤ length bytes.now }
    ensures { result ≡ flags_at bytes.now envelope }
{
    u16_at(bytes, envelope + 6)
}

/// Where the member of the envelope at a place lies, by its flags and whether all bytes are zeros.
#[inline(always)]
pub fn content_at(bytes: &[u8], envelope: usize) -> EnvelopeContent
    requires room { envelope + 8 ≤ length bytes.now }
    ensures { Holds bytes.now envelope result }
{
    if u64_at(bytes, envelope) == 0 {
        return EnvelopeContent::Absent;
    }
    match flags_at(bytes, envelope) {
        0 => EnvelopeContent::OutOfLine,
        1 => EnvelopeContent::Inline,
        _ => EnvelopeContent::Refused,
    }
}
