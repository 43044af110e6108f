//! The links of envelopes: each is written over the envelope, and says what that said.
ghost use Rattle.std.specs.Prelude.{◌≡◌, ◌+◌, ◌/◌, ◌%◌, ◌^◌, ◌<◌, ◌≤◌, length};
ghost use Rattle.fidl_wire.specs.Envelope.{bytes_below, handles_below};
ghost use Rattle.fidl_links.specs.Coding.{inline, out_of_line};
ghost use Rattle.fidl_links.specs.Words.{AreOctets, word, Put};

use crate::words::put_word;
use fidl_wire::{byte_count_at, handle_count_at, u64_at};

/// Writes the link of an envelope whose member is the object that begins here.
#[inline(always)]
pub(crate) fn put_outside(bytes: &mut [u8], envelope: usize, object: usize, first: usize)
    requires aligned { envelope % 8 ≡ 0 }
    requires room { envelope + 8 ≤ length bytes.old }
    requires object { object ≤ 2 ^ 24 }
    requires count { bytes_below bytes.old envelope ≤ 2 ^ 24 }
    requires handles { handles_below bytes.old envelope < 2 ^ 7 }
    requires first { first < 2 ^ 7 }
    ensures put { Put bytes.old bytes.new (envelope / 8) (out_of_line object
        (bytes_below bytes.old envelope) (handles_below bytes.old envelope) first) }
    ensures octets { AreOctets bytes.new }
{
    let count = byte_count_at(bytes, envelope);
    let handles = handle_count_at(bytes, envelope);
    let places = (object / 8) as u64 + u64::from(count / 8) * 0x100_0000;
    let records = u64::from(handles) * 0x1_0000_0000_0000 + first as u64 * 0x80_0000_0000_0000;
    put_word(bytes, envelope, places + records);
}

/// Writes the link of an envelope in which its member stands.
#[inline(always)]
pub(crate) fn put_inside(bytes: &mut [u8], envelope: usize, first: usize)
    requires aligned { envelope % 8 ≡ 0 }
    requires room { envelope + 8 ≤ length bytes.old }
    requires handles { handles_below bytes.old envelope < 2 ^ 7 }
    requires first { first < 2 ^ 7 }
    ensures put { Put bytes.old bytes.new (envelope / 8)
        (inline (word bytes.old (envelope / 8)) (handles_below bytes.old envelope) first) }
    ensures octets { AreOctets bytes.new }
{
    let handles = handle_count_at(bytes, envelope);
    let member = u64_at(bytes, envelope) % 0x1_0000_0000;
    let records = u64::from(handles) * 0x1_0000_0000_0000 + first as u64 * 0x80_0000_0000_0000;
    put_word(bytes, envelope, member + records + 0x8000_0000_0000_0000);
}
