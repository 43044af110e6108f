//! Bytes by their hex digits.
ghost use Rattle.std.specs.Prelude.{◌≡◌, ◌<◌, OnOk, OnErr, IsSome, flat_map};
ghost use Rattle.fidl_wire.specs.Text.{hex_byte, hex_digit};
ghost use Rattle.fidl_text.specs.Outputs.{Writes};

use crate::output::Output;
use fidl_streams::Failed;
use std::io::Write;

/// The hex digit of a number below 16, in lower case.
pub(crate) fn hex_digit(digit: u8) -> u8
    requires { digit < 16 }
    ensures { result ≡ hex_digit digit }
{
    if digit < 10 { 48 + digit } else { 87 + digit }
}

/// Writes a byte by its two hex digits.
fn write_hex_byte<W: Write>(byte: u8, out: &mut Output<W>) -> Result<(), Failed>
    ensures text { Writes (W.contents out.old.writer) (W.contents out.new.writer)
        (hex_byte byte) result }
    ensures kept { OnOk result (out.new.failure ≡ out.old.failure) }
    ensures failed { OnErr result (IsSome out.new.failure) }
{
    out.write_all(&[hex_digit(byte / 16), hex_digit(byte % 16)])
}

/// Writes bytes, each by its two hex digits.
pub(crate) fn write_hex<W: Write>(bytes: &[u8], out: &mut Output<W>) -> Result<(), Failed>
    ensures text { Writes (W.contents out.old.writer) (W.contents out.new.writer)
        (flat_map hex_byte bytes.now) result }
    ensures kept { OnOk result (out.new.failure ≡ out.old.failure) }
    ensures failed { OnErr result (IsSome out.new.failure) }
{
    for byte in bytes {
        write_hex_byte(*byte, out)?;
    }
    Ok(())
}
