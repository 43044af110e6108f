//! Texts between quotes, handles by their numbers, and what stands between elements (docs/wire.md,
//! "The written text of a value").
ghost use Rattle.std.specs.Prelude.{◌≡◌, ◌++◌, ◌<◌, IsSome, flat_map, codes, decimal};
ghost use Rattle.fidl_wire.specs.Text.{quoted_byte, handle_text, hex_digit, comma_if};
ghost use Rattle.fidl_streams.specs.Written.{Writes};

use fidl_streams::{Failed, Sink, write_all};
use fidl_wire::HandleInfo;
use itoa::Buffer;

/// Writes what stands between one element or member and the next.
pub(crate) fn write_comma<W: Sink>(out: &mut W, later: bool) -> Result<(), Failed>
    ensures { Writes (W.taken out.old) (W.taken out.new)
        (comma_if later) result }
{
    write_all(out, if later { b", " } else { b"" })
}

/// The hex digit of a number below 16, in lower case.
pub(crate) fn hex_digit(digit: u8) -> u8
    requires { digit < 16 }
    ensures { result ≡ hex_digit digit }
{
    if digit < 10 { 48 + digit } else { 87 + digit }
}

/// Writes a byte of a text as it stands between quotes.
fn write_quoted_byte<W: Sink>(byte: u8, out: &mut W) -> Result<(), Failed>
    ensures { Writes (W.taken out.old) (W.taken out.new)
        (quoted_byte byte) result }
{
    match byte {
        b'"' => write_all(out, b"\\\""),
        b'\\' => write_all(out, b"\\\\"),
        b'\n' => write_all(out, b"\\n"),
        b'\r' => write_all(out, b"\\r"),
        b'\t' => write_all(out, b"\\t"),
        0..=15 => write_all(out, &[b'\\', b'u', b'{', hex_digit(byte), b'}']),
        16..=31 | 127 => {
            let [high, low] = [hex_digit(byte / 16), hex_digit(byte % 16)];
            write_all(out, &[b'\\', b'u', b'{', high, low, b'}'])
        }
        _ => write_all(out, &[byte]),
    }
}

/// Writes a text between quotes, with escapes for quotes, backslashes and control characters.
pub fn write_quoted<W: Sink>(text: &[u8], out: &mut W) -> Result<(), Failed>
    ensures { Writes (W.taken out.old) (W.taken out.new)
        (codes "\"" ++ flat_map quoted_byte text.now ++ codes "\"") result }
{
    write_all(out, b"\"")?;
    for byte in text {
        write_quoted_byte(*byte, out)?;
    }
    write_all(out, b"\"")
}

/// Writes a number without a sign.
pub fn write_decimal<W: Sink>(number: u64, out: &mut W) -> Result<(), Failed>
    ensures { Writes (W.taken out.old) (W.taken out.new)
        (decimal number) result }
{
    write_all(out, Buffer::new().format(number).as_bytes())
}

/// Writes a handle by its three numbers.
pub(crate) fn write_handle<W: Sink>(handle: HandleInfo, out: &mut W) -> Result<(), Failed>
    ensures { Writes (W.taken out.old) (W.taken out.new)
        (handle_text handle) result }
{
    write_all(out, b"handle(")?;
    write_decimal(handle.id as u64, out)?;
    write_all(out, b", ")?;
    write_decimal(handle.object_type as u64, out)?;
    write_all(out, b", ")?;
    write_decimal(handle.rights as u64, out)?;
    write_all(out, b")")
}
