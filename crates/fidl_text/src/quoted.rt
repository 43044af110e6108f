//! Texts between quotes, and decimal numbers (docs/wire.md, "The written text of a value").
ghost use Rattle.std.specs.Prelude.{◌≡◌, ◌++◌, OnOk, OnErr, IsSome, flat_map, codes, decimal};
ghost use Rattle.fidl_wire.specs.Text.{quoted_byte};
ghost use Rattle.fidl_text.specs.Outputs.{Writes};

use crate::hex::hex_digit;
use crate::output::Output;
use fidl_streams::Failed;
use itoa::Buffer;
use std::io::Write;

/// Writes a byte of a text as it stands between quotes.
fn write_quoted_byte<W: Write>(byte: u8, out: &mut Output<W>) -> Result<(), Failed>
    ensures text { Writes (W.contents out.old.writer) (W.contents out.new.writer)
        (quoted_byte byte) result }
    ensures kept { OnOk result (out.new.failure ≡ out.old.failure) }
    ensures failed { OnErr result (IsSome out.new.failure) }
{
    match byte {
        b'"' => out.write_all(b"\\\""),
        b'\\' => out.write_all(b"\\\\"),
        b'\n' => out.write_all(b"\\n"),
        b'\r' => out.write_all(b"\\r"),
        b'\t' => out.write_all(b"\\t"),
        0..=15 => out.write_all(&[b'\\', b'u', b'{', hex_digit(byte), b'}']),
        16..=31 | 127 => {
            let [high, low] = [hex_digit(byte / 16), hex_digit(byte % 16)];
            out.write_all(&[b'\\', b'u', b'{', high, low, b'}'])
        }
        _ => out.write_all(&[byte]),
    }
}

/// Writes a text between quotes, with escapes for quotes, backslashes and control characters.
pub fn write_quoted<W: Write>(text: &[u8], out: &mut Output<W>) -> Result<(), Failed>
    ensures text { Writes (W.contents out.old.writer) (W.contents out.new.writer)
        (codes "\"" ++ flat_map quoted_byte text.now ++ codes "\"") result }
    ensures kept { OnOk result (out.new.failure ≡ out.old.failure) }
    ensures failed { OnErr result (IsSome out.new.failure) }
{
    out.write_all(b"\"")?;
    for byte in text {
        write_quoted_byte(*byte, out)?;
    }
    out.write_all(b"\"")
}

/// Writes a number without a sign.
pub fn write_decimal<W: Write>(number: u64, out: &mut Output<W>) -> Result<(), Failed>
    ensures text { Writes (W.contents out.old.writer) (W.contents out.new.writer)
        (decimal number) result }
    ensures kept { OnOk result (out.new.failure ≡ out.old.failure) }
    ensures failed { OnErr result (IsSome out.new.failure) }
{
    out.write_all(Buffer::new().format(number).as_bytes())
}
