//! Members that a layout does not know, by their raw parts (docs/wire.md, "The written text of a
//! value").
ghost use Rattle.std.specs.Prelude.{◌≡◌, if◌then◌else◌, false, IsSome, flat_map};
ghost use Rattle.std.specs.Prelude.{codes};
ghost use Rattle.fidl_wire.specs.Value.{unknown};
ghost use Rattle.fidl_wire.specs.Term.{Rows};
ghost use Rattle.fidl_wire.specs.Figure.{Declarations};
ghost use Rattle.fidl_wire.specs.Text.{hex_byte, handles_text, member_text};
ghost use Rattle.fidl_streams.specs.Written.{Writes};

use crate::quoted::{hex_digit, write_comma, write_decimal, write_handle};
use fidl_streams::{Failed, Sink, write_all};
use fidl_view::Unknown;
use fidl_wire::HandleInfo;

/// Writes a byte by its two hex digits.
fn write_hex_byte<W: Sink>(byte: u8, out: &mut W) -> Result<(), Failed>
    ensures { Writes (W.taken out.old) (W.taken out.new)
        (hex_byte byte) result }
{
    write_all(out, &[hex_digit(byte / 16), hex_digit(byte % 16)])
}

/// Writes bytes, each by its two hex digits.
pub(crate) fn write_hex<W: Sink>(bytes: &[u8], out: &mut W) -> Result<(), Failed>
    ensures { Writes (W.taken out.old) (W.taken out.new)
        (flat_map hex_byte bytes.now) result }
{
    for byte in bytes {
        write_hex_byte(*byte, out)?;
    }
    Ok(())
}

/// Writes handles with commas between.
fn write_handles<W: Sink>(handles: &[HandleInfo], out: &mut W) -> Result<(), Failed>
    ensures { Writes (W.taken out.old) (W.taken out.new)
        (handles_text false handles.now) result }
{
    let mut later = false;
    for handle in handles {
        write_comma(out, later)?;
        write_handle(*handle, out)?;
        later = true;
    }
    Ok(())
}

/// Writes whether the bytes of an unknown member stand in its envelope.
fn write_inline<W: Sink>(inline: bool, out: &mut W) -> Result<(), Failed>
    ensures { Writes (W.taken out.old) (W.taken out.new)
        (if inline then codes "in " else codes "out ") result }
{
    write_all(out, if inline { b"in " } else { b"out " })
}

/// Writes an unknown member behind its ordinal: its bytes, and its handles.
pub(crate) fn write_unknown<W: Sink>(
    ordinal: u64,
    member: Unknown<'_>,
    out: &mut W,
) -> Result<(), Failed>
    ensures { (ds : Declarations) (rows : Rows)
        → Writes (W.taken out.old) (W.taken out.new)
        (member_text ds rows ordinal
        (unknown member.entry.inline member.entry.bytes.now member.entry.handles.now)) result }
{
    write_decimal(ordinal, out)?;
    write_all(out, b": unknown ")?;
    write_inline(member.inline, out)?;
    write_hex(member.bytes, out)?;
    write_all(out, b" [")?;
    write_handles(member.handles, out)?;
    write_all(out, b"]")
}
