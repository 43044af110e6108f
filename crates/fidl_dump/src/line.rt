//! Writing the parts of a line.
ghost use Rattle.std.specs.Prelude.{◌≡◌, ◌++◌, OnOk, OnErr, IsSome, None, codes};
ghost use Rattle.fidl_wire.specs.Value.{Value};
ghost use Rattle.fidl_wire.specs.Term as ty;
ghost use Rattle.fidl_wire.specs.Message.{Encodes};
ghost use Rattle.fidl_table_format.specs.Terms.{declarations_of};
ghost use Rattle.fidl_text.specs.Words.{ordinal_word};
ghost use Rattle.fidl_text.specs.Outputs.{Writes};
ghost use Rattle.fidl_dump.specs.Lines.{front_text, unknown_line, bare_line, value_line};
ghost use Rattle.fidl_dump.specs.Lines.{value_text};

use fidl_decode::Decoded;
use fidl_header::Header;
use fidl_text::{Failed, Output, write_decimal, write_message};
use std::io::Write;

/// The 16 hex digits of an ordinal, in lower case.
fn ordinal_digits(ordinal: u64) -> [u8; 16]
    ensures { result ≡ ordinal_word ordinal }
{
    let mut digits = [0; 16];
    match hex::encode_to_slice(ordinal.to_be_bytes(), &mut digits) {
        Ok(()) => digits,
        Err(_) => unreachable!(),
    }
}

/// Writes the front of a line: the transaction id and the ordinal.
fn write_front<W: Write>(header: &Header, out: &mut Output<W>) -> Result<(), Failed>
    ensures text { Writes (W.contents out.old.writer) (W.contents out.new.writer)
        (front_text header.now) result }
    ensures kept { OnOk result (out.new.failure ≡ out.old.failure) }
    ensures failed { OnErr result (IsSome out.new.failure) }
{
    write_decimal(header.txid as u64, out)?;
    out.write_all(b" ")?;
    out.write_all(&ordinal_digits(header.ordinal))
}

/// Writes the front of a line, and the name of a method behind it.
fn write_named<W: Write>(header: &Header, name: &[u8], out: &mut Output<W>) -> Result<(), Failed>
    ensures text { Writes (W.contents out.old.writer) (W.contents out.new.writer)
        (front_text header.now ++ codes " " ++ name.now) result }
    ensures kept { OnOk result (out.new.failure ≡ out.old.failure) }
    ensures failed { OnErr result (IsSome out.new.failure) }
{
    write_front(header, out)?;
    out.write_all(b" ")?;
    out.write_all(name)
}

/// Writes the end of a line, and hands on what is still held back.
fn end_line<W: Write>(text: &[u8], out: &mut Output<W>) -> Result<(), Failed>
    ensures text { Writes (W.contents out.old.writer) (W.contents out.new.writer) text.now result }
    ensures kept { OnOk result (out.new.failure ≡ out.old.failure) }
    ensures failed { OnErr result (IsSome out.new.failure) }
{
    out.write_all(text)?;
    out.flush()
}

/// Writes the line of a message of an unknown ordinal.
pub(crate) fn write_unknown<W: Write>(header: &Header, out: &mut Output<W>) -> Result<(), Failed>
    ensures text { Writes (W.contents out.old.writer) (W.contents out.new.writer)
        (unknown_line header.now) result }
    ensures kept { OnOk result (out.new.failure ≡ out.old.failure) }
    ensures failed { OnErr result (IsSome out.new.failure) }
{
    write_front(header, out)?;
    end_line(b" unknown\n", out)
}

/// Writes the line of a message that carries nothing.
pub(crate) fn write_bare<W: Write>(
    header: &Header,
    name: &[u8],
    out: &mut Output<W>,
) -> Result<(), Failed>
    ensures text { Writes (W.contents out.old.writer) (W.contents out.new.writer)
        (bare_line header.now name.now) result }
    ensures kept { OnOk result (out.new.failure ≡ out.old.failure) }
    ensures failed { OnErr result (IsSome out.new.failure) }
{
    write_named(header, name, out)?;
    end_line(b"\n", out)
}

/// Writes the line of a message that carries a value.
pub(crate) fn write_value<W: Write>(
    header: &Header,
    name: &[u8],
    decoded: &Decoded<'_, '_, '_>,
    out: &mut Output<W>,
) -> Result<(), Failed>
    ensures text { (v : Value) → Encodes (declarations_of decoded.now.table)
        (ty.named decoded.now.entry) v decoded.now.bytes decoded.now.handles
        → Writes (W.contents out.old.writer) (W.contents out.new.writer)
        (value_line header.now name.now (value_text decoded.now.table decoded.now.entry v)) result }
    ensures kept { OnOk result (out.old.failure ≡ None → out.new.failure ≡ None) }
    ensures failed { OnErr result (IsSome out.new.failure) }
{
    write_named(header, name, out)?;
    out.write_all(b" ")?;
    write_message(decoded, out)
}
