//! The text of the value that a whole message encodes.
ghost use Rattle.std.specs.Prelude.{◌≡◌, ◌++◌, OnOk, OnErr, IsSome, None, codes};
ghost use Rattle.fidl_wire.specs.Value.{Value};
ghost use Rattle.fidl_wire.specs.Term as ty;
ghost use Rattle.fidl_wire.specs.Message.{Encodes};
ghost use Rattle.fidl_wire.specs.Text.{Text};
ghost use Rattle.fidl_table_format.specs.Terms.{declarations_of};
ghost use Rattle.fidl_text.specs.Outputs.{Writes};

use crate::output::Output;
use fidl_decode::Decoded;
use fidl_notation::dump;
use fidl_streams::Failed;
use fidl_view::Views;
use std::io::Write;

/// Ends a line, and hands on what is still held back.
fn end_line<W: Write>(out: &mut Output<W>) -> Result<(), Failed>
    ensures text { Writes (W.contents out.old.writer) (W.contents out.new.writer) (codes "\n")
        result }
    ensures kept { OnOk result (out.new.failure ≡ out.old.failure) }
    ensures failed { OnErr result (IsSome out.new.failure) }
{
    out.write_all(b"\n")?;
    out.flush()
}

/// Writes the line of the text of the value that a message encodes.
pub fn write_message<W: Write>(
    decoded: &Decoded<'_, '_, '_>,
    out: &mut Output<W>,
) -> Result<(), Failed>
    ensures text { (v : Value) → (let ds = declarations_of decoded.now.table in
        Encodes ds (ty.named decoded.now.entry) v decoded.now.bytes decoded.now.handles
        → Writes (W.contents out.old.writer) (W.contents out.new.writer)
        (Text ds (ty.named decoded.now.entry) v ++ codes "\n") result) }
    ensures kept { OnOk result (out.old.failure ≡ None → out.new.failure ≡ None) }
    ensures failed { OnErr result (IsSome out.new.failure) }
{
    match dump(&decoded.view(), out) {
        Ok(()) => end_line(out),
        Err(_) => Err(Failed),
    }
}
