//! The text of a value, written to a sink (docs/notation.md).
ghost use Rattle.std.specs.Prelude.{◌≡◌, is_err};
ghost use Rattle.fidl_wire.specs.Value.{Value};
ghost use Rattle.fidl_wire.specs.Text.{text_of};
ghost use Rattle.fidl_streams.specs.Counts.{count_when};
ghost use Rattle.fidl_streams.specs.Written.{Writes};
ghost use Rattle.fidl_view.specs.Views.{IsShownBy, type_shown, types_shown};

use crate::fault::WriteFault;
use crate::printer::write_value;
use fidl_streams::Sink;
use fidl_view::View;
use fidl_wire::MAX_MESSAGE_BYTES;

/// Writes the text of the value that a view shows (docs/notation.md): all of it, or a front of it
/// that is not all, and then the writer failed in this call. Nothing is written after a failure.
/// Takes no memory.
pub fn dump<W: Sink>(view: &View<'_, '_>, out: &mut W) -> Result<(), WriteFault>
    ensures text { (v : Value) → IsShownBy view.now v → Writes (W.taken out.old) (W.taken out.new)
        (text_of (types_shown view.now) (type_shown view.now) v) result }
    ensures failed { (W.taken out.new).failures
        ≡ count_when (W.taken out.old).failures (is_err result) }
{
    match write_value(
        view.table(),
        view.entry(),
        *view,
        MAX_MESSAGE_BYTES + 1,
        out,
    ) {
        Ok(()) => Ok(()),
        Err(_) => Err(WriteFault::Write),
    }
}
