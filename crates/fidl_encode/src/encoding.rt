//! The message of a value.
ghost use Rattle.std.specs.Prelude.{◌<◌, IfOk, IfErr};
ghost use Rattle.fidl_wire.specs.Term as ty;
ghost use Rattle.fidl_wire.specs.Views.{value_view};
ghost use Rattle.fidl_wire.specs.Message.{Encodes};
ghost use Rattle.fidl_table_format.specs.Section.{header_of};
ghost use Rattle.fidl_table_format.specs.Terms.{declarations_of};
ghost use Rattle.fidl_encode.specs.Told.{IsTold};

use crate::fault::EncodeFault;
use crate::message::Message;
use crate::target::Target;
use crate::value::write_value;
use fidl_verify::Table;
use fidl_wire::{MAX_DEPTH, Value};
use std::alloc::Global;

/// The bytes for which a message has room at first, so that a short one allocates once.
const FIRST_ROOM: usize = 1024;

/// Encodes a value as the message of an entry's type (public source: the FIDL wire format, version
/// 2).
///
/// `Ok` exactly where the value is of the type, no deeper than the limit and its message within the
/// limits, unless memory runs out; the message is then the only one of the value. A refusal is true
/// of the value. It is written in one pass, depth first: each inline part is kept room for, and what
/// lies out of line is appended. A value that is too deep is refused before it is followed further,
/// so that the call takes room on the machine's stack for 32 objects at most, however deep the tree.
/// The tree is borrowed; dropping one that is tens of thousands deep may itself exhaust that stack.
pub fn encode(
    alloc: Global,
    table: &Table<'_>,
    entry: u32,
    value: &Value,
) -> Result<Message, EncodeFault>
    requires { entry < (header_of table.now).entries }
    ensures ok { IfOk result (λ m. Encodes (declarations_of table.now) (ty.named entry)
        (value_view value.now) m.bytes.items m.handles.items) }
    ensures fault_is_true { IfErr result
        (IsTold (declarations_of table.now) (ty.named entry) (value_view value.now)) }
{
    let mut message = Message {
        bytes: Vec::with_capacity(alloc, FIRST_ROOM)?,
        handles: Vec::new(alloc),
    };
    let at = message.reserve(table.entry(entry).size as usize)?;
    let target = Target {
        at,
        depth: MAX_DEPTH,
    };
    write_value(table, entry, value, target, &mut message)?;
    Ok(message)
}
