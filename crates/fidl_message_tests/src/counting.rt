//! Whether enough steps are counted of a message, decoded or refused.
ghost use Rattle.std.specs.Prelude.{◌+◌, ◌*◌, ◌<◌, ◌≤◌, length};
ghost use Rattle.fidl_limits.specs.declared.limits.TheConstants.{STEPS_PER_BYTE};
ghost use Rattle.fidl_table_format.specs.Section.{header_of};

use crate::reading::{Case, message_of};
use fidl_decode::{Scratch, attempt};
use fidl_verify::Table;
use fidl_wire::HandleInfo;
use std::alloc::Global;

/// How many steps a message takes, decoded or refused.
fn steps_of(
    table: &Table<'_>,
    entry: u32,
    bytes: &mut [u8],
    handles: &[HandleInfo],
    scratch: &mut Scratch,
) -> u64
    requires { entry < (header_of table.now).entries }
    ensures { result ≤ STEPS_PER_BYTE * (length bytes.old + 1) }
{
    match attempt(table, entry, bytes, handles, scratch) {
        Ok(decoded) => decoded.steps(),
        Err(refused) => refused.room.steps(),
    }
}

/// Whether a message takes steps, and at least so many.
pub(crate) fn counted(
    alloc: Global,
    table: &Table<'_>,
    case: &Case<'_>,
    least: u64,
    scratch: &mut Scratch,
) -> Option<String> {
    let mut message = message_of(alloc, case.given)?;
    if table.entries() <= message.entry {
        return None;
    }
    let (bytes, handles) = (message.bytes.as_mut_slice(), message.handles.as_slice());
    let steps = steps_of(table, message.entry, bytes, handles, scratch);
    let told = if steps == 0 {
        "no steps"
    } else if steps < least {
        "too few steps"
    } else {
        "steps"
    };
    format!(in alloc; "{}", told).ok()
}
