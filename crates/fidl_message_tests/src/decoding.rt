//! What `decode` answers to messages: what the views of those that are decoded show, or the
//! refusal.
use crate::reading::{Case, Message, message_of};
use crate::showing::claims;
use fidl_decode::{DecodeFault, Decoded, Scratch, decode};
use fidl_verify::Table;
use fidl_view::laws::views_read_as_the_one_value;
use std::alloc::Global;

/// A refusal's number, name and place.
fn refusal(alloc: Global, fault: DecodeFault) -> Option<String> {
    format!(in alloc; "{} {} {}", fault.number(), fault.name(), fault.at()).ok()
}

/// Whether a decoded message gives what came.
fn is_as_it_came(decoded: &Decoded<'_, '_, '_>, entries: u32, message: &Message) -> bool {
    decoded.entry() == message.entry
        && decoded.table().entries() == entries
        && decoded.handles() == message.handles.as_slice()
}

/// What is answered to a message. Nothing where one is decoded that is not the one that came, or
/// where the buffer is not as it came after a refusal, or after a release.
pub(crate) fn decoded(
    alloc: Global,
    table: &Table<'_>,
    case: &Case<'_>,
    scratch: &mut Scratch,
) -> Option<String> {
    let message = message_of(alloc, case.given)?;
    let entries = table.entries();
    if entries <= message.entry {
        return None;
    }
    let (came, handles) = (message.bytes.as_slice(), message.handles.as_slice());
    let Ok(mut bytes) = Vec::from_slice(alloc, came) else {
        return None;
    };
    let answer = match decode(table, message.entry, &mut bytes, handles, scratch) {
        Ok(decoded) => {
            if !is_as_it_came(&decoded, entries, &message) {
                return None;
            }
            let view = views_read_as_the_one_value(table, message.entry, came, handles, &decoded);
            let answer = claims(alloc, view, case.want);
            if &*decoded.release() != came {
                return None;
            }
            answer
        }
        Err(fault) => refusal(alloc, fault),
    };
    if bytes.as_slice() == came {
        answer
    } else {
        None
    }
}
