//! What a method carries.
ghost use Rattle.std.specs.Prelude.{◌↔◌, IsTrue};
ghost use Rattle.fidl_verify.specs.Lookups.{EntryHolds};
ghost use Rattle.fidl_requests.specs.Carried.{IsCarried};

use fidl_decode::{Scratch, decode};
use fidl_verify::{Payload, Table};
use fidl_wire::HandleInfo;

/// Whether bytes and handles are a message of what a method carries.
///
/// Where the method has no such message, none is. Where it has one without a payload, it is that of
/// no bytes and no handles. Else they encode a value of the payload's type, and the decoder's links
/// are left in them.
pub fn is_carried(
    table: &Table<'_>,
    payload: Payload,
    bytes: &mut [u8],
    handles: &[HandleInfo],
    scratch: &mut Scratch,
) -> bool
    requires { EntryHolds table.now payload }
    ensures { IsTrue result ↔ IsCarried table.now payload bytes.old handles.now }
{
    match payload {
        Payload::Missing => false,
        Payload::Empty => bytes.is_empty() && handles.is_empty(),
        Payload::Entry(entry) => decode(table, entry, bytes, handles, scratch).is_ok(),
    }
}
