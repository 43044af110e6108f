//! Which messages of a protocol a stream holds.
ghost use Rattle.std.specs.Prelude.{◌≡◌};
ghost use Rattle.fidl_verify.specs.Lookups.{EntryHolds, method_record};
ghost use Rattle.fidl_dump.specs.Methods.{carried_by};

use fidl_verify::{Method, Payload};

/// Which messages of a protocol a stream holds.
#[derive(Clone, Copy, PartialEq, Eq, Debug, Drop)]
pub enum Direction {
    /// The requests of one-way and two-way methods.
    Requests,
    /// The responses of two-way methods, and events.
    Responses,
}

/// What a method's messages of this direction carry.
pub(crate) fn carried(direction: Direction, method: &Method<'_>) -> Payload
    ensures value { result ≡ carried_by direction (method_record method.now) }
    ensures entry { EntryHolds method.now.table result }
{
    match direction {
        Direction::Requests => method.request(),
        Direction::Responses => method.response(),
    }
}
