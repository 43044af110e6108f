//! What a stream of frames is read by.
ghost use Rattle.std.specs.Prelude.{◌≡◌};

use crate::direction::Direction;
use fidl_verify::{Protocol, Table};

/// What a stream of frames is read by: a protocol of a table, and which of its messages they are.
#[derive(Drop)]
pub struct Stream<'s, 't> {
    pub table: &'s Table<'t>,
    pub protocol: &'s Protocol<'t>,
    pub direction: Direction,
    ghost same_table: { protocol.now.table ≡ table.now },
}
