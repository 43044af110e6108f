//! What is noted of a table's members.

ghost use Rattle.std.specs.Prelude.{◌≡◌};

use crate::member::Member;

/// The most members of a table that are noted.
pub(crate) const MOST_MEMBERS: usize = 32;

/// The first members of a table, in the order of their ordinals from 1 on, up to the first ordinal
/// that is missing.
#[derive(Drop)]
pub struct Members {
    /// The table's entry, and how many members are noted.
    pub(crate) entry: u32,
    pub(crate) count: u32,
    pub(crate) members: [Member; MOST_MEMBERS],
}

impl Members {
    /// The number of the table's entry.
    #[inline(always)]
    pub fn entry(&self) -> u32
        ensures { result ≡ self.now.entry }
    {
        self.entry
    }
}
