//! Why a service is broken off.
ghost use Rattle.std.specs.Prelude.{◌≡◌};

use thiserror::Error;

/// Why a service is broken off before its end.
#[derive(Clone, Copy, PartialEq, Eq, Debug, Drop, Error)]
pub enum ServeFault {
    /// A read failed. All replies to what was read are written.
    #[error("a read failed")]
    Read,
    /// A write or a flush failed, after so many whole replies. A front of the next one may be
    /// written. A reply whose flush failed counts as whole.
    #[error("a write failed after {frames} replies")]
    Write { frames: u64 },
    /// Memory ran out, before anything was read or written.
    #[error("memory ran out")]
    Memory,
    /// The input goes on after the last read allowed. All replies to what was read are written.
    #[error("the input goes on after the last read allowed")]
    NeverEnds,
}

impl ServeFault {
    ghost use Rattle.fidl_serve.specs.Faults.{number_of, name_of};

    /// The fault's number, from 1 to 4 in the order of the variants.
    pub fn number(&self) -> u32
        ensures { result ≡ number_of self.now }
    {
        match self {
            ServeFault::Read => 1,
            ServeFault::Write { .. } => 2,
            ServeFault::Memory => 3,
            ServeFault::NeverEnds => 4,
        }
    }

    /// The fault's name, as its variant is spelled.
    pub fn name(&self) -> &'static str
        ensures { result.now ≡ name_of self.now }
    {
        match self {
            ServeFault::Read => "Read",
            ServeFault::Write { .. } => "Write",
            ServeFault::Memory => "Memory",
            ServeFault::NeverEnds => "NeverEnds",
        }
    }
}
