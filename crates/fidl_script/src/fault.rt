//! Why a text is no script.
ghost use Rattle.std.specs.Prelude.{◌≡◌};

use std::alloc::{AllocError, AllocFailed};
use thiserror::Error;

/// Why a text is no script for a protocol of a table. Lines are counted from 1, skipped ones too.
#[derive(Clone, Copy, PartialEq, Eq, Debug, Drop, Error)]
pub enum ScriptFault {
    /// The line does not have the form that is required there. Line 1 is reported if the text is not
    /// UTF-8, or if all its lines are skipped.
    #[error("line {line} is no line of a script")]
    Syntax { line: u64 },
    /// The table has no protocol of the name.
    #[error("the table has no protocol of the name")]
    UnknownProtocol,
    /// The name means no two-way method of the protocol.
    #[error("line {line} names no two-way method of the protocol")]
    UnknownMethod { line: u64 },
    /// A two-way method of the protocol has no reply.
    #[error("a two-way method has no reply")]
    Missing,
    /// The line gives no message that the method may reply with.
    #[error("line {line} gives no reply of its method")]
    BadValue { line: u64 },
    /// Memory ran out; this says nothing of the text.
    #[error("memory ran out")]
    Memory,
}

impl ScriptFault {
    ghost use Rattle.fidl_script.specs.Faults.{number_of, name_of, line_of};

    /// The fault's number, from 1 to 6 in the order of the variants.
    pub fn number(&self) -> u32
        ensures { result ≡ number_of self.now }
    {
        match self {
            ScriptFault::Syntax { .. } => 1,
            ScriptFault::UnknownProtocol => 2,
            ScriptFault::UnknownMethod { .. } => 3,
            ScriptFault::Missing => 4,
            ScriptFault::BadValue { .. } => 5,
            ScriptFault::Memory => 6,
        }
    }

    /// The fault's name, as its variant is spelled.
    pub fn name(&self) -> &'static str
        ensures { result.now ≡ name_of self.now }
    {
        match self {
            ScriptFault::Syntax { .. } => "Syntax",
            ScriptFault::UnknownProtocol => "UnknownProtocol",
            ScriptFault::UnknownMethod { .. } => "UnknownMethod",
            ScriptFault::Missing => "Missing",
            ScriptFault::BadValue { .. } => "BadValue",
            ScriptFault::Memory => "Memory",
        }
    }

    /// The number of the line that the fault reports, from 1. `None` where it reports none.
    pub fn line(&self) -> Option<u64>
        ensures { result ≡ line_of self.now }
    {
        match self {
            ScriptFault::Syntax { line }
            | ScriptFault::UnknownMethod { line }
            | ScriptFault::BadValue { line } => Some(*line),
            ScriptFault::UnknownProtocol | ScriptFault::Missing | ScriptFault::Memory => None,
        }
    }
}

impl From<AllocError> for ScriptFault {
    ghost use Rattle.fidl_script.specs.declared.fault.ScriptFault.TheVariants.{Memory};

    ghost from_gives = { λ _ fault. fault ≡ Memory };

    fn from(_error: AllocError) -> ScriptFault {
        ScriptFault::Memory
    }
}

impl<T: Drop> From<AllocFailed<T>> for ScriptFault {
    ghost use Rattle.fidl_script.specs.declared.fault.ScriptFault.TheVariants.{Memory};

    ghost from_gives = { λ _ fault. fault ≡ Memory };

    fn from(_error: AllocFailed<T>) -> ScriptFault {
        ScriptFault::Memory
    }
}
