//! Why constants have no values.
ghost use Rattle.std.specs.Prelude.{◌≡◌, ◌↔◌, IsTrue};
ghost use Rattle.fidl_consts.specs.declared.fault.ConstFault.TheVariants.{Memory};

use fidl_named::Place;
use std::alloc::{AllocError, AllocFailed};
use thiserror::Error;

/// Why constants, members and constraints have no values (public source: the FIDL language
/// specification, "Constants").
#[derive(Clone, Copy, Debug, PartialEq, Eq, Drop, Error)]
pub enum ConstFault {
    /// A number is out of its type's range, or a string longer than its bound.
    #[error("this value doesn't fit its type")]
    OutOfRange { place: Place },
    /// A value, or a type, of another kind than is wanted.
    #[error("this is of another kind than is wanted here")]
    WrongKind { place: Place },
    /// A constant, a member or an alias that depends on itself.
    #[error("this leads back to itself")]
    ConstCycle { place: Place },
    /// `|` between values that it doesn't join.
    #[error("only bits and unsigned numbers are joined by `|`")]
    NotBits { place: Place },
    /// Memory ran out.
    #[error("memory ran out")]
    Memory,
}

/// Whether memory ran out.
pub fn is_memory(fault: ConstFault) -> bool
    ensures { IsTrue result ↔ (fault ≡ Memory) }
{
    matches!(fault, ConstFault::Memory)
}

impl ConstFault {
    ghost use Rattle.fidl_consts.specs.Faults.{number_of, name_of, place_of};

    /// The fault's number.
    pub fn number(&self) -> u32
        ensures { result ≡ number_of self.now }
    {
        match self {
            ConstFault::OutOfRange { .. } => 1,
            ConstFault::WrongKind { .. } => 2,
            ConstFault::ConstCycle { .. } => 3,
            ConstFault::NotBits { .. } => 4,
            ConstFault::Memory => 5,
        }
    }

    /// The fault's name.
    pub fn name(&self) -> &'static str
        ensures { result.now ≡ name_of self.now }
    {
        match self {
            ConstFault::OutOfRange { .. } => "OutOfRange",
            ConstFault::WrongKind { .. } => "WrongKind",
            ConstFault::ConstCycle { .. } => "ConstCycle",
            ConstFault::NotBits { .. } => "NotBits",
            ConstFault::Memory => "Memory",
        }
    }

    /// The name, value or type at fault: the number of its file and its span in bytes; nothing
    /// where memory ran out.
    pub fn place(&self) -> Option<Place>
        ensures { result ≡ place_of self.now }
    {
        match self {
            ConstFault::OutOfRange { place }
            | ConstFault::WrongKind { place }
            | ConstFault::ConstCycle { place }
            | ConstFault::NotBits { place } => Some(*place),
            ConstFault::Memory => None,
        }
    }
}

impl From<AllocError> for ConstFault {
    ghost use Rattle.fidl_consts.specs.declared.fault.ConstFault.TheVariants.{Memory};

    ghost from_gives = { λ _ fault. fault ≡ Memory };

    fn from(_error: AllocError) -> ConstFault {
        ConstFault::Memory
    }
}

impl<T: Drop> From<AllocFailed<T>> for ConstFault {
    ghost use Rattle.fidl_consts.specs.declared.fault.ConstFault.TheVariants.{Memory};

    ghost from_gives = { λ _ fault. fault ≡ Memory };

    fn from(_error: AllocFailed<T>) -> ConstFault {
        ConstFault::Memory
    }
}
