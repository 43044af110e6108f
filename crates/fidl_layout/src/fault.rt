//! Why checked files aren't laid out.
ghost use Rattle.std.specs.Prelude.{◌≡◌};

use fidl_named::Place;
use std::alloc::{AllocError, AllocFailed};
use thiserror::Error;

/// Why checked files aren't laid out (docs/language.md, "Laying out"). Each is reported at the name
/// of a declared type, or at that of the member, the method or the alias by which a layout without
/// a name of its own is named.
#[derive(Clone, Copy, Debug, PartialEq, Eq, Drop, Error)]
pub enum LayoutFault {
    /// In this layout stands a type from which on 33 structs and arrays stand inline in one
    /// another.
    #[error("structs and arrays stand more than 32 deep in one another")]
    TooNested { place: Place },
    /// In this layout stands a type whose inline size is more than 65,535 bytes.
    #[error("a type is larger than 65,535 bytes")]
    TooLarge { place: Place },
    /// The declared types, of which this is one, reach more than 65,535 types.
    #[error("there are more than 65,535 types")]
    TooManyTypes { place: Place },
    /// This layout has more than 65,535 members.
    #[error("a layout has more than 65,535 members")]
    TooManyMembers { place: Place },
    /// Memory ran out.
    #[error("memory ran out")]
    Memory,
}

impl LayoutFault {
    ghost use Rattle.fidl_layout.specs.FaultNames.{number_of, name_of, place_of};

    /// The fault's number.
    pub fn number(&self) -> u32
        ensures { result ≡ number_of self.now }
    {
        match self {
            LayoutFault::TooNested { .. } => 1,
            LayoutFault::TooLarge { .. } => 2,
            LayoutFault::TooManyTypes { .. } => 3,
            LayoutFault::TooManyMembers { .. } => 4,
            LayoutFault::Memory => 5,
        }
    }

    /// The fault's name.
    pub fn name(&self) -> &'static str
        ensures { result.now ≡ name_of self.now }
    {
        match self {
            LayoutFault::TooNested { .. } => "TooNested",
            LayoutFault::TooLarge { .. } => "TooLarge",
            LayoutFault::TooManyTypes { .. } => "TooManyTypes",
            LayoutFault::TooManyMembers { .. } => "TooManyMembers",
            LayoutFault::Memory => "Memory",
        }
    }

    /// Where the sources are at fault: the number of a file and a span in bytes; nothing where
    /// memory ran out.
    pub fn place(&self) -> Option<Place>
        ensures { result ≡ place_of self.now }
    {
        match self {
            LayoutFault::TooNested { place }
            | LayoutFault::TooLarge { place }
            | LayoutFault::TooManyTypes { place }
            | LayoutFault::TooManyMembers { place } => Some(*place),
            LayoutFault::Memory => None,
        }
    }
}

impl From<AllocError> for LayoutFault {
    ghost use Rattle.fidl_layout.specs.declared.fault.LayoutFault.TheVariants.{Memory};

    ghost from_gives = { λ _ fault. fault ≡ Memory };

    fn from(_error: AllocError) -> LayoutFault {
        LayoutFault::Memory
    }
}

impl<T: Drop> From<AllocFailed<T>> for LayoutFault {
    ghost use Rattle.fidl_layout.specs.declared.fault.LayoutFault.TheVariants.{Memory};

    ghost from_gives = { λ _ fault. fault ≡ Memory };

    fn from(_error: AllocFailed<T>) -> LayoutFault {
        LayoutFault::Memory
    }
}
