//! Why names have no meaning, or not just one.
ghost use Rattle.std.specs.Prelude.{◌≡◌, ◌↔◌, IsTrue};
ghost use Rattle.fidl_named.specs.declared.fault.NameFault.TheVariants as Fault;

use crate::place::Place;
use std::alloc::{AllocError, AllocFailed};
use thiserror::Error;

/// Why names have no meaning, or not just one (public source: the FIDL language specification,
/// "Libraries" and "Scoping").
#[derive(Clone, Copy, Debug, PartialEq, Eq, Drop, Error)]
pub enum NameFault {
    /// A library declares a name a second time, or a layout, a service or a resource definition a
    /// member; reported at the second.
    #[error("this name is declared already")]
    DuplicateName { place: Place },
    /// No file of an imported library was added; reported at the import's name.
    #[error("no such library")]
    UnknownLibrary { place: Place },
    /// A name has no reading.
    #[error("nothing has this name")]
    UnknownName { place: Place },
    /// A name has more than one reading.
    #[error("this name has more than one meaning")]
    AmbiguousName { place: Place },
    /// An alias leads back to itself.
    #[error("this alias leads back to itself")]
    AliasCycle { place: Place },
    /// A library's imports lead back to it.
    #[error("this import leads back to its own library")]
    ImportCycle { place: Place },
    /// An import of the own library, a second one of a library, or one under a name that is taken.
    #[error("this import repeats a library or a name")]
    BadImport { place: Place },
    /// Memory ran out.
    #[error("memory ran out")]
    Memory,
}

impl NameFault {
    ghost use Rattle.fidl_named.specs.Faults.{number_of, name_of, place_of};

    /// The fault's number.
    pub fn number(&self) -> u32
        ensures { result ≡ number_of self.now }
    {
        match self {
            NameFault::DuplicateName { .. } => 1,
            NameFault::UnknownLibrary { .. } => 2,
            NameFault::UnknownName { .. } => 3,
            NameFault::AmbiguousName { .. } => 4,
            NameFault::AliasCycle { .. } => 5,
            NameFault::ImportCycle { .. } => 6,
            NameFault::BadImport { .. } => 7,
            NameFault::Memory => 8,
        }
    }

    /// The fault's name.
    pub fn name(&self) -> &'static str
        ensures { result.now ≡ name_of self.now }
    {
        match self {
            NameFault::DuplicateName { .. } => "DuplicateName",
            NameFault::UnknownLibrary { .. } => "UnknownLibrary",
            NameFault::UnknownName { .. } => "UnknownName",
            NameFault::AmbiguousName { .. } => "AmbiguousName",
            NameFault::AliasCycle { .. } => "AliasCycle",
            NameFault::ImportCycle { .. } => "ImportCycle",
            NameFault::BadImport { .. } => "BadImport",
            NameFault::Memory => "Memory",
        }
    }

    /// Where the sources are at fault; nowhere where memory ran out.
    pub fn place(&self) -> Option<Place>
        ensures { result ≡ place_of self.now }
    {
        match self {
            NameFault::DuplicateName { place }
            | NameFault::UnknownLibrary { place }
            | NameFault::UnknownName { place }
            | NameFault::AmbiguousName { place }
            | NameFault::AliasCycle { place }
            | NameFault::ImportCycle { place }
            | NameFault::BadImport { place } => Some(*place),
            NameFault::Memory => None,
        }
    }
}

/// Whether memory ran out.
pub fn is_memory(fault: NameFault) -> bool
    ensures { IsTrue result ↔ (fault ≡ Fault.Memory) }
{
    matches!(fault, NameFault::Memory)
}

impl From<AllocError> for NameFault {
    ghost use Rattle.fidl_named.specs.declared.fault.NameFault.TheVariants.{Memory};

    ghost from_gives = { λ _ fault. fault ≡ Memory };

    fn from(_error: AllocError) -> NameFault {
        NameFault::Memory
    }
}

impl<T: Drop> From<AllocFailed<T>> for NameFault {
    ghost use Rattle.fidl_named.specs.declared.fault.NameFault.TheVariants.{Memory};

    ghost from_gives = { λ _ fault. fault ≡ Memory };

    fn from(_error: AllocFailed<T>) -> NameFault {
        NameFault::Memory
    }
}
