//! Why definitions have no figures within the limits.

use std::alloc::{AllocError, AllocFailed};
use thiserror::Error;

/// Why definitions have no figures within the limits (docs/language.md, "Figures").
#[derive(Clone, Copy, Debug, PartialEq, Eq, Drop, Error)]
pub enum FigureFault {
    /// In this definition stands a type from which on 33 structs and arrays stand inline in one
    /// another. A struct that stands in itself is such a type.
    #[error("structs and arrays stand more than 32 deep in one another")]
    TooNested { definition: usize },
    /// In this definition stands a type whose inline size is more than 65,535 bytes.
    #[error("a type is larger than 65,535 bytes")]
    TooLarge { definition: usize },
    /// This definition has more than 65,535 members.
    #[error("a layout has more than 65,535 members")]
    TooManyMembers { definition: usize },
    /// Memory ran out.
    #[error("memory ran out")]
    Memory,
}

impl From<AllocError> for FigureFault {
    ghost use Rattle.std.specs.Prelude.{◌≡◌};
    ghost use Rattle.fidl_type_shape.specs.declared.fault.FigureFault.TheVariants.{Memory};

    ghost from_gives = { λ _ fault. fault ≡ Memory };

    fn from(_error: AllocError) -> FigureFault {
        FigureFault::Memory
    }
}

impl<T: Drop> From<AllocFailed<T>> for FigureFault {
    ghost use Rattle.std.specs.Prelude.{◌≡◌};
    ghost use Rattle.fidl_type_shape.specs.declared.fault.FigureFault.TheVariants.{Memory};

    ghost from_gives = { λ _ fault. fault ≡ Memory };

    fn from(_error: AllocFailed<T>) -> FigureFault {
        FigureFault::Memory
    }
}

/// The limit of types that a type is past (docs/language.md, "Figures").
#[derive(Clone, Copy, Debug, PartialEq, Eq, Drop)]
pub enum Excess {
    /// At most 32 structs and arrays stand inline in one another.
    Nest,
    /// A type has at most 65,535 bytes.
    Size,
}

/// Why a definition has no figure: the limit that it is past, or memory that ran out.
#[derive(Clone, Copy, Drop)]
pub(crate) enum Refusal {
    Nest,
    Size,
    Members,
    Memory,
}

impl From<AllocError> for Refusal {
    ghost use Rattle.std.specs.Prelude.{◌≡◌};
    ghost use Rattle.fidl_type_shape.specs.declared.fault.Refusal.TheVariants.{Memory};

    ghost from_gives = { λ _ refusal. refusal ≡ Memory };

    fn from(_error: AllocError) -> Refusal {
        Refusal::Memory
    }
}

impl<T: Drop> From<AllocFailed<T>> for Refusal {
    ghost use Rattle.std.specs.Prelude.{◌≡◌};
    ghost use Rattle.fidl_type_shape.specs.declared.fault.Refusal.TheVariants.{Memory};

    ghost from_gives = { λ _ refusal. refusal ≡ Memory };

    fn from(_error: AllocFailed<T>) -> Refusal {
        Refusal::Memory
    }
}
