//! Why layouts and attributes break a rule.
ghost use Rattle.std.specs.Prelude.{◌≡◌};

use fidl_named::Place;
use std::alloc::{AllocError, AllocFailed};
use thiserror::Error;

/// Why layouts and attributes break a rule that needs no meanings (public source: the FIDL language
/// specification, "Layouts").
#[derive(Clone, Copy, Debug, PartialEq, Eq, Drop, Error)]
pub enum RuleFault {
    /// An ordinal that is 0, or past the last of its layout; reported at the ordinal.
    #[error("this ordinal is out of range")]
    BadOrdinal { place: Place },
    /// An ordinal that a member before it has, reserved ones too; reported at the later one.
    #[error("this ordinal is taken")]
    DuplicateOrdinal { place: Place },
    /// A strict enum or union without members; reported at its keyword.
    #[error("a strict enum or union has a member")]
    EmptyStrict { place: Place },
    /// `@available`, or a protocol's `@transport` of another transport than channels; reported at
    /// the attribute's name.
    #[error("this is left out of the profile")]
    OutOfProfile { place: Place },
    /// Memory ran out.
    #[error("memory ran out")]
    Memory,
}

impl From<AllocError> for RuleFault {
    ghost use Rattle.fidl_member_rules.specs.declared.fault.RuleFault.TheVariants.{Memory};

    ghost from_gives = { λ _ fault. fault ≡ Memory };

    fn from(_error: AllocError) -> RuleFault {
        RuleFault::Memory
    }
}

impl<T: Drop> From<AllocFailed<T>> for RuleFault {
    ghost use Rattle.fidl_member_rules.specs.declared.fault.RuleFault.TheVariants.{Memory};

    ghost from_gives = { λ _ fault. fault ≡ Memory };

    fn from(_error: AllocFailed<T>) -> RuleFault {
        RuleFault::Memory
    }
}
