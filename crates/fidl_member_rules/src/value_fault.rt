//! Why the numbers of bits and enums break a rule.
ghost use Rattle.std.specs.Prelude.{◌≡◌};

use fidl_named::Place;
use std::alloc::{AllocError, AllocFailed};
use thiserror::Error;

/// Why the numbers of bits and enums break a rule (public source: the FIDL language specification,
/// "Bits" and "Enums"). Each is reported at the name of the member.
#[derive(Clone, Copy, Debug, PartialEq, Eq, Drop, Error)]
pub enum ValuesFault {
    /// A member whose number a member before it has.
    #[error("this number is taken")]
    DuplicateValue { place: Place },
    /// A member of bits whose number is no power of two.
    #[error("a member of bits is a power of two")]
    NotPowerOfTwo { place: Place },
    /// Memory ran out.
    #[error("memory ran out")]
    Memory,
}

impl From<AllocError> for ValuesFault {
    ghost use Rattle.fidl_member_rules.specs.declared.value_fault.ValuesFault.TheVariants.{Memory};

    ghost from_gives = { λ _ fault. fault ≡ Memory };

    fn from(_error: AllocError) -> ValuesFault {
        ValuesFault::Memory
    }
}

impl<T: Drop> From<AllocFailed<T>> for ValuesFault {
    ghost use Rattle.fidl_member_rules.specs.declared.value_fault.ValuesFault.TheVariants.{Memory};

    ghost from_gives = { λ _ fault. fault ≡ Memory };

    fn from(_error: AllocFailed<T>) -> ValuesFault {
        ValuesFault::Memory
    }
}
