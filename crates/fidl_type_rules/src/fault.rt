//! Why the use of a type is refused.
ghost use Rattle.std.specs.Prelude.{◌≡◌};

use fidl_named::Place;
use std::alloc::{AllocError, AllocFailed};
use thiserror::Error;

/// Why the use of a type is refused (public source: the FIDL language specification, "Types").
#[derive(Clone, Copy, Debug, PartialEq, Eq, Drop, Error)]
pub enum UseFault {
    /// A type whose arguments or constraints are of a wrong number or kind, or which isn't what its
    /// place asks for; reported at the type.
    #[error("this type is not rightly written")]
    BadConstraint { place: Place },
    /// A box of what is no struct; reported at what it is of.
    #[error("a box is of a struct")]
    BadBox { place: Place },
    /// A member of a table or a union, or a type after `error`, that may be absent; reported at the
    /// type.
    #[error("this type may be absent")]
    OptionalMember { place: Place },
    /// `float32` or `float64`; reported at the name.
    #[error("this is left out of the profile")]
    OutOfProfile { place: Place },
    /// Memory ran out.
    #[error("memory ran out")]
    Memory,
}

impl From<AllocError> for UseFault {
    ghost use Rattle.fidl_type_rules.specs.declared.fault.UseFault.TheVariants.{Memory};

    ghost from_gives = { λ _ fault. fault ≡ Memory };

    fn from(_error: AllocError) -> UseFault {
        UseFault::Memory
    }
}

impl<T: Drop> From<AllocFailed<T>> for UseFault {
    ghost use Rattle.fidl_type_rules.specs.declared.fault.UseFault.TheVariants.{Memory};

    ghost from_gives = { λ _ fault. fault ≡ Memory };

    fn from(_error: AllocFailed<T>) -> UseFault {
        UseFault::Memory
    }
}
