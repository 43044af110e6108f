//! Why a method of a protocol is refused.
ghost use Rattle.std.specs.Prelude.{◌≡◌};

use fidl_named::Place;
use std::alloc::{AllocError, AllocFailed};
use thiserror::Error;

/// Why a method or an event of a protocol is refused (public source: the FIDL language
/// specification, "Protocols" and "Method ordinals").
#[derive(Clone, Copy, Debug, PartialEq, Eq, Drop, Error)]
pub enum MethodFault {
    /// A flexible method of a closed protocol, or a flexible two-way method of an ajar one;
    /// reported at its name.
    #[error("this method is to be strict")]
    NotStrict { place: Place },
    /// A selector that has not just one argument, a string literal without a name, or whose text is
    /// neither an identifier nor a full name; or a second selector of a method. Reported at the
    /// attribute's name.
    #[error("this selector is not rightly written")]
    BadSelector { place: Place },
    /// A method whose ordinal is 0; reported at its name.
    #[error("the ordinal of this method is 0")]
    ZeroOrdinal { place: Place },
    /// Memory ran out.
    #[error("memory ran out")]
    Memory,
}

impl From<AllocError> for MethodFault {
    ghost use Rattle.fidl_method_rules.specs.declared.fault.MethodFault.TheVariants.{Memory};

    ghost from_gives = { λ _ fault. fault ≡ Memory };

    fn from(_error: AllocError) -> MethodFault {
        MethodFault::Memory
    }
}

impl<T: Drop> From<AllocFailed<T>> for MethodFault {
    ghost use Rattle.fidl_method_rules.specs.declared.fault.MethodFault.TheVariants.{Memory};

    ghost from_gives = { λ _ fault. fault ≡ Memory };

    fn from(_error: AllocFailed<T>) -> MethodFault {
        MethodFault::Memory
    }
}
