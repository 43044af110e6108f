//! Why the compositions of protocols are refused.

use fidl_named::Place;
use std::alloc::{AllocError, AllocFailed};
use thiserror::Error;

/// Why the compositions of protocols are refused (public source: the FIDL language specification,
/// "Protocol composition").
#[derive(Clone, Copy, Debug, PartialEq, Eq, Drop, Error)]
pub enum ComposeFault {
    /// A protocol composes one that is more open than itself: a closed one may compose closed ones
    /// alone, an ajar one all but open ones. Reported at the path of the composition.
    #[error("a protocol may not compose one that is more open")]
    BadCompose { place: Place },
    /// A protocol leads to itself by compositions. Reported at the name of the first protocol of
    /// the cycle, in the order of the sources.
    #[error("this protocol is composed of itself")]
    ComposeCycle { place: Place },
    /// Memory ran out.
    #[error("memory ran out")]
    Memory,
}

impl From<AllocError> for ComposeFault {
    ghost use Rattle.std.specs.Prelude.{◌≡◌};
    ghost use Rattle.fidl_composition.specs.declared.fault.ComposeFault.TheVariants.{Memory};

    ghost from_gives = { λ _ fault. fault ≡ Memory };

    fn from(_error: AllocError) -> ComposeFault {
        ComposeFault::Memory
    }
}

impl<T: Drop> From<AllocFailed<T>> for ComposeFault {
    ghost use Rattle.std.specs.Prelude.{◌≡◌};
    ghost use Rattle.fidl_composition.specs.declared.fault.ComposeFault.TheVariants.{Memory};

    ghost from_gives = { λ _ fault. fault ≡ Memory };

    fn from(_error: AllocFailed<T>) -> ComposeFault {
        ComposeFault::Memory
    }
}
