//! Why a resource definition is refused.
ghost use Rattle.std.specs.Prelude.{◌≡◌};

use fidl_named::Place;
use std::alloc::AllocError;
use thiserror::Error;

/// Why a resource definition is refused (public source: the FIDL language specification,
/// "Resource definitions").
#[derive(Clone, Copy, Debug, PartialEq, Eq, Drop, Error)]
pub enum ResourceFault {
    /// A resource definition that isn't of `uint32`, reported at that type; one with a property
    /// that isn't a subtype or rights, reported at the property's type; or one without a subtype,
    /// reported at its name.
    #[error("this resource definition is not rightly written")]
    BadConstraint { place: Place },
    /// Memory ran out.
    #[error("memory ran out")]
    Memory,
}

impl From<AllocError> for ResourceFault {
    ghost use Rattle.fidl_resource_rules.specs.declared.fault.ResourceFault.TheVariants.{Memory};

    ghost from_gives = { λ _ fault. fault ≡ Memory };

    fn from(_error: AllocError) -> ResourceFault {
        ResourceFault::Memory
    }
}
