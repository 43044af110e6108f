//! Why the payloads of a member of a protocol are refused.
ghost use Rattle.std.specs.Prelude.{◌≡◌};

use fidl_named::Place;
use std::alloc::AllocError;
use thiserror::Error;

/// Why the payloads of a member of a protocol are refused (public source: the FIDL language
/// specification, "Protocols").
#[derive(Clone, Copy, Debug, PartialEq, Eq, Drop, Error)]
pub enum PayloadFault {
    /// A request, a response or an event of a type that is not a struct, a table or a union, or of
    /// a union that may be absent, aliases followed; reported at that type.
    #[error("a payload is a struct, a table or a union")]
    BadPayload { place: Place },
    /// Memory ran out, or the files have more than 2^32 forms.
    #[error("memory ran out")]
    Memory,
}

impl From<AllocError> for PayloadFault {
    ghost use Rattle.fidl_payloads.specs.declared.fault.PayloadFault.TheVariants.{Memory};

    ghost from_gives = { λ _ fault. fault ≡ Memory };

    fn from(_error: AllocError) -> PayloadFault {
        PayloadFault::Memory
    }
}
