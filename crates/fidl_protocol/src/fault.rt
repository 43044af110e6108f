//! Why the protocols of files are refused.
ghost use Rattle.std.specs.Prelude.{◌≡◌};

use fidl_named::Place;
use std::alloc::{AllocError, AllocFailed};
use thiserror::Error;

/// Why the protocols of files that are laid out are refused (docs/language.md, "Checked
/// protocols").
#[derive(Clone, Copy, Debug, PartialEq, Eq, Drop, Error)]
pub enum ProtocolFault {
    /// A flexible method of a closed protocol, or a flexible two-way method of an ajar one, at the
    /// method's name.
    #[error("this method may not be flexible in this protocol")]
    NotStrict { place: Place },
    /// A protocol that isn't closed in a closed one, or an open one in an ajar one, at the path.
    #[error("a protocol of this openness may not be composed here")]
    BadCompose { place: Place },
    /// Two methods of a protocol, composed ones too, have one name: at the name of its own method,
    /// the later of two own ones, or else at the path of a composition through which it has one.
    #[error("the protocol has another method of this name")]
    DuplicateMethod { place: Place },
    /// Two methods of a protocol, composed ones too, have one ordinal; reported as those of one name.
    #[error("the protocol has another method of this ordinal")]
    DuplicateMethodOrdinal { place: Place },
    /// The ordinal of a method is 0, at the method's name.
    #[error("the ordinal of this method is 0")]
    ZeroOrdinal { place: Place },
    /// A payload that is no struct, table or union, or may be absent, at its type.
    #[error("this is no payload")]
    BadPayload { place: Place },
    /// Compositions lead from a protocol back to it, at the name of the first such.
    #[error("this protocol composes itself")]
    ComposeCycle { place: Place },
    /// A `@selector` that isn't rightly written, or a second one, at its name.
    #[error("this selector is not rightly written")]
    BadSelector { place: Place },
    /// The declared types and the payloads, of which this method has one, reach more than 65,535
    /// types.
    #[error("there are more than 65,535 types")]
    TooManyTypes { place: Place },
    /// Memory ran out.
    #[error("memory ran out")]
    Memory,
}

impl ProtocolFault {
    ghost use Rattle.fidl_protocol.specs.FaultNames.{number_of, name_of, place_of};

    /// The fault's number, from 1 to 10.
    pub fn number(&self) -> u32
        ensures { result ≡ number_of self.now }
    {
        match self {
            ProtocolFault::NotStrict { .. } => 1,
            ProtocolFault::BadCompose { .. } => 2,
            ProtocolFault::DuplicateMethod { .. } => 3,
            ProtocolFault::DuplicateMethodOrdinal { .. } => 4,
            ProtocolFault::ZeroOrdinal { .. } => 5,
            ProtocolFault::BadPayload { .. } => 6,
            ProtocolFault::ComposeCycle { .. } => 7,
            ProtocolFault::BadSelector { .. } => 8,
            ProtocolFault::TooManyTypes { .. } => 9,
            ProtocolFault::Memory => 10,
        }
    }

    /// The fault's name.
    pub fn name(&self) -> &'static str
        ensures { result.now ≡ name_of self.now }
    {
        match self {
            ProtocolFault::NotStrict { .. } => "NotStrict",
            ProtocolFault::BadCompose { .. } => "BadCompose",
            ProtocolFault::DuplicateMethod { .. } => "DuplicateMethod",
            ProtocolFault::DuplicateMethodOrdinal { .. } => "DuplicateMethodOrdinal",
            ProtocolFault::ZeroOrdinal { .. } => "ZeroOrdinal",
            ProtocolFault::BadPayload { .. } => "BadPayload",
            ProtocolFault::ComposeCycle { .. } => "ComposeCycle",
            ProtocolFault::BadSelector { .. } => "BadSelector",
            ProtocolFault::TooManyTypes { .. } => "TooManyTypes",
            ProtocolFault::Memory => "Memory",
        }
    }

    /// Where the sources break the rule: the number of the file and the span in it, in bytes;
    /// nothing where memory ran out.
    pub fn place(&self) -> Option<Place>
        ensures { result ≡ place_of self.now }
    {
        match self {
            ProtocolFault::NotStrict { place }
            | ProtocolFault::BadCompose { place }
            | ProtocolFault::DuplicateMethod { place }
            | ProtocolFault::DuplicateMethodOrdinal { place }
            | ProtocolFault::ZeroOrdinal { place }
            | ProtocolFault::BadPayload { place }
            | ProtocolFault::ComposeCycle { place }
            | ProtocolFault::BadSelector { place }
            | ProtocolFault::TooManyTypes { place } => Some(*place),
            ProtocolFault::Memory => None,
        }
    }
}

impl From<AllocError> for ProtocolFault {
    ghost use Rattle.fidl_protocol.specs.declared.fault.ProtocolFault.TheVariants.{Memory};

    ghost from_gives = { λ _ fault. fault ≡ Memory };

    fn from(_error: AllocError) -> ProtocolFault {
        ProtocolFault::Memory
    }
}

impl<T: Drop> From<AllocFailed<T>> for ProtocolFault {
    ghost use Rattle.fidl_protocol.specs.declared.fault.ProtocolFault.TheVariants.{Memory};

    ghost from_gives = { λ _ fault. fault ≡ Memory };

    fn from(_error: AllocFailed<T>) -> ProtocolFault {
        ProtocolFault::Memory
    }
}
