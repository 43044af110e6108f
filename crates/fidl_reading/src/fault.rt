//! Why a text spells no value.
ghost use Rattle.std.specs.Prelude.{◌≡◌};

use std::alloc::AllocError;
use thiserror::Error;

/// Why a text spells no value of a type. Each place is an offset in bytes from the text's start.
#[derive(Clone, Copy, PartialEq, Eq, Debug, Drop, Error)]
pub enum NotationFault {
    /// No value of the type is written so. The place is that of the first byte of the word that does
    /// not fit, or the text's length.
    #[error("no value is written so, at {at}")]
    Syntax { at: usize },
    /// A name that no member has.
    #[error("no member has this name, at {at}")]
    UnknownName { at: usize },
    /// A number outside its type.
    #[error("a number is outside its type, at {at}")]
    OutOfRange { at: usize },
    /// A member that stood already, or whose ordinal does not rise.
    #[error("a member stands again, or does not rise, at {at}")]
    Repeated { at: usize },
    /// Memory ran out; this says nothing of the text.
    #[error("memory ran out")]
    Memory,
}

impl NotationFault {
    ghost use Rattle.fidl_reading.specs.Faults.{number_of, name_of, place_of};

    /// The fault's number.
    pub fn number(&self) -> u32
        ensures { result ≡ number_of self.now }
    {
        match self {
            NotationFault::Syntax { .. } => 1,
            NotationFault::UnknownName { .. } => 2,
            NotationFault::OutOfRange { .. } => 3,
            NotationFault::Repeated { .. } => 4,
            NotationFault::Memory => 5,
        }
    }

    /// The fault's name.
    pub fn name(&self) -> &'static str
        ensures { result.now ≡ name_of self.now }
    {
        match self {
            NotationFault::Syntax { .. } => "Syntax",
            NotationFault::UnknownName { .. } => "UnknownName",
            NotationFault::OutOfRange { .. } => "OutOfRange",
            NotationFault::Repeated { .. } => "Repeated",
            NotationFault::Memory => "Memory",
        }
    }

    /// The offset in the text that the fault reports, in bytes. `None` where memory ran out.
    pub fn at(&self) -> Option<usize>
        ensures { result ≡ place_of self.now }
    {
        match self {
            NotationFault::Syntax { at }
            | NotationFault::UnknownName { at }
            | NotationFault::OutOfRange { at }
            | NotationFault::Repeated { at } => Some(*at),
            NotationFault::Memory => None,
        }
    }
}

impl From<AllocError> for NotationFault {
    ghost use Rattle.fidl_reading.specs.declared.fault.NotationFault.TheVariants.{Memory};

    ghost from_gives = { λ _ fault. fault ≡ Memory };

    fn from(_error: AllocError) -> NotationFault {
        NotationFault::Memory
    }
}
