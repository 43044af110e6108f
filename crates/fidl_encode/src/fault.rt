//! Why a value has no message.
ghost use Rattle.std.specs.Prelude.{◌≡◌};

use std::alloc::AllocError;
use thiserror::Error;

/// Why a value has no message of a type.
#[derive(Clone, Copy, PartialEq, Eq, Debug, Drop, Error)]
pub enum EncodeFault {
    /// The value is not of the type, for a reason that no other fault names: another shape, a number
    /// out of range, something absent that is required, or an unknown member of a strict union.
    #[error("the value is not of its type")]
    WrongShape,
    /// A string or vector is longer than its bound.
    #[error("a string or vector is over its bound")]
    OverBound,
    /// A string is not UTF-8.
    #[error("a string is not UTF-8")]
    NotUtf8,
    /// A number is no value of its strict enum, or has a bit that its strict bits do not have.
    #[error("a number is no value of its strict enum or bits")]
    UnknownValue,
    /// A handle has another object type, or too few rights.
    #[error("a handle has another type, or too few rights")]
    WrongHandle,
    /// Over 32 objects would lie behind one another.
    #[error("the value is too deep")]
    TooDeep,
    /// The message would be over the limit of bytes.
    #[error("the message would be too long")]
    TooLong,
    /// The message would have more handles than the limit.
    #[error("the message would have too many handles")]
    TooManyHandles,
    /// Memory ran out; this says nothing of the value.
    #[error("memory ran out")]
    Memory,
}

impl EncodeFault {
    ghost use Rattle.fidl_encode.specs.Faults.{number_of, name_of};

    /// The fault's number.
    pub fn number(&self) -> u32
        ensures { result ≡ number_of self.now }
    {
        match self {
            EncodeFault::WrongShape => 1,
            EncodeFault::OverBound => 2,
            EncodeFault::NotUtf8 => 3,
            EncodeFault::UnknownValue => 4,
            EncodeFault::WrongHandle => 5,
            EncodeFault::TooDeep => 6,
            EncodeFault::TooLong => 7,
            EncodeFault::TooManyHandles => 8,
            EncodeFault::Memory => 9,
        }
    }

    /// The fault's name.
    pub fn name(&self) -> &'static str
        ensures { result.now ≡ name_of self.now }
    {
        match self {
            EncodeFault::WrongShape => "WrongShape",
            EncodeFault::OverBound => "OverBound",
            EncodeFault::NotUtf8 => "NotUtf8",
            EncodeFault::UnknownValue => "UnknownValue",
            EncodeFault::WrongHandle => "WrongHandle",
            EncodeFault::TooDeep => "TooDeep",
            EncodeFault::TooLong => "TooLong",
            EncodeFault::TooManyHandles => "TooManyHandles",
            EncodeFault::Memory => "Memory",
        }
    }
}

impl From<AllocError> for EncodeFault {
    ghost use Rattle.fidl_encode.specs.declared.fault.EncodeFault.TheVariants.{Memory};

    ghost from_gives = { λ _ fault. fault ≡ Memory };

    fn from(_error: AllocError) -> EncodeFault {
        EncodeFault::Memory
    }
}
