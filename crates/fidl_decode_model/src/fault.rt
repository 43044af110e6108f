//! Why a message is refused.
ghost use Rattle.std.specs.Prelude.{◌≡◌};

use thiserror::Error;

/// Why bytes and handles encode no value of a type. `at` is the offset of the field at fault from
/// the message's start, in bytes (public source: the FIDL wire format reference).
#[derive(Clone, Copy, PartialEq, Eq, Debug, Drop, Error)]
pub enum DecodeFault {
    /// The message is over the limit of bytes; reported at 0.
    #[error("the message is too long")]
    TooLong { at: usize },
    /// More handles came than the limit; reported at 0.
    #[error("the message has too many handles")]
    TooManyHandles { at: usize },
    /// An object, or its padding, lies past the message's end; reported at the object's start.
    #[error("the object at {at} is cut off")]
    Truncated { at: usize },
    /// A padding byte isn't zero.
    #[error("the padding at {at} is not zero")]
    Padding { at: usize },
    /// A bool is neither 0 nor 1.
    #[error("the bool at {at} is neither 0 nor 1")]
    BadBool { at: usize },
    /// The number of a strict enum is none of its values.
    #[error("the number at {at} is no value of its enum")]
    UnknownValue { at: usize },
    /// The number of strict bits has a bit that is no member.
    #[error("the number at {at} has a bit that is not known")]
    UnknownBits { at: usize },
    /// A marker is neither zeros nor ones; reported at the marker, or at a handle's four bytes.
    #[error("the marker at {at} is neither zeros nor ones")]
    BadMarker { at: usize },
    /// Something that is not optional is absent.
    #[error("the field at {at} is absent and is required")]
    AbsentRequired { at: usize },
    /// A count is not 0 where its value is absent, or the elements don't fit what is left of the
    /// message.
    #[error("the count at {at} does not fit")]
    BadCount { at: usize },
    /// A string or vector is longer than its bound; reported at the count.
    #[error("the count at {at} is over the bound")]
    OverBound { at: usize },
    /// A text is no UTF-8; reported at its first byte.
    #[error("the text at {at} is no UTF-8")]
    NotUtf8 { at: usize },
    /// The numbers of an envelope cannot be those of its member, or are not zeros where there is
    /// none; reported at the envelope.
    #[error("the envelope at {at} cannot hold its member")]
    BadEnvelope { at: usize },
    /// An envelope counts other bytes or handles than its member has; reported at the envelope.
    #[error("the envelope at {at} counts other bytes or handles than its member has")]
    WrongCounts { at: usize },
    /// A strict union has an ordinal that is no member's; reported at the ordinal.
    #[error("the ordinal at {at} is no member of its union")]
    UnknownOrdinal { at: usize },
    /// Over 32 objects lie behind one another; reported at the field that holds the last.
    #[error("the object of the field at {at} lies too deep")]
    TooDeep { at: usize },
    /// A handle has no record: too few came.
    #[error("the handle at {at} has no record")]
    HandleMissing { at: usize },
    /// The record of a handle has another object type, or too few rights.
    #[error("the handle at {at} has another type, or too few rights")]
    WrongHandle { at: usize },
    /// Bytes are left behind the value; reported at the first of them.
    #[error("bytes are left from {at} on")]
    BytesLeft { at: usize },
    /// Handles are left behind the value; reported at the message's length.
    #[error("handles are left")]
    HandlesLeft { at: usize },
}

impl DecodeFault {
    ghost use Rattle.fidl_decode_model.specs.Faults.{number_of, name_of, place_of};

    /// The fault's number.
    pub fn number(&self) -> u32
        ensures { result ≡ number_of self.now }
    {
        match self {
            DecodeFault::TooLong { .. } => 1,
            DecodeFault::TooManyHandles { .. } => 2,
            DecodeFault::Truncated { .. } => 3,
            DecodeFault::Padding { .. } => 4,
            DecodeFault::BadBool { .. } => 5,
            DecodeFault::UnknownValue { .. } => 6,
            DecodeFault::UnknownBits { .. } => 7,
            DecodeFault::BadMarker { .. } => 8,
            DecodeFault::AbsentRequired { .. } => 9,
            DecodeFault::BadCount { .. } => 10,
            DecodeFault::OverBound { .. } => 11,
            DecodeFault::NotUtf8 { .. } => 12,
            DecodeFault::BadEnvelope { .. } => 13,
            DecodeFault::WrongCounts { .. } => 14,
            DecodeFault::UnknownOrdinal { .. } => 15,
            DecodeFault::TooDeep { .. } => 16,
            DecodeFault::HandleMissing { .. } => 17,
            DecodeFault::WrongHandle { .. } => 18,
            DecodeFault::BytesLeft { .. } => 19,
            DecodeFault::HandlesLeft { .. } => 20,
        }
    }

    /// The fault's name.
    pub fn name(&self) -> &'static str
        ensures { result.now ≡ name_of self.now }
    {
        match self {
            DecodeFault::TooLong { .. } => "TooLong",
            DecodeFault::TooManyHandles { .. } => "TooManyHandles",
            DecodeFault::Truncated { .. } => "Truncated",
            DecodeFault::Padding { .. } => "Padding",
            DecodeFault::BadBool { .. } => "BadBool",
            DecodeFault::UnknownValue { .. } => "UnknownValue",
            DecodeFault::UnknownBits { .. } => "UnknownBits",
            DecodeFault::BadMarker { .. } => "BadMarker",
            DecodeFault::AbsentRequired { .. } => "AbsentRequired",
            DecodeFault::BadCount { .. } => "BadCount",
            DecodeFault::OverBound { .. } => "OverBound",
            DecodeFault::NotUtf8 { .. } => "NotUtf8",
            DecodeFault::BadEnvelope { .. } => "BadEnvelope",
            DecodeFault::WrongCounts { .. } => "WrongCounts",
            DecodeFault::UnknownOrdinal { .. } => "UnknownOrdinal",
            DecodeFault::TooDeep { .. } => "TooDeep",
            DecodeFault::HandleMissing { .. } => "HandleMissing",
            DecodeFault::WrongHandle { .. } => "WrongHandle",
            DecodeFault::BytesLeft { .. } => "BytesLeft",
            DecodeFault::HandlesLeft { .. } => "HandlesLeft",
        }
    }

    /// The offset of the field at fault, in bytes from the message's start.
    pub fn at(&self) -> usize
        ensures { result ≡ place_of self.now }
    {
        match self {
            DecodeFault::TooLong { at }
            | DecodeFault::TooManyHandles { at }
            | DecodeFault::Truncated { at }
            | DecodeFault::Padding { at }
            | DecodeFault::BadBool { at }
            | DecodeFault::UnknownValue { at }
            | DecodeFault::UnknownBits { at }
            | DecodeFault::BadMarker { at }
            | DecodeFault::AbsentRequired { at }
            | DecodeFault::BadCount { at }
            | DecodeFault::OverBound { at }
            | DecodeFault::NotUtf8 { at }
            | DecodeFault::BadEnvelope { at }
            | DecodeFault::WrongCounts { at }
            | DecodeFault::UnknownOrdinal { at }
            | DecodeFault::TooDeep { at }
            | DecodeFault::HandleMissing { at }
            | DecodeFault::WrongHandle { at }
            | DecodeFault::BytesLeft { at }
            | DecodeFault::HandlesLeft { at } => *at,
        }
    }
}
