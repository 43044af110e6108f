//! Why bytes do not begin with a header.
ghost use Rattle.std.specs.Prelude.{◌≡◌};

use thiserror::Error;

/// Why bytes do not begin with a header that is accepted.
#[derive(Clone, Copy, PartialEq, Eq, Debug, Drop, Error)]
pub enum HeaderFault {
    /// There are fewer than 16 bytes.
    #[error("the message is shorter than a header")]
    Short,
    /// The magic number, the eighth byte, is not 1.
    #[error("the header has another magic number")]
    BadMagic,
    /// The at-rest flags do not say version 2 of the wire format.
    #[error("the message is not of version 2 of the wire format")]
    NotVersion2,
    /// The dynamic flags say that the message goes on outside of its bytes.
    #[error("the message overflows")]
    Overflow,
}

impl HeaderFault {
    ghost use Rattle.fidl_header.specs.Faults.{number_of, name_of};

    /// The fault's number, from 1 to 4 in the order of the variants.
    pub fn number(&self) -> u32
        ensures { result ≡ number_of self.now }
    {
        match self {
            HeaderFault::Short => 1,
            HeaderFault::BadMagic => 2,
            HeaderFault::NotVersion2 => 3,
            HeaderFault::Overflow => 4,
        }
    }

    /// The fault's name, as its variant is spelled.
    pub fn name(&self) -> &'static str
        ensures { result.now ≡ name_of self.now }
    {
        match self {
            HeaderFault::Short => "Short",
            HeaderFault::BadMagic => "BadMagic",
            HeaderFault::NotVersion2 => "NotVersion2",
            HeaderFault::Overflow => "Overflow",
        }
    }
}
