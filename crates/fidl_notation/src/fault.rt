//! Why a text is not written.
ghost use Rattle.std.specs.Prelude.{◌≡◌, codes};

use thiserror::Error;

/// Why a text is not written.
#[derive(Clone, Copy, PartialEq, Eq, Debug, Drop, Error)]
pub enum WriteFault {
    /// The writer failed: a write or a flush gave an error, or took none of some bytes.
    #[error("the writer failed")]
    Write,
}

impl WriteFault {
    /// The number by which a program names the fault.
    pub fn number(&self) -> u32
        ensures { result ≡ 1 }
    {
        match self {
            WriteFault::Write => 1,
        }
    }

    /// The name of the fault.
    pub fn name(&self) -> &'static str
        ensures { result.now ≡ codes "Write" }
    {
        match self {
            WriteFault::Write => "Write",
        }
    }
}
