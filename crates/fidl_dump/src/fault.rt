//! Why a stream is not printed whole.
ghost use Rattle.std.specs.Prelude.{◌≡◌};
ghost use Rattle.fidl_dump.specs.Faults.{stage_of, number_of, name_of, place_of};

use fidl_decode::DecodeFault;
use fidl_header::HeaderFault;
use fidl_requests::Ended;
use thiserror::Error;

/// Why a frame has no line.
#[derive(Clone, Copy, PartialEq, Eq, Debug, Drop, Error)]
pub enum FrameFault {
    /// The message does not begin with a header.
    #[error("{0}")]
    Header(HeaderFault),
    /// The body and the handles encode no value of what the method's message carries. Its offset
    /// counts from the body's first byte, behind the header.
    #[error("{0}")]
    Body(DecodeFault),
    /// The method's message carries nothing, and there is a body or a handle.
    #[error("the message carries more than its method allows")]
    BadMessage,
    /// The input ends inside the frame, or the frame is past a limit.
    #[error("the frame is cut off or past a limit")]
    BadFrame,
}

impl FrameFault {
    /// The stage that refuses the frame: `header`, `decode` or `ended`.
    pub fn stage(&self) -> &'static str
        ensures { result.now ≡ stage_of self.now }
    {
        match self {
            FrameFault::Header(_) => "header",
            FrameFault::Body(_) => "decode",
            FrameFault::BadMessage | FrameFault::BadFrame => "ended",
        }
    }

    /// The number that the refusal has in its stage, from 1.
    pub fn number(&self) -> u32
        ensures { result ≡ number_of self.now }
    {
        match self {
            FrameFault::Header(fault) => fault.number(),
            FrameFault::Body(fault) => fault.number(),
            FrameFault::BadMessage => Ended::BadMessage.number(),
            FrameFault::BadFrame => Ended::BadFrame.number(),
        }
    }

    /// The name of the refusal, as its variant in its stage is spelled.
    pub fn name(&self) -> &'static str
        ensures { result.now ≡ name_of self.now }
    {
        match self {
            FrameFault::Header(fault) => fault.name(),
            FrameFault::Body(fault) => fault.name(),
            FrameFault::BadMessage => Ended::BadMessage.name(),
            FrameFault::BadFrame => Ended::BadFrame.name(),
        }
    }

    /// The offset in the body, in bytes, where it is the body that is refused.
    pub fn at(&self) -> Option<usize>
        ensures { result ≡ place_of self.now }
    {
        match self {
            FrameFault::Body(fault) => Some(fault.at()),
            FrameFault::Header(_) | FrameFault::BadMessage | FrameFault::BadFrame => None,
        }
    }
}

/// Why a stream is not printed whole.
#[derive(Clone, Copy, PartialEq, Eq, Debug, Drop, Error)]
pub enum DumpFault {
    /// The frame of this number, from 1, has no line. The lines of all frames before it are
    /// written, and nothing of it.
    #[error("frame {number}: {fault}")]
    Frame { number: u64, fault: FrameFault },
    /// A write failed. A front of the lines is written.
    #[error("a write failed")]
    Write,
}
