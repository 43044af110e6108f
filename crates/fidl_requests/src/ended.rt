//! How a service ends.
ghost use Rattle.std.specs.Prelude.{◌≡◌};

/// How a service ends.
#[derive(Clone, Copy, PartialEq, Eq, Debug, Drop)]
pub enum Ended {
    /// The input ends between frames.
    EndOfInput,
    /// A call has an unknown ordinal, and its flexible bit or the protocol does not allow that.
    StrictUnknown,
    /// A frame has no header, a wrong transaction id, or a body that its method does not accept.
    BadMessage,
    /// The input ends inside a frame, or a frame is past a limit.
    BadFrame,
}

impl Ended {
    ghost use Rattle.fidl_requests.specs.Endings.{number_of, name_of};

    /// The ending's number, from 1 to 4 in the order of the variants.
    pub fn number(&self) -> u32
        ensures { result ≡ number_of self.now }
    {
        match self {
            Ended::EndOfInput => 1,
            Ended::StrictUnknown => 2,
            Ended::BadMessage => 3,
            Ended::BadFrame => 4,
        }
    }

    /// The ending's name, as its variant is spelled.
    pub fn name(&self) -> &'static str
        ensures { result.now ≡ name_of self.now }
    {
        match self {
            Ended::EndOfInput => "EndOfInput",
            Ended::StrictUnknown => "StrictUnknown",
            Ended::BadMessage => "BadMessage",
            Ended::BadFrame => "BadFrame",
        }
    }
}
