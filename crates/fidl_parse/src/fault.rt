// Why words are no source file.
ghost use Rattle.std.specs.Prelude.{◌≡◌};

use fidl_span::Span;
use std::alloc::{AllocError, AllocFailed};
use thiserror::Error;

/// Why the words of a source have no syntax tree, and where.
#[derive(Clone, Copy, Debug, PartialEq, Eq, Error)]
pub enum ParseFault {
    /// The words are no source file. The span is a word's, up to which the limit of open brackets
    /// is kept, or it is empty and stands at the end of the source. Which word is reported is
    /// tested, not proved: it is the first that doesn't fit the grammar.
    #[error("this word doesn't fit")]
    Unexpected { span: Span },
    /// More brackets are open at once than `MAX_SOURCE_BRACKETS`. The span is the first bracket
    /// with which they are.
    #[error("more than 64 brackets are open")]
    TooNested { span: Span },
    /// Memory ran out.
    #[error("memory ran out")]
    Memory,
}

impl ParseFault {
    ghost use Rattle.fidl_parse.specs.FaultNames.{number_of, name_of, span_of};

    /// The fault's number, from 1 to 3 in the order of the variants.
    pub fn number(&self) -> u32
        ensures { result ≡ number_of self.now }
    {
        match self {
            ParseFault::Unexpected { .. } => 1,
            ParseFault::TooNested { .. } => 2,
            ParseFault::Memory => 3,
        }
    }

    /// The fault's name, as its variant is spelled.
    pub fn name(&self) -> &'static str
        ensures { result.now ≡ name_of self.now }
    {
        match self {
            ParseFault::Unexpected { .. } => "Unexpected",
            ParseFault::TooNested { .. } => "TooNested",
            ParseFault::Memory => "Memory",
        }
    }

    /// Where the source is at fault; `None` for `Memory`.
    pub fn span(&self) -> Option<Span>
        ensures { result ≡ span_of self.now }
    {
        match self {
            ParseFault::Unexpected { span } | ParseFault::TooNested { span } => Some(*span),
            ParseFault::Memory => None,
        }
    }
}

impl From<AllocError> for ParseFault {
    ghost use Rattle.fidl_parse.specs.declared.fault.ParseFault.TheVariants.{Memory};

    ghost from_gives = { λ _ fault. fault ≡ Memory };

    fn from(_error: AllocError) -> ParseFault {
        ParseFault::Memory
    }
}

/// Why a part could not be read. The parser's place says at which word it stopped.
#[derive(Clone, Copy)]
pub(crate) enum Stop {
    Unexpected,
    Memory,
}

impl From<AllocError> for Stop {
    ghost use Rattle.fidl_parse.specs.declared.fault.Stop.TheVariants.{Memory};

    ghost from_gives = { λ _ stop. stop ≡ Memory };

    fn from(_error: AllocError) -> Stop {
        Stop::Memory
    }
}

impl<T: Drop> From<AllocFailed<T>> for Stop {
    ghost use Rattle.fidl_parse.specs.declared.fault.Stop.TheVariants.{Memory};

    ghost from_gives = { λ _ stop. stop ≡ Memory };

    fn from(_error: AllocFailed<T>) -> Stop {
        Stop::Memory
    }
}
