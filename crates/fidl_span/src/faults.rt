// Why a source can't be cut into words.
ghost use Rattle.std.specs.Prelude.{◌≡◌};

use crate::words::Span;
use std::alloc::{AllocError, AllocFailed};
use thiserror::Error;

/// Why a source has no words, and where: each fault but `Memory` is true of the source at its span.
/// Where a source has several faults, which one `lex` reports is tested, not proved.
#[derive(Clone, Copy, Debug, PartialEq, Eq, Error)]
pub enum LexFault {
    /// The source is not UTF-8. The span is the byte behind the longest front that is.
    #[error("the source is not UTF-8")]
    NotUtf8 { span: Span },
    /// No word, blank or comment begins with this byte. The span is the byte.
    #[error("no word begins with this byte")]
    BadByte { span: Span },
    /// A name begins or ends with `_`. The span is the name.
    #[error("a name begins or ends with an underscore")]
    BadIdentifier { span: Span },
    /// A string literal is not closed on its line. The span is from its quote to the line's end.
    #[error("a string literal is not closed on its line")]
    OpenString { span: Span },
    /// A string literal has a backslash at which no escape stands. The span is the backslash and
    /// the byte behind it, or the backslash alone at the end of the source.
    #[error("a backslash begins no escape")]
    BadEscape { span: Span },
    /// What begins with a digit is no number. The span is the longest run of letters, digits and
    /// `_` there.
    #[error("what begins with a digit is no number")]
    BadNumber { span: Span },
    /// Memory ran out.
    #[error("memory ran out")]
    Memory,
}

impl From<AllocError> for LexFault {
    ghost use Rattle.fidl_span.specs.declared.faults.LexFault.TheVariants.{Memory};

    ghost from_gives = { λ _ fault. fault ≡ Memory };

    fn from(_error: AllocError) -> LexFault {
        LexFault::Memory
    }
}

impl<T: Drop> From<AllocFailed<T>> for LexFault {
    ghost use Rattle.fidl_span.specs.declared.faults.LexFault.TheVariants.{Memory};

    ghost from_gives = { λ _ fault. fault ≡ Memory };

    fn from(_error: AllocFailed<T>) -> LexFault {
        LexFault::Memory
    }
}

impl LexFault {
    ghost use Rattle.fidl_span.specs.FaultNames.{number_of, name_of, span_of};

    /// The fault's number, from 1 to 7 in the order of the variants.
    pub fn number(&self) -> u32
        ensures { result ≡ number_of self.now }
    {
        match self {
            LexFault::NotUtf8 { .. } => 1,
            LexFault::BadByte { .. } => 2,
            LexFault::BadIdentifier { .. } => 3,
            LexFault::OpenString { .. } => 4,
            LexFault::BadEscape { .. } => 5,
            LexFault::BadNumber { .. } => 6,
            LexFault::Memory => 7,
        }
    }

    /// The fault's name, as its variant is spelled.
    pub fn name(&self) -> &'static str
        ensures { result.now ≡ name_of self.now }
    {
        match self {
            LexFault::NotUtf8 { .. } => "NotUtf8",
            LexFault::BadByte { .. } => "BadByte",
            LexFault::BadIdentifier { .. } => "BadIdentifier",
            LexFault::OpenString { .. } => "OpenString",
            LexFault::BadEscape { .. } => "BadEscape",
            LexFault::BadNumber { .. } => "BadNumber",
            LexFault::Memory => "Memory",
        }
    }

    /// Where the source is at fault; `None` for `Memory`.
    pub fn span(&self) -> Option<Span>
        ensures { result ≡ span_of self.now }
    {
        match self {
            LexFault::NotUtf8 { span }
            | LexFault::BadByte { span }
            | LexFault::BadIdentifier { span }
            | LexFault::OpenString { span }
            | LexFault::BadEscape { span }
            | LexFault::BadNumber { span } => Some(*span),
            LexFault::Memory => None,
        }
    }
}
