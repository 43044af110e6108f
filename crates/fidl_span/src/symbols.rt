// The symbols.
ghost use Rattle.std.specs.Prelude.{◌≡◌, ◌≢◌, ◌<◌, length, drop, slice_index, IsFalse, IfOk, IfErr};
ghost use Rattle.fidl_span.specs.Bytes.{is_word_byte};
ghost use Rattle.fidl_span.specs.Faults.{IsFaultAt};
ghost use Rattle.fidl_span.specs.Gaps.{BeginsNoGap};
ghost use Rattle.fidl_span.specs.Symbols.{symbol_of};
ghost use Rattle.fidl_span.specs.Words.{StandsAt};

use crate::faults::LexFault;
use crate::words::{Span, Word, WordKind};

/// The symbol that this byte is, if it is one.
#[tactic(auto, unfolding(crate::specs::Symbols::symbol_of))]
fn symbol_of(byte: u8) -> Option<WordKind>
    ensures { result ≡ symbol_of byte }
{
    match byte {
        b';' => Some(WordKind::Semicolon),
        b':' => Some(WordKind::Colon),
        b',' => Some(WordKind::Comma),
        b'.' => Some(WordKind::Dot),
        b'=' => Some(WordKind::Equals),
        b'|' => Some(WordKind::Bar),
        b'@' => Some(WordKind::At),
        b'(' => Some(WordKind::LeftParenthesis),
        b')' => Some(WordKind::RightParenthesis),
        b'{' => Some(WordKind::LeftBrace),
        b'}' => Some(WordKind::RightBrace),
        b'<' => Some(WordKind::Less),
        b'>' => Some(WordKind::Greater),
        b'-' => Some(WordKind::Minus),
        _ => None,
    }
}

/// The symbol that begins at `at`, where no gap, no word byte and no quote stands. Where `->` can
/// be read, it is read.
pub fn symbol(src: &[u8], at: usize) -> Result<Word, LexFault>
    requires within { at < length src.now }
    requires no_gap { BeginsNoGap (drop at src.now) }
    requires no_word_byte { IsFalse (is_word_byte (slice_index src.now at)) }
    requires no_quote { slice_index src.now at ≢ 34 }
    ensures ok { IfOk result (λ word. (word.span.from ≡ at) × StandsAt src.now word) }
    ensures fault_is_true { IfErr result (IsFaultAt src.now at) }
{
    if src[at..].starts_with(b"->") {
        let kind = WordKind::Arrow;
        let span = Span {
            from: at,
            to: at + 2,
        };
        return Ok(Word { kind, span });
    }
    let span = Span {
        from: at,
        to: at + 1,
    };
    match symbol_of(src[at]) {
        Some(kind) => Ok(Word { kind, span }),
        None => Err(LexFault::BadByte { span }),
    }
}
