// String literals.
ghost use Rattle.std.specs.Prelude.{◌≡◌, ◌≢◌, ℕ, ◌<◌, ◌≤◌, length, drop, slice_index, slice_range};
ghost use Rattle.std.specs.Prelude.{IfSome, IfNone, IfOk, IfErr};
ghost use Rattle.fidl_span.specs.Strings.{IsPiece, BeginsNoPiece};
ghost use Rattle.fidl_span.specs.Words.{StandsAt};
ghost use Rattle.fidl_span.specs.Faults.{IsFaultAt};

use crate::escapes::escape_end;
use crate::faults::LexFault;
use crate::words::{Span, Word, WordKind};

/// The end of the character or the escape at `at`. `None` at a backslash that begins no escape.
fn piece_end(src: &[u8], at: usize) -> Option<usize>
    requires within { at < length src.now }
    requires no_quote { slice_index src.now at ≢ 34 }
    requires no_line_feed { slice_index src.now at ≢ 10 }
    ensures found { IfSome result (λ to. (at < to) × (to ≤ length src.now)
        × IsPiece (slice_range src.now at to)) }
    ensures none { IfNone result ((slice_index src.now at ≡ 92) × BeginsNoPiece (drop at src.now)) }
{
    if src[at] == b'\\' {
        escape_end(src, at)
    } else {
        Some(at + 1)
    }
}

/// The string literal that begins at `quote`, where a quote stands.
pub fn string_literal(src: &[u8], quote: usize) -> Result<Word, LexFault>
    requires within { quote < length src.now }
    requires quote { slice_index src.now quote ≡ 34 }
    ensures ok { IfOk result (λ word. (word.span.from ≡ quote) × StandsAt src.now word) }
    ensures fault_is_true { IfErr result (IsFaultAt src.now quote) }
{
    let mut to = quote + 1;
    while to < src.len() && src[to] != b'\n' {
        if src[to] == b'"' {
            let kind = WordKind::String;
            let span = Span {
                from: quote,
                to: to + 1,
            };
            return Ok(Word { kind, span });
        }
        let Some(end) = piece_end(src, to) else {
            let span = Span {
                from: to,
                to: (to + 2).min(src.len()),
            };
            return Err(LexFault::BadEscape { span });
        };
        to = end;
    }
    Err(LexFault::OpenString {
        span: Span { from: quote, to },
    })
}
