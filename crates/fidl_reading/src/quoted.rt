//! Texts between quotes.
ghost use Rattle.std.specs.Prelude.{◌≡◌, ◌≢◌, ℕ, ◌<◌, ◌≤◌, ◌++◌, List, length, drop};
ghost use Rattle.std.specs.Prelude.{slice_index, slice_range, IfSome, IfNone};
ghost use Rattle.fidl_spelling.specs.Words.{IsQuoted};

use crate::escapes::piece_at;

/// The end of the text between quotes whose first quote is at `quote`.
pub(crate) fn quoted_end(text: &[u8], quote: usize) -> Option<usize>
    requires within { quote < length text.now }
    requires quote { slice_index text.now quote ≡ 34 }
    ensures found { IfSome result (λ to. (quote < to) × (to ≤ length text.now)
        × ((bytes : List ℕ) × IsQuoted (slice_range text.now quote to) bytes)) }
    ensures none { IfNone result ((w rest bytes : List ℕ) → IsQuoted w bytes
        → drop quote text.now ≢ w ++ rest) }
{
    let mut at = quote + 1;
    while at < text.len() && text[at] != b'"' {
        let Some(part) = piece_at(text, at) else {
            return None;
        };
        at = part.to;
    }
    if at == text.len() {
        return None;
    }
    Some(at + 1)
}
