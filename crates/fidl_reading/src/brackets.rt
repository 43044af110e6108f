//! How many brackets are open at once.
ghost use Rattle.std.specs.Prelude.{◌≡◌, IfNone, IfSome, IsSome};
ghost use Rattle.fidl_spelling.specs.Words.{opens, closes, IsWithinLimit};
ghost use Rattle.fidl_reading.specs.Cuts.{texts_of};

use crate::word::Word;
use fidl_limits::MAX_TEXT_BRACKETS;

/// Whether a word opens a bracket.
fn is_opening(word: &[u8]) -> bool
    ensures { result ≡ opens word.now }
{
    matches!(word, [b'(' | b'[' | b'{'])
}

/// Whether a word closes a bracket.
fn is_closing(word: &[u8]) -> bool
    ensures { result ≡ closes word.now }
{
    matches!(word, [b')' | b']' | b'}'])
}

/// The place of the first bracket that is open beyond the limit, if there is one.
pub(crate) fn bracket_beyond(words: &[Word<'_>]) -> Option<usize>
    ensures none { IfNone result (IsWithinLimit (texts_of words.now)) }
    ensures some { IfSome result (λ _. ¬ (IsWithinLimit (texts_of words.now))) }
{
    let mut opened = 0;
    let mut closed = 0;
    for word in words {
        if is_opening(word.text) {
            opened += 1;
        }
        if is_closing(word.text) {
            closed += 1;
        }
        if opened > closed && opened - closed > MAX_TEXT_BRACKETS {
            return Some(word.at);
        }
    }
    None
}
