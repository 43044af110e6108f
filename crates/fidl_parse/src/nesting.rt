// The limit of open brackets.
ghost use Rattle.std.specs.Prelude.{◌≡◌, ◌+◌, ◌<◌, ◌≤◌, length, take};
ghost use Rattle.fidl_span.specs.declared.words.Word.{Word};
ghost use Rattle.fidl_tree.specs.Brackets.{IsWithinLimit, opens, closes};
ghost use Rattle.fidl_parse.specs.Nesting.{IsTooDeepAt};

use fidl_limits::MAX_SOURCE_BRACKETS;
use fidl_span::{Word, WordKind};

/// How many words there are before the first bracket with which more are open than the limit; all,
/// where there is no such bracket.
pub(crate) fn nesting_end(words: &[Word]) -> usize
    ensures bound { result ≤ length words.now }
    ensures within { IsWithinLimit (take result words.now) }
    ensures deep { result < length words.now → IsTooDeepAt words.now result }
{
    let mut opened: usize = 0;
    let mut closed: usize = 0;
    for (index, word) in words.iter().enumerate() {
        if is_opening(word.kind) {
            if opened.saturating_sub(closed) >= MAX_SOURCE_BRACKETS {
                return index;
            }
            opened += 1;
        }
        if is_closing(word.kind) {
            closed += 1;
        }
    }
    words.len()
}

fn is_opening(kind: WordKind) -> bool
    ensures { result ≡ opens kind }
{
    matches!(
        kind,
        WordKind::LeftParenthesis | WordKind::LeftBrace | WordKind::Less
    )
}

fn is_closing(kind: WordKind) -> bool
    ensures { result ≡ closes kind }
{
    matches!(
        kind,
        WordKind::RightParenthesis | WordKind::RightBrace | WordKind::Greater
    )
}
