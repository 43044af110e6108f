// Identifiers and numbers: the longest runs of word bytes.
ghost use Rattle.std.specs.Prelude.{◌≡◌, ℕ, ◌<◌, ◌≤◌, length, drop, slice_index, slice_range};
ghost use Rattle.std.specs.Prelude.{IsTrue, List, [], if◌then◌else◌, IfOk, IfErr};
ghost use Rattle.std.specs.Char.{is_ascii_digit, is_ascii_hexdigit};
ghost use Rattle.std.specs.List.{list_all};
ghost use Rattle.fidl_span.specs.Bytes.{is_word_byte, is_binary_digit, IsRun};
ghost use Rattle.fidl_span.specs.Names.{is_identifier, is_number, are_digits, has_prefix};
ghost use Rattle.fidl_span.specs.Words.{StandsAt};
ghost use Rattle.fidl_span.specs.Faults.{IsFaultAt};

use crate::classes::{is_binary_digit, is_word_byte};
use crate::faults::LexFault;
use crate::words::{Span, Word, WordKind};

/// The end of the longest run of word bytes that begins at `from`.
fn word_end(src: &[u8], from: usize) -> usize
    requires { from ≤ length src.now }
    ensures ordered { from ≤ result }
    ensures within { result ≤ length src.now }
    ensures run { IsRun is_word_byte (slice_range src.now from result) (drop result src.now) }
{
    let mut to = from;
    while to < src.len() && is_word_byte(src[to]) {
        to += 1;
    }
    to
}

/// Whether a run of word bytes is an identifier: it begins with a letter, and doesn't end with `_`.
#[tactic(auto, unfolding(crate::specs::Names::is_identifier))]
fn is_identifier(text: &[u8]) -> bool
    requires { 0 < length text.now }
    ensures { result ≡ is_identifier text.now }
{
    text[0].is_ascii_alphabetic() && text[text.len() - 1] != b'_'
}

/// Whether each byte is a digit of base 10.
fn all_decimal(text: &[u8]) -> bool
    ensures { result ≡ list_all is_ascii_digit text.now }
{
    text.iter().all(|byte| byte.is_ascii_digit())
}

/// Whether each byte is a digit of base 16.
fn all_hexadecimal(text: &[u8]) -> bool
    ensures { result ≡ list_all is_ascii_hexdigit text.now }
{
    text.iter().all(|byte| byte.is_ascii_hexdigit())
}

/// Whether each byte is a digit of base 2.
fn all_binary(text: &[u8]) -> bool
    ensures { result ≡ list_all is_binary_digit text.now }
{
    text.iter().all(|byte| is_binary_digit(*byte))
}

/// Whether these are digits of base 10, at least one.
fn is_decimal(text: &[u8]) -> bool
    ensures { result ≡ are_digits is_ascii_digit text.now }
{
    !text.is_empty() && all_decimal(text)
}

/// Whether these are digits of base 16, at least one.
fn is_hexadecimal(text: &[u8]) -> bool
    ensures { result ≡ are_digits is_ascii_hexdigit text.now }
{
    !text.is_empty() && all_hexadecimal(text)
}

/// Whether these are digits of base 2, at least one.
fn is_binary(text: &[u8]) -> bool
    ensures { result ≡ are_digits is_binary_digit text.now }
{
    !text.is_empty() && all_binary(text)
}

/// What stands behind `0` and one of two letters, or nothing where they don't stand.
fn behind_prefix(text: &[u8], lower: u8, upper: u8) -> &[u8]
    ensures { result.now ≡ (if has_prefix lower upper text.now then drop 2 text.now else []) }
{
    if text.len() > 1 && text[0] == b'0' && (text[1] == lower || text[1] == upper) {
        &text[2..]
    } else {
        &[]
    }
}

/// Whether a run of word bytes is a number: decimal, or behind `0x` or `0b` in either case
/// hexadecimal or binary.
#[tactic(auto, unfolding(crate::specs::Names::is_number))]
fn is_number(text: &[u8]) -> bool
    ensures { result ≡ is_number text.now }
{
    is_decimal(text)
        || is_hexadecimal(behind_prefix(text, b'x', b'X'))
        || is_binary(behind_prefix(text, b'b', b'B'))
}

/// The name or the number that begins at `at`, where a word byte stands.
pub fn name_or_number(src: &[u8], at: usize) -> Result<Word, LexFault>
    requires within { at < length src.now }
    requires word_byte { IsTrue (is_word_byte (slice_index src.now at)) }
    ensures ok { IfOk result (λ word. (word.span.from ≡ at) × StandsAt src.now word) }
    ensures fault_is_true { IfErr result (IsFaultAt src.now at) }
{
    let span = Span {
        from: at,
        to: word_end(src, at),
    };
    let text = &src[span.from..span.to];
    if src[at].is_ascii_digit() {
        if is_number(text) {
            let kind = WordKind::Number;
            Ok(Word { kind, span })
        } else {
            Err(LexFault::BadNumber { span })
        }
    } else if is_identifier(text) {
        let kind = WordKind::Identifier;
        Ok(Word { kind, span })
    } else {
        Err(LexFault::BadIdentifier { span })
    }
}
