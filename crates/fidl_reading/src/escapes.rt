//! The pieces of a text between quotes: bytes that stand for themselves, and escapes.
ghost use Rattle.std.specs.Prelude.{◌≡◌, ◌≢◌, ℕ, ◌<◌, ◌≤◌, ◌++◌, ◌∷◌, [], List, length, drop};
ghost use Rattle.std.specs.Prelude.{slice_index, slice_range, IsTrue, IfSome, IfNone, Some};
ghost use Rattle.std.specs.Char.{is_ascii_hexdigit, digit_value, encode_utf8};
ghost use Rattle.std.specs.List.{list_all};
ghost use Rattle.std.specs.Str.Parse.{digits_value};
ghost use Rattle.fidl_spelling.specs.Words.{escaped, IsCharacter, Piece, BeginsNo};
ghost use Rattle.fidl_reading.specs.Pieces.{bytes_of, BeginsNoPiece};

use crate::code::Code;

/// A piece that was read.
#[derive(Clone, Copy, Debug, Drop)]
pub(crate) struct Part {
    /// The offset after its last byte.
    pub(crate) to: usize,
    /// What it stands for.
    pub(crate) code: Code,
}

/// The byte that a letter behind a backslash stands for.
fn letter_value(letter: u8) -> Option<u8>
    ensures { result ≡ escaped letter }
{
    match letter {
        b'\\' => Some(b'\\'),
        b'"' => Some(b'"'),
        b'n' => Some(b'\n'),
        b'r' => Some(b'\r'),
        b't' => Some(b'\t'),
        _ => None,
    }
}

/// The value of a hexadecimal digit.
pub(crate) fn hex_digit_value(digit: u8) -> u8
    requires { IsTrue (is_ascii_hexdigit digit) }
    ensures value { result ≡ digit_value digit }
    ensures small { result < 16 }
{
    match digit {
        b'0'..=b'9' => digit - b'0',
        b'a'..=b'f' => digit - b'a' + 10,
        _ => digit - b'A' + 10,
    }
}

/// The number that at most six hexadecimal digits write.
fn hex_value(digits: &[u8]) -> u32
    requires hexadecimal { IsTrue (list_all is_ascii_hexdigit digits.now) }
    requires short { length digits.now ≤ 6 }
    ensures { result ≡ digits_value 16 digits.now }
{
    let mut value = 0;
    for digit in digits {
        value = value * 16 + u32::from(hex_digit_value(*digit));
    }
    value
}

/// The character that hexadecimal digits write, where they are one to six and write one.
fn character(digits: &[u8]) -> Option<char>
    requires { IsTrue (list_all is_ascii_hexdigit digits.now) }
    ensures some { IfSome result (λ c. IsCharacter digits.now × (c ≡ digits_value 16 digits.now)) }
    ensures none { IfNone result (¬ (IsCharacter digits.now)) }
{
    if digits.is_empty() || digits.len() > 6 {
        return None;
    }
    char::from_u32(hex_value(digits))
}

/// The end of the longest run of hexadecimal digits that begins at `from`.
fn hex_end(text: &[u8], from: usize) -> usize
    requires { from ≤ length text.now }
    ensures ordered { from ≤ result }
    ensures within { result ≤ length text.now }
    ensures run { IsTrue (list_all is_ascii_hexdigit (slice_range text.now from result)) }
    ensures stops { BeginsNo is_ascii_hexdigit (drop result text.now) }
{
    let mut to = from;
    while to < text.len() && text[to].is_ascii_hexdigit() {
        to += 1;
    }
    to
}

/// The character whose digits stand at `from`, with the brace behind them.
fn character_at(text: &[u8], from: usize) -> Option<Part>
    requires { from ≤ length text.now }
    ensures found { IfSome result (λ p. (from < p.to) × (p.to ≤ length text.now)
        × ((digits : List ℕ) × IsCharacter digits
        × (slice_range text.now from p.to ≡ digits ++ 125 ∷ [])
        × (bytes_of p.code ≡ encode_utf8 (digits_value 16 digits)))) }
    ensures none { IfNone result ((digits rest : List ℕ) → IsCharacter digits
        → drop from text.now ≢ digits ++ 125 ∷ rest) }
{
    let to = hex_end(text, from);
    if to == text.len() || text[to] != b'}' {
        return None;
    }
    match character(&text[from..to]) {
        Some(character) => Some(Part {
            to: to + 1,
            code: Code::Character(character),
        }),
        None => None,
    }
}

/// The escape of a letter that stands at `at`, where a backslash stands.
fn letter_at(text: &[u8], at: usize) -> Option<Part>
    requires within { at < length text.now }
    requires backslash { slice_index text.now at ≡ 92 }
    ensures found { IfSome result (λ p. (at < p.to) × (p.to ≤ length text.now)
        × Piece (slice_range text.now at p.to) (bytes_of p.code)) }
    ensures none { IfNone result ((c b : ℕ) (rest : List ℕ) → escaped c ≡ Some b
        → drop at text.now ≢ 92 ∷ c ∷ rest) }
{
    if at + 1 == text.len() {
        return None;
    }
    match letter_value(text[at + 1]) {
        Some(byte) => Some(Part {
            to: at + 2,
            code: Code::Byte(byte),
        }),
        None => None,
    }
}

/// The escape at `at`, where a backslash stands.
fn escape_at(text: &[u8], at: usize) -> Option<Part>
    requires within { at < length text.now }
    requires backslash { slice_index text.now at ≡ 92 }
    ensures found { IfSome result (λ p. (at < p.to) × (p.to ≤ length text.now)
        × Piece (slice_range text.now at p.to) (bytes_of p.code)) }
    ensures none { IfNone result (BeginsNoPiece (drop at text.now)) }
{
    if text[at..].starts_with(b"\\u{") {
        return character_at(text, at + 3);
    }
    letter_at(text, at)
}

/// The piece at `at`. `None` at a quote, at the end of a line, and at a backslash that begins no
/// escape.
#[inline(always)]
pub(crate) fn piece_at(text: &[u8], at: usize) -> Option<Part>
    requires within { at < length text.now }
    ensures found { IfSome result (λ p. (at < p.to) × (p.to ≤ length text.now)
        × Piece (slice_range text.now at p.to) (bytes_of p.code)) }
    ensures none { IfNone result (BeginsNoPiece (drop at text.now)) }
{
    let byte = text[at];
    if byte == b'\\' {
        return escape_at(text, at);
    }
    if byte == b'"' || byte == b'\n' || byte == b'\r' {
        return None;
    }
    Some(Part {
        to: at + 1,
        code: Code::Byte(byte),
    })
}
