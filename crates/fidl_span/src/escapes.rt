// The escapes of a string literal.
ghost use Rattle.std.specs.Prelude.{◌≡◌, ◌≢◌, ℕ, ◌<◌, ◌≤◌, ◌↔◌, ◌++◌, ◌∷◌, [], List, length, drop};
ghost use Rattle.std.specs.Prelude.{slice_index, slice_range, IsTrue, IfSome, IfNone};
ghost use Rattle.std.specs.Char.{is_ascii_hexdigit, digit_value};
ghost use Rattle.std.specs.List.{list_all};
ghost use Rattle.fidl_span.specs.Bytes.{IsRun};
ghost use Rattle.fidl_span.specs.Strings.{IsPiece, BeginsNoPiece, IsCodePoint, is_escape_letter};
ghost use Rattle.fidl_span.specs.Strings.{hex_value};

/// Whether this byte and a backslash before it are an escape.
#[tactic(auto, unfolding(crate::specs::Strings::is_escape_letter))]
fn is_escape_letter(letter: u8) -> bool
    ensures { result ≡ is_escape_letter letter }
{
    matches!(letter, b'\\' | b'"' | b'n' | b'r' | b't')
}

/// The value of a hexadecimal digit.
fn digit_value(digit: u8) -> u32
    requires { IsTrue (is_ascii_hexdigit digit) }
    ensures value { result ≡ digit_value digit }
    ensures small { result < 16 }
{
    match digit {
        b'0'..=b'9' => u32::from(digit - b'0'),
        b'a'..=b'f' => u32::from(digit - b'a') + 10,
        _ => u32::from(digit - b'A') + 10,
    }
}

/// The number that at most six hexadecimal digits write.
fn hex_value(digits: &[u8]) -> u32
    requires hexadecimal { IsTrue (list_all is_ascii_hexdigit digits.now) }
    requires short { length digits.now ≤ 6 }
    ensures { result ≡ hex_value digits.now }
{
    let mut value = 0;
    for digit in digits {
        value = value * 16 + digit_value(*digit);
    }
    value
}

/// Whether hexadecimal digits are one to six, and write a Unicode scalar value.
fn is_code_point(digits: &[u8]) -> bool
    requires { IsTrue (list_all is_ascii_hexdigit digits.now) }
    ensures { IsTrue result ↔ IsCodePoint digits.now }
{
    if digits.is_empty() || digits.len() > 6 {
        return false;
    }
    let value = hex_value(digits);
    value < 0xD800 || (0xE000 <= value && value < 0x11_0000)
}

/// The end of the longest run of hexadecimal digits that begins at `from`.
fn hex_end(src: &[u8], from: usize) -> usize
    requires { from ≤ length src.now }
    ensures ordered { from ≤ result }
    ensures within { result ≤ length src.now }
    ensures run { IsRun is_ascii_hexdigit (slice_range src.now from result) (drop result src.now) }
{
    let mut to = from;
    while to < src.len() && src[to].is_ascii_hexdigit() {
        to += 1;
    }
    to
}

/// The end of the code point and the brace behind it, if they stand at `from`.
fn code_point_end(src: &[u8], from: usize) -> Option<usize>
    requires { from ≤ length src.now }
    ensures found { IfSome result (λ to. (from < to) × (to ≤ length src.now)
        × ((text : List ℕ) × IsCodePoint text × (slice_range src.now from to ≡ text ++ 125 ∷ []))) }
    ensures none { IfNone result ((text rest : List ℕ) → IsCodePoint text → drop from src.now ≢ text
        ++ 125 ∷ rest) }
{
    let to = hex_end(src, from);
    if to < src.len() && src[to] == b'}' && is_code_point(&src[from..to]) {
        Some(to + 1)
    } else {
        None
    }
}

/// The end of the escape that begins at `at`, where a backslash stands, if there is one.
pub fn escape_end(src: &[u8], at: usize) -> Option<usize>
    requires within { at < length src.now }
    requires backslash { slice_index src.now at ≡ 92 }
    ensures found { IfSome result (λ to. (at < to) × (to ≤ length src.now)
        × IsPiece (slice_range src.now at to)) }
    ensures none { IfNone result (BeginsNoPiece (drop at src.now)) }
{
    if at + 1 < src.len() && is_escape_letter(src[at + 1]) {
        return Some(at + 2);
    }
    if src[at..].starts_with(b"\\u{") {
        return code_point_end(src, at + 3);
    }
    None
}
