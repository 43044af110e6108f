// The values of number literals.
ghost use Rattle.std.specs.Prelude.{◌≡◌, ◌^◌, ◌<◌, ◌≤◌, IfSome, IfNone};
ghost use Rattle.std.specs.Char.{digit_value};
ghost use Rattle.std.specs.Str.Parse.{digits_value};
ghost use Rattle.fidl_span.specs.Names.{has_prefix};
ghost use Rattle.fidl_consts.specs.Literals.{number_of};

/// The value of a digit or a letter, and 36 for any other byte.
fn digit_value(byte: u8) -> u64
    ensures { result ≡ digit_value byte }
{
    match byte {
        b'0'..=b'9' => u64::from(byte - b'0'),
        b'A'..=b'Z' => u64::from(byte - b'A') + 10,
        b'a'..=b'z' => u64::from(byte - b'a') + 10,
        _ => 36,
    }
}

/// The number that digits write in a base, where it is below 2^64.
pub fn digits_value(digits: &[u8], base: u64) -> Option<u64>
    requires { 0 < base }
    ensures found { IfSome result (λ n. n ≡ digits_value base digits.now) }
    ensures none { IfNone result (2 ^ 64 ≤ digits_value base digits.now) }
{
    let mut value: u64 = 0;
    for digit in digits {
        value = value.checked_mul(base)?.checked_add(digit_value(*digit))?;
    }
    Some(value)
}

/// Whether a text begins with `0` and one of two letters.
fn has_prefix(text: &[u8], lower: u8, upper: u8) -> bool
    requires lower { 0 < lower }
    requires upper { 0 < upper }
    ensures { result ≡ has_prefix lower upper text.now }
{
    text.len() > 1 && text[0] == b'0' && (text[1] == lower || text[1] == upper)
}

/// The number that a number word writes: decimal, hexadecimal after `0x`, and binary after `0b`.
/// `None`: it is 2^64 or more.
pub fn number_value(text: &[u8]) -> Option<u64>
    ensures found { IfSome result (λ n. n ≡ number_of text.now) }
    ensures none { IfNone result (2 ^ 64 ≤ number_of text.now) }
{
    if has_prefix(text, b'x', b'X') {
        digits_value(&text[2..], 16)
    } else if has_prefix(text, b'b', b'B') {
        digits_value(&text[2..], 2)
    } else {
        digits_value(text, 10)
    }
}
