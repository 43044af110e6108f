//! The numbers that words write.
ghost use Rattle.std.specs.Prelude.{◌≡◌, ◌≤◌, ◌<◌, ◌^◌, ◌↔◌, ℤ, IfOk, OnErr, IsTrue, SomeIff, length};
ghost use Rattle.std.specs.Char.{is_ascii_digit};
ghost use Rattle.std.specs.List.{list_all};
ghost use Rattle.std.specs.Str.Parse.{IsNumeral, digits_value};
ghost use Rattle.fidl_table_format.specs.Terms.{as_number};
ghost use Rattle.fidl_wire.specs.Typed.{InRange};
ghost use Rattle.fidl_spelling.specs.Spells.{IsNumberOf};
ghost use Rattle.fidl_reading.specs.Signs.{IsSplit, signed};

use crate::fault::NotationFault;
use crate::word::Word;
use fidl_table_format::EntryKind;
use std::str::from_utf8;

/// Whether bytes are decimal digits.
fn are_digits(word: &[u8]) -> bool
    ensures { result ≡ list_all is_ascii_digit word.now }
{
    word.iter().all(|byte| byte.is_ascii_digit())
}

/// Whether a word is one decimal digit or more.
fn is_numeral(word: &[u8]) -> bool
    ensures { IsTrue result ↔ IsNumeral 10 word.now }
{
    !word.is_empty() && are_digits(word)
}

/// Whether the first byte is a dash, and the bytes that follow it.
fn split_sign(word: &[u8]) -> (bool, &[u8])
    ensures { IsSplit word.now result.0 result.1.now }
{
    if !word.is_empty() && word[0] == b'-' {
        (true, &word[1..])
    } else {
        (false, word)
    }
}

/// Each number of so many digits has 64 bits.
const FEW_DIGITS: usize = 19;

/// The number that at most 19 digits write.
fn short_value(digits: &[u8]) -> u64
    requires numeral { IsNumeral 10 digits.now }
    requires short { length digits.now ≤ 19 }
    ensures { result ≡ digits_value 10 digits.now }
{
    let mut value = 0;
    for digit in digits {
        value = value * 10 + u64::from(*digit - b'0');
    }
    value
}

/// The number that digits write, if it has 64 bits.
fn numeral_value(digits: &[u8]) -> Option<u64>
    requires { IsNumeral 10 digits.now }
    ensures { SomeIff result (digits_value 10 digits.now < 2 ^ 64) (digits_value 10 digits.now) }
{
    if digits.len() <= FEW_DIGITS {
        return Some(short_value(digits));
    }
    match from_utf8(digits) {
        Ok(text) => text.parse::<u64>().ok(),
        Err(_) => None,
    }
}

/// A number by its sign and its magnitude.
fn with_sign(negative: bool, magnitude: u64) -> i128
    ensures { result ≡ signed negative magnitude }
{
    if negative {
        -i128::from(magnitude)
    } else {
        i128::from(magnitude)
    }
}

/// Whether a number is one of a kind of numbers.
fn is_in_range(kind: EntryKind, number: i128) -> bool
    ensures { IsTrue result ↔ InRange (as_number kind) number }
{
    match kind {
        EntryKind::Int8 => i8::try_from(number).is_ok(),
        EntryKind::Int16 => i16::try_from(number).is_ok(),
        EntryKind::Int32 => i32::try_from(number).is_ok(),
        EntryKind::Int64 => i64::try_from(number).is_ok(),
        EntryKind::Uint16 => u16::try_from(number).is_ok(),
        EntryKind::Uint32 => u32::try_from(number).is_ok(),
        EntryKind::Uint64 => u64::try_from(number).is_ok(),
        _ => u8::try_from(number).is_ok(),
    }
}

/// The number of a kind that a word writes (docs/notation.md, "What a text spells"). A kind that is
/// no kind of numbers is read as `uint8`. `Syntax` where the word writes no number, and `OutOfRange`
/// where it writes one that the kind has not.
pub fn number_of(word: &Word<'_>, kind: EntryKind) -> Result<i128, NotationFault>
    ensures ok { IfOk result (λ z. IsNumberOf (as_number kind) z word.now.text.now) }
    ensures none { OnErr result ((z : ℤ) → ¬ (IsNumberOf (as_number kind) z word.now.text.now)) }
{
    let at = word.at;
    let (negative, digits) = split_sign(word.text);
    if !is_numeral(digits) {
        return Err(NotationFault::Syntax { at });
    }
    let Some(magnitude) = numeral_value(digits) else {
        return Err(NotationFault::OutOfRange { at });
    };
    let number = with_sign(negative, magnitude);
    if !is_in_range(kind, number) {
        return Err(NotationFault::OutOfRange { at });
    }
    Ok(number)
}
