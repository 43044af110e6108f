// The values of string literals.
ghost use Rattle.std.specs.Prelude.{◌≡◌, ◌≢◌, ◌++◌, ◌==◌, ◌+◌, ◌<◌, ◌≤◌, length, drop, slice_index};
ghost use Rattle.std.specs.Prelude.{IfOk, SomeIff};
ghost use Rattle.std.specs.Char.{IsScalar};
ghost use Rattle.std.specs.List.{position_or_len};
ghost use Rattle.fidl_span.specs.Strings.{hex_value};
ghost use Rattle.fidl_consts.specs.Literals.{character_bytes, letter_value, unescaped};
ghost use Rattle.fidl_consts.specs.Literals.{after_backslash, string_of};

use crate::numbers::digits_value;
use std::alloc::{AllocError, Global};

/// The character of the code point that hexadecimal digits write, if it is one.
fn character(digits: &[u8]) -> Option<char>
    ensures { SomeIff result (IsScalar (hex_value digits.now)) (hex_value digits.now) }
{
    let value = digits_value(digits, 16)?;
    char::from_u32(u32::try_from(value).ok()?)
}

/// Appends the character of a code point, if it is one.
fn push_character(bytes: &mut Vec<u8>, digits: &[u8]) -> Result<(), AllocError>
    ensures { IfOk result (λ _. bytes.new.items ≡ bytes.old.items ++ character_bytes
        (hex_value digits.now)) }
{
    if let Some(character) = character(digits) {
        let mut room = [0; 4];
        bytes.extend_from_slice(character.encode_utf8(&mut room).as_bytes())?;
    }
    Ok(())
}

/// How many bytes come before the first `}`, or before the end where there is none.
fn brace_place(text: &[u8]) -> usize
    ensures within { result ≤ length text.now }
    ensures place { result ≡ position_or_len (λ b. b == 125) text.now }
{
    let mut place = 0;
    while place < text.len() && text[place] != b'}' {
        place += 1;
    }
    place
}

/// The byte that a backslash and this letter write.
fn letter_value(letter: u8) -> u8
    ensures { result ≡ letter_value letter }
{
    match letter {
        b'n' => b'\n',
        b'r' => b'\r',
        b't' => b'\t',
        _ => letter,
    }
}

/// Appends what an escape writes whose backslash is before `at`, and gives the place after it.
fn push_escape(bytes: &mut Vec<u8>, text: &[u8], at: usize) -> Result<usize, AllocError>
    requires { at ≤ length text.now }
    ensures onward { IfOk result (λ to. at ≤ to) }
    ensures value { IfOk result (λ to. bytes.new.items ++ unescaped (drop to text.now)
        ≡ bytes.old.items ++ after_backslash (drop at text.now)) }
{
    if at == text.len() {
        return Ok(at);
    }
    let after = &text[at + 1..];
    if text[at] == b'u' {
        let brace = brace_place(after);
        push_character(bytes, &after[brace.min(1)..brace])?;
        Ok((at + brace + 2).min(text.len()))
    } else {
        bytes.push(letter_value(text[at]))?;
        Ok(at + 1)
    }
}

/// Appends what the byte or the escape at `at` writes, and gives the place after it.
fn push_piece(bytes: &mut Vec<u8>, text: &[u8], at: usize) -> Result<usize, AllocError>
    requires within { at < length text.now }
    requires no_quote { slice_index text.now at ≢ 34 }
    ensures onward { IfOk result (λ to. at < to) }
    ensures value { IfOk result (λ to. bytes.new.items ++ unescaped (drop to text.now)
        ≡ bytes.old.items ++ unescaped (drop at text.now)) }
{
    if text[at] == b'\\' {
        push_escape(bytes, text, at + 1)
    } else {
        bytes.push(text[at])?;
        Ok(at + 1)
    }
}

/// The bytes that a string word writes. `AllocError`: memory ran out.
pub fn string_bytes(alloc: Global, text: &[u8]) -> Result<Vec<u8>, AllocError>
    ensures { IfOk result (λ bytes. bytes.items ≡ string_of text.now) }
{
    let mut bytes = Vec::new(alloc);
    let mut at = 1;
    while at < text.len() && text[at] != b'"' {
        at = push_piece(&mut bytes, text, at)?;
    }
    Ok(bytes)
}
