//! The bytes that hexadecimal digits write.
ghost use Rattle.std.specs.Prelude.{◌≡◌, ℕ, List, IfOk, IfSome, IfNone};
ghost use Rattle.std.specs.Char.{is_ascii_hexdigit};
ghost use Rattle.std.specs.List.{list_all};
ghost use Rattle.fidl_spelling.specs.Spells.{AreHex};

use crate::escapes::hex_digit_value;
use fidl_wire::Bytes;
use std::alloc::{AllocError, Global};

/// Whether bytes are hexadecimal digits.
fn are_hex_digits(word: &[u8]) -> bool
    ensures { result ≡ list_all is_ascii_hexdigit word.now }
{
    word.iter().all(|byte| byte.is_ascii_hexdigit())
}

/// The bytes that a word writes by two hexadecimal digits each, in either case, where it is one byte
/// or more so written (docs/notation.md, "What a text spells"). `None` where it is not.
/// `AllocError`: memory ran out.
pub fn hex_of(alloc: Global, word: &[u8]) -> Result<Option<Bytes>, AllocError>
    ensures some { IfOk result (λ found. IfSome found (λ bytes. AreHex bytes word.now)) }
    ensures none { IfOk result (λ found. IfNone found ((bytes : List ℕ)
        → ¬ (AreHex bytes word.now))) }
{
    if word.is_empty() || !are_hex_digits(word) {
        return Ok(None);
    }
    let mut bytes = Vec::new(alloc);
    let mut at = 0;
    while at + 1 < word.len() {
        bytes.push(hex_digit_value(word[at]) * 16 + hex_digit_value(word[at + 1]))?;
        at += 2;
    }
    if at < word.len() {
        return Ok(None);
    }
    Ok(Some(Bytes::from_vec(bytes)))
}
