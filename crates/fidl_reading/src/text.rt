//! The bytes that a text between quotes stands for.
ghost use Rattle.std.specs.Prelude.{◌≡◌, ◌++◌, ℕ, List, IfOk, IfSome, IfNone};
ghost use Rattle.fidl_spelling.specs.Words.{IsQuoted};
ghost use Rattle.fidl_reading.specs.Pieces.{bytes_of};

use crate::code::Code;
use crate::escapes::piece_at;
use fidl_wire::Bytes;
use std::alloc::{AllocError, Global};

/// Appends what a piece stands for.
fn push_code(bytes: &mut Vec<u8>, code: Code) -> Result<(), AllocError>
    ensures { IfOk result (λ _. bytes.new.items ≡ bytes.old.items ++ bytes_of code) }
{
    match code {
        Code::Byte(byte) => bytes.push(byte)?,
        Code::Character(character) => {
            let mut room = [0; 4];
            bytes.extend_from_slice(character.encode_utf8(&mut room).as_bytes())?;
        }
    }
    Ok(())
}

/// The bytes that a word stands for, where it is a text between quotes (docs/notation.md, "What a
/// text spells"). `None` where it is none. `AllocError`: memory ran out.
pub fn text_of(alloc: Global, word: &[u8]) -> Result<Option<Bytes>, AllocError>
    ensures some { IfOk result (λ found. IfSome found (λ bytes. IsQuoted word.now bytes)) }
    ensures none { IfOk result (λ found. IfNone found ((bytes : List ℕ)
        → ¬ (IsQuoted word.now bytes))) }
{
    if word.is_empty() || word[0] != b'"' {
        return Ok(None);
    }
    let mut bytes = Vec::with_capacity(alloc, word.len())?;
    let mut at = 1;
    while at < word.len() && word[at] != b'"' {
        let Some(part) = piece_at(word, at) else {
            return Ok(None);
        };
        push_code(&mut bytes, part.code)?;
        at = part.to;
    }
    if at + 1 != word.len() {
        return Ok(None);
    }
    Ok(Some(Bytes::from_vec(bytes)))
}
