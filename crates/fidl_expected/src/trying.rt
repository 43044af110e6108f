//! A source with one word more at a place, and how far the parser reads it.
ghost use Rattle.std.specs.Prelude.{◌≡◌, ◌≤◌, length, IfOk, IfSome, IsTrue};
ghost use Rattle.fidl_expected.specs.Expected.{inserted, word_of, GoesOn};

use crate::wanted::Wanted;
use fidl_parse::{ParseFault, parse};
use fidl_span::lex;
use std::alloc::{AllocError, Global};

/// The words that are tried, in their order.
const TRIED: [Wanted; 10] = [
    Wanted::Semicolon,
    Wanted::OpenBrace,
    Wanted::CloseBrace,
    Wanted::OpenParenthesis,
    Wanted::CloseParenthesis,
    Wanted::CloseAngle,
    Wanted::Equals,
    Wanted::Comma,
    Wanted::Colon,
    Wanted::Name,
];

/// A source with a word at a place, between blanks.
fn inserted(alloc: Global, src: &[u8], at: usize, word: &[u8]) -> Result<Vec<u8>, AllocError>
    requires { at ≤ length src.now }
    ensures { IfOk result (λ text. text.items ≡ inserted src.now at word.now) }
{
    let mut text = Vec::from_slice(alloc, &src[..at])?;
    text.push(b' ')?;
    text.extend_from_slice(word)?;
    text.push(b' ')?;
    text.extend_from_slice(&src[at..])?;
    Ok(text)
}

/// Whether a source in which a word stands at a place has a tree, or is refused behind the word.
fn goes_on(alloc: Global, src: &[u8], at: usize, word: &[u8]) -> Result<bool, AllocError>
    requires { at ≤ length src.now }
    ensures { IfOk result (λ yes. IsTrue yes → GoesOn src.now at word.now) }
{
    let text = inserted(alloc, src, at, word)?;
    let Ok(tokens) = lex(alloc, &text) else {
        return Ok(false);
    };
    match parse(alloc, &tokens, &text) {
        Ok(_) => Ok(true),
        Err(ParseFault::Unexpected { span }) => Ok(span.from > text.len() - (src.len() - at)),
        Err(_) => Ok(false),
    }
}

/// The first of a few words with which a source has a tree, or is refused at a later place, where it
/// stands at this place. The source is read once for each word that is tried, at most ten times.
/// None where no word does so.
pub fn expected(alloc: Global, src: &[u8], at: usize) -> Result<Option<Wanted>, AllocError>
    requires { at ≤ length src.now }
    ensures { IfOk result (λ found. IfSome found (λ w. GoesOn src.now at (word_of w))) }
{
    for wanted in TRIED {
        if goes_on(alloc, src, at, wanted.word())? {
            return Ok(Some(wanted));
        }
    }
    Ok(None)
}
