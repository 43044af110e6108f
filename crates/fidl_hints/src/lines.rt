//! The two lines that show a place of a source.
ghost use Rattle.std.specs.Prelude.{◌≡◌, IfOk};
ghost use Rattle.fidl_hints.specs.Snippets.{snippet_text};

use crate::parts::{behind, in_front, push_back, push_blanks, push_front};
use std::alloc::{AllocError, Global};

/// The line of a place of a source behind four blanks, and below it a caret under the place, with a
/// note. Of a long line the bytes about the place are shown. `at` counts bytes from the source's
/// start; a place past the end counts as the end.
pub fn snippet(alloc: Global, src: &[u8], at: usize, note: &str) -> Result<Vec<u8>, AllocError>
    ensures { IfOk result (λ text. text.items ≡ snippet_text src.now at note.now) }
{
    let mut text = Vec::from_slice(alloc, b"    ")?;
    push_front(in_front(src, at), &mut text)?;
    let column = text.len() - 4;
    push_back(behind(src, at), &mut text)?;
    text.extend_from_slice(b"\n    ")?;
    push_blanks(column, &mut text)?;
    text.extend_from_slice(b"^ ")?;
    text.extend_from_slice(note.as_bytes())?;
    text.push(b'\n')?;
    Ok(text)
}
