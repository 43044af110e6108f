//! The lines of a text that say something.
ghost use Rattle.std.specs.Prelude.{◌≡◌, ◌<◌, ◌≤◌, ◌↔◌, IsTrue, IfOk, length, slice_index, take};
ghost use Rattle.fidl_script.specs.Phrases.{HasNo};
ghost use Rattle.fidl_script.specs.Lines.{is_skipped, said_lines};
ghost use Rattle.fidl_script.specs.Held.{lines_view};

use std::alloc::{AllocError, Global};

/// A line of a text that says something.
#[derive(Clone, Copy, Debug, Drop)]
pub(crate) struct SaidLine<'x> {
    /// Which line of the text it is, from 1.
    pub(crate) number: u64,
    /// Its bytes, without the line feed.
    pub(crate) bytes: &'x [u8],
}

/// The place of the first byte that is this one, or how many bytes there are.
pub(crate) fn place_of(byte: u8, bytes: &[u8]) -> usize
    ensures within { result ≤ length bytes.now }
    ensures before { HasNo byte (take result bytes.now) }
    ensures found { result < length bytes.now → slice_index bytes.now result ≡ byte }
{
    let mut place = 0;
    while place < bytes.len() && bytes[place] != byte {
        place += 1;
    }
    place
}

/// Whether a line is empty or begins with `#`.
fn is_skipped(line: &[u8]) -> bool
    ensures { result ≡ is_skipped line.now }
{
    line.is_empty() || line[0] == b'#'
}

/// The lines of a text that are not skipped.
pub(crate) fn said_lines(alloc: Global, text: &[u8]) -> Result<Vec<SaidLine<'_>>, AllocError>
    ensures { IfOk result (λ lines. lines_view lines.items ≡ said_lines text.now) }
{
    let mut lines = Vec::new(alloc);
    let mut number = 1;
    let mut start = 0;
    while start < text.len() {
        let rest = &text[start..];
        let end = place_of(b'\n', rest);
        let bytes = &rest[..end];
        if !is_skipped(bytes) {
            lines.push(SaidLine { number, bytes })?;
        }
        number += 1;
        start += end + 1;
    }
    Ok(lines)
}
