//! The line of a place, and what its bytes look like.
ghost use Rattle.std.specs.Prelude.{◌≡◌, ◌++◌, length, take, drop, map, replicate, OnOk};
ghost use Rattle.fidl_hints.specs.Snippets.{shown, in_front, behind, front_text, back_text};

use crate::last::{before_first, behind_last};
use std::alloc::AllocError;

/// How many bytes of a line are shown in front of the place, and how many from it on.
const FRONT: usize = 60;

const BACK: usize = 40;

/// What a byte looks like.
fn shown(byte: u8) -> u8
    ensures { result ≡ shown byte }
{
    match byte {
        b'\t' | b'\r' => b' ',
        32..=126 => byte,
        _ => b'?',
    }
}

/// Appends what bytes look like.
fn push_shown(bytes: &[u8], text: &mut Vec<u8>) -> Result<(), AllocError>
    ensures { OnOk result (text.new.items ≡ text.old.items ++ map shown bytes.now) }
{
    for byte in bytes {
        text.push(shown(*byte))?;
    }
    Ok(())
}

/// Appends this many blanks.
pub(crate) fn push_blanks(count: usize, text: &mut Vec<u8>) -> Result<(), AllocError>
    ensures { OnOk result (text.new.items ≡ text.old.items ++ replicate count 32) }
{
    for _ in 0..count {
        text.push(b' ')?;
    }
    Ok(())
}

/// The bytes of the line of a place in front of it. A place past the end counts as the end.
pub(crate) fn in_front(src: &[u8], at: usize) -> &[u8]
    ensures { result.now ≡ in_front src.now at }
{
    behind_last(b'\n', &src[..at.min(src.len())])
}

/// The bytes of the line of a place from it on, without the line feed.
pub(crate) fn behind(src: &[u8], at: usize) -> &[u8]
    ensures { result.now ≡ behind src.now at }
{
    before_first(b'\n', &src[at.min(src.len())..])
}

/// Appends what the bytes in front of a place look like, of a long line the last ones.
pub(crate) fn push_front(bytes: &[u8], text: &mut Vec<u8>) -> Result<(), AllocError>
    ensures { OnOk result (text.new.items ≡ text.old.items ++ front_text bytes.now) }
{
    if bytes.len() <= FRONT {
        return push_shown(bytes, text);
    }
    text.extend_from_slice(b"...")?;
    push_shown(&bytes[bytes.len() - FRONT..], text)
}

/// Appends what the bytes from a place on look like, of a long line the first ones.
pub(crate) fn push_back(bytes: &[u8], text: &mut Vec<u8>) -> Result<(), AllocError>
    ensures { OnOk result (text.new.items ≡ text.old.items ++ back_text bytes.now) }
{
    if bytes.len() <= BACK {
        return push_shown(bytes, text);
    }
    push_shown(&bytes[..BACK], text)?;
    text.extend_from_slice(b"...")
}
