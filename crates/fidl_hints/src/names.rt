//! The name that is nearest to a word.
ghost use Rattle.std.specs.Prelude.{◌≡◌, map, IfOk, IfSome, IfNone, false};
ghost use Rattle.std.specs.List.{list_any};
ghost use Rattle.fidl_hints.specs.Nearest.{is_slash, compared, is_near, nearer, IsClose};
ghost use Rattle.fidl_hints.specs.Nearest.{IsNearest, HasNoNear};

use crate::last::behind_last;
use std::alloc::{AllocError, Global};
use strsim::generic_levenshtein;

/// How many bytes a word and a name may have to be compared.
const MOST: usize = 64;

/// A name, and how far a word is from it.
#[derive(Clone, Copy, Drop)]
struct Close<'n> {
    name: &'n [u8],
    distance: usize,
}

/// Whether a byte is a `/`.
fn is_slash(byte: u8) -> bool
    ensures { result ≡ is_slash byte }
{
    byte == b'/'
}

/// Whether a word has a `/`.
fn has_slash(word: &[u8]) -> bool
    ensures { result ≡ list_any is_slash word.now }
{
    word.iter().any(|byte| is_slash(*byte))
}

/// What of a name a word is compared with.
fn compared<'n>(word: &[u8], name: &'n [u8]) -> &'n [u8]
    ensures { result.now ≡ compared word.now name.now }
{
    if has_slash(word) {
        name
    } else {
        behind_last(b'/', name)
    }
}

/// How far a word is from a name that is near to it; None where it is not near.
fn near<'n>(alloc: Global, word: &[u8], name: &'n [u8]) -> Result<Option<Close<'n>>, AllocError>
    ensures some { IfOk result (λ close. IfSome close (IsClose word.now name.now)) }
    ensures none { IfOk result (λ close. IfNone close (is_near word.now name.now ≡ false)) }
{
    let part = compared(word, name);
    if word.len() > MOST || part.len() > MOST {
        return Ok(None);
    }
    let distance = generic_levenshtein(alloc, word, part)?;
    if distance > word.len().max(3) / 3 {
        return Ok(None);
    }
    Ok(Some(Close { name, distance }))
}

/// The nearer of what was found and one more; what was found where both are as near.
fn nearer<'n>(best: Option<Close<'n>>, more: Option<Close<'n>>) -> Option<Close<'n>>
    ensures { result ≡ nearer best.entry more.entry }
{
    match (best, more) {
        (Some(found), Some(close)) if close.distance < found.distance => Some(close),
        (Some(found), _) => Some(found),
        (None, more) => more,
    }
}

/// The name that is nearest to a word: of those that are near, the first with the least distance.
/// None where no name is near. At most 64 bytes of each are compared, so the cost grows with the
/// number of names alone.
pub fn nearest<'n>(
    alloc: Global,
    word: &[u8],
    names: &[&'n [u8]],
) -> Result<Option<&'n [u8]>, AllocError>
    ensures some { IfOk result (λ found. IfSome found
        (λ name. IsNearest word.now (map (λ n. n.now) names.now) name.now)) }
    ensures none { IfOk result (λ found. IfNone found
        (HasNoNear word.now (map (λ n. n.now) names.now))) }
{
    let mut best = None;
    for name in names {
        best = nearer(best, near(alloc, word, *name)?);
    }
    match best {
        Some(close) => Ok(Some(close.name)),
        None => Ok(None),
    }
}
