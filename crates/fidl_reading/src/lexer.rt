//! From a text to its words.
ghost use Rattle.std.specs.Prelude.{◌≡◌, ◌≢◌, ℕ, ◌<◌, ◌≤◌, List, ◌++◌, length, drop, slice_index};
ghost use Rattle.std.specs.Prelude.{slice_range, IsTrue, IfSome, IfNone, IfOk};
ghost use Rattle.std.specs.List.{list_all};
ghost use Rattle.fidl_spelling.specs.Words.{is_word_byte, BeginsNoRun, IsWord};
ghost use Rattle.fidl_reading.specs.Cuts.{BeginsNoWord, IsCut};

use crate::classes::{is_blank, is_symbol, is_word_byte};
use crate::quoted::quoted_end;
use crate::word::{Cut, Word};
use std::alloc::{AllocError, Global};

/// For so many words there is room at first, unless the text has fewer bytes.
const FIRST_WORDS: usize = 256;

/// The end of the longest run of word bytes that begins at `from`.
fn run_end(text: &[u8], from: usize) -> usize
    requires { from ≤ length text.now }
    ensures ordered { from ≤ result }
    ensures within { result ≤ length text.now }
    ensures run { IsTrue (list_all is_word_byte (slice_range text.now from result)) }
    ensures stops { BeginsNoRun (drop result text.now) }
{
    let mut to = from;
    while to < text.len() && is_word_byte(text[to]) {
        to += 1;
    }
    to
}

/// The end of the word at `at`, where one stands there that is no text between quotes.
fn plain_word_end(text: &[u8], at: usize) -> Option<usize>
    requires { at < length text.now }
    ensures found { IfSome result (λ to. (at < to) × (to ≤ length text.now)
        × IsWord (slice_range text.now at to) (drop to text.now)) }
    ensures none { IfNone result (slice_index text.now at ≢ 34 → BeginsNoWord (drop at text.now)) }
{
    if is_symbol(text[at]) {
        return Some(at + 1);
    }
    let from = if text[at] == b'-' { at + 1 } else { at };
    let to = run_end(text, from);
    if to == from {
        return None;
    }
    Some(to)
}

/// The end of the word at `at`, where one stands there.
fn word_end(text: &[u8], at: usize) -> Option<usize>
    requires { at < length text.now }
    ensures found { IfSome result (λ to. (at < to) × (to ≤ length text.now)
        × IsWord (slice_range text.now at to) (drop to text.now)) }
    ensures none { IfNone result (BeginsNoWord (drop at text.now)) }
{
    if text[at] == b'"' {
        quoted_end(text, at)
    } else {
        plain_word_end(text, at)
    }
}

/// Cuts a text into its words. `AllocError`: memory ran out.
pub(crate) fn cut_words(alloc: Global, text: &[u8]) -> Result<Cut<'_>, AllocError>
    ensures { IfOk result (λ cut. IsCut text.now cut) }
{
    let mut words = Vec::with_capacity(alloc, text.len().min(FIRST_WORDS))?;
    let mut at = 0;
    while at < text.len() {
        if is_blank(text[at]) {
            at += 1;
        } else {
            let Some(to) = word_end(text, at) else {
                break;
            };
            words.push(Word {
                at,
                text: &text[at..to],
            })?;
            at = to;
        }
    }
    Ok(Cut { words, end: at })
}
