//! Words that are read one by one.
ghost use Rattle.std.specs.Prelude.{◌≡◌, ◌∷◌, [], ◌<◌, ◌≤◌, ◌↔◌, IfOk, OnErr, IfSome, IfNone};
ghost use Rattle.std.specs.Prelude.{IsTrue, length};
ghost use Rattle.fidl_spelling.specs.Words.{Words};
ghost use Rattle.fidl_spelling.specs.Spells.{CommaIf};
ghost use Rattle.fidl_reading.specs.Cuts.{texts_of};
ghost use Rattle.fidl_reading.specs.Reads.{StandsNot};

use crate::fault::NotationFault;
use crate::indexed_table::IndexedTable;
use crate::word::Word;
use std::alloc::Global;

/// What each function of a reader needs.
#[derive(Drop)]
pub(crate) struct Reader<'r, 't> {
    pub(crate) alloc: Global,
    pub(crate) table: &'r IndexedTable<'r, 't>,
    /// The offset after the last word.
    pub(crate) end: usize,
}

/// The offset of the first word, or where the words end.
pub(crate) fn place(words: &[Word<'_>], end: usize) -> usize {
    match words {
        [word, ..] => word.at,
        [] => end,
    }
}

/// The first word, and the words that follow it.
#[inline(always)]
fn split<'w, 'x>(words: &'w [Word<'x>]) -> Option<(Word<'x>, &'w [Word<'x>])>
    ensures some { IfSome result (λ r. texts_of words.now ≡ r.0.text.now ∷ texts_of r.1.now) }
    ensures fewer { IfSome result (λ r. length r.1.now < length words.now) }
    ensures none { IfNone result (texts_of words.now ≡ []) }
{
    match words {
        [word, rest @ ..] => Some((*word, rest)),
        [] => None,
    }
}

/// Whether bytes are those of a text, which are few and mostly constant.
#[inline(always)]
fn are_same(bytes: &[u8], text: &[u8]) -> bool
    ensures { IsTrue result ↔ (bytes.now ≡ text.now) }
{
    if bytes.len() != text.len() {
        return false;
    }
    for i in 0..text.len() {
        if bytes[i] != text[i] {
            return false;
        }
    }
    true
}

/// Whether this word comes first.
#[inline(always)]
pub(crate) fn begins(words: &[Word<'_>], text: &[u8]) -> bool
    ensures { IsTrue result ↔ ((rest : Words) × (texts_of words.now ≡ text.now ∷ rest)) }
{
    match split(words) {
        Some((word, _)) => are_same(word.text, text),
        None => false,
    }
}

impl<'r, 't> Reader<'r, 't> {
    /// That the first word does not fit.
    pub(crate) fn syntax(&self, words: &[Word<'_>]) -> NotationFault {
        NotationFault::Syntax {
            at: place(words, self.end),
        }
    }

    /// The first word, and the words that follow it.
    #[inline(always)]
    pub(crate) fn first<'w, 'x>(
        &self,
        words: &'w [Word<'x>],
    ) -> Result<(Word<'x>, &'w [Word<'x>]), NotationFault>
        ensures ok { IfOk result (λ r. texts_of words.now ≡ r.0.text.now ∷ texts_of r.1.now) }
        ensures fewer { IfOk result (λ r. length r.1.now < length words.now) }
        ensures fault_is_true { OnErr result (texts_of words.now ≡ []) }
    {
        match split(words) {
            Some(found) => Ok(found),
            None => Err(self.syntax(words)),
        }
    }

    /// The words that follow this one, where it comes first.
    #[inline(always)]
    pub(crate) fn take<'w, 'x>(
        &self,
        words: &'w [Word<'x>],
        text: &[u8],
    ) -> Result<&'w [Word<'x>], NotationFault>
        ensures ok { IfOk result (λ rest. texts_of words.now ≡ text.now ∷ texts_of rest.now) }
        ensures fewer { IfOk result (λ rest. length rest.now < length words.now) }
        ensures fault_is_true { OnErr result (StandsNot (λ ws rest. ws ≡ text.now ∷ rest)
            (texts_of words.now)) }
    {
        match split(words) {
            Some((word, rest)) if are_same(word.text, text) => Ok(rest),
            _ => Err(self.syntax(words)),
        }
    }

    /// The words that follow a comma, where an item comes before; else all.
    #[inline(always)]
    pub(crate) fn separate<'w, 'x>(
        &self,
        words: &'w [Word<'x>],
        later: bool,
    ) -> Result<&'w [Word<'x>], NotationFault>
        ensures ok { IfOk result (λ rest. CommaIf later (texts_of words.now) (texts_of rest.now)) }
        ensures fewer { IfOk result (λ rest. length rest.now ≤ length words.now) }
        ensures fault_is_true { OnErr result (StandsNot (CommaIf later) (texts_of words.now)) }
    {
        if !later {
            return Ok(words);
        }
        self.take(words, b",")
    }
}
