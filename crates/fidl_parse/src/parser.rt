// The parser: the words of a source, and the reading of one word.
ghost use Rattle.std.specs.Prelude.{◌≡◌, ℕ, ◌+◌, ◌<◌, ◌↔◌, length, IfOk, OnOk, IsTrue};
ghost use Rattle.fidl_span.specs.declared.words.WordKind.TheVariants as kind;
ghost use Rattle.fidl_tree.specs.Leaf.{symbol, name, keyword, text_at};
ghost use Rattle.fidl_parse.specs.Reading.{Reads, IsKindAt, IsTextAt};
ghost use Rattle.fidl_parse.specs.Completeness.{Finds};
ghost use Rattle.fidl_parse.specs.FollowSets.{Anything};

use crate::fault::Stop;
use fidl_span::{Span, Word, WordKind};
use std::alloc::Global;

/// The words of a source, from which the parts of its tree are read. Each method reads a part from
/// the word number `at` on, and leaves `at` behind the part, or at the word that doesn't fit.
#[derive(Clone, Copy)]
pub(crate) struct Parser<'w, 's> {
    pub(crate) alloc: Global,
    pub(crate) words: &'w [Word],
    pub(crate) src: &'s [u8],
}

impl<'w, 's> Parser<'w, 's> {
    /// The bytes of the source that lie in the span: none where it begins at the end of the source
    /// or later, or where it ends before it begins.
    pub(crate) fn text(&self, span: Span) -> &'s [u8]
        ensures bytes { result.now ≡ text_at self.now.src.now span }
    {
        let to = span.to.min(self.src.len());
        let from = span.from.min(to);
        &self.src[from..to]
    }

    /// Whether the next word is of this kind.
    pub(crate) fn is_next(&self, at: usize, kind: WordKind) -> bool
        ensures next { IsTrue result ↔ IsKindAt self.now at kind }
        ensures within { IsTrue result → at < length self.now.words.now }
    {
        match self.words.get(at) {
            Some(word) => word.kind == kind,
            None => false,
        }
    }

    /// Whether the word behind the next one is of this kind.
    pub(crate) fn is_second(&self, at: usize, kind: WordKind) -> bool
        ensures { IsTrue result ↔ IsKindAt self.now (at + 1) kind }
    {
        at < self.words.len() && self.is_next(at + 1, kind)
    }

    /// A symbol, a number or a string.
    pub(crate) fn symbol(&self, at: &mut usize, kind: WordKind) -> Result<Span, Stop>
        ensures reads { IfOk result (λ span. Reads self.now at.old at.new (symbol kind span)) }
        ensures complete { Finds self.now at.old at.new (symbol kind) Anything result }
        ensures within { OnOk result (at.old < length self.now.words.now) }
    {
        match self.words.get(*at) {
            Some(word) if word.kind == kind => {
                *at += 1;
                Ok(word.span)
            }
            _ => Err(Stop::Unexpected),
        }
    }

    /// An identifier with any text.
    pub(crate) fn name(&self, at: &mut usize) -> Result<Span, Stop>
        ensures reads { IfOk result (λ span. Reads self.now at.old at.new (name span)) }
        ensures complete { Finds self.now at.old at.new name Anything result }
        ensures within { OnOk result (at.old < length self.now.words.now) }
    {
        self.symbol(at, WordKind::Identifier)
    }

    /// Whether a word is an identifier with this text.
    fn is_keyword(&self, word: Word, text: &[u8]) -> bool
        ensures { IsTrue result ↔ (word.kind ≡ kind.Identifier)
            × (text_at self.now.src.now word.span ≡ text.now) }
    {
        word.kind == WordKind::Identifier && self.text(word.span) == text
    }

    /// Whether the next word is an identifier with this text.
    pub(crate) fn is_next_word(&self, at: usize, text: &[u8]) -> bool
        ensures next { IsTrue result ↔ IsTextAt self.now at text.now }
        ensures within { IsTrue result → at < length self.now.words.now }
    {
        match self.words.get(at) {
            Some(word) => self.is_keyword(*word, text),
            None => false,
        }
    }

    /// An identifier with this text.
    pub(crate) fn keyword(&self, at: &mut usize, text: &[u8]) -> Result<Span, Stop>
        ensures reads { IfOk result (λ span. Reads self.now at.old at.new (keyword text.now span)) }
        ensures complete { Finds self.now at.old at.new (keyword text.now) Anything result }
        ensures within { OnOk result (at.old < length self.now.words.now) }
    {
        match self.words.get(*at) {
            Some(word) if self.is_keyword(*word, text) => {
                *at += 1;
                Ok(word.span)
            }
            _ => Err(Stop::Unexpected),
        }
    }
}
