// Spans of a source, and the words that stand at them.
ghost use Rattle.std.specs.Prelude.{◌≡◌, ◌==◌, vec_len};
ghost use Rattle.std.specs.Slice.Iter.{iter_rest};

use std::slice::Iter;

/// A part of a source, from one byte up to another: `from` is its first byte, and `to` the byte
/// behind its last. Both count bytes from 0, and `from` is at most `to`.
#[derive(Clone, Copy, Debug, PartialEq, Eq)]
pub struct Span {
    pub from: usize,
    pub to: usize,
}

/// What a word is: an identifier, a number, a string literal, or one of the symbols.
#[derive(Clone, Copy, Debug, PartialEq, Eq)]
pub enum WordKind {
    Identifier,
    Number,
    String,
    Semicolon,
    Colon,
    Comma,
    Dot,
    Equals,
    Bar,
    At,
    LeftParenthesis,
    RightParenthesis,
    LeftBrace,
    RightBrace,
    Less,
    Greater,
    Minus,
    Arrow,
}

/// A word of a source. Its text is what stands at its span: an identifier or a number is its own
/// text, and a string literal's text has its quotes and its escapes as they are written.
#[derive(Clone, Copy, Debug, PartialEq, Eq)]
pub struct Word {
    pub kind: WordKind,
    pub span: Span,
}

/// The words of a source, from its start to its end.
#[derive(Debug, Drop)]
pub struct Tokens {
    pub words: Vec<Word>,
}

impl Tokens {
    /// How many words there are.
    pub fn len(&self) -> usize
        ensures { result ≡ vec_len self.now.words }
    {
        self.words.len()
    }

    /// Whether the source has no word.
    pub fn is_empty(&self) -> bool
        ensures { result ≡ (vec_len self.now.words == 0) }
    {
        self.words.is_empty()
    }

    /// The words in their order.
    pub fn as_slice(&self) -> &[Word]
        ensures { result.now ≡ self.now.words.items }
    {
        self.words.as_slice()
    }

    /// The words, one after another.
    pub fn iter(&self) -> Iter<'_, Word>
        ensures { iter_rest result ≡ self.now.words.items }
    {
        self.words.iter()
    }
}
