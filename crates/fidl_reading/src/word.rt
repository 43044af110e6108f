//! The words of a text.

/// A word of a text.
#[derive(Clone, Copy, Debug, Drop)]
pub struct Word<'t> {
    /// Where its first byte is, from the text's start.
    pub at: usize,
    /// Its bytes.
    pub text: &'t [u8],
}

/// The words at the front of a text, and where no further word could be cut.
#[derive(Debug, Drop)]
pub struct Cut<'t> {
    /// The words, in order.
    pub words: Vec<Word<'t>>,
    /// The text's length, or the place of the first byte that begins no word.
    pub end: usize,
}
