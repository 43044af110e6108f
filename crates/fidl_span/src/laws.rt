// A law of the definitions: the contract of a function that does nothing.
ghost use Rattle.fidl_span.specs.Words.{WordsAreUnique};

/// A source is cut into words in at most one way.
pub fn words_are_unique()
    ensures { WordsAreUnique }
{}
