//! The words that are tried.
ghost use Rattle.std.specs.Prelude.{◌≡◌};
ghost use Rattle.fidl_expected.specs.Expected.{word_of, shown_word};

/// A word that may have been expected.
#[derive(Clone, Copy, PartialEq, Eq, Debug, Drop)]
pub enum Wanted {
    Semicolon,
    OpenBrace,
    CloseBrace,
    OpenParenthesis,
    CloseParenthesis,
    CloseAngle,
    Equals,
    Comma,
    Colon,
    /// An identifier.
    Name,
}

impl Wanted {
    /// The word, of a name an example.
    pub fn word(self) -> &'static [u8]
        ensures { result.now ≡ word_of self }
    {
        match self {
            Wanted::Semicolon => b";",
            Wanted::OpenBrace => b"{",
            Wanted::CloseBrace => b"}",
            Wanted::OpenParenthesis => b"(",
            Wanted::CloseParenthesis => b")",
            Wanted::CloseAngle => b">",
            Wanted::Equals => b"=",
            Wanted::Comma => b",",
            Wanted::Colon => b":",
            Wanted::Name => b"x",
        }
    }

    /// What a user is shown of it.
    pub fn shown(self) -> &'static str
        ensures { result.now ≡ shown_word self }
    {
        match self {
            Wanted::Semicolon => "';'",
            Wanted::OpenBrace => "'{'",
            Wanted::CloseBrace => "'}'",
            Wanted::OpenParenthesis => "'('",
            Wanted::CloseParenthesis => "')'",
            Wanted::CloseAngle => "'>'",
            Wanted::Equals => "'='",
            Wanted::Comma => "','",
            Wanted::Colon => "':'",
            Wanted::Name => "a name",
        }
    }
}
