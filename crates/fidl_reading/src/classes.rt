//! The classes of a text's bytes.
ghost use Rattle.std.specs.Prelude.{◌≡◌};
ghost use Rattle.fidl_spelling.specs.Words.{is_blank, is_word_byte, is_symbol};

/// Whether a byte is a blank.
pub(crate) fn is_blank(byte: u8) -> bool
    ensures { result ≡ is_blank byte }
{
    byte == b' ' || byte == b'\t' || byte == b'\n' || byte == b'\r'
}

/// Whether a byte is one of names and numbers.
pub(crate) fn is_word_byte(byte: u8) -> bool
    ensures { result ≡ is_word_byte byte }
{
    byte.is_ascii_alphanumeric() || byte == b'_'
}

/// Whether a byte is a word of its own.
pub(crate) fn is_symbol(byte: u8) -> bool
    ensures { result ≡ is_symbol byte }
{
    matches!(byte, b'(' | b'[' | b'{' | b')' | b']' | b'}' | b':' | b',')
}
