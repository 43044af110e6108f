//! The texts that `@selector` may give.
ghost use Rattle.std.specs.Prelude.{◌≡◌, ◌↔◌, ◌∷◌, [], ℕ, List, IsTrue, IfSome, IsNone};
ghost use Rattle.std.specs.List.{list_all};
ghost use Rattle.fidl_span.specs.Bytes.{is_word_byte};
ghost use Rattle.fidl_span.specs.Names.{is_identifier};
ghost use Rattle.fidl_method_rules.specs.Texts.{IsIdentifier, AreDotted, AreTwoNames, IsFullName, parts};

/// Whether an identifier may have this byte.
#[tactic(auto, unfolding(fidl_span::specs::Bytes::is_word_byte))]
fn is_word_byte(byte: u8) -> bool
    ensures { result ≡ is_word_byte byte }
{
    byte.is_ascii_alphanumeric() || byte == b'_'
}

fn are_word_bytes(text: &[u8]) -> bool
    ensures { result ≡ list_all is_word_byte text.now }
{
    text.iter().all(|byte| is_word_byte(*byte))
}

/// Whether the first byte is a letter and the last no `_`.
#[tactic(auto, unfolding(fidl_span::specs::Names::is_identifier))]
fn ends_as_identifier(text: &[u8]) -> bool
    ensures { result ≡ is_identifier text.now }
{
    !text.is_empty() && text[0].is_ascii_alphabetic() && text[text.len() - 1] != b'_'
}

/// Whether a text is an identifier and nothing else.
pub(crate) fn is_identifier(text: &[u8]) -> bool
    ensures { IsTrue result ↔ IsIdentifier text.now }
{
    are_word_bytes(text) && ends_as_identifier(text)
}

/// What stands before the first such byte, and what stands behind it.
fn cut(text: &[u8], byte: u8) -> Option<(&[u8], &[u8])>
    ensures found { IfSome result (λ halves. parts byte text.now
        ≡ halves.0.now ∷ parts byte halves.1.now) }
    ensures none { IsNone result → parts byte text.now ≡ text.now ∷ [] }
{
    for (at, other) in text.iter().enumerate() {
        if *other == byte {
            return Some((&text[..at], &text[at + 1..]));
        }
    }
    None
}

/// The parts of a text before and behind such a byte, where it stands there just once.
fn halves(text: &[u8], byte: u8) -> Option<(&[u8], &[u8])>
    ensures found { IfSome result (λ halves. parts byte text.now
        ≡ halves.0.now ∷ halves.1.now ∷ []) }
    ensures none { IsNone result → (first second : List ℕ)
        → parts byte text.now ≡ first ∷ second ∷ [] → ⊥ }
{
    let (first, rest) = cut(text, byte)?;
    match cut(rest, byte) {
        Some(_) => None,
        None => Some((first, rest)),
    }
}

/// Whether a text is identifiers, one or more, with dots between.
fn are_dotted(text: &[u8]) -> bool
    ensures { IsTrue result ↔ AreDotted text.now }
{
    let mut left = text;
    while let Some((first, rest)) = cut(left, b'.') {
        if !is_identifier(first) {
            return false;
        }
        left = rest;
    }
    is_identifier(left)
}

/// Whether a text is two identifiers with a dot between.
fn are_two_names(text: &[u8]) -> bool
    ensures { IsTrue result ↔ AreTwoNames text.now }
{
    match halves(text, b'.') {
        None => false,
        Some((protocol, method)) => is_identifier(protocol) && is_identifier(method),
    }
}

/// Whether a text is the full name of a method.
pub(crate) fn is_full_name(text: &[u8]) -> bool
    ensures { IsTrue result ↔ IsFullName text.now }
{
    match halves(text, b'/') {
        None => false,
        Some((library, names)) => are_dotted(library) && are_two_names(names),
    }
}
