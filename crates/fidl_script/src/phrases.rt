//! The words of a line.
ghost use Rattle.std.specs.Prelude.{ℕ, List, Option, IfSome, IfNone};
ghost use Rattle.fidl_script.specs.Phrases.{IsProtocolLine, IsReplyLine};
ghost use Rattle.fidl_script.specs.Held.{text_view};

use crate::lines::place_of;

/// The words of a reply line.
#[derive(Clone, Copy, Debug, Drop)]
pub(crate) struct ReplyWords<'x> {
    /// The name of the method.
    pub(crate) method: &'x [u8],
    /// The text after the blank that follows the name, if there is one.
    pub(crate) text: Option<&'x [u8]>,
}

/// The name in a protocol line.
pub(crate) fn protocol_name(line: &[u8]) -> Option<&[u8]>
    ensures found { IfSome result (λ name. IsProtocolLine line.now name.now) }
    ensures none { IfNone result ((name : List ℕ) → ¬ (IsProtocolLine line.now name)) }
{
    let name = line.strip_prefix(b"protocol ")?;
    if name.is_empty() {
        return None;
    }
    let end = place_of(b' ', name);
    if end < name.len() {
        return None;
    }
    Some(name)
}

/// The words of a reply line.
pub(crate) fn reply_words(line: &[u8]) -> Option<ReplyWords<'_>>
    ensures found { IfSome result (λ words. IsReplyLine line.now words.method.now
        (text_view words)) }
    ensures none { IfNone result ((method : List ℕ) (text : Option (List ℕ))
        → ¬ (IsReplyLine line.now method text)) }
{
    let words = line.strip_prefix(b"reply ")?;
    let end = place_of(b' ', words);
    if end == 0 {
        return None;
    }
    let method = &words[..end];
    if end == words.len() {
        let text = None;
        return Some(ReplyWords { method, text });
    }
    let text = Some(&words[end + 1..]);
    Some(ReplyWords { method, text })
}
