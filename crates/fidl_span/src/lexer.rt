// From a source to its words.
ghost use Rattle.std.specs.Prelude.{◌≡◌, ◌<◌, length, drop, IfOk, IfErr};
ghost use Rattle.fidl_span.specs.Faults.{IsFaultAt, Refutes, HasNoWords};
ghost use Rattle.fidl_span.specs.Gaps.{BeginsNoGap};
ghost use Rattle.fidl_span.specs.Words.{StandsAt, AreWordsBetween, Words};

use crate::classes::is_word_byte;
use crate::faults::LexFault;
use crate::gaps::gap_end;
use crate::literals::string_literal;
use crate::names::name_or_number;
use crate::symbols::symbol;
use crate::words::{Span, Tokens, Word};
use simdutf8::compat::from_utf8;
use std::alloc::Global;

/// The word that begins at `at`, where no gap does.
fn word_at(src: &[u8], at: usize) -> Result<Word, LexFault>
    requires within { at < length src.now }
    requires no_gap { BeginsNoGap (drop at src.now) }
    ensures ok { IfOk result (λ word. (word.span.from ≡ at) × StandsAt src.now word) }
    ensures fault_is_true { IfErr result (IsFaultAt src.now at) }
{
    let byte = src[at];
    if is_word_byte(byte) {
        name_or_number(src, at)
    } else if byte == b'"' {
        string_literal(src, at)
    } else {
        symbol(src, at)
    }
}

/// The words of a source, which need not be UTF-8 here.
fn read_words(alloc: Global, src: &[u8]) -> Result<Tokens, LexFault>
    ensures ok { IfOk result (λ tokens. AreWordsBetween src.now 0 tokens.words.items
        (length src.now)) }
    ensures fault_is_true { IfErr result (Refutes src.now) }
{
    let mut words = Vec::new(alloc);
    let mut at = gap_end(src, 0);
    while at < src.len() {
        let word = word_at(src, at)?;
        words.push(word)?;
        at = gap_end(src, word.span.to);
    }
    Ok(Tokens { words })
}

/// Cuts a source into its words. What stands between them are blanks and comments.
///
/// `Ok` holds the words of the source, and a source has no others. A refusal other than `Memory` is
/// true of the source at its span, and the source then has no words. Which fault is reported, where
/// there are several, is tested, not proved: a source that isn't UTF-8 is refused with `NotUtf8`.
/// `Memory` says nothing of the source.
pub fn lex(alloc: Global, src: &[u8]) -> Result<Tokens, LexFault>
    ensures ok { IfOk result (λ tokens. Words src.now tokens.words.items) }
    ensures fault_is_true { IfErr result (Refutes src.now) }
    ensures none { IfErr result (HasNoWords src.now) }
{
    if let Err(error) = from_utf8(src) {
        let from = error.valid_up_to();
        let span = Span { from, to: from + 1 };
        return Err(LexFault::NotUtf8 { span });
    }
    read_words(alloc, src)
}
