//! The words of a text that is UTF-8 and keeps to the limit of brackets.
ghost use Rattle.std.specs.Prelude.{IfOk, IfErr, OnOk, IsUtf8};
ghost use Rattle.fidl_spelling.specs.Words.{IsWithinLimit};
ghost use Rattle.fidl_reading.specs.Cuts.{IsCut, HasNoWords, texts_of};

use crate::brackets::bracket_beyond;
use crate::fault::NotationFault;
use crate::lexer::cut_words;
use crate::word::Cut;
use std::alloc::Global;
use std::str::from_utf8;

/// Cuts a text into its words (docs/notation.md, "What a text spells").
///
/// The words end at the text's end, or where no further word begins: then the text has no words.
/// `Syntax` reports the first byte that is not UTF-8, or the first bracket that is open beyond the
/// limit.
pub fn words_of(alloc: Global, text: &[u8]) -> Result<Cut<'_>, NotationFault>
    ensures utf8 { OnOk result (IsUtf8 text.now) }
    ensures cut { IfOk result (λ cut. IsCut text.now cut) }
    ensures within { IfOk result (λ cut. IsWithinLimit (texts_of cut.words.items)) }
    ensures fault_is_true { IfErr result (HasNoWords text.now) }
{
    if let Err(error) = from_utf8(text) {
        let at = error.valid_up_to();
        return Err(NotationFault::Syntax { at });
    }
    let cut = cut_words(alloc, text)?;
    if let Some(at) = bracket_beyond(&cut.words) {
        return Err(NotationFault::Syntax { at });
    }
    Ok(cut)
}
