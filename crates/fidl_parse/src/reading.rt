// From words to the tree.
ghost use Rattle.std.specs.Prelude.{◌≡◌, ◌≢◌, ◌<◌, length, take, IfOk, IfErr};
ghost use Rattle.fidl_tree.specs.Brackets.{IsWithinLimit};
ghost use Rattle.fidl_tree.specs.File.{yield_of, IsProper};
ghost use Rattle.fidl_parse.specs.Faults.{IsTrueOf};
ghost use Rattle.fidl_parse.specs.Nesting.{IsTooDeepAt};
ghost use Rattle.fidl_parse.specs.Trees.{HasTree};
ghost use Rattle.fidl_parse.specs.declared.fault.ParseFault.TheVariants.{Memory};

use crate::fault::{ParseFault, Stop};
use crate::nesting::nesting_end;
use crate::parser::Parser;
use fidl_span::{Span, Tokens, Word};
use fidl_tree::File;
use std::alloc::Global;

/// Reads the words of a source as a syntax tree, which keeps the span of each of them.
///
/// The words may be any: those that `lex` returns of the source are its own. `Unexpected` and
/// `TooNested` are returned only where the words have no tree. The span of `Unexpected` is a
/// word's, or the end of the source: which word is reported is tested, not proved. The span of
/// `TooNested` is the first bracket with which more brackets are open than the limit. `Memory` says
/// nothing of the words.
pub fn parse<'s>(alloc: Global, tokens: &Tokens, src: &'s [u8]) -> Result<File<'s>, ParseFault>
    ensures source { IfOk result (λ tree. tree.src.now ≡ src.now) }
    ensures proper { IfOk result (λ tree. IsProper tree) }
    ensures words { IfOk result (λ tree. yield_of tree ≡ tokens.now.words.items) }
    ensures limit { IfOk result (λ _. IsWithinLimit tokens.now.words.items) }
    ensures no_tree { IfErr result (λ fault. fault ≢ Memory
        → ¬ HasTree tokens.now.words.items src.now) }
    ensures refusal { IfErr result (λ fault. IsTrueOf tokens.now.words.items src.now fault) }
{
    let words = tokens.as_slice();
    let end = nesting_end(words);
    let parser = Parser {
        alloc,
        words: &words[..end],
        src,
    };
    let mut at = 0;
    match parser.file(&mut at) {
        Ok(file) if end == words.len() => Ok(file),
        Ok(_) => Err(fault_at(words, end, at, src)),
        Err(Stop::Unexpected) => Err(fault_at(words, end, at, src)),
        Err(Stop::Memory) => Err(ParseFault::Memory),
    }
}

/// The fault at the word number `at`, where the bracket number `end` is one too many.
fn fault_at(words: &[Word], end: usize, at: usize, src: &[u8]) -> ParseFault
    requires within { IsWithinLimit (take end words.now) }
    requires deep { end < length words.now → IsTooDeepAt words.now end }
    ensures { IsTrueOf words.now src.now result }
{
    match words.get(at.min(end)) {
        Some(word) if at < end => ParseFault::Unexpected { span: word.span },
        Some(bracket) => ParseFault::TooNested { span: bracket.span },
        None => ParseFault::Unexpected {
            span: Span {
                from: src.len(),
                to: src.len(),
            },
        },
    }
}
