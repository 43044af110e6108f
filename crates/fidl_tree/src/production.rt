ghost use Rattle.std.specs.Prelude.{◌≡◌, List, ◌++◌, ◌∷◌, [], OnOk, map};
ghost use Rattle.fidl_tree.specs.Leaf.{Leaf, words, optional, joined, symbol};

use fidl_span::{Span, Word, WordKind};
use std::alloc::AllocError;

/// A part of the tree that is read from words of the source.
pub(crate) trait Production {
    /// Its words, each with what the grammar asks of its text.
    ghost leaves: { Self → List Leaf };

    /// Puts its words behind `out`.
    fn push_words(&self, out: &mut Vec<Word>) -> Result<(), AllocError>
        ensures { OnOk result (out.new.items ≡ out.old.items ++ words (leaves self.now)) };
}

/// Puts one word behind `out`.
pub(crate) fn push_word(out: &mut Vec<Word>, kind: WordKind, span: Span) -> Result<(), AllocError>
    ensures { OnOk result (out.new.items ≡ out.old.items ++ words (symbol kind span)) }
{
    out.push(Word { kind, span })?;
    Ok(())
}

/// Puts the words of parts behind `out`, in order.
pub(crate) fn push_all<T: Production>(out: &mut Vec<Word>, parts: &[T]) -> Result<(), AllocError>
    ensures { OnOk result (out.new.items ≡ out.old.items
        ++ words (joined (map T.leaves parts.now))) }
{
    for part in parts {
        part.push_words(out)?;
    }
    Ok(())
}

/// Puts the words of a part that may be left out behind `out`.
pub(crate) fn push_optional<T: Production>(
    out: &mut Vec<Word>,
    part: &Option<T>,
) -> Result<(), AllocError>
    ensures { OnOk result (out.new.items ≡ out.old.items ++ words (optional T.leaves part.now)) }
{
    match part {
        Some(part) => part.push_words(out),
        None => Ok(()),
    }
}
