//! What comes before the members of a table, and the order of their ordinals.
ghost use Rattle.std.specs.Prelude.{◌≡◌, ◌<◌, ◌≤◌, ◌^◌, ◌↔◌, ℕ, IfOk, OnErr, IsTrue, length};
ghost use Rattle.fidl_reading.specs.Cuts.{texts_of};
ghost use Rattle.fidl_reading.specs.Reads.{StandsNot, ACount, least_after};

use crate::fault::NotationFault;
use crate::reader::{Reader, place};
use crate::word::Word;

/// Whether an ordinal is greater than the last one, where there is one.
pub(crate) fn rises(last: Option<u64>, ordinal: u64) -> bool
    ensures { IsTrue result ↔ (least_after last ≤ ordinal) }
{
    match last {
        Some(last) => last < ordinal,
        None => true,
    }
}

impl<'r, 't> Reader<'r, 't> {
    /// That a member stood already, or that its ordinal does not rise.
    pub(crate) fn repeated(&self, words: &[Word<'_>]) -> NotationFault {
        NotationFault::Repeated {
            at: place(words, self.end),
        }
    }

    /// The number of envelopes of a table, up to the brace before its members.
    pub(crate) fn read_count<'w, 'x>(
        &self,
        words: &'w [Word<'x>],
    ) -> Result<(u64, &'w [Word<'x>]), NotationFault>
        ensures ok { IfOk result (λ r. ACount r.0 (texts_of words.now) (texts_of r.1.now)) }
        ensures fewer { IfOk result (λ r. length r.1.now < length words.now) }
        ensures fault_is_true { OnErr result ((n : ℕ)
            → StandsNot (ACount n) (texts_of words.now)) }
    {
        let left = self.take(words, b"table")?;
        let left = self.take(left, b"(")?;
        let (count, left) = self.read_natural(left)?;
        let left = self.take(left, b")")?;
        let left = self.take(left, b"{")?;
        Ok((count, left))
    }
}
