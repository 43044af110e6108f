//! What comes before a member of a table or union.
ghost use Rattle.std.specs.Prelude.{◌≡◌, ◌≢◌, ◌<◌, ◌≤◌, ◌+◌, ℕ, IfOk, OnErr, IfSome, IfNone, IsTrue};
ghost use Rattle.std.specs.Prelude.{length};
ghost use Rattle.fidl_wire.specs.Figure.{Declarations};
ghost use Rattle.fidl_wire.specs.Value.{Member};
ghost use Rattle.fidl_table_format.specs.Section.{header_of, entry_at, row_at};
ghost use Rattle.fidl_table_format.specs.Entry.{kind_is};
ghost use Rattle.fidl_table_format.specs.Terms.{members_of};
ghost use Rattle.fidl_table_format.specs.Uses.{uses_ordinals};
ghost use Rattle.fidl_spelling.specs.Spells.{AMember};
ghost use Rattle.fidl_reading.specs.Cuts.{texts_of};
ghost use Rattle.fidl_reading.specs.Keys.{is_name, name_of_row, HasNoRow, AKey};
ghost use Rattle.fidl_reading.specs.Reads.{StandsNot};

use crate::classes::is_word_byte;
use crate::fault::NotationFault;
use crate::reader::Reader;
use crate::word::Word;

/// A member's ordinal, and the entry of its type where it is named.
#[derive(Clone, Copy, Drop)]
pub(crate) struct Key {
    pub(crate) ordinal: u64,
    pub(crate) entry: Option<u32>,
}

/// Whether a word begins as names do, and numbers do not.
#[inline(always)]
pub(crate) fn is_name(word: &[u8]) -> bool
    ensures { result ≡ is_name word.now }
{
    !word.is_empty() && is_word_byte(word[0]) && !word[0].is_ascii_digit()
}

impl<'r, 't> Reader<'r, 't> {
    /// The name or the ordinal of a member of a table or union, and the colon that follows it.
    pub(crate) fn read_key<'w, 'x>(
        &self,
        index: u32,
        words: &'w [Word<'x>],
    ) -> Result<(Key, &'w [Word<'x>]), NotationFault>
        requires entry { index < (header_of self.now.table.now).entries }
        requires kind { IsTrue (kind_is uses_ordinals (entry_at self.now.table.now index)) }
        ensures ok { IfOk result (λ r. AKey (members_of self.now.table.now index) r.0
            (texts_of words.now) (texts_of r.1.now)) }
        ensures below { IfOk result (λ r. IfSome r.0.entry
            (λ entry. entry < (header_of self.now.table.now).entries)) }
        ensures fewer { IfOk result (λ r. length r.1.now < length words.now) }
        ensures fault_is_true { OnErr result ((ds : Declarations) (ordinal : ℕ) (m : Member)
            → StandsNot (AMember ds (members_of self.now.table.now index) ordinal m)
            (texts_of words.now)) }
    {
        // Read, so that the table is known to be well formed.
        let _entries = self.table.entries();
        let (word, behind) = self.first(words)?;
        if is_name(word.text) {
            let Some(row) = self.table.member_named(index, word.text) else {
                return Err(NotationFault::UnknownName { at: word.at });
            };
            let rest = self.take(behind, b":")?;
            let key = Key {
                ordinal: u64::from(row.key),
                entry: Some(row.entry),
            };
            return Ok((key, rest));
        }
        let (ordinal, behind) = self.read_natural(words)?;
        let rest = self.take(behind, b":")?;
        let entry = None;
        Ok((Key { ordinal, entry }, rest))
    }
}
