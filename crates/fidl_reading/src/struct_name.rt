//! Names of a struct's members.
ghost use Rattle.std.specs.Prelude.{◌≡◌, ◌<◌, ◌≤◌, ◌+◌, IfOk, OnErr, length};
ghost use Rattle.fidl_table_format.specs.declared.kind.EntryKind.TheVariants as EntryKind;
ghost use Rattle.fidl_table_format.specs.Section.{header_of, entry_at, row_at};
ghost use Rattle.fidl_table_format.specs.Entry.{IsOf};
ghost use Rattle.fidl_reading.specs.Cuts.{texts_of};
ghost use Rattle.fidl_reading.specs.Keys.{ANameOf};
ghost use Rattle.fidl_reading.specs.Reads.{StandsNot};

use crate::fault::NotationFault;
use crate::key::is_name;
use crate::reader::Reader;
use crate::word::Word;

impl<'r, 't> Reader<'r, 't> {
    /// Why a word is not the name of the row at which it comes.
    fn misnamed(&self, first: u32, before: u32, word: &Word<'_>) -> NotationFault
        requires { first + before ≤ (header_of self.now.table.now).rows }
    {
        let at = word.at;
        if !is_name(word.text) {
            return NotationFault::Syntax { at };
        }
        match self.table.row_named(first, before, word.text) {
            Some(_) => NotationFault::Repeated { at },
            None => NotationFault::UnknownName { at },
        }
    }

    /// The entry of a struct's member, whose name and a colon come first.
    pub(crate) fn read_name<'w, 'x>(
        &self,
        index: u32,
        k: u32,
        words: &'w [Word<'x>],
    ) -> Result<(u32, &'w [Word<'x>]), NotationFault>
        requires index { index < (header_of self.now.table.now).entries }
        requires of_struct { IsOf EntryKind.Struct (entry_at self.now.table.now index) }
        requires member { k < (entry_at self.now.table.now index).count }
        ensures ok { IfOk result (λ r. ANameOf self.now.table.now
            ((entry_at self.now.table.now index).first + k) (texts_of words.now)
            (texts_of r.1.now)) }
        ensures entry { IfOk result (λ r. r.0 ≡ (row_at self.now.table.now
            (header_of self.now.table.now) ((entry_at self.now.table.now index).first + k)).entry) }
        ensures below { IfOk result (λ r. r.0 < (header_of self.now.table.now).entries) }
        ensures fewer { IfOk result (λ r. length r.1.now < length words.now) }
        ensures fault_is_true { OnErr result (StandsNot (ANameOf self.now.table.now
            ((entry_at self.now.table.now index).first + k)) (texts_of words.now)) }
    {
        let entry = self.table.entry(index);
        // Read, so that a row's index is known to be a number of 32 bits.
        let _rows = self.table.rows();
        let row = self.table.row(entry.first + k);
        let (word, behind) = self.first(words)?;
        if self.table.row_name(&row) == word.text {
            let rest = self.take(behind, b":")?;
            return Ok((row.entry, rest));
        }
        Err(self.misnamed(entry.first, k, &word))
    }
}
