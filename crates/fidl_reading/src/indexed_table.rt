//! Tables in which the members of large unions are found by their names.
ghost use Rattle.std.specs.Prelude.{◌≡◌, ◌+◌, ◌<◌, ◌≤◌, ℕ, IfOk, IfSome, IfNone, IsTrue};
ghost use Rattle.fidl_table_format.specs.Section.{header_of, entry_at, row_at, name_at};
ghost use Rattle.fidl_table_format.specs.Entry.{kind_is};
ghost use Rattle.fidl_table_format.specs.Uses.{uses_ordinals};
ghost use Rattle.fidl_table_format.specs.WellFormed.{WellFormed};
ghost use Rattle.fidl_reading.specs.Keys.{name_of_row, HasNoRow};
ghost use Rattle.fidl_reading.specs.Found.{AreFound};

use crate::named_rows::{LONGEST_NAME, members_by_name};
use fidl_table_format::{Entry, Row};
use fidl_verify::Table;
use std::alloc::{AllocError, Global};
use std::collections::BTreeMap;
use std::marker::Model;

/// A text of so few words names few members: to search for these costs less than a map.
const FEW_WORDS: usize = 256;

/// For each word so many rows may be put into maps. That costs less than a search among the rows of
/// the largest union, of which a text has one for five words at most.
const ROWS_PER_WORD: u32 = 256;

/// A table, and the members of its large unions by their names, where the text has many words.
#[derive(Drop)]
pub(crate) struct IndexedTable<'r, 't> {
    table: &'r Table<'t>,
    /// Of each entry, or of none.
    members: Vec<Option<BTreeMap<Vec<u8>, u32>>>,
}

impl<'r, 't> Model for IndexedTable<'r, 't> {
    ghost use Rattle.std.specs.Prelude.{List, ℕ};
    ghost use Rattle.fidl_reading.specs.Found.{AreFound};

    ghost Value = { List ℕ };

    ghost view = { λ t. t.table.now };

    ghost invariant = { λ t. AreFound t.table.now t.members.items };
}

/// The members of each large union by their names, or of none where the text is short.
fn all_members(
    alloc: Global,
    table: &Table<'_>,
    words: usize,
) -> Result<Vec<Option<BTreeMap<Vec<u8>, u32>>>, AllocError>
    ensures { IfOk result (λ members. AreFound table.now members.items) }
{
    let mut members = Vec::new(alloc);
    if words <= FEW_WORDS || words <= (table.rows() / ROWS_PER_WORD) as usize {
        return Ok(members);
    }
    for index in 0..table.entries() {
        let found = members_by_name(alloc, table, index)?;
        members.push(found)?;
    }
    Ok(members)
}

impl<'r, 't> IndexedTable<'r, 't> {
    /// A table for a text of so many words.
    pub(crate) fn new(
        alloc: Global,
        table: &'r Table<'t>,
        words: usize,
    ) -> Result<IndexedTable<'r, 't>, AllocError>
        ensures value { IfOk result (λ t. t ≡ table.now) }
    {
        let members = all_members(alloc, table, words)?;
        Ok(IndexedTable { table, members })
    }

    /// The number of entries.
    pub(crate) fn entries(&self) -> u32
        ensures value { result ≡ (header_of self.now).entries }
        ensures well_formed { WellFormed self.now }
    {
        self.table.entries()
    }

    /// The number of rows.
    pub(crate) fn rows(&self) -> u32
        ensures value { result ≡ (header_of self.now).rows }
        ensures well_formed { WellFormed self.now }
    {
        self.table.rows()
    }

    /// The entry of this number.
    pub(crate) fn entry(&self, index: u32) -> Entry
        requires { index < (header_of self.now).entries }
        ensures value { result ≡ entry_at self.now index }
        ensures well_formed { WellFormed self.now }
    {
        self.table.entry(index)
    }

    /// The row of this number.
    pub(crate) fn row(&self, index: u32) -> Row
        requires { index < (header_of self.now).rows }
        ensures value { result ≡ row_at self.now (header_of self.now) index }
        ensures entry { result.entry < (header_of self.now).entries }
        ensures name { result.name_place + result.name_length ≤ (header_of self.now).names }
        ensures well_formed { WellFormed self.now }
    {
        self.table.row(index)
    }

    /// The name that a row gives to its member.
    pub(crate) fn row_name(&self, row: &Row) -> &'t [u8]
        requires { row.now.name_place + row.now.name_length ≤ (header_of self.now).names }
        ensures { result.now ≡ name_at self.now (header_of self.now) row.now.name_place
            row.now.name_length }
    {
        self.table.row_name(row)
    }

    /// The first of some rows that bears this name.
    pub(crate) fn row_named(&self, first: u32, count: u32, name: &[u8]) -> Option<Row>
        requires { first + count ≤ (header_of self.now).rows }
        ensures some { IfSome result (λ row. (k : ℕ) × (k < count)
            × (row ≡ row_at self.now (header_of self.now) (first + k))
            × (name_of_row self.now (first + k) ≡ name.now)
            × HasNoRow self.now first k name.now) }
        ensures entry { IfSome result (λ row. row.entry < (header_of self.now).entries) }
        ensures none { IfNone result (HasNoRow self.now first count name.now) }
    {
        // Read, so that a row's index is known to be a number of 32 bits.
        let _rows = self.table.rows();
        for k in 0..count {
            let row = self.table.row(first + k);
            if self.table.row_name(&row) == name {
                return Some(row);
            }
        }
        None
    }

    /// The first row of a table's or union's entry that bears this name.
    pub(crate) fn member_named(&self, index: u32, name: &[u8]) -> Option<Row>
        requires entry { index < (header_of self.now).entries }
        requires kind { IsTrue (kind_is uses_ordinals (entry_at self.now index)) }
        ensures some { IfSome result (λ row. (k : ℕ) × (k < (entry_at self.now index).count)
            × (row ≡ row_at self.now (header_of self.now) ((entry_at self.now index).first + k))
            × (name_of_row self.now ((entry_at self.now index).first + k) ≡ name.now)
            × HasNoRow self.now (entry_at self.now index).first k name.now) }
        ensures entry { IfSome result (λ row. row.entry < (header_of self.now).entries) }
        ensures none { IfNone result (HasNoRow self.now (entry_at self.now index).first
            (entry_at self.now index).count name.now) }
    {
        let entry = self.entry(index);
        let place = index as usize;
        if name.len() <= LONGEST_NAME && place < self.members.len() {
            if let Some(rows) = &self.members[place] {
                let row = rows.get(name)?;
                return Some(self.row(*row));
            }
        }
        self.row_named(entry.first, entry.count, name)
    }
}
