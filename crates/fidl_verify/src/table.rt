//! Tables that are verified.
ghost use Rattle.std.specs.Prelude.{◌≡◌, ℕ, ◌+◌, ◌<◌, ◌≤◌, OnOk, OnErr, IfOk, IfErr, IfSome};
ghost use Rattle.std.specs.Prelude.{IfNone};
ghost use Rattle.fidl_table_format.specs.Section.{header_of, entry_at, row_at, range_at, name_at};
ghost use Rattle.fidl_table_format.specs.Section.{row_place};
ghost use Rattle.fidl_table_format.specs.Entry.{rows_before, values_before};
ghost use Rattle.fidl_table_format.specs.Root.{IsRootEntry, HasNoRoot};
ghost use Rattle.fidl_table_format.specs.WellFormed.{WellFormed};
ghost use Rattle.fidl_verify.specs.Measured.{AreBefore, HasRoom};
ghost use Rattle.fidl_verify.specs.Faults.{Breaks};

use crate::entry::{Parts, check_entries};
use crate::fault::TableFault;
use crate::header::read_sections;
use crate::methods::check_methods;
use crate::protocols::check_protocols;
use crate::roots::{check_roots, find_root};
use crate::runs::Seen;
use crate::sections::Sections;
use fidl_table_format::{Entry, Row, ValueRange};
use std::marker::Model;

/// The bytes of a well-formed table (docs/table.md, "Verification").
#[derive(Drop)]
pub struct Table<'t> {
    sections: Sections<'t>,
}

impl<'t> Model for Table<'t> {
    ghost use Rattle.std.specs.Prelude.{List, ℕ};
    ghost use Rattle.fidl_table_format.specs.WellFormed.{WellFormed};

    ghost Value = { List ℕ };

    ghost view = { λ t. t.sections.bytes.now };

    ghost invariant = { λ t. WellFormed t.sections.bytes.now };
}

/// Checks that each row and value belongs to an entry.
fn check_covered(table: &Sections<'_>, parts: Parts) -> Result<(), TableFault>
    requires parts { AreBefore table.now.bytes.now table.now.header.entries parts }
    requires room { HasRoom table.now.header parts }
    ensures covered { OnOk result (rows_before table.now.bytes.now table.now.header.entries
        ≡ table.now.header.rows) }
    ensures values_covered { OnOk result (values_before table.now.bytes.now table.now.header.entries
        ≡ table.now.header.values) }
    ensures fault_is_true { IfErr result (Breaks table.now.bytes.now) }
{
    if parts.rows < table.header.rows {
        return Err(TableFault::BadIndex { at: parts.rows });
    }
    if parts.values < table.header.values {
        return Err(TableFault::BadIndex { at: parts.values });
    }
    Ok(())
}

/// Checks a table's rules in their order, and keeps its bytes where all hold; the fault names the
/// first that does not, with the number of the record.
pub fn verify(bytes: &[u8]) -> Result<Table<'_>, TableFault>
    ensures ok { OnOk result (WellFormed bytes.now) }
    ensures value { IfOk result (λ table. table ≡ bytes.now) }
    ensures fault_is_true { IfErr result (Breaks bytes.now) }
    ensures none { OnErr result (WellFormed bytes.now → ⊥) }
{
    let sections = read_sections(bytes)?;
    let mut seen = Seen::new(&sections);
    let parts = check_entries(&sections, &mut seen)?;
    check_covered(&sections, parts)?;
    check_roots(&sections, &mut seen)?;
    check_protocols(&sections, &mut seen)?;
    check_methods(&sections, &mut seen)?;
    Ok(Table { sections })
}

impl<'t> Table<'t> {
    /// Its sections.
    pub(crate) fn sections(&self) -> &Sections<'t>
        ensures bytes { result.now.bytes.now ≡ self.now }
        ensures well_formed { WellFormed self.now }
    {
        &self.sections
    }

    /// The bytes that were verified.
    #[inline(always)]
    pub fn bytes(&self) -> &'t [u8]
        ensures value { result.now ≡ self.now }
        ensures well_formed { WellFormed self.now }
    {
        self.sections.bytes
    }

    /// The number of entries.
    #[inline(always)]
    pub fn entries(&self) -> u32
        ensures value { result ≡ (header_of self.now).entries }
        ensures well_formed { WellFormed self.now }
    {
        self.sections.header.entries
    }

    /// The number of rows.
    #[inline(always)]
    pub fn rows(&self) -> u32
        ensures value { result ≡ (header_of self.now).rows }
        ensures well_formed { WellFormed self.now }
    {
        self.sections.header.rows
    }

    /// Where the rows begin, in bytes from the start of the table.
    #[inline(always)]
    pub fn rows_start(&self) -> usize
        ensures value { result ≡ row_place (header_of self.now) 0 }
        ensures well_formed { WellFormed self.now }
    {
        self.sections.rows
    }

    /// The number of records of values.
    #[inline(always)]
    pub fn values(&self) -> u32
        ensures value { result ≡ (header_of self.now).values }
        ensures well_formed { WellFormed self.now }
    {
        self.sections.header.values
    }

    /// The entry that the first root of this name has, where there is one.
    pub fn root(&self, name: &[u8]) -> Option<u32>
        ensures found { IfSome result (IsRootEntry self.now (header_of self.now) name.now) }
        ensures below { IfSome result (λ entry. entry < (header_of self.now).entries) }
        ensures none { IfNone result (HasNoRoot self.now (header_of self.now) name.now) }
    {
        find_root(&self.sections, name)
    }

    /// The entry of this number.
    #[inline(always)]
    pub fn entry(&self, index: u32) -> Entry
        requires { index < (header_of self.now).entries }
        ensures value { result ≡ entry_at self.now index }
        ensures name { result.name_place + result.name_length ≤ (header_of self.now).names }
        ensures well_formed { WellFormed self.now }
    {
        self.sections.entry(index)
    }

    /// The row of this number.
    #[inline(always)]
    pub fn row(&self, index: u32) -> Row
        requires { index < (header_of self.now).rows }
        ensures value { result ≡ row_at self.now (header_of self.now) index }
        ensures entry { result.entry < (header_of self.now).entries }
        ensures name { result.name_place + result.name_length ≤ (header_of self.now).names }
        ensures well_formed { WellFormed self.now }
    {
        self.sections.row(index)
    }

    /// The range in the record of values of this number, whose ends are one in version 1.
    pub fn range(&self, index: u32) -> ValueRange
        requires { index < (header_of self.now).values }
        ensures value { result ≡ range_at self.now (header_of self.now) index }
        ensures well_formed { WellFormed self.now }
    {
        self.sections.range(index)
    }

    /// The bytes of a row's name.
    pub fn row_name(&self, row: &Row) -> &'t [u8]
        requires { row.now.name_place + row.now.name_length ≤ (header_of self.now).names }
        ensures { result.now ≡ name_at self.now (header_of self.now) row.now.name_place
            row.now.name_length }
    {
        self.sections.name(row.name_place, row.name_length)
    }

    /// The bytes of an entry's name.
    pub fn entry_name(&self, entry: &Entry) -> &'t [u8]
        requires { entry.now.name_place + entry.now.name_length ≤ (header_of self.now).names }
        ensures { result.now ≡ name_at self.now (header_of self.now) entry.now.name_place
            entry.now.name_length }
    {
        self.sections.name(entry.name_place, entry.name_length)
    }
}
