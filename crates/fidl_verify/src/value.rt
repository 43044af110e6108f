//! The values of strict enums.
ghost use Rattle.std.specs.Prelude.{◌↔◌, ℕ, ◌+◌, ◌^◌, ◌<◌, ◌≤◌, IsTrue, Contains};
ghost use Rattle.fidl_table_format.specs.declared.kind.EntryKind.TheVariants as EntryKind;
ghost use Rattle.fidl_table_format.specs.Section.{header_of, entry_at};
ghost use Rattle.fidl_table_format.specs.Terms.{underlying, value_number, values_from};
ghost use Rattle.fidl_table_format.specs.Entry.{IsOf, IsEnumRange};

use crate::table::Table;
use fidl_table_format::{Entry, is_less};

/// Whether a number, in 64 bits, is in one of an entry's ranges, which rise. Each probe halves the
/// ranges that are left, and is counted.
fn search(table: &Table<'_>, entry: &Entry, number: u64, probes: &mut u64) -> bool
    requires within { entry.now.first + entry.now.count ≤ (header_of table.now).values }
    requires small { entry.now.count < 2 ^ 16 }
    requires ranges { (k : ℕ) → k < entry.now.count
        → IsEnumRange table.now (header_of table.now) entry.now k }
    requires budget { probes.old < 2 ^ 62 }
    ensures value { IsTrue result ↔ Contains (values_from table.now (header_of table.now)
        (underlying entry.now) entry.now.first entry.now.count)
        (value_number (underlying entry.now) number) }
    ensures grows { probes.old ≤ probes.new }
    ensures few { probes.new ≤ probes.old + 16 }
{
    // Read, so that the number of ranges, and with it each range's, is known to have 32 bits.
    let _values = table.values();
    let kind = entry.underlying();
    let mut low = 0;
    let mut high = entry.count;
    while low < high {
        *probes += 1;
        let middle = low + (high - low) / 2;
        let range = table.range(entry.first + middle);
        if is_less(kind, range.highest, number) {
            low = middle + 1;
        } else if is_less(kind, number, range.lowest) {
            high = middle;
        } else {
            return true;
        }
    }
    false
}

impl<'t> Table<'t> {
    /// Whether a number is one of the values of an enum's entry: the number in 64 bits, a negative
    /// one in two's complement. Each probe halves the ranges that are left, and is counted.
    pub fn has_value(&self, entry: u32, number: u64, probes: &mut u64) -> bool
        requires entry { entry < (header_of self.now).entries }
        requires kind { IsOf EntryKind.Enum (entry_at self.now entry) }
        requires budget { probes.old < 2 ^ 62 }
        ensures value { let e = entry_at self.now entry in IsTrue result ↔ Contains
            (values_from self.now (header_of self.now) (underlying e) e.first e.count)
            (value_number (underlying e) number) }
        ensures grows { probes.old ≤ probes.new }
        ensures few { probes.new ≤ probes.old + 16 }
    {
        let parts = self.entry(entry);
        search(self, &parts, number, probes)
    }
}
