//! Whether the values of an enum are the same numbers in two tables.
ghost use Rattle.std.specs.Prelude.{◌≡◌, ◌+◌, ◌≤◌, ◌++◌, IsTrue, IfSome};
ghost use Rattle.fidl_table_format.specs.Section.{header_of};
ghost use Rattle.fidl_table_format.specs.Terms.{span, underlying, values_from};

use fidl_table_format::{Entry, number_of};
use fidl_verify::Table;

/// The place behind the ranges of an enum that make up a range, from this place on; none where
/// they make up another. No more records are read than the enum has.
fn behind_range(
    table: &Table<'_>,
    entry: &Entry,
    from: u32,
    lowest: i128,
    highest: i128,
) -> Option<u32>
    requires { entry.now.first + entry.now.count ≤ (header_of table.now).values }
    ensures { IfSome result (λ behind. values_from table.now (header_of table.now)
        (underlying entry.now) entry.now.first behind
        ≡ values_from table.now (header_of table.now) (underlying entry.now) entry.now.first from
        ++ span lowest highest) }
{
    // Read, so that the number of ranges, and with it each range's, is known to have 32 bits.
    let _values = table.values();
    let kind = entry.underlying();
    let mut next = lowest;
    for place in from..entry.count {
        let range = table.range(entry.first + place);
        let low = number_of(kind, range.lowest);
        let high = number_of(kind, range.highest);
        if low != next || high < low || highest < high {
            return None;
        }
        if high == highest {
            return Some(place + 1);
        }
        next = high + 1;
    }
    None
}

/// Whether the ranges of an enum are made up of those of another of its type, one behind the other.
pub(crate) fn keeps_values(old: &Table<'_>, before: &Entry, new: &Table<'_>, after: &Entry) -> bool
    requires before { before.now.first + before.now.count ≤ (header_of old.now).values }
    requires after { after.now.first + after.now.count ≤ (header_of new.now).values }
    ensures { IsTrue result → values_from new.now (header_of new.now) (underlying before.now)
        after.now.first after.now.count
        ≡ values_from old.now (header_of old.now) (underlying before.now) before.now.first
        before.now.count }
{
    // Read, so that the number of ranges, and with it each range's, is known to have 32 bits.
    let _values = new.values();
    let kind = before.underlying();
    let mut place = 0;
    for index in 0..after.count {
        let range = new.range(after.first + index);
        let low = number_of(kind, range.lowest);
        let Some(behind) = behind_range(old, before, place, low, number_of(kind, range.highest))
        else {
            return false;
        };
        place = behind;
    }
    place == before.count
}
