//! The values of enums.
ghost use Rattle.std.specs.Prelude.{◌≡◌, ◌+◌, ◌≤◌, ◌++◌, IsTrue, IfSome};
ghost use Rattle.std.specs.Option.{option_map};
ghost use Rattle.fidl_equivalence.specs.Alike.{AlikeValues};
ghost use Rattle.fidl_table_format.specs.Section.{header_of};
ghost use Rattle.fidl_table_format.specs.Terms.{span, underlying, values_from, strict_values};

use fidl_table_format::{Entry, number_of};
use fidl_verify::Table;

/// The values behind those of a range, where they begin with these. As many numbers of the range
/// are compared as there are values, and no more.
fn behind_range(values: &[i128], lowest: i128, highest: i128) -> Option<&[i128]>
    ensures { IfSome result (λ rest. values.now ≡ span lowest highest ++ rest.now) }
{
    if highest < lowest {
        return None;
    }
    let mut number = lowest;
    for place in 0..values.len() {
        if values[place] != number {
            return None;
        }
        if highest <= number {
            return Some(&values[place + 1..]);
        }
        number += 1;
    }
    None
}

/// Whether the values of an entry are these, in this order.
fn values_are(table: &Table<'_>, entry: &Entry, values: &[i128]) -> bool
    requires { entry.now.first + entry.now.count ≤ (header_of table.now).values }
    ensures { IsTrue result
        → values.now ≡ values_from table.now (header_of table.now) (underlying entry.now)
        entry.now.first entry.now.count }
{
    // Read, so that the number of ranges, and with it each range's, is known to have 32 bits.
    let _values = table.values();
    let kind = entry.underlying();
    let mut rest = values;
    for place in 0..entry.count {
        let range = table.range(entry.first + place);
        let lowest = number_of(kind, range.lowest);
        let Some(behind) = behind_range(rest, lowest, number_of(kind, range.highest)) else {
            return false;
        };
        rest = behind;
    }
    rest.is_empty()
}

/// Whether an entry has the values of an enum, in their order, and is strict where there are any.
pub(crate) fn has_values(table: &Table<'_>, entry: &Entry, values: &Option<Vec<i128>>) -> bool
    requires { entry.now.first + entry.now.count ≤ (header_of table.now).values }
    ensures { IsTrue result → AlikeValues (option_map (λ vs. vs.items) values.now)
        (strict_values table.now (header_of table.now) entry.now) }
{
    match values {
        None => !entry.is_strict(),
        Some(values) => entry.is_strict() && values_are(table, entry, values.as_slice()),
    }
}
