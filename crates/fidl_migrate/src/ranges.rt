//! The fewest ranges of an enum.
ghost use Rattle.std.specs.Prelude.{◌+◌, ◌≤◌};
ghost use Rattle.fidl_table_format.specs.Section.{header_of};

use fidl_table_format::{Entry, ValueRange};
use fidl_verify::Table;
use std::alloc::AllocError;

/// Appends the ranges of an enum's entry; those that touch are joined.
pub(crate) fn push_ranges(
    table: &Table<'_>,
    entry: &Entry,
    ranges: &mut Vec<ValueRange>,
) -> Result<(), AllocError>
    requires { entry.now.first + entry.now.count ≤ (header_of table.now).values }
{
    // Read, so that the number of ranges, and with it each range's, is known to have 32 bits.
    let _values = table.values();
    let mut open: Option<ValueRange> = None;
    for place in 0..entry.count {
        let range = table.range(entry.first + place);
        match open {
            None => open = Some(range),
            Some(before) if before.highest.wrapping_add(1) == range.lowest => {
                open = Some(ValueRange {
                    lowest: before.lowest,
                    highest: range.highest,
                });
            }
            Some(before) => {
                ranges.push(before)?;
                open = Some(range);
            }
        }
    }
    if let Some(last) = open {
        ranges.push(last)?;
    }
    Ok(())
}
