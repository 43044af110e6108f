//! The section of values.
ghost use Rattle.std.specs.Prelude.{◌<◌, ◌≤◌, length};

use crate::entries::definition_number;
use crate::listing::Listing;
use fidl_ir::Definition;
use fidl_reachable_types::TypeList;
use std::alloc::AllocError;

/// Appends the eight bytes of a value; a negative one is sign-extended.
fn push_value(section: &mut Vec<u8>, value: i128) -> Result<(), AllocError> {
    if let Ok(value) = u64::try_from(value) {
        return section.extend_from_slice(&value.to_le_bytes());
    }
    match i64::try_from(value) {
        Ok(value) => section.extend_from_slice(&value.to_le_bytes()),
        Err(_) => Err(AllocError),
    }
}

/// Whether the value at a place among values that rise begins a range: none before touches it.
fn begins_range(values: &[i128], place: usize) -> bool
    requires { place < length values.now }
{
    place == 0 || values[place - 1].wrapping_add(1) != values[place]
}

/// Whether the value at a place ends a range: none behind touches it.
fn ends_range(values: &[i128], place: usize) -> bool
    requires { place < length values.now }
{
    place + 1 == values.len() || begins_range(values, place + 1)
}

/// How many ranges values that rise have, where those that touch are in one.
pub(crate) fn range_count(values: &[i128]) -> usize
    ensures { result ≤ length values.now }
{
    let mut count = 0;
    for place in 0..values.len() {
        if begins_range(values, place) {
            count += 1;
        }
    }
    count
}

/// Appends the ranges of a strict enum's values, which rise: both ends of each, as few as there are.
fn push_ranges(section: &mut Vec<u8>, values: &[i128]) -> Result<(), AllocError> {
    for place in 0..values.len() {
        if begins_range(values, place) {
            push_value(section, values[place])?;
        }
        if ends_range(values, place) {
            push_value(section, values[place])?;
        }
    }
    Ok(())
}

/// Appends the ranges of the values of all types of a list.
pub(crate) fn push_values(
    listing: &Listing<'_>,
    list: &TypeList<'_>,
    section: &mut Vec<u8>,
) -> Result<(), AllocError> {
    for place in 0..list.count() {
        let Some(number) = list.get(place).and_then(definition_number) else {
            continue;
        };
        if let Some(
            Definition::Enum {
                values: Some(values),
                ..
            },
        ) = listing.definitions.get(number as usize)
        {
            push_ranges(section, values)?;
        }
    }
    Ok(())
}
