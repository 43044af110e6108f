//! The bytes of a table of version 2.
ghost use Rattle.std.specs.Prelude.{◌≡◌, ◌<◌, ◌≤◌, length};
ghost use Rattle.fidl_table_format.specs.Section.{header_of};

use crate::keeping::has_values;
use crate::ranges::push_ranges;
use fidl_table_format::{HEADER_SIZE, ValueRange, read_header, values_size};
use fidl_verify::Table;
use std::alloc::{AllocError, Global};

/// The version that is written.
pub(crate) const WRITTEN_VERSION: u16 = 2;

/// Appends a number in four bytes; it fails where the number has more.
fn push_count(bytes: &mut Vec<u8>, count: usize) -> Result<(), AllocError> {
    let Ok(count) = u32::try_from(count) else {
        return Err(AllocError);
    };
    Ok(bytes.extend_from_slice(&count.to_le_bytes())?)
}

/// Appends an entry's record of 40 bytes with the place and the number of its ranges.
fn push_moved(
    bytes: &mut Vec<u8>,
    fields: &[u8],
    first: usize,
    count: usize,
) -> Result<(), AllocError>
    requires { length fields.now ≡ 40 }
{
    bytes.extend_from_slice(&fields[..8])?;
    push_count(bytes, first)?;
    push_count(bytes, count)?;
    Ok(bytes.extend_from_slice(&fields[16..])?)
}

/// Appends the entry of this number, and its ranges to those of the entries before.
fn push_entry(
    table: &Table<'_>,
    index: u32,
    bytes: &mut Vec<u8>,
    ranges: &mut Vec<ValueRange>,
) -> Result<(), AllocError>
    requires { index < (header_of table.now).entries }
{
    let entry = table.entry(index);
    let place = HEADER_SIZE + 40 * index as usize;
    let record = &table.bytes()[place..place + 40];
    if has_values(&entry) {
        let first = ranges.len();
        push_ranges(table, &entry, ranges)?;
        let count = ranges.len().saturating_sub(first);
        push_moved(bytes, record, first, count)
    } else {
        Ok(bytes.extend_from_slice(record)?)
    }
}

/// Appends the records of ranges.
fn push_records(bytes: &mut Vec<u8>, ranges: &[ValueRange]) -> Result<(), AllocError> {
    for range in ranges {
        bytes.extend_from_slice(&range.lowest.to_le_bytes())?;
        bytes.extend_from_slice(&range.highest.to_le_bytes())?;
    }
    Ok(())
}

/// Appends the header of a table, with the version and the number of ranges.
fn push_header(bytes: &mut Vec<u8>, old: &[u8], ranges: usize) -> Result<(), AllocError>
    requires { HEADER_SIZE ≤ length old.now }
{
    bytes.extend_from_slice(&old[..4])?;
    bytes.extend_from_slice(&WRITTEN_VERSION.to_le_bytes())?;
    bytes.extend_from_slice(&old[6..16])?;
    push_count(bytes, ranges)?;
    Ok(bytes.extend_from_slice(&old[20..HEADER_SIZE])?)
}

/// The bytes of a table in version 2, with the fewest ranges.
pub(crate) fn written(alloc: Global, table: &Table<'_>) -> Result<Vec<u8>, AllocError> {
    let old = table.bytes();
    let header = read_header(old);
    let mut entries = Vec::new(alloc);
    let mut ranges = Vec::new(alloc);
    for index in 0..table.entries() {
        push_entry(table, index, &mut entries, &mut ranges)?;
    }
    let rows = HEADER_SIZE + 40 * header.entries as usize;
    let values = rows + 16 * header.rows as usize;
    let roots = values + values_size(&header, header.values);
    let mut bytes = Vec::new(alloc);
    push_header(&mut bytes, old, ranges.len())?;
    bytes.extend_from_slice(&entries)?;
    bytes.extend_from_slice(&old[rows..values])?;
    push_records(&mut bytes, &ranges)?;
    bytes.extend_from_slice(&old[roots..])?;
    Ok(bytes)
}
