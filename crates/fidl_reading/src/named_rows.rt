//! The rows of a layout by their names.
ghost use Rattle.std.specs.Prelude.{◌+◌, ◌<◌, ◌≤◌, IfOk};
ghost use Rattle.fidl_table_format.specs.Section.{header_of, entry_at};
ghost use Rattle.fidl_reading.specs.Found.{Finds, FindsOf};

use fidl_table_format::EntryKind;
use fidl_verify::Table;
use std::alloc::{AllocError, Global};
use std::collections::BTreeMap;

/// The rows of a larger union are found by a map.
const FEW_ROWS: u32 = 256;

/// A longer name is in no map: rows may share the bytes of long names, and a map has its own.
pub(crate) const LONGEST_NAME: usize = 255;

/// Some rows by their names, without those of long names: of several with one name the first.
fn rows_by_name(
    alloc: Global,
    table: &Table<'_>,
    first: u32,
    count: u32,
) -> Result<BTreeMap<Vec<u8>, u32>, AllocError>
    requires { first + count ≤ (header_of table.now).rows }
    ensures { IfOk result (Finds table.now first count) }
{
    // Read, so that a row's index is known to be a number of 32 bits.
    let _rows = table.rows();
    let mut rows = BTreeMap::new(alloc);
    for k in 0..count {
        let name = table.row_name(&table.row(first + k));
        if name.len() <= LONGEST_NAME && !rows.contains_key(name) {
            rows.insert(Vec::from_slice(alloc, name)?, first + k)?;
        }
    }
    Ok(rows)
}

/// The members of a large union by their names; `None` of any other entry.
pub(crate) fn members_by_name(
    alloc: Global,
    table: &Table<'_>,
    index: u32,
) -> Result<Option<BTreeMap<Vec<u8>, u32>>, AllocError>
    requires { index < (header_of table.now).entries }
    ensures { IfOk result (FindsOf table.now (entry_at table.now index)) }
{
    let entry = table.entry(index);
    if entry.count <= FEW_ROWS {
        return Ok(None);
    }
    match EntryKind::from_number(entry.kind) {
        Some(EntryKind::Union) => {
            let rows = rows_by_name(alloc, table, entry.first, entry.count)?;
            Ok(Some(rows))
        }
        _ => Ok(None),
    }
}
