//! What an accepted table gives: its roots, entries, rows, values and names.
use crate::judging::{Asked, Suite, judge_all};
use crate::numbers::NUMBERS;
use crate::protocols::protocol_call;
use crate::rules::TWO_ROOTS;
use crate::showing::text;
use crate::structs::POINT;
use fidl_table_format::{ValueRange, read_header, read_range, values_size};
use fidl_verify::Table;
use std::alloc::Global;
use std::test::Fail;

/// The kind, size, count, bound and name of an entry.
fn entry_text(alloc: Global, table: &Table<'_>, index: u32) -> Option<String> {
    if table.entries() <= index {
        return None;
    }
    let entry = table.entry(index);
    let name = hex::encode(alloc, table.entry_name(&entry)).ok()?;
    let (kind, size, count, bound) = (entry.kind, entry.size, entry.count, entry.bound);
    format!(in alloc; "{kind} {size} {count} {bound} {name}").ok()
}

/// The key, the entry and the name of a row.
fn row_text(alloc: Global, table: &Table<'_>, index: u32) -> Option<String> {
    if table.rows() <= index {
        return None;
    }
    let row = table.row(index);
    let name = hex::encode(alloc, table.row_name(&row)).ok()?;
    format!(in alloc; "{} {} {name}", row.key, row.entry).ok()
}

/// The ends of a range.
fn ends_text(alloc: Global, range: ValueRange) -> Option<String> {
    format!(in alloc; "{} {}", range.lowest, range.highest).ok()
}

/// The ends of the range in a record of values.
fn range_text(alloc: Global, table: &Table<'_>, index: u32) -> Option<String> {
    if table.values() <= index {
        return None;
    }
    ends_text(alloc, table.range(index))
}

/// The range as the records have it, of a table that is not verified.
fn read(alloc: Global, bytes: &[u8], index: u32) -> Option<String> {
    if bytes.len() < 40 {
        return None;
    }
    let header = read_header(bytes);
    let rows = 40 + 40 * header.entries as usize;
    let place = rows + 16 * header.rows as usize + values_size(&header, index);
    if bytes.len() < place + values_size(&header, 1) {
        return None;
    }
    ends_text(alloc, read_range(bytes, &header, index))
}

/// What a record or the number of records is.
fn record(alloc: Global, table: &Table<'_>, name: &str, at: u32) -> Option<String> {
    match name {
        "entry" => entry_text(alloc, table, at),
        "row" => row_text(alloc, table, at),
        "range" => range_text(alloc, table, at),
        "read_range" => read(alloc, table.bytes(), at),
        _ => None,
    }
}

/// What a call of a table answers.
pub(crate) fn call(alloc: Global, table: &Table<'_>, given: &str) -> Option<String> {
    let (name, at) = given.split_once(' ').unwrap_or((given, ""));
    match name {
        "bytes" => hex::encode(alloc, table.bytes()).ok(),
        "values" => text(alloc, Some(table.values())),
        "root" => text(alloc, table.root(at.as_bytes())),
        "protocol" => protocol_call(alloc, table, at),
        _ => record(alloc, table, name, at.parse().ok()?),
    }
}

/// What tables give. An entry is its kind, size, count, bound and name, a row its key, entry and
/// name.
const SUITES: [Suite<'_>; 3] = [
    Suite {
        asked: Asked::Call,
        table: POINT,
        count: 6,
        cases: "
            bytes -> 46435432010000000200000002000000000000000100000000000000000000000c0000000000000010000401080000000000000002000000000000000000000000000000000000000000000005000000080004000400000000000000000000000000000000000000000000000000000000000000000000000000000001000000050000000100000004000000010000000600000001000000070000000500000000000000506f696e747879506f696e74
            root Point -> 0
            root Poin -> none
            root -> none
            entry 0 -> 16 8 2 0 506f696e74
            row 1 -> 4 1 79
        ",
    },
    Suite {
        asked: Asked::Call,
        table: TWO_ROOTS,
        count: 3,
        cases: "
            root a -> 0
            root b -> 1
            root c -> none
        ",
    },
    Suite {
        asked: Asked::Call,
        table: NUMBERS,
        count: 7,
        cases: "
            values -> 5
            range 0 -> 18446744073709551615 18446744073709551615
            range 2 -> 5 5
            range 4 -> 18446744073709551615 18446744073709551615
            read_range 3 -> 1 1
            entry 0 -> 10 1 0 15 42
            root E -> 1
        ",
    },
];

#[test]
fn tables_give_their_records(rt: HostRuntime) -> Result<(), Fail> {
    judge_all(&rt, rt.alloc(), &SUITES)
}
