//! Readers of the records of a table's sections.
ghost use Rattle.std.specs.Prelude.{◌≡◌, ℕ, ◌+◌, ◌*◌, ◌^◌, ◌≤◌, length, slice_range};
ghost use Rattle.fidl_table_format.specs.declared.record.Header.{Header};
ghost use Rattle.fidl_table_format.specs.Section.{header_of, entry_at, row_at, range_at, root_at};
ghost use Rattle.fidl_table_format.specs.Section.{entry_place, row_place, value_place, root_place};
ghost use Rattle.fidl_table_format.specs.Section.{protocol_place, protocol_at, method_place, method_at};
ghost use Rattle.fidl_table_format.specs.Section.{names_place, name_at, value_size};

use crate::record::{Entry, Header, MethodRecord, ProtocolRecord, Root, Row, ValueRange};
use fidl_wire::{u16_at, u32_at, u64_at};

/// The length of the header, in bytes.
pub const HEADER_SIZE: usize = 40;

/// The fields of the header.
pub fn read_header(table: &[u8]) -> Header
    requires { HEADER_SIZE ≤ length table.now }
    ensures { result ≡ header_of table.now }
{
    Header {
        magic: u32_at(table, 0),
        version: u16_at(table, 4),
        reserved: u16_at(table, 6),
        entries: u32_at(table, 8),
        rows: u32_at(table, 12),
        values: u32_at(table, 16),
        roots: u32_at(table, 20),
        protocols: u32_at(table, 24),
        methods: u32_at(table, 28),
        names: u32_at(table, 32),
        reserved_end: u32_at(table, 36),
    }
}

/// The fields of an entry, by its number.
#[inline(always)]
pub fn read_entry(table: &[u8], index: u32) -> Entry
    requires { entry_place index + 40 ≤ length table.now }
    ensures { result ≡ entry_at table.now index }
{
    let place = HEADER_SIZE + 40 * index as usize;
    Entry {
        kind: table[place],
        flags: table[place + 1],
        alignment: table[place + 2],
        nest: table[place + 3],
        size: u32_at(table, place + 4),
        first: u32_at(table, place + 8),
        count: u32_at(table, place + 12),
        bound: u64_at(table, place + 16),
        subtype: u32_at(table, place + 24),
        rights: u32_at(table, place + 28),
        name_place: u32_at(table, place + 32),
        name_length: u32_at(table, place + 36),
    }
}

/// Where the rows begin, in bytes from the start of a table with this header.
#[inline(always)]
pub fn rows_start(header: &Header) -> usize
    ensures { result ≡ row_place header.now 0 }
{
    HEADER_SIZE + 40 * header.entries as usize
}

/// The fields of the row at a place, in bytes from the start of a table: those of each number whose
/// row stands there.
#[inline(always)]
pub fn row_from(table: &[u8], place: usize) -> Row
    requires { place + 16 ≤ length table.now }
    ensures { (h : Header) (index : ℕ) → row_place h index ≡ place
        → result ≡ row_at table.now h index }
{
    Row {
        key: u32_at(table, place),
        entry: u32_at(table, place + 4),
        name_place: u32_at(table, place + 8),
        name_length: u32_at(table, place + 12),
    }
}

/// The fields of a row, by its number, in a table with this header.
pub fn read_row(table: &[u8], header: &Header, index: u32) -> Row
    requires { row_place header.now index + 16 ≤ length table.now }
    ensures { result ≡ row_at table.now header.now index }
{
    row_from(table, rows_start(header) + 16 * index as usize)
}

/// How many bytes so many records of values have, in a table with this header.
pub fn values_size(header: &Header, count: u32) -> usize
    ensures value { result ≡ value_size header.now * count }
    ensures small { result ≤ 2 ^ 36 }
{
    match header.version {
        2 => 16 * count as usize,
        _ => 8 * count as usize,
    }
}

/// Where a record of values begins, by its number, in bytes from the start of a table with this
/// header.
fn value_start(header: &Header, index: u32) -> usize
    ensures value { result ≡ value_place header.now index }
    ensures small { result ≤ 2 ^ 40 }
{
    let values = rows_start(header) + 16 * header.rows as usize;
    values + values_size(header, index)
}

/// The range of a record of values, by its number, in a table with this header.
pub fn read_range(table: &[u8], header: &Header, index: u32) -> ValueRange
    requires { value_place header.now index + value_size header.now ≤ length table.now }
    ensures { result ≡ range_at table.now header.now index }
{
    let place = value_start(header, index);
    let highest = match header.version {
        2 => place + 8,
        _ => place,
    };
    ValueRange {
        lowest: u64_at(table, place),
        highest: u64_at(table, highest),
    }
}

/// The fields of a root, by its number, in a table with this header.
pub fn read_root(table: &[u8], header: &Header, index: u32) -> Root
    requires { root_place header.now index + 12 ≤ length table.now }
    ensures { result ≡ root_at table.now header.now index }
{
    let place = value_start(header, header.values) + 12 * index as usize;
    Root {
        name_place: u32_at(table, place),
        name_length: u32_at(table, place + 4),
        entry: u32_at(table, place + 8),
    }
}

/// Where the protocols begin, in bytes from the start of a table with this header.
fn protocols_start(header: &Header) -> usize
    ensures { result ≡ protocol_place header.now 0 }
{
    value_start(header, header.values) + 12 * header.roots as usize
}

/// The fields of a protocol, by its number, in a table with this header.
pub fn read_protocol(table: &[u8], header: &Header, index: u32) -> ProtocolRecord
    requires { protocol_place header.now index + 16 ≤ length table.now }
    ensures { result ≡ protocol_at table.now header.now index }
{
    let place = protocols_start(header) + 16 * index as usize;
    ProtocolRecord {
        name_place: u32_at(table, place),
        name_length: u32_at(table, place + 4),
        openness: u32_at(table, place + 8),
        methods: u32_at(table, place + 12),
    }
}

/// The fields of a method, by its number, in a table with this header.
pub fn read_method(table: &[u8], header: &Header, index: u32) -> MethodRecord
    requires { method_place header.now index + 32 ≤ length table.now }
    ensures { result ≡ method_at table.now header.now index }
{
    let methods = protocols_start(header) + 16 * header.protocols as usize;
    let place = methods + 32 * index as usize;
    MethodRecord {
        ordinal: u64_at(table, place),
        name_place: u32_at(table, place + 8),
        name_length: u32_at(table, place + 12),
        flags: u32_at(table, place + 16),
        request: u32_at(table, place + 20),
        response: u32_at(table, place + 24),
        reserved: u32_at(table, place + 28),
    }
}

/// The bytes of a name, by its place and length in the names of a table with this header.
pub fn name_bytes<'t>(table: &'t [u8], header: &Header, place: u32, name_length: u32) -> &'t [u8]
    requires { names_place header.now + place + name_length ≤ length table.now }
    ensures { result.now ≡ name_at table.now header.now place name_length }
{
    let methods = protocols_start(header) + 16 * header.protocols as usize;
    let names = methods + 32 * header.methods as usize;
    let from = names + place as usize;
    &table[from..from + name_length as usize]
}
