//! The sections of a table whose header is right.
ghost use Rattle.std.specs.Prelude.{◌≡◌, ◌+◌, ◌≤◌, ◌<◌, length};
ghost use Rattle.fidl_table_format.specs.Section.{header_of, table_length, entry_at, row_at, range_at};
ghost use Rattle.fidl_table_format.specs.Section.{row_place, root_at, protocol_at, method_at, name_at};

use fidl_table_format::{
    Entry, Header, MethodRecord, ProtocolRecord, Root, Row, ValueRange, name_bytes, read_entry,
    read_method, read_protocol, read_range, read_root, row_from,
};

/// The bytes of a table, its header, and where its rows begin; the sections fill the table.
#[derive(Clone, Copy)]
pub(crate) struct Sections<'t> {
    pub(crate) bytes: &'t [u8],
    pub(crate) header: Header,
    pub(crate) rows: usize,
    ghost is_header: { header ≡ header_of bytes.now },
    ghost placed: { rows ≡ row_place header 0 },
    ghost whole: { length bytes.now ≡ table_length header },
}

impl<'t> Sections<'t> {
    /// The entry of this number.
    #[inline(always)]
    pub(crate) fn entry(&self, index: u32) -> Entry
        requires { index < self.now.header.entries }
        ensures { result ≡ entry_at self.now.bytes.now index }
    {
        read_entry(self.bytes, index)
    }

    /// The row of this number.
    #[inline(always)]
    pub(crate) fn row(&self, index: u32) -> Row
        requires { index < self.now.header.rows }
        ensures { result ≡ row_at self.now.bytes.now self.now.header index }
    {
        row_from(self.bytes, self.rows + 16 * index as usize)
    }

    /// The end of rows that follow one another.
    pub(crate) fn rows_end(&self, first: u32, count: u32) -> u32
        requires { first + count ≤ self.now.header.rows }
        ensures { result ≡ first + count }
    {
        // Read, so that the sum is known to be a number of 32 bits.
        let _rows = self.header.rows;
        first + count
    }

    /// The range in the record of values of this number.
    pub(crate) fn range(&self, index: u32) -> ValueRange
        requires { index < self.now.header.values }
        ensures { result ≡ range_at self.now.bytes.now self.now.header index }
    {
        read_range(self.bytes, &self.header, index)
    }

    /// The end of records of values that follow one another.
    pub(crate) fn values_end(&self, first: u32, count: u32) -> u32
        requires { first + count ≤ self.now.header.values }
        ensures { result ≡ first + count }
    {
        // Read, so that the sum is known to be a number of 32 bits.
        let _values = self.header.values;
        first + count
    }

    /// The root of this number.
    pub(crate) fn root(&self, index: u32) -> Root
        requires { index < self.now.header.roots }
        ensures { result ≡ root_at self.now.bytes.now self.now.header index }
    {
        read_root(self.bytes, &self.header, index)
    }

    /// The protocol of this number.
    pub(crate) fn protocol(&self, index: u32) -> ProtocolRecord
        requires { index < self.now.header.protocols }
        ensures { result ≡ protocol_at self.now.bytes.now self.now.header index }
    {
        read_protocol(self.bytes, &self.header, index)
    }

    /// The method of this number.
    pub(crate) fn method(&self, index: u32) -> MethodRecord
        requires { index < self.now.header.methods }
        ensures { result ≡ method_at self.now.bytes.now self.now.header index }
    {
        read_method(self.bytes, &self.header, index)
    }

    /// The bytes of a name that lies within the names.
    pub(crate) fn name(&self, place: u32, name_length: u32) -> &'t [u8]
        requires { place + name_length ≤ self.now.header.names }
        ensures { result.now ≡ name_at self.now.bytes.now self.now.header place name_length }
    {
        name_bytes(self.bytes, &self.header, place, name_length)
    }
}
