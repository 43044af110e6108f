//! The records of a table that is well formed.
ghost use Rattle.std.specs.Prelude.{◌≡◌, ◌+◌, ◌<◌, ◌≤◌};
ghost use Rattle.fidl_table_format.specs.Section.{header_of, root_at, protocol_at, method_at, name_at};

use fidl_table_format::{
    Header, MethodRecord, ProtocolRecord, Root, name_bytes, read_header, read_method,
    read_protocol, read_root,
};
use fidl_verify::Table;
use std::marker::Model;

/// The bytes of a well-formed table, with its header. Contracts see the bytes.
#[derive(Drop)]
pub(crate) struct Records<'t> {
    bytes: &'t [u8],
    header: Header,
}

impl<'t> Model for Records<'t> {
    ghost use Rattle.std.specs.Prelude.{◌≡◌, List, ℕ};
    ghost use Rattle.fidl_table_format.specs.Section.{header_of};
    ghost use Rattle.fidl_table_format.specs.WellFormed.{WellFormed};

    ghost Value = { List ℕ };

    ghost view = { λ r. r.bytes.now };

    ghost invariant = { λ r. WellFormed r.bytes.now × (r.header ≡ header_of r.bytes.now) };
}

impl<'t> Records<'t> {
    /// Those of a verified table.
    pub(crate) fn of(table: &Table<'t>) -> Records<'t>
        ensures { result ≡ table.entry.now }
    {
        let bytes = table.bytes();
        Records {
            bytes,
            header: read_header(bytes),
        }
    }

    /// The version of the format.
    pub(crate) fn version(&self) -> u16
        ensures { result ≡ (header_of self.now).version }
    {
        self.header.version
    }

    /// How many roots there are.
    pub(crate) fn roots(&self) -> u32
        ensures { result ≡ (header_of self.now).roots }
    {
        self.header.roots
    }

    /// How many protocols there are.
    pub(crate) fn protocols(&self) -> u32
        ensures { result ≡ (header_of self.now).protocols }
    {
        self.header.protocols
    }

    /// How many methods there are.
    pub(crate) fn methods(&self) -> u32
        ensures { result ≡ (header_of self.now).methods }
    {
        self.header.methods
    }

    /// The root of this number.
    pub(crate) fn root(&self, index: u32) -> Root
        requires { index < (header_of self.now).roots }
        ensures value { result ≡ root_at self.now (header_of self.now) index }
        ensures name { result.name_place + result.name_length ≤ (header_of self.now).names }
    {
        read_root(self.bytes, &self.header, index)
    }

    /// The protocol of this number.
    pub(crate) fn protocol(&self, index: u32) -> ProtocolRecord
        requires { index < (header_of self.now).protocols }
        ensures value { result ≡ protocol_at self.now (header_of self.now) index }
        ensures name { result.name_place + result.name_length ≤ (header_of self.now).names }
    {
        read_protocol(self.bytes, &self.header, index)
    }

    /// The method of this number.
    pub(crate) fn method(&self, index: u32) -> MethodRecord
        requires { index < (header_of self.now).methods }
        ensures value { result ≡ method_at self.now (header_of self.now) index }
        ensures name { result.name_place + result.name_length ≤ (header_of self.now).names }
    {
        read_method(self.bytes, &self.header, index)
    }

    /// The bytes of a name.
    pub(crate) fn name(&self, place: u32, length: u32) -> &'t [u8]
        requires { place + length ≤ (header_of self.now).names }
        ensures { result.now ≡ name_at self.now (header_of self.now) place length }
    {
        name_bytes(self.bytes, &self.header, place, length)
    }
}
