//! The records of a table, as their fields stand there.
ghost use Rattle.std.specs.Prelude.{◌≡◌};

use crate::kind::EntryKind;

/// What the header states: its mark, the version, and how many records each section has.
#[derive(Clone, Copy, PartialEq, Eq, Debug, Drop)]
pub struct Header {
    /// The first four bytes as a number: "FCT2" is 0x32544346.
    pub magic: u32,
    pub version: u16,
    /// The two bytes behind the version.
    pub reserved: u16,
    pub entries: u32,
    pub rows: u32,
    pub values: u32,
    pub roots: u32,
    pub protocols: u32,
    pub methods: u32,
    /// The length of the names, in bytes.
    pub names: u32,
    /// The header's last four bytes.
    pub reserved_end: u32,
}

/// A type: its kind, its figure, and what its kind says more.
#[derive(Clone, Copy, PartialEq, Eq, Debug, Drop)]
pub struct Entry {
    pub kind: u8,
    /// 1: optional, 2: strict.
    pub flags: u8,
    /// In bytes.
    pub alignment: u8,
    pub nest: u8,
    /// The inline size, in bytes.
    pub size: u32,
    /// The first row or record of values, or the entry of the elements or of a box's content.
    pub first: u32,
    /// How many rows or records of values there are, or how many elements an array has.
    pub count: u32,
    /// The bound of a string or vector, or the mask of strict bits.
    pub bound: u64,
    /// The object type of a handle, or the number type of bits or an enum.
    pub subtype: u32,
    pub rights: u32,
    /// Where the name begins, from the start of the names.
    pub name_place: u32,
    pub name_length: u32,
}

impl Entry {
    ghost use Rattle.std.specs.Prelude.{IsTrue};
    ghost use Rattle.fidl_table_format.specs.Uses.{is_number};
    ghost use Rattle.fidl_table_format.specs.Entry.{subtype_is};
    ghost use Rattle.fidl_table_format.specs.Terms.{as_number, is_strict, underlying};

    /// Whether the flag of strict types is set.
    pub fn is_strict(&self) -> bool
        ensures { result ≡ is_strict self.now }
    {
        self.flags / 2 % 2 == 1
    }

    /// The kind of the underlying type of bits or an enum; uint8 where the subtype is the number of
    /// no kind.
    pub fn underlying(&self) -> EntryKind
        ensures number { as_number result ≡ underlying self.now }
        ensures kind { IsTrue (subtype_is is_number self.now) → IsTrue (is_number result) }
    {
        match self.subtype {
            2 => EntryKind::Int8,
            3 => EntryKind::Int16,
            4 => EntryKind::Int32,
            5 => EntryKind::Int64,
            7 => EntryKind::Uint16,
            8 => EntryKind::Uint32,
            9 => EntryKind::Uint64,
            _ => EntryKind::Uint8,
        }
    }
}

/// A member of a struct, table or union.
#[derive(Clone, Copy, PartialEq, Eq, Debug, Drop)]
pub struct Row {
    /// A struct member's offset, or the ordinal of a member of a table or union.
    pub key: u32,
    /// The entry of its type.
    pub entry: u32,
    pub name_place: u32,
    pub name_length: u32,
}

/// The values of a strict enum from the lowest to the highest, with both. A record of version 1 is
/// one number, which is both.
#[derive(Clone, Copy, PartialEq, Eq, Debug, Drop)]
pub struct ValueRange {
    /// The ends in 64 bits: a negative number in two's complement.
    pub lowest: u64,
    pub highest: u64,
}

/// A type that a user can name.
#[derive(Clone, Copy, PartialEq, Eq, Debug, Drop)]
pub struct Root {
    pub name_place: u32,
    pub name_length: u32,
    pub entry: u32,
}

/// A protocol: its name, which methods it may have, and how many it has.
#[derive(Clone, Copy, PartialEq, Eq, Debug, Drop)]
pub struct ProtocolRecord {
    pub name_place: u32,
    pub name_length: u32,
    /// 0: closed, 1: ajar, 2: open.
    pub openness: u32,
    pub methods: u32,
}

/// A method of a protocol.
#[derive(Clone, Copy, PartialEq, Eq, Debug, Drop)]
pub struct MethodRecord {
    pub ordinal: u64,
    pub name_place: u32,
    pub name_length: u32,
    /// 1: strict, 2: has a request, 4: has a response.
    pub flags: u32,
    /// The entry of the request's payload, or 0xffffffff.
    pub request: u32,
    /// The entry of the response's payload, or 0xffffffff.
    pub response: u32,
    /// The record's last four bytes.
    pub reserved: u32,
}

impl MethodRecord {
    ghost use Rattle.fidl_table_format.specs.Method.{is_strict, has_request, has_response};

    /// Whether the flag of strict methods is set.
    pub fn is_strict(&self) -> bool
        ensures { result ≡ is_strict self.now }
    {
        self.flags % 2 == 1
    }

    /// Whether the flag of a request is set.
    pub fn has_request(&self) -> bool
        ensures { result ≡ has_request self.now }
    {
        self.flags / 2 % 2 == 1
    }

    /// Whether the flag of a response is set.
    pub fn has_response(&self) -> bool
        ensures { result ≡ has_response self.now }
    {
        self.flags / 4 % 2 == 1
    }
}
