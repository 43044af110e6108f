//! The kinds of types that an entry stands for.
ghost use Rattle.std.specs.Prelude.{◌≡◌};

/// What type an entry stands for (docs/table.md, "Kinds").
#[derive(Clone, Copy, PartialEq, Eq, Debug, Drop)]
pub enum EntryKind {
    Bool,
    Int8,
    Int16,
    Int32,
    Int64,
    Uint8,
    Uint16,
    Uint32,
    Uint64,
    Bits,
    Enum,
    String,
    Vector,
    Array,
    Box,
    Struct,
    Table,
    Union,
    Handle,
}

impl EntryKind {
    ghost use Rattle.fidl_table_format.specs.Kind.{kind_of};

    /// The kind of this number, from 1 on; no other number has a kind.
    #[inline(always)]
    pub fn from_number(number: u8) -> Option<EntryKind>
        ensures { result ≡ kind_of number }
    {
        match number {
            1 => Some(EntryKind::Bool),
            2 => Some(EntryKind::Int8),
            3 => Some(EntryKind::Int16),
            4 => Some(EntryKind::Int32),
            5 => Some(EntryKind::Int64),
            6 => Some(EntryKind::Uint8),
            7 => Some(EntryKind::Uint16),
            8 => Some(EntryKind::Uint32),
            9 => Some(EntryKind::Uint64),
            10 => Some(EntryKind::Bits),
            11 => Some(EntryKind::Enum),
            12 => Some(EntryKind::String),
            13 => Some(EntryKind::Vector),
            14 => Some(EntryKind::Array),
            15 => Some(EntryKind::Box),
            16 => Some(EntryKind::Struct),
            17 => Some(EntryKind::Table),
            18 => Some(EntryKind::Union),
            19 => Some(EntryKind::Handle),
            _ => None,
        }
    }

    /// The kind of the number that an entry's subtype is.
    pub fn from_subtype(subtype: u32) -> Option<EntryKind>
        ensures { result ≡ kind_of subtype }
    {
        match u8::try_from(subtype) {
            Ok(number) => EntryKind::from_number(number),
            Err(_) => None,
        }
    }
}
