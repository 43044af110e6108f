//! Types and definitions.

/// A type of whole numbers (public source: the FIDL language specification, "Integers").
#[derive(Clone, Copy, Drop)]
pub enum NumberKind {
    Int8,
    Int16,
    Int32,
    Int64,
    Uint8,
    Uint16,
    Uint32,
    Uint64,
}

/// A type as a member has it (public source: the FIDL language specification, "Types"). Bits,
/// enums, structs, tables and unions are definitions, to which a type refers by their number.
#[derive(Drop)]
pub enum Type {
    /// A bool.
    Bool,
    /// A whole number.
    Number(NumberKind),
    /// A handle: whether it may be absent, the object type that it must have (0: any), and the
    /// rights that it must have.
    Handle {
        optional: bool,
        subtype: u32,
        rights: u32,
    },
    /// A string: whether it may be absent, and the greatest number of its bytes.
    Text {
        optional: bool,
        bound: u32,
    },
    /// A vector: whether it may be absent, and the greatest number of its elements.
    Vector {
        optional: bool,
        bound: u32,
        element: Box<Type>,
    },
    /// An array of just this many elements.
    Array {
        element: Box<Type>,
        count: u32,
    },
    /// A box of the definition of this number.
    Box(u32),
    /// The definition of this number.
    Named(u32),
}

/// A member of a struct.
#[derive(Drop)]
pub struct Field {
    /// The name, in the bytes of the source.
    pub name: Vec<u8>,
    /// The type.
    pub of: Type,
}

/// A member of a table or a union.
#[derive(Drop)]
pub struct Row {
    /// The ordinal, by which messages refer to the member.
    pub ordinal: u32,
    /// The name, in the bytes of the source.
    pub name: Vec<u8>,
    /// The type.
    pub of: Type,
}

/// A layout (public source: the FIDL language specification, "Layouts").
#[derive(Drop)]
pub enum Definition {
    /// Bits: the type of their number; where they are strict, the mask of their members.
    Bits {
        kind: NumberKind,
        mask: Option<u64>,
    },
    /// An enum: the type of its number; where it is strict, the numbers of its members.
    Enum {
        kind: NumberKind,
        values: Option<Vec<i128>>,
    },
    /// A struct: its members, in order.
    Struct(Vec<Field>),
    /// A table: its members.
    Table(Vec<Row>),
    /// A union: whether it may be absent, whether it is strict, and its members.
    Union {
        optional: bool,
        strict: bool,
        rows: Vec<Row>,
    },
}
