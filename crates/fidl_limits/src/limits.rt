//! The limits of messages and types (docs/wire.md, "Limits").

/// The greatest length of a message, in bytes.
pub const MAX_MESSAGE_BYTES: usize = 16_777_216;

/// The greatest number of handles beside a message.
pub const MAX_MESSAGE_HANDLES: usize = 64;

/// The greatest depth of a value: how many out-of-line objects lie behind one another.
pub const MAX_DEPTH: usize = 32;

/// The greatest nest of a type: how many structs and arrays stand in one another inline.
pub const MAX_NEST: usize = 32;

/// The greatest inline size of a type, in bytes.
pub const MAX_INLINE_SIZE: usize = 65_535;

/// The greatest number of members of one layout: of a struct, table, union, bits or enum.
pub const MAX_LAYOUT_MEMBERS: u32 = 65_535;

/// The greatest ordinal of a table's member.
pub const MAX_TABLE_ORDINAL: u32 = 64;

/// The greatest number of entries of a coding table, one for each type.
pub const MAX_ENTRIES: u32 = 65_535;

/// The greatest number of `(`, `{` and `<` that are open at once in a FIDL source.
pub const MAX_SOURCE_BRACKETS: usize = 64;

/// The greatest number of brackets that are open at once in the written text of a value.
pub const MAX_TEXT_BRACKETS: usize = 4_096;

/// The greatest number of reads that the service makes of its input.
pub const MAX_SERVICE_READS: u64 = 4_294_967_296;

/// The places of the decoder's stack.
pub const STACK_PLACES: usize = 2_178;

/// The decoder takes at most this many steps for each byte of a message, and once more.
pub const STEPS_PER_BYTE: u64 = 256;

/// The rights of a handle type that takes whatever rights came (`ZX_RIGHT_SAME_RIGHTS`).
pub const SAME_RIGHTS: u32 = 0x8000_0000;
