//! The limits of messages, types, tables and sources, which both the compiler and the decoder keep
//! (docs/wire.md, "Limits").
#![tactic(auto)]

mod limits;

pub use limits::{
    MAX_DEPTH, MAX_ENTRIES, MAX_INLINE_SIZE, MAX_LAYOUT_MEMBERS, MAX_MESSAGE_BYTES,
    MAX_MESSAGE_HANDLES, MAX_NEST, MAX_SERVICE_READS, MAX_SOURCE_BRACKETS, MAX_TABLE_ORDINAL,
    MAX_TEXT_BRACKETS, SAME_RIGHTS, STACK_PLACES, STEPS_PER_BYTE,
};
