//! The FIDL wire format, version 2: the owned tree of a value, the limits of a message, and the
//! definitions and laws that all readers and writers of messages use (`specs/`, docs/wire.md).
#![tactic(auto)]

mod bytes;
mod envelope;
mod field;
mod handle;
pub mod laws;
mod marker;
pub mod refused;
mod value;
pub mod worked;

pub use bytes::Bytes;
pub use envelope::{EnvelopeContent, byte_count_at, content_at, flags_at, handle_count_at};
pub use fidl_limits::{
    MAX_DEPTH, MAX_ENTRIES, MAX_INLINE_SIZE, MAX_LAYOUT_MEMBERS, MAX_MESSAGE_BYTES,
    MAX_MESSAGE_HANDLES, MAX_NEST, MAX_SERVICE_READS, MAX_SOURCE_BRACKETS, MAX_TABLE_ORDINAL,
    MAX_TEXT_BRACKETS, SAME_RIGHTS, STACK_PLACES, STEPS_PER_BYTE,
};
pub use field::{u16_at, u32_at, u64_at};
pub use handle::{HandleInfo, Handles};
pub use marker::{Presence, presence_at};
pub use value::{Content, Member, Members, Value, Values};
