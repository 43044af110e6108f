//! The header of a message: 16 bytes before its body (docs/service.md, "Headers"; public source: the
//! FIDL wire format, "Transactional messages").
#![tactic(auto)]

mod fault;
mod header;
pub mod laws;
pub mod worked;

pub use fault::HeaderFault;
pub use header::{HEADER_BYTES, Header};
