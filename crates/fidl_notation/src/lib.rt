//! The notation of values: writes the text of a value that a view shows, and reads it back
//! (docs/notation.md).
#![tactic(auto)]

mod dumping;
mod fault;
mod printer;
mod quoted;
mod unknown;

pub use crate::dumping::dump;
pub use crate::fault::WriteFault;
