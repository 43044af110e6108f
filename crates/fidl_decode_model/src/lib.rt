//! What decoding means: messages in which values stand, what each refusal says of one, and what the
//! frames of a decoder still have to read.
#![tactic(auto)]

mod fault;
pub mod frame;
pub mod laws;
pub mod worked;

pub use fault::DecodeFault;
