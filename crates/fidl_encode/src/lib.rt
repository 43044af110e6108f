//! Encoding: the one message of a value of a type, or why the value has none.
#![tactic(auto)]

mod encoding;
mod envelope;
mod fault;
pub mod laws;
mod leaf;
mod list;
mod message;
mod number;
mod shape;
mod structs;
mod target;
mod text;
mod unknown;
mod value;
pub mod worked;

pub use encoding::encode;
pub use fault::EncodeFault;
pub use message::Message;
