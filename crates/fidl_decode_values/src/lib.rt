//! What the decoder reads at one place of a message: numbers, texts, handles, markers, envelopes,
//! and what it passes over.
#![tactic(auto)]

mod body;
mod boxes;
mod decoder;
mod envelopes;
mod flat;
mod handles;
mod leaf;
mod markers;
mod passing;
mod passing_structs;
mod passing_texts;
mod passing_values;
mod plain;
mod reading;
mod tables;
mod texts;
mod unions;
mod vectors;
mod visit;
pub mod worked;

pub use decoder::Decoder;
pub use passing_structs::FreeStruct;
pub use plain::{Plain, rows_from};
pub use tables::envelopes_left;
