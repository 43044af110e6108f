//! Types of two declarations that are alike level by level: they have the same values, with the same
//! encodings, depths and texts (docs/wire.md, "Alike types").
#![tactic(auto)]

mod laws;
pub mod worked;

pub use laws::{alike_types_are_one, numbered_types_are_alike, one_type_has_the_same_messages};
