//! The terms of types as the compiler holds them: what a definition is written as, one level deep
//! (docs/language.md, "Terms").
#![tactic(auto)]

mod term;
pub mod worked;

pub use term::{Definition, Field, NumberKind, Row, Type};
