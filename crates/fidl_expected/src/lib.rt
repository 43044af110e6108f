//! Which word was expected where the parser refuses a source (docs/program.md, "compile").
#![tactic(auto)]

mod trying;
mod wanted;

pub use crate::trying::expected;
pub use crate::wanted::Wanted;
