//! The compiler whole: from the sources of libraries to their coding table, or to the refusal of
//! the first stage that refuses them (docs/language.md, "Compiling").
#![tactic(auto)]

mod checking;
mod compiling;
mod fault;
mod laws;
mod refusal;
mod sources;
pub mod worked;

pub use compiling::compile;
pub use fault::CompileFault;
pub use laws::refused_files_break_a_rule;
pub use refusal::Refusal;
