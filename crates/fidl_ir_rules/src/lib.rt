//! Rules over definitions: only resources hold handles, and no struct stands in itself
//! (docs/language.md, "Rules of definitions").
#![tactic(auto)]

mod check;
mod fault;
mod inline;
pub mod laws;
mod mark;
mod resources;
pub mod worked;

pub use check::check_definitions;
pub use fault::DefinitionFault;
pub use mark::Mark;
