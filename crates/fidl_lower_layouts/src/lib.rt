//! The definitions of layouts and results (docs/language.md, "Definitions").
#![tactic(auto)]

mod definition;
mod laws;
mod members;
mod order;
mod results;
mod scope;
mod values;
pub mod worked;
pub mod worked_members;

pub use definition::{definition_of, definitions};
pub use laws::{the_definition_of_a_form_is_one, the_definitions_of_files_are_one};
pub use members::{fields, rows};
pub use scope::Scope;
