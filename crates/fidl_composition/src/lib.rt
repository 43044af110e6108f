//! Compositions: which protocols each protocol is composed of (docs/language.md, "Compositions").
#![tactic(auto)]

mod composing;
mod cycle;
mod fault;
mod found;
mod graph;
mod laws;
mod names;
mod openness;
mod points;
mod protocol_set;
mod protocols;
mod way;
mod whole;
pub mod worked;

pub use fault::ComposeFault;
pub use laws::{refused_compositions_break_a_rule, the_protocols_of_files_are_one};
pub use protocol_set::Compositions;
pub use way::way_to;
pub use whole::compositions;
