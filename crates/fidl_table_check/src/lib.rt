//! Whether the entries of a coding table are just the types of a list, so that a compiler can check
//! the table that it wrote (docs/table.md, "Tables that show their types").
#![tactic(auto)]

mod definition;
mod entries;
mod laws;
mod members;
mod names;
mod part;
mod shape;
mod values;
pub mod worked;

pub use entries::entries_are;
pub use laws::entries_show_their_types;
pub use names::names_are;
