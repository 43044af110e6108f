//! The types of a coding table's entries: all that its roots reach (docs/language.md, "Types of a
//! table").
#![tactic(auto)]

mod fault;
mod keys;
pub mod laws;
mod list;
mod reach;
pub mod worked;

pub use fault::EntryFault;
pub use list::{TypeList, TypeRef};
pub use reach::reached_types;
