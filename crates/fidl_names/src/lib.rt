//! The rules of names: libraries of FIDL sources, and that each name in them has its one meaning
//! (docs/language.md, "Names").
#![tactic(auto)]

mod alias_ends;
mod alias_graph;
mod alias_steps;
mod aliases;
mod constraint_names;
mod declaration_numbers;
mod declarations;
mod differ;
mod import_cycles;
mod imports;
mod keeping;
mod laws;
mod library_set;
mod member_lists;
mod member_numbers;
mod outer_types;
mod place_names;
mod resolution;
mod rules;
pub mod worked;

pub use fidl_named::{NameFault, Named, Place};
pub use laws::refused_files_do_not_resolve;
pub use library_set::LibrarySet;
