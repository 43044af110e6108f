//! The types of files: the one check of all rules of types, which gives each form its definition
//! (docs/language.md, "Checking types").
#![tactic(auto)]

mod checked;
mod checking;
mod definitions;
mod fault;
mod laws;
mod marks;
mod parts;
mod places;
pub mod worked;

pub use checked::Types;
pub use checking::check;
pub use fault::TypeFault;
pub use laws::{definitions_exist, refused_types_break_a_rule, the_types_of_files_are_one};
pub use places::place_of;
