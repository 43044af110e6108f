//! The evaluation of FIDL's constants (docs/language.md, "Constants").
#![tactic(auto)]

mod bounds;
mod constants;
mod constraints;
mod evaluation;
mod graph;
mod laws;
mod nodes;
mod order;
mod places;
pub mod worked;

pub use evaluation::evaluate;
pub use fidl_consts::{ConstFault, Consts};
pub use laws::{
    only_bounds_of_strings_are_read, refused_expressions_have_no_value,
    refused_files_do_not_evaluate, values_are_unique, values_end_with_their_last_operand,
};
