//! The terms of types, aliases followed (docs/language.md, "Terms of types").
#![tactic(auto)]

mod answers;
mod arguments;
mod counts;
mod laws;
mod node;
mod numbers;
mod sources;
mod terms;
mod words;
pub mod worked;

pub use answers::{empty_response_number, names_before, result_number};
pub use laws::the_term_of_a_type_is_one;
pub use node::{Node, Shape, head_node, node_of};
pub use numbers::{LayoutNumbers, layout_numbers};
pub use sources::Sources;
pub use terms::{made_of_all, term_of};
