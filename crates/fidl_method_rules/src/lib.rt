//! What a method of a protocol says by itself: whether it may stand there, and its ordinal
//! (docs/language.md, "Methods").
#![tactic(auto)]

mod fault;
mod full_name;
mod laws;
mod member;
mod methods;
mod selector;
mod texts;
pub mod worked;

pub use fault::MethodFault;
pub use full_name::{declared_name, method_full_name};
pub use laws::{refused_methods_break_a_rule, the_ordinal_of_a_method_is_one};
pub use methods::{OwnMethod, own_methods};
