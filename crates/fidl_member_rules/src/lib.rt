//! The rules of members: ordinals, numbers of bits and enums, strict layouts and attributes
//! (docs/language.md, "Rules of layouts" and "Numbers of members").
#![tactic(auto)]

mod fault;
mod laws;
mod numbers;
mod ordinals;
mod profile;
mod rules;
mod strict;
mod value_fault;
mod value_laws;
mod value_rules;
pub mod worked_rules;
pub mod worked_values;

pub use fault::RuleFault;
pub use laws::refused_files_break_a_rule;
pub use numbers::{ValueScope, member_numbers};
pub use profile::only_string;
pub use rules::check_layouts;
pub use strict::is_strict_union;
pub use value_fault::ValuesFault;
pub use value_laws::refused_values_break_a_rule;
pub use value_rules::check_values;
