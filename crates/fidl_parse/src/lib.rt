//! From the words of a FIDL source to its syntax tree.
//!
//! The grammar is that of the FIDL language specification, as `docs/language.md` states it.
#![tactic(auto)]

mod attribute;
mod constraint;
mod declaration;
mod fault;
mod file;
mod keyword;
mod nesting;
mod parser;
mod path;
mod protocol;
mod reading;
mod type_constructor;
mod value;
mod value_member;

pub use fault::ParseFault;
pub use reading::parse;
