//! The values of FIDL's constants, for the crates that ask (docs/language.md, "Constants").
//! `fidl_const` evaluates them and checks the places that owe values.
#![tactic(auto)]

mod const_type;
mod const_value;
pub mod constraints;
mod consts;
mod fault;
mod for_types;
pub mod found;
pub mod layouts;
pub mod names;
pub mod nodes;
mod numbers;
pub mod places;
mod reading;
pub mod scope;
mod strings;
pub mod types;
pub mod values;

pub use const_type::{BitsOrEnum, ConstType, NumberKind};
pub use const_value::ConstValue;
pub use consts::{Consts, Entry, Limits, node_number};
pub use fault::{ConstFault, is_memory};
pub use for_types::{Constraint, underlying_kind};
pub use numbers::number_value;
pub use strings::string_bytes;
