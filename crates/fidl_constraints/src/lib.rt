//! What types are behind their aliases, and what their constraints give (docs/language.md, "Types
//! behind aliases" and "What constraints give").
#![tactic(auto)]

mod alias_laws;
mod aliases;
mod gathering;
mod giving;
mod heads;
mod items;
mod laws;
mod parts;
mod places;
mod targets;
mod type_use;
pub mod worked;
pub mod worked_aliases;

pub use alias_laws::what_a_type_is_behind_its_aliases_is_one;
pub use aliases::behind;
pub use gathering::{Gathered, gather};
pub use giving::amount_of;
pub use heads::{Core, Given, Head};
pub use laws::what_constraints_give_is_one;
pub use parts::{Part, PartKind, Parts};
pub use places::type_span;
pub use targets::{Target, refers_to};
pub use type_use::{TypeUse, use_of};
