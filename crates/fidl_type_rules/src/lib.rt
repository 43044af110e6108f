//! Types where they are used: each is proper, and suits the place where it stands
//! (docs/language.md, "Uses of types").
#![tactic(auto)]

mod boxes;
mod checking;
mod fault;
mod judging;
mod known;
mod laws;
mod origins;
mod roles;
mod used;
mod words;
pub mod worked;

pub use checking::check_uses;
pub use fault::UseFault;
pub use laws::refused_uses_break_a_rule;
