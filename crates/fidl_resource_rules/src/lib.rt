//! Resource definitions: each is of uint32, with a subtype and perhaps rights (docs/language.md,
//! "Resource definitions").
#![tactic(auto)]

mod checking;
mod fault;
mod kinds;
mod laws;
mod properties;
pub mod worked;

pub use checking::check_resources;
pub use fault::ResourceFault;
pub use laws::refused_resources_break_a_rule;
