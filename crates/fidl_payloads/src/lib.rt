//! Payloads: what the request and the response of a method carry (docs/language.md, "Payloads").
#![tactic(auto)]

mod fault;
mod kinds;
mod laws;
mod members;
mod parts;
mod payload;
pub mod worked;

pub use fault::PayloadFault;
pub use laws::{
    declared_members_are_members, payloads_are_defined, refused_payloads_break_a_rule,
    the_payloads_of_a_method_are_one,
};
pub use members::payloads;
pub use payload::{Payload, Payloads};
