//! Checked protocols: the methods of each protocol, composed ones too, where the files keep all
//! rules of the language (docs/language.md, "Checked protocols").
#![tactic(auto)]

mod alike;
mod checked;
mod checking;
mod declaring;
mod fault;
mod gathered;
mod laws;
mod method;
mod names;
mod ordinals;
mod parts;
mod protocol_list;
mod starts;
mod types;
pub mod worked;

pub use checked::Checked;
pub use checking::protocols;
pub use fault::ProtocolFault;
pub use laws::refused_protocols_break_a_rule;
pub use method::{Method, Protocol};
