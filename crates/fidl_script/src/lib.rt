//! Scripts of services: which replies a service gives, by a text (docs/service.md, "Scripts").
#![tactic(auto)]

mod body;
mod collecting;
mod fault;
mod holding;
pub mod laws;
mod lines;
mod methods;
mod phrases;
mod replies;
mod reply;
mod script;
pub mod worked;

pub use fault::ScriptFault;
pub use replies::Replies;
pub use script::Script;
