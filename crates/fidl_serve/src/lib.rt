//! A service over frames: it reads requests from a source, and writes the replies of a script to a
//! sink (docs/service.md, "Answers", "Output and ends").
#![tactic(auto)]

mod answer;
mod call;
mod fault;
mod frame;
pub mod laws;
mod method;
mod service;
mod serving;
pub mod worked;

pub use fault::ServeFault;
pub use serving::{serve, serve_within};
