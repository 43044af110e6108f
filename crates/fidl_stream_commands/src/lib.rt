//! The commands over streams of frames, as functions over values (docs/program.md).
//!
//! `serve` takes files that were read, a reader of requests and outputs, and answers what happened,
//! from which the exit status follows. `run_serve` reads the files first.
#![tactic(auto)]

mod dump_running;
mod dumping;
pub mod laws;
mod running;
mod serving;
mod telling;
pub mod worked;

pub use crate::dump_running::run_dump;
pub use crate::dumping::{Recorded, dump};
pub use crate::running::run_serve;
pub use crate::serving::{ServedFiles, serve};
