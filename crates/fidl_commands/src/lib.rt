//! The commands over tables and messages, as functions over values (docs/program.md).
//!
//! `decode`, `encode`, `table` and `explain` each take files, arguments that were read already, and
//! outputs, and answer what happened, from which the exit status follows. `run_decode`, `run_encode`,
//! `run_table` and `run_explain` read first what their arguments name. `run_migrate` reads one file
//! and writes another, and `summarize` prints what a written table holds.
#![tactic(auto)]

mod contents;
mod decoding;
mod encoding;
mod explaining;
mod files;
mod lines;
mod listing;
mod migrating;
mod naming;
mod outcome;
mod running;
mod summary;
mod telling;
mod verifying;
pub mod worked;

pub use crate::contents::file_bytes;
pub use crate::decoding::{TypedMessage, decode};
pub use crate::encoding::{TypedText, encode};
pub use crate::explaining::explain;
pub use crate::files::{File, Files};
pub use crate::lines::{
    write_no_memory, write_no_output, write_placeless_refusal, write_refusal, write_unnamed,
};
pub use crate::listing::table;
pub use crate::migrating::run_migrate;
pub use crate::naming::{Named, near_name};
pub use crate::outcome::{Outcome, Status};
pub use crate::running::{run_decode, run_encode, run_explain, run_table};
pub use crate::summary::summarize;
pub use crate::telling::{tell, tell_no_file};
pub use crate::verifying::verified;
