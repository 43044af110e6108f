//! The commands of the program `fidl`, as functions over values (docs/program.md).
//!
//! `compile` is the command over sources: the table that it gives is written before `summarize`
//! prints what it holds. The commands over tables and messages come from `fidl_commands`. `run`
//! reads a command line and runs its command; `run_on_host` is the whole program.
#![tactic(auto)]

mod compiling;
mod host;
mod program;
mod sources;
pub mod worked;

pub use crate::compiling::compile;
pub use crate::host::{Ran, run_on_host};
pub use crate::program::run;
pub use fidl_command_line::{Listing, read_handle};
pub use fidl_commands::{
    File, Files, Outcome, Status, TypedMessage, TypedText, decode, encode, explain, summarize,
    table,
};
pub use fidl_hints::{Explanation, Faults};
pub use fidl_text::{Failed, Output};
