//! What the words of a command line of the program `fidl` give (docs/program.md, "Commands").
//!
//! `read_arguments` reads the words by `clap`'s rules, and gives a command with its arguments, or
//! why there are none.
#![tactic(auto)]

mod arguments;
mod command_line;
mod content;
mod handle;
mod named;
mod streams;
mod unread;
pub mod worked;

pub use crate::arguments::{
    Arguments, CompileArguments, DecodeArguments, EncodeArguments, Listing, MigrateArguments,
    TableArguments, read_arguments,
};
pub use crate::content::{Content, Message, Stored, content_of, message_bytes};
pub use crate::handle::read_handle;
pub use crate::streams::{DumpArguments, ServeArguments};
pub use crate::unread::Unread;
