//! Text as the program `fidl` writes it: a decoded value, the records of a coding table, and lines
//! of words.
//!
//! An `Output` is a writer that keeps the error it has failed with. Each function writes to one,
//! and its contract says which bytes the writer has got.
#![tactic(auto)]

mod hex;
mod listing;
mod message;
mod output;
mod quoted;
mod words;
pub mod worked;

pub use crate::listing::write_records;
pub use crate::message::write_message;
pub use crate::output::Output;
pub use crate::quoted::{write_decimal, write_quoted};
pub use crate::words::{Word, write_words};
pub use fidl_streams::Failed;
