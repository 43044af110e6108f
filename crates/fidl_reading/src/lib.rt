//! From the notation's text to a value (docs/notation.md).
#![tactic(auto)]

mod brackets;
mod classes;
mod code;
mod counted;
mod escapes;
mod fault;
mod hex;
mod indexed_table;
mod key;
mod leaf;
mod lexer;
mod named_rows;
mod number;
mod quoted;
mod raw;
mod reader;
mod reading;
mod struct_name;
mod text;
mod value;
mod word;
mod words;

pub use crate::fault::NotationFault;
pub use crate::hex::hex_of;
pub use crate::number::number_of;
pub use crate::reading::read_value;
pub use crate::text::text_of;
pub use crate::word::{Cut, Word};
pub use crate::words::words_of;
