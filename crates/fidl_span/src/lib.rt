//! The words of a FIDL source: what a source is cut into, where it can't be cut, and the line and
//! column of a place in it.
//!
//! The rules are those of the lexical part of the FIDL language specification; `docs/language.md`
//! states them.
#![tactic(auto)]

mod classes;
mod escapes;
mod faults;
mod gaps;
mod laws;
mod lexer;
mod lines;
mod literals;
mod names;
mod symbols;
mod words;

pub use faults::LexFault;
pub use laws::words_are_unique;
pub use lexer::lex;
pub use lines::line_col;
pub use words::{Span, Tokens, Word, WordKind};
