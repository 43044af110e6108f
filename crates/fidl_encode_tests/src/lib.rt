//! Tests of the encoder's public calls: worked messages, values of wrong shapes, and each limit.
//!
//! A case is a line of text, `ENTRY VALUE -> ANSWER`: `trees` says how a value is written, and
//! `cases` has the table and the answers.
#![tactic(auto)]

#[cfg(test)]
mod answers;
#[cfg(test)]
mod cases;
#[cfg(test)]
mod trees;
