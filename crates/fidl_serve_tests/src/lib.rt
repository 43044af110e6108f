//! Tests of services: from the sources of a library, a script and an input to the output
//! (docs/service.md).
//!
//! A case is a line of text, `INPUT -> OUTPUT END`: `cases` says how it is written.
#![tactic(auto)]

#[cfg(test)]
mod calls;
#[cfg(test)]
mod cases;
#[cfg(test)]
mod scripts;
#[cfg(test)]
mod streams;
#[cfg(test)]
mod verdicts;
