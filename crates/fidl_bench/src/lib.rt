//! What the bench calls of the decoder, the encoder and the notation, as functions of C
//! (docs/performance.md).
//!
//! A call verifies a table and allocates the decoder's scratch once, and then decodes or writes a
//! message as often as it is asked. So what these two cost is spread over all of them.
#![tactic(auto)]

mod chain;
mod decoding;
mod desk;
mod dumping;
mod encoding;
mod exports;
mod failure;
mod lists;
mod parts;
mod reading;
mod records;
mod room;
mod shape;
mod spelled;
mod strict;
mod tables;
mod texts;
mod unions;
mod wide;
