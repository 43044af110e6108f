//! Printing what calls answered.

use fidl_text::Output;
use std::io::Write;

/// A call was refused, or the output has failed: no more calls are made in this round.
#[derive(Clone, Copy, Debug, Drop)]
pub(crate) struct Stop;

/// Prints what a call answered.
fn tell<W: Write>(out: &mut Output<W>, call: &str, answer: &str) -> Result<(), Stop> {
    match writeln!(out, "{call}: {answer}") {
        Ok(()) => Ok(()),
        Err(_) => Err(Stop),
    }
}

/// Prints that a call was done.
pub(crate) fn done<W: Write>(out: &mut Output<W>, call: &str) -> Result<(), Stop> {
    tell(out, call, "ok")
}

/// Prints with which fault a call was refused.
pub(crate) fn refused<W: Write>(out: &mut Output<W>, call: &str, fault: &str) -> Stop {
    match tell(out, call, fault) {
        Ok(()) => Stop,
        Err(stop) => stop,
    }
}
