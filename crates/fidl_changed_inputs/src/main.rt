//! Gives cut and changed inputs to the calls of the library, and prints which kinds are done
//! (docs/checking.md, "The gate").
//!
//! A source, coding tables, a message, a text, a script and a stream are cut at each length. All
//! but the source get each of their bytes changed to each value, and a stream each bit turned. Each
//! call has to return. Its contract says what it answers. A cut table or message has to be refused.
#![tactic(auto)]

mod changing;
mod giving;
mod inputs;

use crate::changing::{try_changes, try_cuts};
use crate::giving::{Desk, Kind};
use crate::inputs::{
    FIRST_VERSION, MESSAGES, SCRIPT, SOURCE, TEXT, migrated_table, stream_of, table_of,
};
use fidl_decode::Scratch;
use fidl_text::Output;
use fidl_verify::verify;
use std::alloc::Global;
use std::io::Write;

/// A call that did not answer as it has to, or lacked memory; or the output has failed.
#[derive(Clone, Copy, Debug, Drop)]
pub(crate) struct Stop;

/// Prints that the inputs of a kind were given.
fn done<W: Write>(out: &mut Output<W>, kind: &str) -> Result<(), Stop> {
    match writeln!(out, "{kind}: done") {
        Ok(()) => Ok(()),
        Err(_) => Err(Stop),
    }
}

/// Gives an input cut at each length, and then with each byte changed.
fn try_input<W: Write>(
    desk: &mut Desk<'_, '_>,
    kind: Kind,
    input: &[u8],
    out: &mut Output<W>,
) -> Result<(), Stop> {
    try_cuts(desk, kind, input)?;
    try_changes(desk, kind, input)?;
    done(out, kind.name())
}

/// Gives each message cut at each length, and with each byte changed.
fn try_messages(desk: &mut Desk<'_, '_>) -> Result<(), Stop> {
    for worked in &MESSAGES {
        desk.worked = *worked;
        try_cuts(desk, Kind::Message, worked.bytes)?;
        try_changes(desk, Kind::Message, worked.bytes)?;
    }
    Ok(())
}

/// Gives a table of version 1, and what it is migrated to.
fn try_versions<W: Write>(desk: &mut Desk<'_, '_>, out: &mut Output<W>) -> Result<(), Stop> {
    let migrated = migrated_table(desk.alloc)?;
    for table in [FIRST_VERSION, migrated.as_slice()] {
        try_cuts(desk, Kind::Table, table)?;
        try_changes(desk, Kind::Table, table)?;
    }
    done(out, "versions")
}

/// Gives all inputs.
fn try_all<W: Write>(alloc: Global, out: &mut Output<W>) -> Result<(), Stop> {
    let bytes = table_of(alloc)?;
    let (Ok(table), Ok(scratch)) = (verify(&bytes), Scratch::new(alloc)) else {
        return Err(Stop);
    };
    let stream = stream_of(alloc, &table)?;
    let mut desk = Desk {
        alloc,
        table: &table,
        scratch,
        worked: MESSAGES[0],
    };
    try_cuts(&mut desk, Kind::Source, SOURCE)?;
    done(out, Kind::Source.name())?;
    try_input(&mut desk, Kind::Table, &bytes, out)?;
    try_versions(&mut desk, out)?;
    try_messages(&mut desk)?;
    done(out, Kind::Message.name())?;
    try_input(&mut desk, Kind::Text, TEXT, out)?;
    try_input(&mut desk, Kind::Script, SCRIPT, out)?;
    try_input(&mut desk, Kind::Stream, &stream, out)
}

fn main(rt: HostRuntime) {
    let mut out = Output::new(rt.stdout());
    if try_all(rt.alloc(), &mut out).is_err() {
        match writeln!(out, "failed") {
            Ok(()) | Err(_) => {}
        }
    }
}
