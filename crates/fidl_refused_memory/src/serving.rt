//! The calls of a service.

use crate::telling::{Stop, done, refused};
use fidl_script::Script;
use fidl_serve::{serve, serve_within};
use fidl_streams::Counted;
use fidl_text::Output;
use fidl_verify::Table;
use std::alloc::Global;
use std::io::Write;

/// A script for the protocol of the table.
const SCRIPT: &[u8] = b"protocol s/P\nreply s/P.Get {v: 9}\n";

/// How many reads a service without requests needs at most.
const READS: u64 = 4;

/// Reads a script, and serves an empty input by it.
pub(crate) fn serve_once<W: Write>(
    alloc: Global,
    table: &Table<'_>,
    out: &mut Output<W>,
) -> Result<(), Stop> {
    let script = match Script::read(alloc, table, SCRIPT) {
        Ok(script) => script,
        Err(fault) => return Err(refused(out, "Script::read", fault.name())),
    };
    done(out, "Script::read")?;
    let mut reader = Counted::new(b"".as_slice());
    let mut writer = Counted::new(Vec::new(alloc));
    match serve(alloc, table, &script, &mut reader, &mut writer) {
        Ok(_ended) => done(out, "serve")?,
        Err(fault) => return Err(refused(out, "serve", fault.name())),
    }
    match serve_within(alloc, table, &script, &mut reader, &mut writer, READS) {
        Ok(_ended) => done(out, "serve_within"),
        Err(fault) => Err(refused(out, "serve_within", fault.name())),
    }
}
