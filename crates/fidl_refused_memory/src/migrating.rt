//! The call that migrates a table.

use crate::telling::{Stop, done, refused};
use fidl_migrate::migrate;
use fidl_text::Output;
use fidl_verify::verify;
use std::alloc::Global;
use std::io::Write;

/// A table of version 1, of a strict enum with the values 1, 2 and 4: its header, its entry, its
/// values, and its root with the names.
const TABLE: &[u8] =
    b"FCT2\x01\0\0\0\x01\0\0\0\0\0\0\0\x03\0\0\0\x01\0\0\0\0\0\0\0\0\0\0\0\x06\0\0\0\0\0\0\0\
    \x0b\x02\x04\0\x04\0\0\0\0\0\0\0\x03\0\0\0\0\0\0\0\0\0\0\0\x08\0\0\0\0\0\0\0\0\0\0\0\x03\0\0\0\
    \x01\0\0\0\0\0\0\0\x02\0\0\0\0\0\0\0\x04\0\0\0\0\0\0\0\
    \x03\0\0\0\x03\0\0\0\0\0\0\0e/Ee/E";

/// Migrates the table to version 2.
pub(crate) fn migrate_once<W: Write>(alloc: Global, out: &mut Output<W>) -> Result<(), Stop> {
    let table = match verify(TABLE) {
        Ok(table) => table,
        Err(fault) => return Err(refused(out, "verify", fault.name())),
    };
    match migrate(alloc, &table) {
        Ok(_bytes) => done(out, "migrate"),
        Err(_) => Err(refused(out, "migrate", "Memory")),
    }
}
