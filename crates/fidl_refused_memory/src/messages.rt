//! The calls that read, encode and decode values.
ghost use Rattle.std.specs.Prelude.{◌<◌};
ghost use Rattle.fidl_table_format.specs.Section.{header_of};

use crate::telling::{Stop, done, refused};
use fidl_decode::{Decoded, Scratch, decode};
use fidl_encode::{Message, encode};
use fidl_reading::read_value;
use fidl_relay::relay;
use fidl_text::Output;
use fidl_verify::Table;
use fidl_view::Views;
use std::alloc::Global;
use std::io::Write;

/// A value of the type, as a text.
const TEXT: &[u8] = b"{s: \"abc\", v: [1, 2, 3]}";

/// The message of a value that a text spells.
fn message_of<W: Write>(
    alloc: Global,
    table: &Table<'_>,
    entry: u32,
    out: &mut Output<W>,
) -> Result<Message, Stop>
    requires { entry < (header_of table.now).entries }
{
    let value = match read_value(alloc, table, entry, TEXT) {
        Ok(value) => value,
        Err(fault) => return Err(refused(out, "read_value", fault.name())),
    };
    done(out, "read_value")?;
    match encode(alloc, table, entry, &value) {
        Ok(message) => {
            done(out, "encode")?;
            Ok(message)
        }
        Err(fault) => Err(refused(out, "encode", fault.name())),
    }
}

/// Takes a decoded message as an owned value, and encodes it again.
fn send_on<W: Write>(
    alloc: Global,
    decoded: &Decoded<'_, '_, '_>,
    out: &mut Output<W>,
) -> Result<(), Stop> {
    match decoded.view().to_value(alloc) {
        Ok(_value) => done(out, "to_value")?,
        Err(_) => return Err(refused(out, "to_value", "Memory")),
    }
    match relay(alloc, decoded) {
        Ok(_message) => done(out, "relay"),
        Err(_) => Err(refused(out, "relay", "Memory")),
    }
}

/// Reads, encodes, decodes and relays a value of the table's root `s/T`.
pub(crate) fn round_trip<W: Write>(
    alloc: Global,
    table: &Table<'_>,
    out: &mut Output<W>,
) -> Result<(), Stop> {
    let Some(entry) = table.root(b"s/T") else {
        return Err(refused(out, "root", "none"));
    };
    let mut message = message_of(alloc, table, entry, out)?;
    let mut scratch = match Scratch::new(alloc) {
        Ok(scratch) => scratch,
        Err(_) => return Err(refused(out, "Scratch::new", "Memory")),
    };
    done(out, "Scratch::new")?;
    match decode(
        table,
        entry,
        &mut message.bytes,
        &message.handles,
        &mut scratch,
    ) {
        Ok(decoded) => {
            done(out, "decode")?;
            send_on(alloc, &decoded, out)
        }
        Err(fault) => Err(refused(out, "decode", fault.name())),
    }
}
