//! The command `decode`.
ghost use Rattle.std.specs.Prelude.{◌≡◌, ◌≢◌, ◌<◌};
ghost use Rattle.std.specs.Io.KnownBytes.{Appends};
ghost use Rattle.fidl_table_format.specs.Section.{header_of};
ghost use Rattle.fidl_commands.specs.Decoding.{IsRootOf, HasRoot, LacksRoot, IsTextOf, IsRefusalOf};
ghost use Rattle.fidl_commands.specs.Decoding.{CanEndDecode, CanEndDecodeAs, TellsNoRoot};
ghost use Rattle.fidl_commands.specs.Decoding.{no_memory_line};
ghost use Rattle.fidl_commands.specs.Outputs.{AppendsOne, AppendsFrontOfOne, ReportsFailures};
ghost use Rattle.fidl_commands.specs.declared.outcome.Outcome.TheVariants as outcome;

use crate::files::File;
use crate::lines::{write_no_memory, write_no_output, write_refusal, write_unnamed};
use crate::naming::{Named, near_name};
use crate::outcome::Outcome;
use crate::verifying::verified;
use fidl_decode::Scratch;
use fidl_text::{Failed, Output, write_message};
use fidl_verify::Table;
use fidl_wire::HandleInfo;
use std::alloc::Global;
use std::io::Write;

/// A message, and the root of a table whose type it is to be decoded by, in its own bytes.
#[derive(Drop)]
pub struct TypedMessage<'m> {
    pub root: &'m str,
    pub bytes: &'m mut [u8],
    pub handles: &'m [HandleInfo],
}

/// Decodes a message by the entry of its root, and prints the text of the value that it encodes.
fn decode_as<W: Write, E: Write>(
    alloc: Global,
    table: &Table<'_>,
    entry: u32,
    message: TypedMessage<'_>,
    out: &mut Output<W>,
    errors: &mut Output<E>,
) -> Outcome
    requires root { IsRootOf table.now message.root.now entry }
    requires entry { entry < (header_of table.now).entries }
    ensures ends { CanEndDecodeAs result }
    ensures done { result ≡ outcome.Done → AppendsOne (IsTextOf table.now message.entry)
        (W.contents out.old.writer) (W.contents out.new.writer) }
    ensures refused { result ≡ outcome.Refused → AppendsOne (IsRefusalOf table.now message.entry)
        (E.contents errors.old.writer) (E.contents errors.new.writer) }
    ensures memory_line { result ≡ outcome.NoMemory
        → Appends (E.contents errors.old.writer) (E.contents errors.new.writer) no_memory_line }
    ensures unwritten { ReportsFailures result out.old.failure out.new.failure
        errors.old.failure errors.new.failure }
    ensures front { result ≡ outcome.Unwritten
        → AppendsFrontOfOne (IsTextOf table.now message.entry)
        (W.contents out.old.writer) (W.contents out.new.writer) }
    ensures out { result ≢ outcome.Done → result ≢ outcome.Unwritten
        → W.contents out.new.writer ≡ W.contents out.old.writer }
    ensures errors { result ≡ outcome.Done
        → E.contents errors.new.writer ≡ E.contents errors.old.writer }
{
    let mut scratch = match Scratch::new(alloc) {
        Ok(scratch) => scratch,
        Err(_) => return Outcome::NoMemory.where_written(&write_no_memory(errors)),
    };
    let TypedMessage {
        root: _root,
        bytes,
        handles,
    } = message;
    let decoded = match fidl_decode::decode(table, entry, bytes, handles, &mut scratch) {
        Ok(decoded) => decoded,
        Err(fault) => {
            let written = write_refusal(errors, "decode", fault.number(), fault.name(), fault.at());
            return Outcome::Refused.where_written(&written);
        }
    };
    match write_message(&decoded, out) {
        Ok(()) => Outcome::Done,
        Err(Failed) => Outcome::Unwritten.where_written(&write_no_output(errors, out)),
    }
}

/// Prints the text of the value that a message encodes, by the type of a root of a table.
///
/// `Done` where all of the text stands on `out`; `Refused` where the table is not accepted, or the
/// message encodes no value of the type; `NoRoot` where the table has no such root. All but `Done`
/// print one line on `errors`. `Unwritten` comes where a write of this call fails, and `NoMemory`
/// where memory ran out.
pub fn decode<W: Write, E: Write>(
    alloc: Global,
    file: &File<'_>,
    message: TypedMessage<'_>,
    out: &mut Output<W>,
    errors: &mut Output<E>,
) -> Outcome
    ensures ends { CanEndDecode result }
    ensures done { result ≡ outcome.Done → AppendsOne (IsTextOf file.now.bytes.now message.entry)
        (W.contents out.old.writer) (W.contents out.new.writer) }
    ensures refused { result ≡ outcome.Refused
        → AppendsOne (IsRefusalOf file.now.bytes.now message.entry)
        (E.contents errors.old.writer) (E.contents errors.new.writer) }
    ensures no_root { result ≡ outcome.NoRoot
        → LacksRoot file.now.bytes.now message.entry.root.now }
    ensures no_root_line { result ≡ outcome.NoRoot
        → TellsNoRoot file.now.bytes.now file.now.name.now message.entry.root.now
        (E.contents errors.old.writer) (E.contents errors.new.writer) }
    ensures memory { result ≡ outcome.NoMemory
        → HasRoot file.now.bytes.now message.entry.root.now }
    ensures memory_line { result ≡ outcome.NoMemory
        → Appends (E.contents errors.old.writer) (E.contents errors.new.writer) no_memory_line }
    ensures unwritten { ReportsFailures result out.old.failure out.new.failure
        errors.old.failure errors.new.failure }
    ensures front { result ≡ outcome.Unwritten
        → AppendsFrontOfOne (IsTextOf file.now.bytes.now message.entry)
        (W.contents out.old.writer) (W.contents out.new.writer) }
    ensures out { result ≢ outcome.Done → result ≢ outcome.Unwritten
        → W.contents out.new.writer ≡ W.contents out.old.writer }
    ensures errors { result ≡ outcome.Done
        → E.contents errors.new.writer ≡ E.contents errors.old.writer }
{
    let table = match verified(file.bytes, errors) {
        Ok(table) => table,
        Err(ended) => return ended,
    };
    match table.root(message.root.as_bytes()) {
        Some(entry) => decode_as(alloc, &table, entry, message, out, errors),
        None => {
            let near = near_name(alloc, &table, Named::Roots, message.root);
            let written = write_unnamed(errors, Named::Roots, file.name, message.root, near);
            Outcome::NoRoot.where_written(&written)
        }
    }
}
