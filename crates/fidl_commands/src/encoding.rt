//! The command `encode`.
ghost use Rattle.std.specs.Prelude.{◌≡◌, ◌≢◌, ◌↔◌, ◌<◌, ◌++◌, Err, None, IsSome, IfOk, IfErr, OnOk};
ghost use Rattle.std.specs.Prelude.{string_bytes};
ghost use Rattle.std.specs.Io.KnownBytes.{Appends};
ghost use Rattle.fidl_table_format.specs.Section.{header_of};
ghost use Rattle.fidl_commands.specs.Decoding.{IsRootOf, HasRoot, LacksRoot, TellsNoRoot, no_memory_line};
ghost use Rattle.fidl_commands.specs.Decoding.{CanEndDecode, CanEndDecodeAs};
ghost use Rattle.fidl_commands.specs.Encoding.{handle_line, message_text, IsMessageOf, IsTextRefusal};
ghost use Rattle.fidl_commands.specs.Encoding.{IsEncodedOf, IsEncodeRefusalOf, CanEndEncoding};
ghost use Rattle.fidl_commands.specs.Encoding.{IsTextLine, IsValueLine};
ghost use Rattle.fidl_commands.specs.Outputs.{AppendsOne, AppendsFrontOfOne, ReportsFailures};
ghost use Rattle.fidl_commands.specs.declared.outcome.Outcome.TheVariants as outcome;

use crate::files::File;
use crate::lines::{
    write_no_memory, write_no_output, write_placeless_refusal, write_refusal, write_text,
    write_unnamed,
};
use crate::naming::{Named, near_name};
use crate::outcome::Outcome;
use crate::verifying::verified;
use fidl_encode::{EncodeFault, Message};
use fidl_reading::{NotationFault, read_value};
use fidl_text::{Failed, Output};
use fidl_verify::Table;
use fidl_wire::HandleInfo;
use std::alloc::{AllocError, Global};
use std::io::Write;

/// The text of a value, and the root of a table whose type it is to be encoded by.
#[derive(Clone, Copy, Debug, Drop)]
pub struct TypedText<'t> {
    pub root: &'t str,
    pub text: &'t [u8],
}

/// Appends the line of a handle.
fn push_handle(alloc: Global, handle: HandleInfo, text: &mut String) -> Result<(), AllocError>
    ensures { OnOk result
        (string_bytes text.new ≡ string_bytes text.old ++ handle_line handle) }
{
    let HandleInfo {
        id,
        object_type,
        rights,
    } = handle;
    let line = format!(in alloc; "handle {id}:{object_type}:{rights}\n")?;
    text.push_str(line.as_str())
}

/// What is printed of a message.
fn message_text(alloc: Global, message: &Message) -> Result<String, AllocError>
    ensures { IfOk result (λ text. string_bytes text
        ≡ message_text message.now.bytes.items message.now.handles.items) }
{
    let mut text = hex::encode(alloc, message.bytes.as_slice())?;
    text.push('\n')?;
    for handle in &message.handles {
        push_handle(alloc, *handle, &mut text)?;
    }
    Ok(text)
}

/// Reports that a text spells no value of the type.
fn refuse_text<E: Write>(fault: &NotationFault, errors: &mut Output<E>) -> Outcome
    ensures ends { CanEndEncoding result }
    ensures refused { result ≡ outcome.Refused → AppendsOne (IsTextLine fault.now)
        (E.contents errors.old.writer) (E.contents errors.new.writer) }
    ensures memory_line { result ≡ outcome.NoMemory
        → Appends (E.contents errors.old.writer) (E.contents errors.new.writer) no_memory_line }
    ensures unwritten { errors.old.failure ≡ None
        → (result ≡ outcome.Unwritten ↔ IsSome errors.new.failure) }
{
    match fault.at() {
        Some(at) => {
            let written = write_refusal(errors, "notation", fault.number(), fault.name(), at);
            Outcome::Refused.where_written(&written)
        }
        None => Outcome::NoMemory.where_written(&write_no_memory(errors)),
    }
}

/// Reports that a value has no message.
fn refuse_value<E: Write>(fault: EncodeFault, errors: &mut Output<E>) -> Outcome
    ensures ends { CanEndEncoding result }
    ensures refused { result ≡ outcome.Refused → AppendsOne (IsValueLine fault)
        (E.contents errors.old.writer) (E.contents errors.new.writer) }
    ensures memory_line { result ≡ outcome.NoMemory
        → Appends (E.contents errors.old.writer) (E.contents errors.new.writer) no_memory_line }
    ensures unwritten { errors.old.failure ≡ None
        → (result ≡ outcome.Unwritten ↔ IsSome errors.new.failure) }
{
    match fault {
        EncodeFault::Memory => Outcome::NoMemory.where_written(&write_no_memory(errors)),
        fault => {
            let written = write_placeless_refusal(errors, "encode", fault.number(), fault.name());
            Outcome::Refused.where_written(&written)
        }
    }
}

/// What is printed of the message that encodes the value which a text spells, as one of the type of
/// an entry; otherwise prints the line of the refusal.
fn encoded<E: Write>(
    alloc: Global,
    table: &Table<'_>,
    entry: u32,
    text: &[u8],
    errors: &mut Output<E>,
) -> Result<String, Outcome>
    requires { entry < (header_of table.now).entries }
    ensures ok { IfOk result (λ printed.
        IsMessageOf table.now entry text.now (string_bytes printed)) }
    ensures kept { OnOk result (errors.new ≡ errors.old) }
    ensures ends { IfErr result CanEndEncoding }
    ensures refused { result ≡ Err outcome.Refused
        → AppendsOne (IsTextRefusal table.now entry text.now)
        (E.contents errors.old.writer) (E.contents errors.new.writer) }
    ensures memory_line { result ≡ Err outcome.NoMemory
        → Appends (E.contents errors.old.writer) (E.contents errors.new.writer) no_memory_line }
    ensures unwritten { IfErr result (λ ended. errors.old.failure ≡ None
        → (ended ≡ outcome.Unwritten ↔ IsSome errors.new.failure)) }
{
    let value = match read_value(alloc, table, entry, text) {
        Ok(value) => value,
        Err(fault) => return Err(refuse_text(&fault, errors)),
    };
    let message = match fidl_encode::encode(alloc, table, entry, &value) {
        Ok(message) => message,
        Err(fault) => return Err(refuse_value(fault, errors)),
    };
    match message_text(alloc, &message) {
        Ok(text) => Ok(text),
        Err(_) => Err(Outcome::NoMemory.where_written(&write_no_memory(errors))),
    }
}

/// Encodes the value of a text by the entry of its root, and prints the message.
fn encode_as<W: Write, E: Write>(
    alloc: Global,
    table: &Table<'_>,
    entry: u32,
    text: &TypedText<'_>,
    out: &mut Output<W>,
    errors: &mut Output<E>,
) -> Outcome
    requires root { IsRootOf table.now text.now.root.now entry }
    requires entry { entry < (header_of table.now).entries }
    ensures ends { CanEndDecodeAs result }
    ensures done { result ≡ outcome.Done → AppendsOne (IsEncodedOf table.now text.now)
        (W.contents out.old.writer) (W.contents out.new.writer) }
    ensures refused { result ≡ outcome.Refused → AppendsOne (IsEncodeRefusalOf table.now text.now)
        (E.contents errors.old.writer) (E.contents errors.new.writer) }
    ensures memory_line { result ≡ outcome.NoMemory
        → Appends (E.contents errors.old.writer) (E.contents errors.new.writer) no_memory_line }
    ensures unwritten { ReportsFailures result out.old.failure out.new.failure
        errors.old.failure errors.new.failure }
    ensures front { result ≡ outcome.Unwritten
        → AppendsFrontOfOne (IsEncodedOf table.now text.now)
        (W.contents out.old.writer) (W.contents out.new.writer) }
    ensures out { result ≢ outcome.Done → result ≢ outcome.Unwritten
        → W.contents out.new.writer ≡ W.contents out.old.writer }
    ensures errors { result ≡ outcome.Done
        → E.contents errors.new.writer ≡ E.contents errors.old.writer }
{
    let printed = match encoded(alloc, table, entry, text.text, errors) {
        Ok(printed) => printed,
        Err(ended) => return ended,
    };
    match write_text(out, printed.as_str()) {
        Ok(()) => Outcome::Done,
        Err(Failed) => Outcome::Unwritten.where_written(&write_no_output(errors, out)),
    }
}

/// Prints the message that encodes the value of a text, by the type of a root of a table: its bytes
/// in hexadecimal digits, and a line for each handle.
///
/// `Done` where all of this stands on `out`; `Refused` where the table is not accepted, the text
/// spells no value of the type, or the value has no message; `NoRoot` where the table has no such
/// root. All but `Done` print one line on `errors`. `Unwritten` comes where a write of this call
/// fails, and `NoMemory` where memory ran out.
pub fn encode<W: Write, E: Write>(
    alloc: Global,
    file: &File<'_>,
    text: &TypedText<'_>,
    out: &mut Output<W>,
    errors: &mut Output<E>,
) -> Outcome
    ensures ends { CanEndDecode result }
    ensures done { result ≡ outcome.Done → AppendsOne (IsEncodedOf file.now.bytes.now text.now)
        (W.contents out.old.writer) (W.contents out.new.writer) }
    ensures refused { result ≡ outcome.Refused
        → AppendsOne (IsEncodeRefusalOf file.now.bytes.now text.now)
        (E.contents errors.old.writer) (E.contents errors.new.writer) }
    ensures no_root { result ≡ outcome.NoRoot
        → LacksRoot file.now.bytes.now text.now.root.now }
    ensures no_root_line { result ≡ outcome.NoRoot
        → TellsNoRoot file.now.bytes.now file.now.name.now text.now.root.now
        (E.contents errors.old.writer) (E.contents errors.new.writer) }
    ensures memory { result ≡ outcome.NoMemory
        → HasRoot file.now.bytes.now text.now.root.now }
    ensures memory_line { result ≡ outcome.NoMemory
        → Appends (E.contents errors.old.writer) (E.contents errors.new.writer) no_memory_line }
    ensures unwritten { ReportsFailures result out.old.failure out.new.failure
        errors.old.failure errors.new.failure }
    ensures front { result ≡ outcome.Unwritten
        → AppendsFrontOfOne (IsEncodedOf file.now.bytes.now text.now)
        (W.contents out.old.writer) (W.contents out.new.writer) }
    ensures out { result ≢ outcome.Done → result ≢ outcome.Unwritten
        → W.contents out.new.writer ≡ W.contents out.old.writer }
    ensures errors { result ≡ outcome.Done
        → E.contents errors.new.writer ≡ E.contents errors.old.writer }
{
    let table = match verified(file.bytes, errors) {
        Ok(table) => table,
        Err(ended) => return ended,
    };
    match table.root(text.root.as_bytes()) {
        Some(entry) => encode_as(alloc, &table, entry, text, out, errors),
        None => {
            let near = near_name(alloc, &table, Named::Roots, text.root);
            let written = write_unnamed(errors, Named::Roots, file.name, text.root, near);
            Outcome::NoRoot.where_written(&written)
        }
    }
}
