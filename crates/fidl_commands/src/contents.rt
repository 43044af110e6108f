//! What an argument names in place of its text: a file, or the standard input.
ghost use Rattle.std.specs.Prelude.{◌≡◌, ◌↔◌, None, Ok, Err, IfOk, IfErr, OnOk, IfSome, IsSome};
ghost use Rattle.std.specs.Io.KnownBytes.{Appends};
ghost use Rattle.fidl_command_line.specs.Contents.{message_of};
ghost use Rattle.fidl_commands.specs.Contents.{HoldsBytes, IsStoredMissing, IsGivenBytes, HasNoBytes};
ghost use Rattle.fidl_commands.specs.Contents.{LacksContent, IsNoMessage, CanEndHeld, CanEndGiven};
ghost use Rattle.fidl_commands.specs.Contents.{IsGivenText, LacksText, CanEndReading};
ghost use Rattle.fidl_commands.specs.Decoding.{no_memory_line};
ghost use Rattle.fidl_commands.specs.Files.{IsMissing};
ghost use Rattle.fidl_commands.specs.declared.outcome.Outcome.TheVariants as outcome;

use crate::files::Files;
use crate::lines::{write_line, write_no_memory};
use crate::outcome::Outcome;
use crate::telling::tell_no_file;
use fidl_command_line::{Content, Message, Stored, Unread, message_bytes};
use fidl_text::Output;
use std::alloc::Global;
use std::io::Write;

/// The bytes of a file, which is named where it cannot be read.
pub fn file_bytes<F: Files, E: Write>(
    alloc: Global,
    name: &str,
    files: &F,
    errors: &mut Output<E>,
) -> Result<Vec<u8>, Outcome>
    ensures bytes { IfOk result (λ read. IfSome (F.bytes_of files.now name.now)
        (λ bytes. read.items ≡ bytes)) }
    ensures kept { OnOk result (errors.new ≡ errors.old) }
    ensures ends { IfErr result CanEndReading }
    ensures no_file { result ≡ Err outcome.NoFile → IsMissing (F.bytes_of files.now) name.now
        (E.contents errors.old.writer) (E.contents errors.new.writer) }
    ensures memory_line { result ≡ Err outcome.NoMemory
        → Appends (E.contents errors.old.writer) (E.contents errors.new.writer) no_memory_line }
    ensures unwritten { IfErr result (λ ended. errors.old.failure ≡ None
        → (ended ≡ outcome.Unwritten ↔ IsSome errors.new.failure)) }
{
    match files.read(alloc, name) {
        Ok(bytes) => Ok(bytes),
        Err(error) => Err(tell_no_file(alloc, name, &error, errors)),
    }
}

/// The bytes of a file, or of the standard input, which is named `-` where it cannot be read.
pub(crate) fn read_stored<F: Files, E: Write>(
    alloc: Global,
    place: Stored<'_>,
    files: &F,
    errors: &mut Output<E>,
) -> Result<Vec<u8>, Outcome>
    ensures read { IfOk result (λ held. HoldsBytes (F.bytes_of files.now) (F.input files.now)
        place.entry held.items) }
    ensures kept { OnOk result (errors.new ≡ errors.old) }
    ensures ends { IfErr result CanEndReading }
    ensures no_file { result ≡ Err outcome.NoFile
        → IsStoredMissing (F.bytes_of files.now) (F.input files.now) place.entry
        (E.contents errors.old.writer) (E.contents errors.new.writer) }
    ensures memory_line { result ≡ Err outcome.NoMemory
        → Appends (E.contents errors.old.writer) (E.contents errors.new.writer) no_memory_line }
    ensures unwritten { IfErr result (λ ended. errors.old.failure ≡ None
        → (ended ≡ outcome.Unwritten ↔ IsSome errors.new.failure)) }
{
    match place {
        Stored::File(name) => file_bytes(alloc, name, files, errors),
        Stored::Input => match files.read_input(alloc) {
            Ok(held) => Ok(held),
            Err(error) => Err(tell_no_file(alloc, "-", &error, errors)),
        },
    }
}

/// The message that a text which was read holds: the text's bytes where `raw`, and else those that
/// its hexadecimal digits give.
fn held_message<E: Write>(
    alloc: Global,
    held: Vec<u8>,
    raw: bool,
    errors: &mut Output<E>,
) -> Result<Vec<u8>, Outcome>
    ensures ok { IfOk result (λ bytes. message_of raw held.items ≡ Ok bytes.items) }
    ensures kept { OnOk result (errors.new ≡ errors.old) }
    ensures ends { IfErr result CanEndHeld }
    ensures wrong_text { result ≡ Err outcome.WrongText → IsNoMessage raw held.items
        (E.contents errors.old.writer) (E.contents errors.new.writer) }
    ensures memory_line { result ≡ Err outcome.NoMemory
        → Appends (E.contents errors.old.writer) (E.contents errors.new.writer) no_memory_line }
    ensures unwritten { IfErr result (λ ended. errors.old.failure ≡ None
        → (ended ≡ outcome.Unwritten ↔ IsSome errors.new.failure)) }
{
    match message_bytes(alloc, held, raw) {
        Ok(bytes) => Ok(bytes),
        Err(Unread::BadHex) => {
            let written = write_line(errors, Unread::BadHex.line());
            Err(Outcome::WrongText.where_written(&written))
        }
        Err(_) => Err(Outcome::NoMemory.where_written(&write_no_memory(errors))),
    }
}

/// The bytes of the message that the argument HEX gives.
pub(crate) fn given_bytes<F: Files, E: Write>(
    alloc: Global,
    message: &Message<'_>,
    files: &F,
    errors: &mut Output<E>,
) -> Result<Vec<u8>, Outcome>
    ensures ok { IfOk result (λ bytes. IsGivenBytes (F.bytes_of files.now) (F.input files.now)
        message.now bytes.items) }
    ensures kept { OnOk result (errors.new ≡ errors.old) }
    ensures ends { IfErr result CanEndGiven }
    ensures no_file { result ≡ Err outcome.NoFile
        → LacksContent (F.bytes_of files.now) (F.input files.now) message.now
        (E.contents errors.old.writer) (E.contents errors.new.writer) }
    ensures wrong_text { result ≡ Err outcome.WrongText
        → HasNoBytes (F.bytes_of files.now) (F.input files.now) message.now
        (E.contents errors.old.writer) (E.contents errors.new.writer) }
    ensures memory_line { result ≡ Err outcome.NoMemory
        → Appends (E.contents errors.old.writer) (E.contents errors.new.writer) no_memory_line }
    ensures unwritten { IfErr result (λ ended. errors.old.failure ≡ None
        → (ended ≡ outcome.Unwritten ↔ IsSome errors.new.failure)) }
{
    match message {
        Message::Bytes(bytes) => match Vec::from_slice(alloc, bytes) {
            Ok(bytes) => Ok(bytes),
            Err(_) => Err(Outcome::NoMemory.where_written(&write_no_memory(errors))),
        },
        Message::Stored { place, raw } => {
            let held = read_stored(alloc, *place, files, errors)?;
            held_message(alloc, held, *raw, errors)
        }
    }
}

/// The text of an argument: the argument itself, or the bytes that a file or the standard input
/// holds, as they are.
pub(crate) fn given_text<F: Files, E: Write>(
    alloc: Global,
    content: Content<'_>,
    files: &F,
    errors: &mut Output<E>,
) -> Result<Vec<u8>, Outcome>
    ensures given { IfOk result (λ text. IsGivenText (F.bytes_of files.now) (F.input files.now)
        content.entry text.items) }
    ensures kept { OnOk result (errors.new ≡ errors.old) }
    ensures ends { IfErr result CanEndReading }
    ensures no_file { result ≡ Err outcome.NoFile
        → LacksText (F.bytes_of files.now) (F.input files.now) content.entry
        (E.contents errors.old.writer) (E.contents errors.new.writer) }
    ensures memory_line { result ≡ Err outcome.NoMemory
        → Appends (E.contents errors.old.writer) (E.contents errors.new.writer) no_memory_line }
    ensures unwritten { IfErr result (λ ended. errors.old.failure ≡ None
        → (ended ≡ outcome.Unwritten ↔ IsSome errors.new.failure)) }
{
    match content {
        Content::Here(text) => match Vec::from_slice(alloc, text.as_bytes()) {
            Ok(bytes) => Ok(bytes),
            Err(_) => Err(Outcome::NoMemory.where_written(&write_no_memory(errors))),
        },
        Content::Stored(place) => read_stored(alloc, place, files, errors),
    }
}
