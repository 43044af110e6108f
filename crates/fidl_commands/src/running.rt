//! The commands over tables and messages, run on their arguments and files.
ghost use Rattle.std.specs.Prelude.{◌≡◌, ◌≢◌, ◌⊎◌};
ghost use Rattle.std.specs.Io.KnownBytes.{Appends};
ghost use Rattle.fidl_commands.specs.Contents.{OfMessage, OfText, HasNoBytes};
ghost use Rattle.fidl_commands.specs.Encoding.{IsEncoded, IsEncodeRefusal};
ghost use Rattle.fidl_commands.specs.Decoding.{no_memory_line, CanEndRun};
ghost use Rattle.fidl_commands.specs.Outputs.{AppendsOne, ReportsFailures};
ghost use Rattle.fidl_commands.specs.Listing.{IsListing, IsTableRefusal};
ghost use Rattle.fidl_commands.specs.Files.{IsMissing};
ghost use Rattle.fidl_commands.specs.Running.{IsMessageText, IsMessageRefusal, OfTable, known_of};
ghost use Rattle.fidl_commands.specs.Running.{LacksRootIn, LacksTableOrMessage, LacksTableOrText};
ghost use Rattle.fidl_commands.specs.Running.{IsExplained, LacksFault, PrintsExplainedFront};
ghost use Rattle.fidl_commands.specs.Running.{PrintsFront, CanEndEncodeRun, CanEndTableRun};
ghost use Rattle.fidl_commands.specs.Explaining.{CanEndExplain};
ghost use Rattle.fidl_commands.specs.declared.outcome.Outcome.TheVariants as outcome;

use crate::contents::{given_bytes, given_text};
use crate::decoding::{TypedMessage, decode};
use crate::encoding::{TypedText, encode};
use crate::explaining::explain;
use crate::files::{File, Files};
use crate::lines::write_no_memory;
use crate::listing::table;
use crate::outcome::Outcome;
use crate::telling::tell_no_file;
use fidl_command_line::{DecodeArguments, EncodeArguments, TableArguments};
use fidl_hints::{Faults, guide};
use fidl_text::Output;
use std::alloc::Global;
use std::io::Write;

/// Reads the table's file and the message, and decodes the message by the table.
pub fn run_decode<F: Files, W: Write, E: Write>(
    alloc: Global,
    arguments: &DecodeArguments<'_>,
    files: &F,
    out: &mut Output<W>,
    errors: &mut Output<E>,
) -> Outcome
    ensures ends { CanEndRun result }
    ensures done { result ≡ outcome.Done
        → OfTable (F.bytes_of files.now) arguments.now.table.now
        (λ table. OfMessage (F.bytes_of files.now) (F.input files.now) arguments.now.message
        (λ bytes. AppendsOne (IsMessageText arguments.now table bytes)
        (W.contents out.old.writer) (W.contents out.new.writer))) }
    ensures refused { result ≡ outcome.Refused
        → OfTable (F.bytes_of files.now) arguments.now.table.now
        (λ table. OfMessage (F.bytes_of files.now) (F.input files.now) arguments.now.message
        (λ bytes. AppendsOne (IsMessageRefusal arguments.now table bytes)
        (E.contents errors.old.writer) (E.contents errors.new.writer))) }
    ensures no_root { result ≡ outcome.NoRoot
        → LacksRootIn (known_of (F.bytes_of files.now) (F.input files.now))
        arguments.now.table.now arguments.now.root.now
        (E.contents errors.old.writer) (E.contents errors.new.writer) }
    ensures no_file { result ≡ outcome.NoFile
        → LacksTableOrMessage (known_of (F.bytes_of files.now) (F.input files.now)) arguments.now
        (E.contents errors.old.writer) (E.contents errors.new.writer) }
    ensures wrong_text { result ≡ outcome.WrongText
        → HasNoBytes (F.bytes_of files.now) (F.input files.now) arguments.now.message
        (E.contents errors.old.writer) (E.contents errors.new.writer) }
    ensures memory_line { result ≡ outcome.NoMemory
        → Appends (E.contents errors.old.writer) (E.contents errors.new.writer) no_memory_line }
    ensures unwritten { ReportsFailures result out.old.failure out.new.failure
        errors.old.failure errors.new.failure }
    ensures front { result ≡ outcome.Unwritten
        → W.contents out.new.writer ≡ W.contents out.old.writer
        ⊎ OfTable (F.bytes_of files.now) arguments.now.table.now
        (λ table. OfMessage (F.bytes_of files.now) (F.input files.now) arguments.now.message
        (λ bytes. PrintsFront (IsMessageText arguments.now table bytes)
        (W.contents out.old.writer) (W.contents out.new.writer))) }
    ensures out { result ≢ outcome.Done → result ≢ outcome.Unwritten
        → W.contents out.new.writer ≡ W.contents out.old.writer }
    ensures errors { result ≡ outcome.Done
        → E.contents errors.new.writer ≡ E.contents errors.old.writer }
{
    let name = arguments.table;
    let table = match files.read(alloc, name) {
        Ok(table) => table,
        Err(error) => return tell_no_file(alloc, name, &error, errors),
    };
    let mut bytes = match given_bytes(alloc, &arguments.message, files, errors) {
        Ok(bytes) => bytes,
        Err(ended) => return ended,
    };
    let file = File {
        name,
        bytes: table.as_slice(),
    };
    let message = TypedMessage {
        root: arguments.root,
        bytes: bytes.as_mut_slice(),
        handles: arguments.handles.as_slice(),
    };
    decode(alloc, &file, message, out, errors)
}

/// Reads the table's file and the text, and encodes the value of the text by the table.
pub fn run_encode<F: Files, W: Write, E: Write>(
    alloc: Global,
    arguments: &EncodeArguments<'_>,
    files: &F,
    out: &mut Output<W>,
    errors: &mut Output<E>,
) -> Outcome
    ensures ends { CanEndEncodeRun result }
    ensures done { result ≡ outcome.Done
        → OfTable (F.bytes_of files.now) arguments.now.table.now
        (λ table. OfText (F.bytes_of files.now) (F.input files.now) arguments.now.text
        (λ text. AppendsOne (IsEncoded table arguments.now.root.now text)
        (W.contents out.old.writer) (W.contents out.new.writer))) }
    ensures refused { result ≡ outcome.Refused
        → OfTable (F.bytes_of files.now) arguments.now.table.now
        (λ table. OfText (F.bytes_of files.now) (F.input files.now) arguments.now.text
        (λ text. AppendsOne (IsEncodeRefusal table arguments.now.root.now text)
        (E.contents errors.old.writer) (E.contents errors.new.writer))) }
    ensures no_root { result ≡ outcome.NoRoot
        → LacksRootIn (known_of (F.bytes_of files.now) (F.input files.now))
        arguments.now.table.now arguments.now.root.now
        (E.contents errors.old.writer) (E.contents errors.new.writer) }
    ensures no_file { result ≡ outcome.NoFile
        → LacksTableOrText (known_of (F.bytes_of files.now) (F.input files.now)) arguments.now
        (E.contents errors.old.writer) (E.contents errors.new.writer) }
    ensures memory_line { result ≡ outcome.NoMemory
        → Appends (E.contents errors.old.writer) (E.contents errors.new.writer) no_memory_line }
    ensures unwritten { ReportsFailures result out.old.failure out.new.failure
        errors.old.failure errors.new.failure }
    ensures front { result ≡ outcome.Unwritten
        → W.contents out.new.writer ≡ W.contents out.old.writer
        ⊎ OfTable (F.bytes_of files.now) arguments.now.table.now
        (λ table. OfText (F.bytes_of files.now) (F.input files.now) arguments.now.text
        (λ text. PrintsFront (IsEncoded table arguments.now.root.now text)
        (W.contents out.old.writer) (W.contents out.new.writer))) }
    ensures out { result ≢ outcome.Done → result ≢ outcome.Unwritten
        → W.contents out.new.writer ≡ W.contents out.old.writer }
    ensures errors { result ≡ outcome.Done
        → E.contents errors.new.writer ≡ E.contents errors.old.writer }
{
    let name = arguments.table;
    let table = match files.read(alloc, name) {
        Ok(table) => table,
        Err(error) => return tell_no_file(alloc, name, &error, errors),
    };
    let text = match given_text(alloc, arguments.text, files, errors) {
        Ok(text) => text,
        Err(ended) => return ended,
    };
    let file = File {
        name,
        bytes: table.as_slice(),
    };
    let text = TypedText {
        root: arguments.root,
        text: text.as_slice(),
    };
    encode(alloc, &file, &text, out, errors)
}

/// Reads the table's file, and prints its records, or names of it.
pub fn run_table<F: Files, W: Write, E: Write>(
    alloc: Global,
    arguments: &TableArguments<'_>,
    files: &F,
    out: &mut Output<W>,
    errors: &mut Output<E>,
) -> Outcome
    ensures ends { CanEndTableRun result }
    ensures done { result ≡ outcome.Done → OfTable (F.bytes_of files.now) arguments.now.file.now
        (λ table. AppendsOne (IsListing arguments.now.listing table)
        (W.contents out.old.writer) (W.contents out.new.writer)) }
    ensures refused { result ≡ outcome.Refused
        → OfTable (F.bytes_of files.now) arguments.now.file.now
        (λ table. AppendsOne (IsTableRefusal table)
        (E.contents errors.old.writer) (E.contents errors.new.writer)) }
    ensures no_file { result ≡ outcome.NoFile
        → IsMissing (F.bytes_of files.now) arguments.now.file.now
        (E.contents errors.old.writer) (E.contents errors.new.writer) }
    ensures memory_line { result ≡ outcome.NoMemory
        → Appends (E.contents errors.old.writer) (E.contents errors.new.writer) no_memory_line }
    ensures unwritten { ReportsFailures result out.old.failure out.new.failure
        errors.old.failure errors.new.failure }
    ensures front { result ≡ outcome.Unwritten
        → W.contents out.new.writer ≡ W.contents out.old.writer
        ⊎ OfTable (F.bytes_of files.now) arguments.now.file.now
        (λ table. PrintsFront (IsListing arguments.now.listing table)
        (W.contents out.old.writer) (W.contents out.new.writer)) }
    ensures out { result ≢ outcome.Done → result ≢ outcome.Unwritten
        → W.contents out.new.writer ≡ W.contents out.old.writer }
    ensures errors { result ≡ outcome.Done
        → E.contents errors.new.writer ≡ E.contents errors.old.writer }
{
    let name = arguments.file;
    let bytes = match files.read(alloc, name) {
        Ok(bytes) => bytes,
        Err(error) => return tell_no_file(alloc, name, &error, errors),
    };
    let file = File {
        name,
        bytes: bytes.as_slice(),
    };
    table(&file, arguments.listing, out, errors)
}

/// Prints what the guide says of faults.
pub fn run_explain<W: Write, E: Write>(
    alloc: Global,
    faults: &Faults<'_>,
    out: &mut Output<W>,
    errors: &mut Output<E>,
) -> Outcome
    ensures ends { CanEndExplain result }
    ensures done { result ≡ outcome.Done → AppendsOne (IsExplained faults.now)
        (W.contents out.old.writer) (W.contents out.new.writer) }
    ensures no_fault { result ≡ outcome.NoFault → LacksFault faults.now
        (E.contents errors.old.writer) (E.contents errors.new.writer) }
    ensures memory_line { result ≡ outcome.NoMemory
        → Appends (E.contents errors.old.writer) (E.contents errors.new.writer) no_memory_line }
    ensures unwritten { ReportsFailures result out.old.failure out.new.failure
        errors.old.failure errors.new.failure }
    ensures front { result ≡ outcome.Unwritten
        → W.contents out.new.writer ≡ W.contents out.old.writer
        ⊎ PrintsExplainedFront faults.now (W.contents out.old.writer)
        (W.contents out.new.writer) }
    ensures out { result ≢ outcome.Done → result ≢ outcome.Unwritten
        → W.contents out.new.writer ≡ W.contents out.old.writer }
    ensures errors { result ≡ outcome.Done
        → E.contents errors.new.writer ≡ E.contents errors.old.writer }
{
    match guide(alloc) {
        Ok(guide) => explain(alloc, &guide, faults, out, errors),
        Err(_) => Outcome::NoMemory.where_written(&write_no_memory(errors)),
    }
}
