//! The commands over streams of frames, run on their arguments and files.
ghost use Rattle.std.specs.Prelude.{◌≡◌, ◌↔◌, ◌⊎◌, Ok, Err, None, IsSome, IfOk, IfErr};
ghost use Rattle.std.specs.Prelude.{OnOk, IfSome};
ghost use Rattle.std.specs.Io.KnownBytes.{Appends};
ghost use Rattle.fidl_commands.specs.Contents.{CanEndReading};
ghost use Rattle.fidl_commands.specs.Decoding.{no_memory_line};
ghost use Rattle.fidl_commands.specs.Files.{IsMissing};
ghost use Rattle.fidl_commands.specs.Outputs.{AppendsOne, ReportsFailures};
ghost use Rattle.fidl_commands.specs.declared.outcome.Outcome.TheVariants as outcome;
ghost use Rattle.fidl_stream_commands.specs.Serving.{HasScript, fault_line};
ghost use Rattle.fidl_stream_commands.specs.Running.{OfServed, LacksServed, CanEndServeRun};
ghost use Rattle.fidl_stream_commands.specs.Running.{IsServedFrom, IsServeRefusalFrom, IsCutFrom};
ghost use Rattle.fidl_stream_commands.specs.Running.{IsBrokenOffFrom};

use crate::serving::{ServedFiles, serve};
use fidl_command_line::ServeArguments;
use fidl_commands::{File, Files, Outcome, file_bytes, write_no_memory};
use fidl_requests::Ended;
use fidl_serve::ServeFault;
use fidl_text::Output;
use std::alloc::Global;
use std::io::Write;

/// Reads the table's file and the script's, and answers the requests of the standard input by the
/// script.
pub fn run_serve<F: Files, W: Write, E: Write>(
    alloc: Global,
    arguments: &ServeArguments<'_>,
    files: &F,
    out: &mut Output<W>,
    errors: &mut Output<E>,
) -> Outcome
    ensures ends { CanEndServeRun result }
    ensures done { result ≡ outcome.Done → OfServed (F.bytes_of files.now) arguments.now
        (λ table text. IsServedFrom (F.input files.now) table text
        (W.contents out.old.writer) (W.contents out.new.writer) (Ok Ended.EndOfInput)) }
    ensures refused { result ≡ outcome.Refused → OfServed (F.bytes_of files.now) arguments.now
        (λ table text. AppendsOne (IsServeRefusalFrom (F.input files.now) table text
        (W.contents out.old.writer) (W.contents out.new.writer))
        (E.contents errors.old.writer) (E.contents errors.new.writer)) }
    ensures no_file { result ≡ outcome.NoFile
        → LacksServed (F.bytes_of files.now) arguments.now
        (E.contents errors.old.writer) (E.contents errors.new.writer) }
    ensures unread { result ≡ outcome.Unread → OfServed (F.bytes_of files.now) arguments.now
        (λ table text. IsServedFrom (F.input files.now) table text
        (W.contents out.old.writer) (W.contents out.new.writer) (Err ServeFault.Read)) }
    ensures unread_line { result ≡ outcome.Unread
        → Appends (E.contents errors.old.writer) (E.contents errors.new.writer)
        (fault_line ServeFault.Read) }
    ensures memory_line { result ≡ outcome.NoMemory
        → Appends (E.contents errors.old.writer) (E.contents errors.new.writer) no_memory_line }
    ensures unwritten { ReportsFailures result out.old.failure out.new.failure
        errors.old.failure errors.new.failure }

    // What is written on `out` where a write on it has failed, and where that of the line has.
    ensures cut { out.old.failure ≡ None → IsSome out.new.failure
        → OfServed (F.bytes_of files.now) arguments.now
        (λ table text. IsCutFrom (F.input files.now) table text
        (W.contents out.old.writer) (W.contents out.new.writer)) }
    ensures cut_line { result ≡ outcome.Unwritten → errors.old.failure ≡ None
        → errors.new.failure ≡ None
        → Appends (E.contents errors.old.writer) (E.contents errors.new.writer)
        (fault_line (ServeFault.Write 0)) }
    ensures front { result ≡ outcome.Unwritten
        → W.contents out.new.writer ≡ W.contents out.old.writer
        ⊎ OfServed (F.bytes_of files.now) arguments.now
        (λ table text. IsBrokenOffFrom (F.input files.now) table text
        (W.contents out.old.writer) (W.contents out.new.writer)) }

    // Nothing is written without files and memory, and where there is no script.
    ensures no_output { result ≡ outcome.NoFile → out.new ≡ out.old }
    ensures memory { result ≡ outcome.NoMemory → out.new ≡ out.old }
    ensures untouched { OfServed (F.bytes_of files.now) arguments.now
        (λ table text. ¬ (HasScript table text) → out.new ≡ out.old) }
    ensures errors { result ≡ outcome.Done
        → E.contents errors.new.writer ≡ E.contents errors.old.writer }
{
    let table = match file_bytes(alloc, arguments.table, files, errors) {
        Ok(table) => table,
        Err(ended) => return ended,
    };
    let script = match file_bytes(alloc, arguments.script, files, errors) {
        Ok(script) => script,
        Err(ended) => return ended,
    };
    let served = ServedFiles {
        table: File {
            name: arguments.table,
            bytes: table.as_slice(),
        },
        script: File {
            name: arguments.script,
            bytes: script.as_slice(),
        },
    };
    match files.open_input(alloc) {
        Ok(mut reader) => serve(alloc, &served, &mut reader, out, errors),
        Err(_) => Outcome::NoMemory.where_written(&write_no_memory(errors)),
    }
}
