//! The command `dump`, run on its arguments and files.
ghost use Rattle.std.specs.Prelude.{◌≡◌, ◌⊎◌};
ghost use Rattle.std.specs.Io.KnownBytes.{Appends};
ghost use Rattle.fidl_commands.specs.Decoding.{no_memory_line};
ghost use Rattle.fidl_commands.specs.Outputs.{AppendsOne, ReportsFailures};
ghost use Rattle.fidl_commands.specs.declared.outcome.Outcome.TheVariants as outcome;
ghost use Rattle.fidl_stream_commands.specs.Dumping.{direction_of};
ghost use Rattle.fidl_stream_commands.specs.DumpRunning.{OfDumped, LacksDumped, LacksProtocolIn};
ghost use Rattle.fidl_stream_commands.specs.DumpRunning.{IsDumpedBy, IsDumpedInPartBy};
ghost use Rattle.fidl_stream_commands.specs.DumpRunning.{IsDumpRefusalBy, CanEndDumpRun};

use crate::dumping::{Recorded, dump};
use fidl_command_line::DumpArguments;
use fidl_commands::{File, Files, Outcome, file_bytes};
use fidl_dump::Direction;
use fidl_text::Output;
use std::alloc::Global;
use std::io::Write;

/// Which messages frames hold, by whether `--response` is given.
fn direction_of(response: bool) -> Direction
    ensures { result ≡ direction_of response }
{
    if response {
        Direction::Responses
    } else {
        Direction::Requests
    }
}

/// Reads the table's file and that of the frames, and prints a line for each frame.
pub fn run_dump<F: Files, W: Write, E: Write>(
    alloc: Global,
    arguments: &DumpArguments<'_>,
    files: &F,
    out: &mut Output<W>,
    errors: &mut Output<E>,
) -> Outcome
    ensures ends { CanEndDumpRun result }
    ensures done { result ≡ outcome.Done → OfDumped (F.bytes_of files.now) arguments.now
        (λ table input. IsDumpedBy arguments.now table input
        (W.contents out.old.writer) (W.contents out.new.writer)) }
    ensures refused { result ≡ outcome.Refused → OfDumped (F.bytes_of files.now) arguments.now
        (λ table input. AppendsOne (IsDumpRefusalBy arguments.now table input
        (W.contents out.old.writer) (W.contents out.new.writer))
        (E.contents errors.old.writer) (E.contents errors.new.writer)) }
    ensures no_protocol { result ≡ outcome.NoProtocol
        → LacksProtocolIn (F.bytes_of files.now) arguments.now
        (E.contents errors.old.writer) (E.contents errors.new.writer) }
    ensures no_file { result ≡ outcome.NoFile
        → LacksDumped (F.bytes_of files.now) arguments.now
        (E.contents errors.old.writer) (E.contents errors.new.writer) }
    ensures memory_line { result ≡ outcome.NoMemory
        → Appends (E.contents errors.old.writer) (E.contents errors.new.writer) no_memory_line }
    ensures unwritten { ReportsFailures result out.old.failure out.new.failure
        errors.old.failure errors.new.failure }
    ensures front { result ≡ outcome.Unwritten
        → W.contents out.new.writer ≡ W.contents out.old.writer
        ⊎ OfDumped (F.bytes_of files.now) arguments.now
        (λ table input. IsDumpedInPartBy arguments.now table input
        (W.contents out.old.writer) (W.contents out.new.writer)) }
    ensures no_output { result ≡ outcome.NoFile → out.new ≡ out.old }
    ensures out { result ≡ outcome.NoProtocol ⊎ result ≡ outcome.NoMemory → out.new ≡ out.old }
    ensures errors { result ≡ outcome.Done
        → E.contents errors.new.writer ≡ E.contents errors.old.writer }
{
    let table = match file_bytes(alloc, arguments.table, files, errors) {
        Ok(table) => table,
        Err(ended) => return ended,
    };
    let mut frames = match file_bytes(alloc, arguments.file, files, errors) {
        Ok(frames) => frames,
        Err(ended) => return ended,
    };
    let file = File {
        name: arguments.table,
        bytes: table.as_slice(),
    };
    let recorded = Recorded {
        protocol: arguments.protocol,
        direction: direction_of(arguments.response),
        frames: frames.as_mut_slice(),
    };
    dump(alloc, &file, recorded, out, errors)
}
