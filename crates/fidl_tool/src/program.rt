//! The program, over its words, its files and two writers.
ghost use Rattle.std.specs.Prelude.{◌≡◌, ◌≢◌, ◌⊎◌, map};
ghost use Rattle.std.specs.Io.KnownBytes.{Appends};
ghost use Rattle.fidl_text.specs.Outputs.{AppendsFront};
ghost use Rattle.fidl_commands.specs.Reasons.{text_of, line_of};
ghost use Rattle.fidl_commands.specs.Decoding.{no_memory_line};
ghost use Rattle.fidl_commands.specs.Outputs.{ReportsFailures};
ghost use Rattle.fidl_commands.specs.Running.{known_of};
ghost use Rattle.fidl_tool.specs.Running.{IsDone, IsDoneInPart, IsRefused, CanEndArguments};
ghost use Rattle.fidl_tool.specs.Running.{LacksGivenFile, LacksGivenRoot, LacksGivenFault};
ghost use Rattle.fidl_tool.specs.Running.{LacksGivenText, LacksGivenProtocol, Gives, GivesNone};
ghost use Rattle.fidl_tool.specs.Running.{IsUnread, IsQuiet, LeavesOutput};
ghost use Rattle.fidl_commands.specs.declared.outcome.Outcome.TheVariants as outcome;

use crate::sources::run_compile;
use fidl_command_line::{Arguments, read_arguments};
use fidl_commands::{
    Files, Outcome, run_decode, run_encode, run_explain, run_migrate, run_table, tell,
};
use fidl_stream_commands::{run_dump, run_serve};
use fidl_text::Output;
use std::alloc::Global;
use std::convert::AsStr;
use std::io::Write;

/// Runs the command of these arguments.
fn run_arguments<F: Files, W: Write, E: Write>(
    alloc: Global,
    arguments: &Arguments<'_>,
    files: &mut F,
    out: &mut Output<W>,
    errors: &mut Output<E>,
) -> Outcome
    ensures ends { CanEndArguments result }
    ensures done { result ≡ outcome.Done
        → IsDone (known_of (F.bytes_of files.old) (F.input files.old)) arguments.now
        (W.contents out.old.writer) (W.contents out.new.writer)
        (F.written files.old) (F.written files.new) }
    ensures refused { result ≡ outcome.Refused
        → IsRefused (known_of (F.bytes_of files.old) (F.input files.old)) arguments.now
        (W.contents out.old.writer) (W.contents out.new.writer)
        (E.contents errors.old.writer) (E.contents errors.new.writer) }
    ensures unread { result ≡ outcome.Unread
        → IsUnread (known_of (F.bytes_of files.old) (F.input files.old)) arguments.now
        (W.contents out.old.writer) (W.contents out.new.writer)
        (E.contents errors.old.writer) (E.contents errors.new.writer) }
    ensures no_root { result ≡ outcome.NoRoot
        → LacksGivenRoot (known_of (F.bytes_of files.old) (F.input files.old)) arguments.now
        (E.contents errors.old.writer) (E.contents errors.new.writer) }
    ensures no_protocol { result ≡ outcome.NoProtocol
        → LacksGivenProtocol (known_of (F.bytes_of files.old) (F.input files.old)) arguments.now
        (E.contents errors.old.writer) (E.contents errors.new.writer) }
    ensures no_fault { result ≡ outcome.NoFault → LacksGivenFault arguments.now
        (E.contents errors.old.writer) (E.contents errors.new.writer) }
    ensures wrong_text { result ≡ outcome.WrongText
        → LacksGivenText (known_of (F.bytes_of files.old) (F.input files.old)) arguments.now
        (E.contents errors.old.writer) (E.contents errors.new.writer) }
    ensures no_file { result ≡ outcome.NoFile
        → LacksGivenFile (known_of (F.bytes_of files.old) (F.input files.old))
        (F.can_write files.old) arguments.now
        (E.contents errors.old.writer) (E.contents errors.new.writer) }
    ensures memory_line { result ≡ outcome.NoMemory
        → Appends (E.contents errors.old.writer) (E.contents errors.new.writer) no_memory_line }
    ensures written { result ≢ outcome.Done → result ≢ outcome.Unwritten
        → F.written files.new ≡ F.written files.old }
    ensures unwritten { ReportsFailures result out.old.failure out.new.failure
        errors.old.failure errors.new.failure }
    ensures front { result ≡ outcome.Unwritten
        → ((W.contents out.new.writer ≡ W.contents out.old.writer)
        × (F.written files.new ≡ F.written files.old))
        ⊎ IsDoneInPart (known_of (F.bytes_of files.old) (F.input files.old)) arguments.now
        (W.contents out.old.writer) (W.contents out.new.writer)
        (F.written files.old) (F.written files.new) }
    ensures out { LeavesOutput result → W.contents out.new.writer ≡ W.contents out.old.writer }
    ensures quiet { result ≡ outcome.Refused → IsQuiet arguments.now
        → W.contents out.new.writer ≡ W.contents out.old.writer }
    ensures errors { result ≡ outcome.Done
        → E.contents errors.new.writer ≡ E.contents errors.old.writer }
{
    match arguments {
        Arguments::Compile(arguments) => run_compile(alloc, arguments, files, out, errors),
        Arguments::Migrate(arguments) => run_migrate(alloc, arguments, files, out, errors),
        Arguments::Decode(arguments) => run_decode(alloc, arguments, &*files, out, errors),
        Arguments::Encode(arguments) => run_encode(alloc, arguments, &*files, out, errors),
        Arguments::Table(arguments) => run_table(alloc, arguments, &*files, out, errors),
        Arguments::Dump(arguments) => run_dump(alloc, arguments, &*files, out, errors),
        Arguments::Serve(arguments) => run_serve(alloc, arguments, &*files, out, errors),
        Arguments::Explain(faults) => run_explain(alloc, faults, out, errors),
    }
}

/// Runs the command that the words of a command line name; the first word is the program's name.
pub fn run<S: AsStr, F: Files, W: Write, E: Write>(
    alloc: Global,
    words: &[S],
    files: &mut F,
    out: &mut Output<W>,
    errors: &mut Output<E>,
) -> Outcome
    ensures done { result ≡ outcome.Done → Gives (map S.text words.now)
        (λ given. IsDone (known_of (F.bytes_of files.old) (F.input files.old)) given
        (W.contents out.old.writer) (W.contents out.new.writer)
        (F.written files.old) (F.written files.new)) }
    ensures refused { result ≡ outcome.Refused → Gives (map S.text words.now)
        (λ given. IsRefused (known_of (F.bytes_of files.old) (F.input files.old)) given
        (W.contents out.old.writer) (W.contents out.new.writer)
        (E.contents errors.old.writer) (E.contents errors.new.writer)) }
    ensures unread { result ≡ outcome.Unread → Gives (map S.text words.now)
        (λ given. IsUnread (known_of (F.bytes_of files.old) (F.input files.old)) given
        (W.contents out.old.writer) (W.contents out.new.writer)
        (E.contents errors.old.writer) (E.contents errors.new.writer)) }
    ensures no_root { result ≡ outcome.NoRoot → Gives (map S.text words.now)
        (λ given. LacksGivenRoot (known_of (F.bytes_of files.old) (F.input files.old)) given
        (E.contents errors.old.writer) (E.contents errors.new.writer)) }
    ensures no_protocol { result ≡ outcome.NoProtocol → Gives (map S.text words.now)
        (λ given. LacksGivenProtocol (known_of (F.bytes_of files.old) (F.input files.old)) given
        (E.contents errors.old.writer) (E.contents errors.new.writer)) }
    ensures no_fault { result ≡ outcome.NoFault → Gives (map S.text words.now)
        (λ given. LacksGivenFault given
        (E.contents errors.old.writer) (E.contents errors.new.writer)) }
    ensures wrong_text { result ≡ outcome.WrongText → Gives (map S.text words.now)
        (λ given. LacksGivenText (known_of (F.bytes_of files.old) (F.input files.old)) given
        (E.contents errors.old.writer) (E.contents errors.new.writer)) }
    ensures no_file { result ≡ outcome.NoFile → Gives (map S.text words.now)
        (λ given. LacksGivenFile (known_of (F.bytes_of files.old) (F.input files.old))
        (F.can_write files.old) given
        (E.contents errors.old.writer) (E.contents errors.new.writer)) }
    ensures asked { result ≡ outcome.Asked → GivesNone (map S.text words.now) outcome.Asked
        (λ unread. Appends (W.contents out.old.writer) (W.contents out.new.writer)
        (text_of unread)) }
    ensures wrong_line { result ≡ outcome.WrongLine
        → GivesNone (map S.text words.now) outcome.WrongLine
        (λ unread. Appends (E.contents errors.old.writer) (E.contents errors.new.writer)
        (line_of unread)) }
    ensures memory_line { result ≡ outcome.NoMemory
        → Appends (E.contents errors.old.writer) (E.contents errors.new.writer) no_memory_line }
    ensures written { result ≢ outcome.Done → result ≢ outcome.Unwritten
        → F.written files.new ≡ F.written files.old }
    ensures unwritten { ReportsFailures result out.old.failure out.new.failure
        errors.old.failure errors.new.failure }
    ensures front { result ≡ outcome.Unwritten
        → ((W.contents out.new.writer ≡ W.contents out.old.writer)
        × (F.written files.new ≡ F.written files.old))
        ⊎ Gives (map S.text words.now) (λ given. IsDoneInPart
        (known_of (F.bytes_of files.old) (F.input files.old)) given
        (W.contents out.old.writer) (W.contents out.new.writer)
        (F.written files.old) (F.written files.new))
        ⊎ GivesNone (map S.text words.now) outcome.Asked
        (λ unread. AppendsFront (W.contents out.old.writer) (W.contents out.new.writer)
        (text_of unread)) }
    ensures out { LeavesOutput result → W.contents out.new.writer ≡ W.contents out.old.writer }
    ensures quiet { result ≡ outcome.Refused → Gives (map S.text words.now)
        (λ given. IsQuiet given → W.contents out.new.writer ≡ W.contents out.old.writer) }
    ensures errors { result ≡ outcome.Done
        → E.contents errors.new.writer ≡ E.contents errors.old.writer }
{
    match read_arguments(alloc, words) {
        Ok(arguments) => run_arguments(alloc, &arguments, files, out, errors),
        Err(unread) => tell(&unread, out, errors),
    }
}
