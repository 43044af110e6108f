//! Reports: what is printed, and the outcome that goes with it.
ghost use Rattle.std.specs.Prelude.{◌≡◌, ◌≢◌, ◌↔◌, ◌⊎◌, None, IsSome, OnOk, OnErr};
ghost use Rattle.std.specs.Io.KnownBytes.{Appends};
ghost use Rattle.fidl_text.specs.Outputs.{AppendsFront, Writes};
ghost use Rattle.std.specs.IoError.{error_kind};
ghost use Rattle.std.specs.declared.io.ErrorKind.TheVariants as error_kinds;
ghost use Rattle.fidl_commands.specs.Reasons.{outcome_of, text_of, line_of};
ghost use Rattle.fidl_commands.specs.Decoding.{no_memory_line};
ghost use Rattle.fidl_commands.specs.Files.{NamesFile};
ghost use Rattle.fidl_commands.specs.Outputs.{ReportsFailures};
ghost use Rattle.fidl_commands.specs.declared.outcome.Outcome.TheVariants as outcome;

use crate::lines::{write_line, write_no_file, write_no_memory, write_no_output, write_text};
use crate::outcome::Outcome;
use fidl_command_line::Unread;
use fidl_text::{Failed, Output};
use std::alloc::Global;
use std::io;
use std::io::Write;

/// What happens to a command whose arguments are not read.
fn outcome_of(unread: &Unread) -> Outcome
    ensures { result ≡ outcome_of unread.now }
{
    match unread {
        Unread::Asked { .. } => Outcome::Asked,
        Unread::Memory => Outcome::NoMemory,
        _ => Outcome::WrongLine,
    }
}

/// Writes why there are no arguments: help and version on the output, all else as a line on the
/// errors.
fn write_unread<W: Write, E: Write>(
    unread: &Unread,
    out: &mut Output<W>,
    errors: &mut Output<E>,
) -> Result<(), Failed>
    ensures out { Writes (W.contents out.old.writer) (W.contents out.new.writer)
        (text_of unread.now) result }
    ensures quiet { outcome_of unread.now ≢ outcome.Asked
        → W.contents out.new.writer ≡ W.contents out.old.writer }
    ensures errors { OnOk result
        (Appends (E.contents errors.old.writer) (E.contents errors.new.writer)
        (line_of unread.now)) }
    ensures kept_out { OnOk result (out.new.failure ≡ out.old.failure) }
    ensures kept_errors { OnOk result (errors.new.failure ≡ errors.old.failure) }
    ensures failed { OnErr result (IsSome out.new.failure ⊎ IsSome errors.new.failure) }
{
    match unread {
        Unread::Asked { text } => write_text(out, text.as_str()),
        _ => write_line(errors, unread.line()),
    }
}

/// Reports why there are no arguments.
pub fn tell<W: Write, E: Write>(
    unread: &Unread,
    out: &mut Output<W>,
    errors: &mut Output<E>,
) -> Outcome
    ensures outcome { result ≢ outcome.Unwritten → result ≡ outcome_of unread.now }
    ensures out { result ≢ outcome.Unwritten
        → Appends (W.contents out.old.writer) (W.contents out.new.writer) (text_of unread.now) }
    ensures errors { result ≢ outcome.Unwritten
        → Appends (E.contents errors.old.writer) (E.contents errors.new.writer)
        (line_of unread.now) }
    ensures quiet { outcome_of unread.now ≢ outcome.Asked
        → W.contents out.new.writer ≡ W.contents out.old.writer }
    ensures front { result ≡ outcome.Unwritten → AppendsFront (W.contents out.old.writer)
        (W.contents out.new.writer) (text_of unread.now) }
    ensures unwritten { ReportsFailures result out.old.failure out.new.failure
        errors.old.failure errors.new.failure }
{
    match write_unread(unread, out, errors) {
        Ok(()) => outcome_of(unread),
        Err(Failed) => Outcome::Unwritten.where_written(&write_no_output(errors, out)),
    }
}

/// Reports that a file cannot be read or written, or that memory ran out for it or for the line.
pub fn tell_no_file<E: Write>(
    alloc: Global,
    name: &str,
    error: &io::Error,
    errors: &mut Output<E>,
) -> Outcome
    ensures ends { result ≢ outcome.Unwritten
        → result ≡ outcome.NoFile ⊎ result ≡ outcome.NoMemory }
    ensures no_file { result ≡ outcome.NoFile
        → error_kind error.now ≢ error_kinds.OutOfMemory }
    ensures line { result ≡ outcome.NoFile
        → NamesFile name.now (E.contents errors.old.writer) (E.contents errors.new.writer) }
    ensures memory_line { result ≡ outcome.NoMemory
        → Appends (E.contents errors.old.writer) (E.contents errors.new.writer) no_memory_line }
    ensures unwritten { errors.old.failure ≡ None
        → (result ≡ outcome.Unwritten ↔ IsSome errors.new.failure) }
{
    match (error.kind(), format!(in alloc; "{error}")) {
        (io::ErrorKind::OutOfMemory, _) | (_, Err(_)) => {
            Outcome::NoMemory.where_written(&write_no_memory(errors))
        }
        (_, Ok(reason)) => {
            let written = write_no_file(errors, name, reason.as_str());
            Outcome::NoFile.where_written(&written)
        }
    }
}
