//! The command `migrate`: from the table of a file to its version 2 in another.
ghost use Rattle.std.specs.Prelude.{◌≡◌, ◌≢◌, ◌↔◌, ◌⊎◌, None, Err, IfOk, IfErr, OnOk, IsSome};
ghost use Rattle.std.specs.Io.KnownBytes.{Appends};
ghost use Rattle.fidl_table_format.specs.Section.{header_of};
ghost use Rattle.fidl_table_format.specs.WellFormed.{WellFormed};
ghost use Rattle.fidl_migrate.specs.Migrated.{IsMigrated};
ghost use Rattle.fidl_commands.specs.Decoding.{no_memory_line};
ghost use Rattle.fidl_commands.specs.Listing.{IsTableRefusal};
ghost use Rattle.fidl_commands.specs.Migrating.{IsMigratedTo, IsMigratedInPart, LacksTableOrOut};
ghost use Rattle.fidl_commands.specs.Migrating.{CanEndMigrated, CanEndMigrateRun};
ghost use Rattle.fidl_commands.specs.Outputs.{AppendsOne, ReportsFailures};
ghost use Rattle.fidl_commands.specs.Running.{OfTable};
ghost use Rattle.fidl_commands.specs.declared.outcome.Outcome.TheVariants as outcome;

use crate::contents::file_bytes;
use crate::files::Files;
use crate::lines::write_no_memory;
use crate::outcome::Outcome;
use crate::summary::summarize;
use crate::telling::tell_no_file;
use crate::verifying::verified;
use fidl_command_line::MigrateArguments;
use fidl_migrate::migrate;
use fidl_text::Output;
use std::alloc::Global;
use std::io::Write;

/// The version 2 of the table that these bytes are, where it is accepted; otherwise prints the line
/// of the refusal.
fn migrated<E: Write>(
    alloc: Global,
    bytes: &[u8],
    errors: &mut Output<E>,
) -> Result<Vec<u8>, Outcome>
    ensures accepted { OnOk result (WellFormed bytes.now) }
    ensures migrated { IfOk result (λ new. IsMigrated bytes.now new.items) }
    ensures same { (header_of bytes.now).version ≡ 2
        → IfOk result (λ new. new.items ≡ bytes.now) }
    ensures kept { OnOk result (errors.new ≡ errors.old) }
    ensures ends { IfErr result CanEndMigrated }
    ensures refused { result ≡ Err outcome.Refused → AppendsOne (IsTableRefusal bytes.now)
        (E.contents errors.old.writer) (E.contents errors.new.writer) }
    ensures memory_line { result ≡ Err outcome.NoMemory
        → Appends (E.contents errors.old.writer) (E.contents errors.new.writer) no_memory_line }
    ensures unwritten { IfErr result (λ ended. errors.old.failure ≡ None
        → (ended ≡ outcome.Unwritten ↔ IsSome errors.new.failure)) }
{
    let table = verified(bytes, errors)?;
    match migrate(alloc, &table) {
        Ok(new) => Ok(new),
        Err(_) => Err(Outcome::NoMemory.where_written(&write_no_memory(errors))),
    }
}

/// Reads the table's file, writes its version 2, and prints what that holds. The new table stays
/// written where the line is not.
pub fn run_migrate<F: Files, W: Write, E: Write>(
    alloc: Global,
    arguments: &MigrateArguments<'_>,
    files: &mut F,
    out: &mut Output<W>,
    errors: &mut Output<E>,
) -> Outcome
    ensures ends { CanEndMigrateRun result }
    ensures done { result ≡ outcome.Done
        → OfTable (F.bytes_of files.old) arguments.now.table.now
        (λ table. IsMigratedTo arguments.now.out.now table
        (W.contents out.old.writer) (W.contents out.new.writer)
        (F.written files.old) (F.written files.new)) }
    ensures refused { result ≡ outcome.Refused
        → OfTable (F.bytes_of files.old) arguments.now.table.now
        (λ table. AppendsOne (IsTableRefusal table)
        (E.contents errors.old.writer) (E.contents errors.new.writer)) }
    ensures no_file { result ≡ outcome.NoFile
        → LacksTableOrOut (F.bytes_of files.old) (F.can_write files.old) arguments.now
        (E.contents errors.old.writer) (E.contents errors.new.writer) }
    ensures memory_line { result ≡ outcome.NoMemory
        → Appends (E.contents errors.old.writer) (E.contents errors.new.writer) no_memory_line }
    ensures written { result ≢ outcome.Done → result ≢ outcome.Unwritten
        → F.written files.new ≡ F.written files.old }
    ensures unwritten { ReportsFailures result out.old.failure out.new.failure
        errors.old.failure errors.new.failure }
    ensures front { result ≡ outcome.Unwritten
        → ((W.contents out.new.writer ≡ W.contents out.old.writer)
        × (F.written files.new ≡ F.written files.old))
        ⊎ OfTable (F.bytes_of files.old) arguments.now.table.now
        (λ table. IsMigratedInPart arguments.now.out.now table
        (W.contents out.old.writer) (W.contents out.new.writer)
        (F.written files.old) (F.written files.new)) }
    ensures out { result ≢ outcome.Done → result ≢ outcome.Unwritten
        → W.contents out.new.writer ≡ W.contents out.old.writer }
    ensures errors { result ≡ outcome.Done
        → E.contents errors.new.writer ≡ E.contents errors.old.writer }
{
    let bytes = match file_bytes(alloc, arguments.table, &*files, errors) {
        Ok(bytes) => bytes,
        Err(ended) => return ended,
    };
    let new = match migrated(alloc, &bytes, errors) {
        Ok(new) => new,
        Err(ended) => return ended,
    };
    match files.write(arguments.out, &new) {
        Ok(()) => summarize(&new, out, errors),
        Err(error) => tell_no_file(alloc, arguments.out, &error, errors),
    }
}
