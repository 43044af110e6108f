//! The command `compile` on files: reading its sources, and writing its table.
ghost use Rattle.std.specs.Prelude.{◌≡◌, ◌≢◌, ◌↔◌, ◌⊎◌, map, None, Err, IfOk, IfErr, OnOk};
ghost use Rattle.std.specs.Prelude.{IsSome};
ghost use Rattle.std.specs.Io.KnownBytes.{Appends};
ghost use Rattle.fidl_commands.specs.Decoding.{no_memory_line};
ghost use Rattle.fidl_tool.specs.Compiling.{named_of, IsSourceRefusal};
ghost use Rattle.fidl_commands.specs.Outputs.{AppendsOne, ReportsFailures};
ghost use Rattle.fidl_tool.specs.Running.{IsRead, AreRead, stored_as};
ghost use Rattle.fidl_commands.specs.Files.{IsMissing, HasMissing};
ghost use Rattle.fidl_tool.specs.Running.{OfSources, sources_of, AreCompiled, LacksSourceOrOut};
ghost use Rattle.fidl_tool.specs.Running.{ArePrintedInPart, CanEndCompileRun};
ghost use Rattle.fidl_commands.specs.Contents.{CanEndReading};
ghost use Rattle.fidl_commands.specs.declared.outcome.Outcome.TheVariants as outcome;

use crate::compiling::compile;
use fidl_command_line::CompileArguments;
use fidl_commands::{File, Files, Outcome, file_bytes, summarize, tell_no_file, write_no_memory};
use fidl_text::Output;
use std::alloc::{AllocError, Global};
use std::io::Write;

/// A source that was read: its name on the command line, and its bytes.
#[derive(Drop)]
pub(crate) struct Source<'a> {
    pub name: &'a str,
    pub bytes: Vec<u8>,
}

/// Reads the file of this name.
fn read_source<'a, F: Files, E: Write>(
    alloc: Global,
    name: &'a str,
    files: &F,
    errors: &mut Output<E>,
) -> Result<Source<'a>, Outcome>
    ensures read { IfOk result (λ source. IsRead (F.bytes_of files.now) name.now
        (stored_as source)) }
    ensures kept { OnOk result (errors.new ≡ errors.old) }
    ensures ends { IfErr result CanEndReading }
    ensures no_file { result ≡ Err outcome.NoFile → IsMissing (F.bytes_of files.now) name.now
        (E.contents errors.old.writer) (E.contents errors.new.writer) }
    ensures memory_line { result ≡ Err outcome.NoMemory
        → Appends (E.contents errors.old.writer) (E.contents errors.new.writer) no_memory_line }
    ensures unwritten { IfErr result (λ ended. errors.old.failure ≡ None
        → (ended ≡ outcome.Unwritten ↔ IsSome errors.new.failure)) }
{
    let bytes = file_bytes(alloc, name, files, errors)?;
    Ok(Source { name, bytes })
}

/// Reads the files of these names.
fn read_all<'a, F: Files, E: Write>(
    alloc: Global,
    names: &[&'a str],
    files: &F,
    errors: &mut Output<E>,
) -> Result<Vec<Source<'a>>, Outcome>
    ensures read { IfOk result (λ sources. AreRead (F.bytes_of files.now)
        (map (λ n. n.now) names.now) (map stored_as sources.items)) }
    ensures kept { OnOk result (errors.new ≡ errors.old) }
    ensures ends { IfErr result CanEndReading }
    ensures no_file { result ≡ Err outcome.NoFile
        → HasMissing (F.bytes_of files.now) (map (λ n. n.now) names.now)
        (E.contents errors.old.writer) (E.contents errors.new.writer) }
    ensures memory_line { result ≡ Err outcome.NoMemory
        → Appends (E.contents errors.old.writer) (E.contents errors.new.writer) no_memory_line }
    ensures unwritten { IfErr result (λ ended. errors.old.failure ≡ None
        → (ended ≡ outcome.Unwritten ↔ IsSome errors.new.failure)) }
{
    let mut sources = Vec::new(alloc);
    for name in names {
        let source = read_source(alloc, *name, files, errors)?;
        let Ok(()) = sources.push(source) else {
            return Err(Outcome::NoMemory.where_written(&write_no_memory(errors)));
        };
    }
    Ok(sources)
}

/// Sources as files.
fn files_of<'f>(alloc: Global, sources: &'f [Source<'_>]) -> Result<Vec<File<'f>>, AllocError>
    ensures { IfOk result (λ files. named_of files.items ≡ map stored_as sources.now) }
{
    let mut files = Vec::new(alloc);
    for source in sources {
        files.push(File {
            name: source.name,
            bytes: source.bytes.as_slice(),
        })?;
    }
    Ok(files)
}

/// Reads the sources, compiles them, writes their table, and prints what it holds. The table stays
/// written where the line is not.
pub(crate) fn run_compile<F: Files, W: Write, E: Write>(
    alloc: Global,
    arguments: &CompileArguments<'_>,
    files: &mut F,
    out: &mut Output<W>,
    errors: &mut Output<E>,
) -> Outcome
    ensures ends { CanEndCompileRun result }
    ensures done { result ≡ outcome.Done
        → OfSources (F.bytes_of files.old) (sources_of arguments.now)
        (λ sources. AreCompiled arguments.now sources
        (W.contents out.old.writer) (W.contents out.new.writer)
        (F.written files.old) (F.written files.new)) }
    ensures refused { result ≡ outcome.Refused
        → OfSources (F.bytes_of files.old) (sources_of arguments.now)
        (λ sources. AppendsOne (IsSourceRefusal arguments.now.snippet sources)
        (E.contents errors.old.writer) (E.contents errors.new.writer)) }
    ensures no_file { result ≡ outcome.NoFile
        → LacksSourceOrOut (F.bytes_of files.old) (F.can_write files.old) arguments.now
        (E.contents errors.old.writer) (E.contents errors.new.writer) }
    ensures memory_line { result ≡ outcome.NoMemory
        → Appends (E.contents errors.old.writer) (E.contents errors.new.writer) no_memory_line }
    ensures written { result ≢ outcome.Done → result ≢ outcome.Unwritten
        → F.written files.new ≡ F.written files.old }
    ensures unwritten { ReportsFailures result out.old.failure out.new.failure
        errors.old.failure errors.new.failure }
    ensures front { result ≡ outcome.Unwritten
        → ((W.contents out.new.writer ≡ W.contents out.old.writer)
        × (F.written files.new ≡ F.written files.old))
        ⊎ OfSources (F.bytes_of files.old) (sources_of arguments.now)
        (λ sources. ArePrintedInPart arguments.now sources
        (W.contents out.old.writer) (W.contents out.new.writer)
        (F.written files.old) (F.written files.new)) }
    ensures out { result ≢ outcome.Done → result ≢ outcome.Unwritten
        → W.contents out.new.writer ≡ W.contents out.old.writer }
    ensures errors { result ≡ outcome.Done
        → E.contents errors.new.writer ≡ E.contents errors.old.writer }
{
    let sources = match read_all(alloc, &arguments.sources, &*files, errors) {
        Ok(sources) => sources,
        Err(ended) => return ended,
    };
    let Ok(named) = files_of(alloc, &sources) else {
        return Outcome::NoMemory.where_written(&write_no_memory(errors));
    };
    let table = match compile(alloc, &named, arguments.snippet, errors) {
        Ok(table) => table,
        Err(ended) => return ended,
    };
    match files.write(arguments.out, &table) {
        Ok(()) => summarize(&table, out, errors),
        Err(error) => tell_no_file(alloc, arguments.out, &error, errors),
    }
}
