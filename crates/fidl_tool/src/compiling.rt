//! The command `compile`: from the sources of libraries to their coding table.
ghost use Rattle.std.specs.Prelude.{◌≡◌, ◌↔◌, ◌++◌, map, None, Err, IfOk, IfErr, OnOk, OnErr};
ghost use Rattle.std.specs.Prelude.{IsSome};
ghost use Rattle.std.specs.Io.KnownBytes.{Appends};
ghost use Rattle.std.specs.List.{list_all};
ghost use Rattle.fidl_table_format.specs.WellFormed.{WellFormed};
ghost use Rattle.fidl_compile.specs.Sources.{IsTableOf};
ghost use Rattle.fidl_compile.specs.Stages.{AreRefused};
ghost use Rattle.fidl_compile.specs.Reports.{reported};
ghost use Rattle.fidl_tool.specs.Compiling.{named_of, texts_of, name_at, text_at, report_line};
ghost use Rattle.fidl_tool.specs.Compiling.{located, located_at, is_plain_byte, shown_name};
ghost use Rattle.fidl_tool.specs.Compiling.{note_text, IsWanted, IsShown};
ghost use Rattle.std.specs.Prelude.{string_bytes};
ghost use Rattle.fidl_tool.specs.Compiling.{IsSourceRefusal, CanEndCompile};
ghost use Rattle.fidl_commands.specs.Decoding.{no_memory_line};
ghost use Rattle.fidl_commands.specs.Outputs.{AppendsOne};
ghost use Rattle.fidl_commands.specs.declared.outcome.Outcome.TheVariants as outcome;

use fidl_commands::{File, Outcome, write_no_memory};
use fidl_compile::{CompileFault, Refusal};
use fidl_expected::{Wanted, expected};
use fidl_named::Place;
use fidl_span::line_col;
use fidl_text::{Failed, Output, Word, write_decimal, write_quoted, write_words};
use std::alloc::{AllocError, Global};
use std::io::Write;

/// The bytes of files, in their order.
fn bytes_of<'f>(alloc: Global, files: &[File<'f>]) -> Result<Vec<&'f [u8]>, AllocError>
    ensures { IfOk result (λ texts. map (λ t. t.now) texts.items ≡ texts_of (named_of files.now)) }
{
    let mut texts = Vec::new(alloc);
    for file in files {
        texts.push(file.bytes)?;
    }
    Ok(texts)
}

/// The file of this number; an empty one where there is none, of which no refusal is true.
fn file_at<'f>(files: &[File<'f>], number: usize) -> File<'f>
    ensures name { result.name.now ≡ name_at (named_of files.now) number }
    ensures bytes { result.bytes.now ≡ text_at (named_of files.now) number }
{
    match files.get(number) {
        Some(file) => *file,
        None => File {
            name: "",
            bytes: &[],
        },
    }
}

/// Where a refusal is reported: a file by its name, and the line and the column in it.
#[derive(Clone, Copy, Drop)]
struct LinePlace<'f> {
    file: &'f str,
    line: u64,
    column: u64,
}

/// The line and the column of a place in these files.
fn line_place<'f>(files: &[File<'f>], place: Place) -> LinePlace<'f>
    ensures { located result ≡ located_at (named_of files.now) place }
{
    let file = file_at(files, place.file);
    let (line, column) = line_col(file.bytes, place.span.from);
    LinePlace {
        file: file.name,
        line,
        column,
    }
}

/// Whether a byte is no control character.
fn is_plain_byte(byte: u8) -> bool
    ensures { result ≡ is_plain_byte byte }
{
    32 <= byte && byte != 127
}

/// Whether a file's name can stand in a line as it is: it has no control character.
fn is_plain(name: &str) -> bool
    ensures { result ≡ list_all is_plain_byte name.now }
{
    name.as_bytes().iter().all(|byte| is_plain_byte(*byte))
}

/// The name of a file at the front of a line: between quotes where it has a control character.
fn write_name<E: Write>(name: &str, errors: &mut Output<E>) -> Result<(), Failed>
    ensures name { OnOk result
        (Appends (E.contents errors.old.writer) (E.contents errors.new.writer)
        (shown_name name.now)) }
    ensures kept { OnOk result (errors.new.failure ≡ errors.old.failure) }
    ensures failed { OnErr result (IsSome errors.new.failure) }
{
    if is_plain(name) {
        errors.write_all(name.as_bytes())
    } else {
        write_quoted(name.as_bytes(), errors)
    }
}

/// The word that was expected where the parser refuses a source, if one is known.
fn wanted_at(alloc: Global, src: &[u8], refusal: &Refusal) -> Result<Option<Wanted>, AllocError>
    ensures { IfOk result (IsWanted src.now (reported refusal.now)) }
{
    let at = refusal.place.span.from;
    if refusal.stage == "parse" && refusal.number == 1 && at <= src.len() {
        return expected(alloc, src, at);
    }
    Ok(None)
}

/// The note that follows the caret: what was expected, if that is known, and how to ask for an
/// explanation.
fn note_text(
    alloc: Global,
    wanted: Option<Wanted>,
    stage: &str,
    number: u32,
) -> Result<String, AllocError>
    ensures { IfOk result (λ note. string_bytes note ≡ note_text wanted stage.now number) }
{
    match wanted {
        Some(wanted) => {
            let word = wanted.shown();
            format!(in alloc; "expected {word}, see 'fidl explain {stage} {number}'")
        }
        None => format!(in alloc; "see 'fidl explain {stage} {number}'"),
    }
}

/// What stands below the line of a refusal: the line of the source, where that is asked for.
fn shown(
    alloc: Global,
    files: &[File<'_>],
    refusal: &Refusal,
    snippet: bool,
) -> Result<Vec<u8>, AllocError>
    ensures { IfOk result (λ text.
        IsShown snippet (named_of files.now) (reported refusal.now) text.items) }
{
    if !snippet {
        return Ok(Vec::new(alloc));
    }
    let place = refusal.place;
    let src = file_at(files, place.file).bytes;
    let wanted = wanted_at(alloc, src, refusal)?;
    let note = note_text(alloc, wanted, refusal.stage, refusal.number)?;
    fidl_hints::snippet(alloc, src, place.span.from, note.as_str())
}

/// The line of a refusal at its place, and what is shown below it.
fn write_report<E: Write>(
    place: LinePlace<'_>,
    refusal: &Refusal,
    shown: &[u8],
    errors: &mut Output<E>,
) -> Result<(), Failed>
    ensures line { OnOk result
        (Appends (E.contents errors.old.writer) (E.contents errors.new.writer)
        (report_line (located place.entry) (reported refusal.now) ++ shown.now)) }
    ensures kept { OnOk result (errors.new.failure ≡ errors.old.failure) }
    ensures failed { OnErr result (IsSome errors.new.failure) }
{
    let LinePlace { file, line, column } = place;
    write_name(file, errors)?;
    errors.write_all(b":")?;
    write_decimal(line, errors)?;
    errors.write_all(b":")?;
    write_decimal(column, errors)?;
    let words = [
        Word::Text(refusal.stage),
        Word::Number(refusal.number as u64),
        Word::Text(refusal.name),
    ];
    write_words(":", &words, errors)?;
    errors.write_all(shown)?;
    errors.flush()
}

/// Reports why sources have no table.
fn refuse<E: Write>(
    alloc: Global,
    files: &[File<'_>],
    fault: &CompileFault,
    snippet: bool,
    errors: &mut Output<E>,
) -> Outcome
    requires { AreRefused (texts_of (named_of files.now)) fault.now }
    ensures ends { CanEndCompile result }
    ensures refused { result ≡ outcome.Refused
        → AppendsOne (IsSourceRefusal snippet (named_of files.now))
        (E.contents errors.old.writer) (E.contents errors.new.writer) }
    ensures memory_line { result ≡ outcome.NoMemory
        → Appends (E.contents errors.old.writer) (E.contents errors.new.writer) no_memory_line }
    ensures unwritten { errors.old.failure ≡ None
        → (result ≡ outcome.Unwritten ↔ IsSome errors.new.failure) }
{
    match fault.refusal() {
        Some(refusal) => {
            let Ok(shown) = shown(alloc, files, &refusal, snippet) else {
                return Outcome::NoMemory.where_written(&write_no_memory(errors));
            };
            let place = line_place(files, refusal.place);
            Outcome::Refused.where_written(&write_report(place, &refusal, &shown, errors))
        }
        None => Outcome::NoMemory.where_written(&write_no_memory(errors)),
    }
}

/// Compiles the sources of libraries, and gives the bytes of their table.
///
/// `Refused` where a stage refuses the sources, with one line on `errors`: the file, line and
/// column, the stage, and the fault's number and name; with `snippet` the line of the source stands
/// below it. `Unwritten` where that line is not written,
/// and `NoMemory` where memory ran out.
pub fn compile<E: Write>(
    alloc: Global,
    files: &[File<'_>],
    snippet: bool,
    errors: &mut Output<E>,
) -> Result<Vec<u8>, Outcome>
    ensures ends { IfErr result CanEndCompile }
    ensures well_formed { IfOk result (λ table. WellFormed table.items) }
    ensures shows { IfOk result (λ table. IsTableOf (texts_of (named_of files.now)) table.items) }
    ensures refused { result ≡ Err outcome.Refused
        → AppendsOne (IsSourceRefusal snippet (named_of files.now))
        (E.contents errors.old.writer) (E.contents errors.new.writer) }
    ensures memory_line { result ≡ Err outcome.NoMemory
        → Appends (E.contents errors.old.writer) (E.contents errors.new.writer) no_memory_line }
    ensures unwritten { IfErr result (λ ended. errors.old.failure ≡ None
        → (ended ≡ outcome.Unwritten ↔ IsSome errors.new.failure)) }
    ensures kept { OnOk result (errors.new ≡ errors.old) }
{
    let Ok(sources) = bytes_of(alloc, files) else {
        return Err(Outcome::NoMemory.where_written(&write_no_memory(errors)));
    };
    match fidl_compile::compile(alloc, &sources) {
        Ok(table) => Ok(table),
        Err(fault) => Err(refuse(alloc, files, &fault, snippet, errors)),
    }
}
