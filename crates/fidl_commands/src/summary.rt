//! The line that says what a table holds, which `compile` and `migrate` print.
ghost use Rattle.std.specs.Prelude.{◌≡◌, OnOk, OnErr, IsSome};
ghost use Rattle.std.specs.Io.KnownBytes.{Appends};
ghost use Rattle.fidl_table_format.specs.WellFormed.{WellFormed};
ghost use Rattle.fidl_text.specs.Outputs.{AppendsFront, Writes};
ghost use Rattle.fidl_commands.specs.Summary.{summary_line, CanEndPrinting};
ghost use Rattle.fidl_commands.specs.Outputs.{ReportsFailures};
ghost use Rattle.fidl_commands.specs.declared.outcome.Outcome.TheVariants as outcome;

use crate::lines::write_no_output;
use crate::outcome::Outcome;
use fidl_table_format::read_header;
use fidl_text::{Failed, Output, Word, write_words};
use std::io::Write;

/// Writes the line that says what a table holds.
fn write_summary<W: Write>(table: &[u8], out: &mut Output<W>) -> Result<(), Failed>
    requires { WellFormed table.now }
    ensures text { Writes (W.contents out.old.writer) (W.contents out.new.writer)
        (summary_line table.now) result }
    ensures kept { OnOk result (out.new.failure ≡ out.old.failure) }
    ensures failed { OnErr result (IsSome out.new.failure) }
{
    let header = read_header(table);
    let words = [
        Word::Counted(header.entries as u64),
        Word::Text("roots"),
        Word::Counted(header.roots as u64),
        Word::Text("protocols"),
        Word::Counted(header.protocols as u64),
        Word::Text("methods"),
        Word::Counted(header.methods as u64),
        Word::Text("bytes"),
        Word::Number(table.len() as u64),
    ];
    write_words("entries", &words, out)?;
    out.flush()
}

/// Prints what a table holds, in one line.
///
/// `Unwritten` where a write of this call fails.
pub fn summarize<W: Write, E: Write>(
    table: &[u8],
    out: &mut Output<W>,
    errors: &mut Output<E>,
) -> Outcome
    requires { WellFormed table.now }
    ensures ends { CanEndPrinting result }
    ensures done { result ≡ outcome.Done → Appends (W.contents out.old.writer)
        (W.contents out.new.writer) (summary_line table.now) }
    ensures unwritten { ReportsFailures result out.old.failure out.new.failure
        errors.old.failure errors.new.failure }
    ensures front { result ≡ outcome.Unwritten → AppendsFront (W.contents out.old.writer)
        (W.contents out.new.writer) (summary_line table.now) }
    ensures errors { result ≡ outcome.Done
        → E.contents errors.new.writer ≡ E.contents errors.old.writer }
{
    match write_summary(table, out) {
        Ok(()) => Outcome::Done,
        Err(Failed) => Outcome::Unwritten.where_written(&write_no_output(errors, out)),
    }
}
