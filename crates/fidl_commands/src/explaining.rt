//! The command `explain`: what is said of faults.
ghost use Rattle.std.specs.Prelude.{◌≡◌, ◌≢◌, [], IfSome};
ghost use Rattle.std.specs.Io.KnownBytes.{Appends};
ghost use Rattle.fidl_hints.specs.Explanations.{answer};
ghost use Rattle.fidl_text.specs.Outputs.{AppendsFront};
ghost use Rattle.fidl_commands.specs.Decoding.{no_memory_line};
ghost use Rattle.fidl_commands.specs.Explaining.{CanEndExplain, no_fault_line};
ghost use Rattle.fidl_commands.specs.Outputs.{ReportsFailures};
ghost use Rattle.fidl_commands.specs.declared.outcome.Outcome.TheVariants as outcome;

use crate::lines::{write_no_fault, write_no_memory, write_no_output, write_text};
use crate::outcome::Outcome;
use fidl_hints::{Explanation, Faults};
use fidl_text::{Failed, Output};
use std::alloc::Global;
use std::io::Write;

/// Prints the explanations in a guide of the faults that are asked for.
///
/// `Done` where all of them stand on `out`; `NoFault` where the guide has none of them, with one line
/// on `errors`. `Unwritten` comes where a write of this call fails, and `NoMemory` where memory ran
/// out.
pub fn explain<W: Write, E: Write>(
    alloc: Global,
    guide: &[Explanation<'_>],
    faults: &Faults<'_>,
    out: &mut Output<W>,
    errors: &mut Output<E>,
) -> Outcome
    ensures ends { CanEndExplain result }
    ensures done { result ≡ outcome.Done → Appends (W.contents out.old.writer)
        (W.contents out.new.writer) (answer guide.now faults.now) }
    ensures some { result ≡ outcome.Done → answer guide.now faults.now ≢ [] }
    ensures no_fault { result ≡ outcome.NoFault → answer guide.now faults.now ≡ [] }
    ensures no_fault_line { result ≡ outcome.NoFault → IfSome (no_fault_line faults.now)
        (Appends (E.contents errors.old.writer) (E.contents errors.new.writer)) }
    ensures memory_line { result ≡ outcome.NoMemory
        → Appends (E.contents errors.old.writer) (E.contents errors.new.writer) no_memory_line }
    ensures unwritten { ReportsFailures result out.old.failure out.new.failure
        errors.old.failure errors.new.failure }
    ensures front { result ≡ outcome.Unwritten → AppendsFront (W.contents out.old.writer)
        (W.contents out.new.writer) (answer guide.now faults.now) }
    ensures out { result ≢ outcome.Done → result ≢ outcome.Unwritten
        → W.contents out.new.writer ≡ W.contents out.old.writer }
    ensures errors { result ≡ outcome.Done
        → E.contents errors.new.writer ≡ E.contents errors.old.writer }
{
    let Ok(text) = fidl_hints::explain(alloc, guide, faults) else {
        return Outcome::NoMemory.where_written(&write_no_memory(errors));
    };
    if text.is_empty() {
        return Outcome::NoFault.where_written(&write_no_fault(errors, faults));
    }
    match write_text(out, text.as_str()) {
        Ok(()) => Outcome::Done,
        Err(Failed) => Outcome::Unwritten.where_written(&write_no_output(errors, out)),
    }
}
