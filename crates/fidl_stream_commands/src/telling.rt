//! The reports of a refused script, and of a service that has ended.
ghost use Rattle.std.specs.Prelude.{◌≡◌, ◌≢◌, ◌↔◌, ◌⊎◌, None, Ok, IsOk, IsSome, IsTrue};
ghost use Rattle.std.specs.Prelude.{OnOk, OnErr};
ghost use Rattle.std.specs.Io.KnownBytes.{Appends};
ghost use Rattle.fidl_serve.specs.Served.{is_write_fault};
ghost use Rattle.fidl_commands.specs.Decoding.{no_memory_line};
ghost use Rattle.fidl_commands.specs.declared.outcome.Outcome.TheVariants as outcome;
ghost use Rattle.fidl_stream_commands.specs.Serving.{script_line, line_of, CanEndScript};
ghost use Rattle.fidl_stream_commands.specs.Serving.{outcome_of, CanEndServe};

use fidl_commands::{Outcome, write_no_memory, write_placeless_refusal, write_refusal};
use fidl_requests::Ended;
use fidl_script::ScriptFault;
use fidl_serve::ServeFault;
use fidl_text::{Failed, Output};
use std::io::Write;

/// The line of a script's fault, with the line that it reports.
fn write_script_refusal<E: Write>(errors: &mut Output<E>, fault: ScriptFault) -> Result<(), Failed>
    ensures line { OnOk result
        (Appends (E.contents errors.old.writer) (E.contents errors.new.writer)
        (script_line fault)) }
    ensures kept { OnOk result (errors.new.failure ≡ errors.old.failure) }
    ensures failed { OnErr result (IsSome errors.new.failure) }
{
    match fault.line() {
        Some(line) => {
            let place = line as usize;
            write_refusal(errors, "script", fault.number(), fault.name(), place)
        }
        None => write_placeless_refusal(errors, "script", fault.number(), fault.name()),
    }
}

/// Reports that a text is no script.
pub(crate) fn refuse_script<E: Write>(fault: ScriptFault, errors: &mut Output<E>) -> Outcome
    ensures ends { CanEndScript result }
    ensures judged { result ≡ outcome.Refused → fault ≢ ScriptFault.Memory }
    ensures refused { result ≡ outcome.Refused
        → Appends (E.contents errors.old.writer) (E.contents errors.new.writer)
        (script_line fault) }
    ensures memory_line { result ≡ outcome.NoMemory
        → Appends (E.contents errors.old.writer) (E.contents errors.new.writer) no_memory_line }
    ensures unwritten { errors.old.failure ≡ None
        → (result ≡ outcome.Unwritten ↔ IsSome errors.new.failure) }
{
    match fault {
        ScriptFault::Memory => Outcome::NoMemory.where_written(&write_no_memory(errors)),
        fault => Outcome::Refused.where_written(&write_script_refusal(errors, fault)),
    }
}

/// What happens to the command by the result of its service.
fn outcome_of(served: Result<Ended, ServeFault>) -> Outcome
    ensures { result ≡ outcome_of served }
{
    match served {
        Ok(Ended::EndOfInput) => Outcome::Done,
        Ok(_) | Err(ServeFault::NeverEnds) => Outcome::Refused,
        Err(ServeFault::Read) => Outcome::Unread,
        Err(ServeFault::Write { .. }) => Outcome::Unwritten,
        Err(ServeFault::Memory) => Outcome::NoMemory,
    }
}

/// The line of a service's result; none where its input ended between frames.
fn write_end<E: Write>(
    errors: &mut Output<E>,
    served: Result<Ended, ServeFault>,
) -> Result<(), Failed>
    ensures line { OnOk result
        (Appends (E.contents errors.old.writer) (E.contents errors.new.writer)
        (line_of served)) }
    ensures quiet { served ≡ Ok Ended.EndOfInput → IsOk result × (errors.new ≡ errors.old) }
    ensures kept { OnOk result (errors.new.failure ≡ errors.old.failure) }
    ensures failed { OnErr result (IsSome errors.new.failure) }
{
    match served {
        Ok(Ended::EndOfInput) => Ok(()),
        Ok(ended) => write_placeless_refusal(errors, "ended", ended.number(), ended.name()),
        Err(ServeFault::Memory) => write_no_memory(errors),
        Err(fault) => write_placeless_refusal(errors, "serve", fault.number(), fault.name()),
    }
}

/// Reports how a service has ended.
pub(crate) fn tell_end<E: Write>(
    served: Result<Ended, ServeFault>,
    errors: &mut Output<E>,
) -> Outcome
    ensures ends { CanEndServe result }
    ensures outcome { result ≢ outcome.Unwritten → result ≡ outcome_of served }
    ensures line { result ≢ outcome.Unwritten
        → Appends (E.contents errors.old.writer) (E.contents errors.new.writer)
        (line_of served) }
    ensures cut_line { errors.new.failure ≡ None
        → Appends (E.contents errors.old.writer) (E.contents errors.new.writer)
        (line_of served) }
    ensures quiet { served ≡ Ok Ended.EndOfInput
        → (result ≡ outcome.Done) × (errors.new ≡ errors.old) }
    ensures unwritten { errors.old.failure ≡ None → (result ≡ outcome.Unwritten)
        ↔ (IsTrue (is_write_fault served) ⊎ IsSome errors.new.failure) }
{
    outcome_of(served).where_written(&write_end(errors, served))
}
