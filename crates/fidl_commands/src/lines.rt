//! The lines that a command prints on its errors.
ghost use Rattle.std.specs.Prelude.{◌≡◌, ◌++◌, codes, OnOk, OnErr, IfSome, IsSome, option_map};
ghost use Rattle.std.specs.Io.KnownBytes.{Appends};
ghost use Rattle.fidl_text.specs.Outputs.{Writes};
ghost use Rattle.fidl_commands.specs.Decoding.{refusal_line, placeless_line, no_memory_line};
ghost use Rattle.fidl_commands.specs.Naming.{missing_line};
ghost use Rattle.fidl_commands.specs.Explaining.{no_fault_line, no_name_line, no_number_line};
ghost use Rattle.fidl_commands.specs.Files.{no_file_line};

use crate::naming::Named;
use fidl_hints::Faults;
use fidl_text::{Failed, Output};
use std::io::Write;

/// A text as it is.
pub(crate) fn write_text<W: Write>(out: &mut Output<W>, text: &str) -> Result<(), Failed>
    ensures text { Writes (W.contents out.old.writer) (W.contents out.new.writer)
        text.now result }
    ensures kept { OnOk result (out.new.failure ≡ out.old.failure) }
    ensures failed { OnErr result (IsSome out.new.failure) }
{
    out.write_all(text.as_bytes())?;
    out.flush()
}

/// A text and a line feed.
pub(crate) fn write_line<E: Write>(errors: &mut Output<E>, text: &str) -> Result<(), Failed>
    ensures line { OnOk result
        (Appends (E.contents errors.old.writer) (E.contents errors.new.writer)
        (text.now ++ codes "\n")) }
    ensures kept { OnOk result (errors.new.failure ≡ errors.old.failure) }
    ensures failed { OnErr result (IsSome errors.new.failure) }
{
    errors.write_all(text.as_bytes())?;
    errors.write_all(b"\n")?;
    errors.flush()
}

/// The line of a refusal: the stage that refuses, the fault's number and name, and its place.
pub fn write_refusal<E: Write>(
    errors: &mut Output<E>,
    stage: &str,
    number: u32,
    name: &str,
    place: usize,
) -> Result<(), Failed>
    ensures line { OnOk result
        (Appends (E.contents errors.old.writer) (E.contents errors.new.writer)
        (refusal_line stage.now number name.now place)) }
    ensures kept { OnOk result (errors.new.failure ≡ errors.old.failure) }
    ensures failed { OnErr result (IsSome errors.new.failure) }
{
    writeln!(errors, "{stage} {number} {name} at {place}")?;
    errors.flush()
}

/// The line of a refusal that has no place.
pub fn write_placeless_refusal<E: Write>(
    errors: &mut Output<E>,
    stage: &str,
    number: u32,
    name: &str,
) -> Result<(), Failed>
    ensures line { OnOk result
        (Appends (E.contents errors.old.writer) (E.contents errors.new.writer)
        (placeless_line stage.now number name.now)) }
    ensures kept { OnOk result (errors.new.failure ≡ errors.old.failure) }
    ensures failed { OnErr result (IsSome errors.new.failure) }
{
    writeln!(errors, "{stage} {number} {name}")?;
    errors.flush()
}

/// The words for a root or a protocol that the table of a file does not have, with a name that was
/// perhaps meant.
fn write_missing<E: Write>(
    errors: &mut Output<E>,
    named: Named,
    file: &str,
    name: &str,
    near: Option<&str>,
) -> Result<(), Failed>
    ensures line { OnOk result (IfSome
        (missing_line named file.now name.now (option_map (λ n. n.now) near.entry))
        (Appends (E.contents errors.old.writer) (E.contents errors.new.writer))) }
    ensures kept { OnOk result (errors.new.failure ≡ errors.old.failure) }
    ensures failed { OnErr result (IsSome errors.new.failure) }
{
    let argument = named.argument();
    let kind = named.kind();
    match near {
        Some(near) => writeln!(
            errors,
            "error: {argument}: no {kind} of {file:?} has the name {name:?}; did you mean {near}?"
        ),
        None => writeln!(
            errors,
            "error: {argument}: no {kind} of {file:?} has the name {name:?}"
        ),
    }
}

/// The line for a root or a protocol that the table of a file does not have, with a name that was
/// perhaps meant.
pub fn write_unnamed<E: Write>(
    errors: &mut Output<E>,
    named: Named,
    file: &str,
    name: &str,
    near: Option<&str>,
) -> Result<(), Failed>
    ensures line { OnOk result (IfSome
        (missing_line named file.now name.now (option_map (λ n. n.now) near.entry))
        (Appends (E.contents errors.old.writer) (E.contents errors.new.writer))) }
    ensures kept { OnOk result (errors.new.failure ≡ errors.old.failure) }
    ensures failed { OnErr result (IsSome errors.new.failure) }
{
    write_missing(errors, named, file, name, near)?;
    errors.flush()
}

/// The words for a name that no fault has.
fn write_no_name<E: Write>(errors: &mut Output<E>, name: &str) -> Result<(), Failed>
    ensures line { OnOk result (IfSome (no_name_line name.now)
        (Appends (E.contents errors.old.writer) (E.contents errors.new.writer))) }
    ensures kept { OnOk result (errors.new.failure ≡ errors.old.failure) }
    ensures failed { OnErr result (IsSome errors.new.failure) }
{
    writeln!(errors, "error: FAULT: no fault has the name {name:?}")?;
    errors.flush()
}

/// The words for a stage and a number that no fault has.
fn write_no_number<E: Write>(errors: &mut Output<E>, stage: &str, number: u32) -> Result<(), Failed>
    ensures line { OnOk result (IfSome (no_number_line stage.now number)
        (Appends (E.contents errors.old.writer) (E.contents errors.new.writer))) }
    ensures kept { OnOk result (errors.new.failure ≡ errors.old.failure) }
    ensures failed { OnErr result (IsSome errors.new.failure) }
{
    writeln!(
        errors,
        "error: FAULT: no fault has the stage {stage:?} and the number {number}"
    )?;
    errors.flush()
}

/// The line for a fault that there is not.
pub(crate) fn write_no_fault<E: Write>(
    errors: &mut Output<E>,
    faults: &Faults<'_>,
) -> Result<(), Failed>
    ensures line { OnOk result (IfSome (no_fault_line faults.now)
        (Appends (E.contents errors.old.writer) (E.contents errors.new.writer))) }
    ensures kept { OnOk result (errors.new.failure ≡ errors.old.failure) }
    ensures failed { OnErr result (IsSome errors.new.failure) }
{
    match faults {
        Faults::Named(name) => write_no_name(errors, name),
        Faults::Numbered { stage, number } => write_no_number(errors, stage, *number),
    }
}

/// The line for a file that cannot be read, or not be written.
pub(crate) fn write_no_file<E: Write>(
    errors: &mut Output<E>,
    name: &str,
    reason: &str,
) -> Result<(), Failed>
    ensures line { OnOk result (IfSome (no_file_line name.now reason.now)
        (Appends (E.contents errors.old.writer) (E.contents errors.new.writer))) }
    ensures kept { OnOk result (errors.new.failure ≡ errors.old.failure) }
    ensures failed { OnErr result (IsSome errors.new.failure) }
{
    writeln!(errors, "error: {name:?}: {reason}")?;
    errors.flush()
}

/// The line where memory ran out.
pub fn write_no_memory<E: Write>(errors: &mut Output<E>) -> Result<(), Failed>
    ensures line { OnOk result
        (Appends (E.contents errors.old.writer) (E.contents errors.new.writer) no_memory_line) }
    ensures kept { OnOk result (errors.new.failure ≡ errors.old.failure) }
    ensures failed { OnErr result (IsSome errors.new.failure) }
{
    write_line(errors, "error: out of memory")
}

/// The line for an output that has failed.
pub fn write_no_output<W: Write, E: Write>(
    errors: &mut Output<E>,
    out: &Output<W>,
) -> Result<(), Failed>
    ensures kept { OnOk result (errors.new.failure ≡ errors.old.failure) }
    ensures failed { OnErr result (IsSome errors.new.failure) }
{
    if let Some(error) = out.failure() {
        writeln!(errors, "error: the output: {error}")?;
    }
    errors.flush()
}
