//! What is said of a fault that is asked for.
ghost use Rattle.std.specs.Prelude.{◌≡◌, ◌++◌, IfOk, OnOk, string_bytes};
ghost use Rattle.fidl_hints.specs.Explanations.{is_asked, entry_text, answer};

use std::alloc::{AllocError, Global};

/// What is said of a fault: the stage that reports it, its number and its name, and lines that say what it
/// means, where its rules stand, and what has it.
#[derive(Clone, Copy, Debug, Drop)]
pub struct Explanation<'g> {
    pub stage: &'g str,
    pub number: u32,
    pub name: &'g str,
    pub lines: &'g str,
}

/// Which faults are asked for.
#[derive(Clone, Copy, Debug, Drop)]
pub enum Faults<'a> {
    /// Those of a name, in each stage.
    Named(&'a str),
    /// That of a number in a stage.
    Numbered { stage: &'a str, number: u32 },
}

/// Whether an explanation is of a fault that is asked for.
fn is_asked(asked: &Faults<'_>, explanation: &Explanation<'_>) -> bool
    ensures { result ≡ is_asked asked.now explanation.now }
{
    match asked {
        Faults::Named(name) => *name == explanation.name,
        Faults::Numbered { stage, number } => {
            *stage == explanation.stage && *number == explanation.number
        }
    }
}

/// Appends an explanation.
fn push_entry(
    alloc: Global,
    explanation: &Explanation<'_>,
    text: &mut String,
) -> Result<(), AllocError>
    ensures { OnOk result (string_bytes text.new
        ≡ string_bytes text.old ++ entry_text explanation.now) }
{
    let Explanation {
        stage,
        number,
        name,
        lines,
    } = *explanation;
    let heading = format!(in alloc; "{stage} {number} {name}\n")?;
    text.push_str(heading.as_str())?;
    text.push_str(lines)
}

/// The explanations in a guide of the faults that are asked for, one after the other; empty where the
/// guide has no fault of this name, or of this number in this stage.
pub fn explain(
    alloc: Global,
    guide: &[Explanation<'_>],
    asked: &Faults<'_>,
) -> Result<String, AllocError>
    ensures { IfOk result (λ text. string_bytes text ≡ answer guide.now asked.now) }
{
    let mut text = String::new(alloc);
    for explanation in guide {
        if is_asked(asked, explanation) {
            push_entry(alloc, explanation, &mut text)?;
        }
    }
    Ok(text)
}
