//! The figures of all definitions, the innermost first.
ghost use Rattle.std.specs.Prelude.{◌≡◌, ◌<◌, [], true, false, length, get_or, OnOk, IfErr, IfSome};
ghost use Rattle.std.specs.Prelude.{IsNone, IsTrue, ℕ};
ghost use Rattle.fidl_ir.specs.Terms.{definition_view, definitions_view};
ghost use Rattle.fidl_type_shape.specs.Views.{figures_view};
ghost use Rattle.fidl_type_shape.specs.Solutions.{is_settled};
ghost use Rattle.fidl_type_shape.specs.Excesses.{IsDefinitionPast};
ghost use Rattle.fidl_type_shape.specs.Faults.{IsTrueOf};
ghost use Rattle.fidl_type_shape.specs.Progress.{AreFound, IsVisited, AllWait, fault_of};

use crate::definition_figure::{definition_figure, is_ready};
use crate::fault::{FigureFault, Refusal};
use crate::figure::Figure;
use fidl_ir::Definition;
use fidl_limits::MAX_NEST;

/// The fault of a definition that is past a limit.
pub(crate) fn fault_of(definition: usize, refusal: Refusal) -> FigureFault
    ensures { result ≡ fault_of definition refusal }
{
    match refusal {
        Refusal::Nest => FigureFault::TooNested { definition },
        Refusal::Size => FigureFault::TooLarge { definition },
        Refusal::Members => FigureFault::TooManyMembers { definition },
        Refusal::Memory => FigureFault::Memory,
    }
}

/// Finds the figure of a definition, where those of the ones that stand inline in it are known.
fn visit(
    definition: &Definition,
    number: usize,
    figures: &mut [Figure],
    known: &mut [bool],
) -> Result<(), Refusal>
    requires figure { number < length figures.old }
    requires mark { number < length known.old }
    ensures ok { OnOk result (IsVisited (definition_view definition.now) number
        (figures_view figures.old) known.old (figures_view figures.new) known.new) }
    ensures settled { IfErr result (λ refusal.
        IsTrue (is_settled known.old (definition_view definition.now))) }
    ensures past { IfErr result
        (IsDefinitionPast (figures_view figures.old) (definition_view definition.now)) }
{
    if known[number] {
        return Ok(());
    }
    if !is_ready(known, definition) {
        return Ok(());
    }
    figures[number] = definition_figure(figures, definition)?;
    known[number] = true;
    Ok(())
}

/// Visits each definition once.
fn visit_all(
    definitions: &[Definition],
    figures: &mut [Figure],
    known: &mut [bool],
) -> Result<(), FigureFault>
    requires figures { length figures.old ≡ length definitions.now }
    requires marks { length known.old ≡ length definitions.now }
    requires found { AreFound (definitions_view definitions.now) (figures_view figures.old)
        known.old }
    ensures found { OnOk result (AreFound (definitions_view definitions.now)
        (figures_view figures.new) known.new) }
    ensures wait { OnOk result (AllWait (definitions_view definitions.now) known.old known.new) }
    ensures fault { IfErr result (IsTrueOf (definitions_view definitions.now)) }
{
    for (number, definition) in definitions.iter().enumerate() {
        if let Err(refusal) = visit(definition, number, figures, known) {
            return Err(fault_of(number, refusal));
        }
    }
    Ok(())
}

/// The first definition that isn't known.
fn first_unknown(known: &[bool]) -> Option<usize>
    ensures some { IfSome result (λ i. get_or known.now i true ≡ false) }
    ensures none { IsNone result → (i : ℕ) → IsTrue (get_or known.now i true) }
{
    for (number, is_known) in known.iter().enumerate() {
        if !*is_known {
            return Some(number);
        }
    }
    None
}

/// Finds the figures of all definitions. After each turn, more structs and arrays stand in one
/// another from each definition on that isn't known.
pub(crate) fn settle(
    definitions: &[Definition],
    figures: &mut [Figure],
    known: &mut [bool],
) -> Result<(), FigureFault>
    requires figures { length figures.old ≡ length definitions.now }
    requires marks { length known.old ≡ length definitions.now }
    requires found { AreFound (definitions_view definitions.now) (figures_view figures.old)
        known.old }
    ensures found { OnOk result (AreFound (definitions_view definitions.now)
        (figures_view figures.new) []) }
    ensures fault { IfErr result (IsTrueOf (definitions_view definitions.now)) }
{
    for _turn in 0..MAX_NEST + 1 {
        visit_all(definitions, figures, known)?;
    }
    match first_unknown(known) {
        Some(definition) => Err(FigureFault::TooNested { definition }),
        None => Ok(()),
    }
}
