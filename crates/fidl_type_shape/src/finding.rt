//! The figures of definitions, and where the members of their structs stand.
ghost use Rattle.std.specs.Prelude.{◌≡◌, [], length, map, slice_get, IfOk, IfErr, IfSome, IsNone};
ghost use Rattle.std.specs.Prelude.{OnOk};
ghost use Rattle.std.specs.Option.{option_map, option_and_then};
ghost use Rattle.std.specs.List.{Contains};
ghost use Rattle.fidl_wire.specs.Term.{Term, fields_of};
ghost use Rattle.fidl_wire.specs.Figure.{Figure as Plain, IsLaidOut, figure_of, offsets};
ghost use Rattle.fidl_ir.specs.Terms.{definitions_view, term_view};
ghost use Rattle.fidl_type_shape.specs.Limits.{IsWithin, KeepLimits, TypeFits, parts};
ghost use Rattle.fidl_type_shape.specs.Faults.{IsTrueOf, IsBeyond, HoldsExcess};
ghost use Rattle.fidl_type_shape.specs.Excesses.{IsPast};
ghost use Rattle.fidl_type_shape.specs.Views.{figure_view, figures_view};
ghost use Rattle.fidl_type_shape.specs.Progress.{AreFound};
ghost use Rattle.fidl_type_shape.specs.Found.{figures_of, offsets_of, declarations_of};

use crate::fault::{Excess, FigureFault, Refusal};
use crate::figure::Figure;
use crate::places::place_all;
use crate::rounds::settle;
use crate::type_figure::{check_type, type_figure};
use fidl_ir::{Definition, Type};
use std::alloc::{AllocError, Global};

/// The figures of definitions, by their numbers, and the offsets of the members of structs.
#[derive(Drop)]
pub struct Figures {
    figures: Vec<Figure>,
    offsets: Vec<Vec<u32>>,
}

/// The limit that a type is past; no type has members of its own, or takes memory.
fn excess_of(refusal: Refusal) -> Excess
    ensures { (f : Plain) → IsPast refusal f → IsBeyond result f }
{
    match refusal {
        Refusal::Nest => Excess::Nest,
        Refusal::Size | Refusal::Members | Refusal::Memory => Excess::Size,
    }
}

impl Figures {
    /// Size, alignment and nest of the definition of this number; None where there is no such
    /// definition.
    pub fn figure(&self, definition: usize) -> Option<Figure>
        ensures { option_map figure_view result ≡ slice_get (figures_of self.now) definition }
    {
        self.figures.get(definition).copied()
    }

    /// Size, alignment and nest of a type; None where arrays that stand inline in it are past the
    /// limits, which is so of no type of the definitions.
    pub fn of_type(&self, of: &Type) -> Option<Figure>
        ensures found { IfSome result (λ f. figure_view f
            ≡ figure_of (figures_of self.now) (term_view of.now)) }
        ensures none { IsNone result → (part : Term) × Contains (parts (term_view of.now)) part
            × ¬ IsWithin (figure_of (figures_of self.now) part) }
    {
        match type_figure(&self.figures, of) {
            Ok(figure) => Some(figure),
            Err(_) => None,
        }
    }

    /// All that stands in a type is within the limits, by the figures of the definitions. Refused
    /// with the limit that the type is past, or an array in it.
    pub fn check_type(&self, of: &Type) -> Result<(), Excess>
        ensures ok { OnOk result (TypeFits (figures_of self.now) (term_view of.now)) }
        ensures fault_is_true { IfErr result
            (HoldsExcess (figures_of self.now) (term_view of.now)) }
    {
        match check_type(&self.figures, of) {
            Ok(()) => Ok(()),
            Err(refusal) => Err(excess_of(refusal)),
        }
    }

    /// Where a member of a struct stands, in bytes from the start of the struct, by the number of
    /// the definition and that of the member, from 0; None where the definition isn't there, is no
    /// struct or has no such member.
    pub fn offset(&self, definition: usize, member: usize) -> Option<u32>
        ensures { result ≡ option_and_then (λ offsets. slice_get offsets member)
            (slice_get (offsets_of self.now) definition) }
    {
        match self.offsets.get(definition) {
            None => None,
            Some(offsets) => offsets.get(member).copied(),
        }
    }
}

/// As many figures, which are to be found yet.
fn blank_figures(alloc: Global, count: usize) -> Result<Vec<Figure>, AllocError>
    ensures { IfOk result (λ figures. length figures.items ≡ count) }
{
    let mut figures = Vec::new(alloc);
    for _number in 0..count {
        figures.push(Figure {
            size: 1,
            align: 1,
            nest: 0,
        })?;
    }
    Ok(figures)
}

/// The figures of all definitions, by their numbers.
fn all_figures(alloc: Global, definitions: &[Definition]) -> Result<Vec<Figure>, FigureFault>
    ensures long { IfOk result (λ figures. length figures.items ≡ length definitions.now) }
    ensures found { IfOk result (λ figures. AreFound (definitions_view definitions.now)
        (figures_view figures.items) []) }
    ensures fault { IfErr result (IsTrueOf (definitions_view definitions.now)) }
{
    let mut figures = blank_figures(alloc, definitions.len())?;
    let mut known = vec![in alloc; false; definitions.len()]?;
    settle(definitions, &mut figures, &mut known)?;
    Ok(figures)
}

/// The figures of definitions (docs/language.md, "Figures"). They solve the equations of all
/// definitions, and all types that stand in these are within the limits. Refused with TooNested,
/// TooLarge and TooManyMembers, each with the number of a definition of which it is true, and with
/// Memory (public source: the FIDL wire format, "Size and alignment").
pub fn find_figures(alloc: Global, definitions: &[Definition]) -> Result<Figures, FigureFault>
    ensures laid_out { IfOk result (λ found. IsLaidOut (declarations_of definitions.now found)) }
    ensures limits { IfOk result (λ found. KeepLimits (declarations_of definitions.now found)) }
    ensures offsets { IfOk result (λ found. offsets_of found ≡ map
        (λ d. offsets (figures_of found) 0 (fields_of d)) (definitions_view definitions.now)) }
    ensures fault_is_true { IfErr result (IsTrueOf (definitions_view definitions.now)) }
{
    let figures = all_figures(alloc, definitions)?;
    let offsets = place_all(alloc, &figures, definitions)?;
    Ok(Figures { figures, offsets })
}
