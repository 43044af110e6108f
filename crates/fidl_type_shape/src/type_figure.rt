//! The figure of a type, over the figures of definitions.
ghost use Rattle.std.specs.Prelude.{◌≡◌, ◌*◌, suc, ◌<◌, ◌≤◌, Bool, true, get_or, map, IfOk, IfErr, OnOk};
ghost use Rattle.std.specs.Int.{byte_len};
ghost use Rattle.std.specs.List.{AllByRecursion};
ghost use Rattle.fidl_wire.specs.Term.{width, named};
ghost use Rattle.fidl_wire.specs.Figure.{figure, figure_of};
ghost use Rattle.fidl_ir.specs.Terms.{number_kind_view, term_view};
ghost use Rattle.fidl_type_shape.specs.Views.{figure_view, figures_view};
ghost use Rattle.fidl_type_shape.specs.Limits.{IsWithin, parts};
ghost use Rattle.fidl_type_shape.specs.Solutions.{is_settled};
ghost use Rattle.fidl_type_shape.specs.Excesses.{IsPast, HoldsPast, HoldsPastInline};

use crate::fault::Refusal;
use crate::figure::Figure;
use fidl_ir::{NumberKind, Type};
use fidl_limits::{MAX_INLINE_SIZE, MAX_NEST};

/// The figure of a type in which no struct or array stands inline.
pub(crate) fn flat_figure(size: u32, align: u32) -> Figure
    requires small { size ≤ MAX_INLINE_SIZE }
    requires aligned { 1 ≤ align }
    requires narrow { align ≤ 8 }
    ensures { figure_view result ≡ figure size align 0 }
{
    Figure {
        size,
        align,
        nest: 0,
    }
}

/// The figure of a whole number.
pub(crate) fn number_figure(kind: NumberKind) -> Figure
    ensures { let size = byte_len (width (number_kind_view kind)) in
        figure_view result ≡ figure size size 0 }
{
    match kind {
        NumberKind::Int8 | NumberKind::Uint8 => flat_figure(1, 1),
        NumberKind::Int16 | NumberKind::Uint16 => flat_figure(2, 2),
        NumberKind::Int32 | NumberKind::Uint32 => flat_figure(4, 4),
        NumberKind::Int64 | NumberKind::Uint64 => flat_figure(8, 8),
    }
}

/// The figure of an array.
fn array_figure(element: Figure, count: u32) -> Result<Figure, Refusal>
    ensures ok { IfOk result (λ f. figure_view f
        ≡ figure (element.size * count) element.align (suc element.nest)) }
    ensures fault_is_true { IfErr result (λ refusal. IsPast refusal
        (figure (element.size * count) element.align (suc element.nest))) }
{
    let size = u64::from(element.size) * u64::from(count);
    if size > MAX_INLINE_SIZE as u64 {
        return Err(Refusal::Size);
    }
    if element.nest as usize >= MAX_NEST {
        return Err(Refusal::Nest);
    }
    Ok(Figure {
        size: size as u32,
        align: element.align,
        nest: element.nest + 1,
    })
}

/// The figure of the definition of this number.
fn named_figure(figures: &[Figure], number: u32) -> Figure
    ensures { figure_view result ≡ figure_of (figures_view figures.now) (named number) }
{
    match figures.get(number as usize) {
        Some(figure) => *figure,
        None => flat_figure(1, 1),
    }
}

/// The figure of a type, where those of the definitions that stand inline in it are right.
pub(crate) fn type_figure(figures: &[Figure], of: &Type) -> Result<Figure, Refusal>
    ensures ok { IfOk result (λ f. figure_view f
        ≡ figure_of (figures_view figures.now) (term_view of.now)) }
    ensures fault_is_true { IfErr result (HoldsPastInline (figures_view figures.now) (term_view of.now)) }
{
    match of {
        Type::Bool => Ok(flat_figure(1, 1)),
        Type::Number(kind) => Ok(number_figure(*kind)),
        Type::Handle { .. } => Ok(flat_figure(4, 4)),
        Type::Text { .. } | Type::Vector { .. } => Ok(flat_figure(16, 8)),
        Type::Array { element, count } => array_figure(type_figure(figures, element)?, *count),
        Type::Box(_) => Ok(flat_figure(8, 8)),
        Type::Named(number) => Ok(named_figure(figures, *number)),
    }
}

/// Whether the figures of all definitions that stand inline in a type are known.
pub(crate) fn is_settled(known: &[bool], of: &Type) -> bool
    ensures { result ≡ is_settled known.now (term_view of.now) }
{
    match of {
        Type::Array { element, .. } => is_settled(known, element),
        Type::Named(number) => known.get(*number as usize).copied().unwrap_or(true),
        _ => true,
    }
}

/// All types that stand in a type are within the limits.
#[tactic(auto, using(crate::proofs::Parts::within_named))]
pub(crate) fn check_type(figures: &[Figure], of: &Type) -> Result<(), Refusal>
    ensures ok { OnOk result (AllByRecursion
        (λ t. IsWithin (figure_of (figures_view figures.now) t)) (parts (term_view of.now))) }
    ensures fault_is_true { IfErr result (HoldsPast (figures_view figures.now) (parts (term_view of.now))) }
{
    match of {
        Type::Vector { element, .. } => check_type(figures, element),
        Type::Array { element, .. } => {
            type_figure(figures, of)?;
            check_type(figures, element)
        }
        Type::Bool | Type::Number(_) | Type::Handle { .. } | Type::Text { .. } => Ok(()),
        Type::Box(_) | Type::Named(_) => Ok(()),
    }
}
