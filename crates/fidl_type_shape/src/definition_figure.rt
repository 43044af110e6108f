//! The figure of a definition, over the figures of definitions.
ghost use Rattle.std.specs.Prelude.{◌≡◌, ◌+◌, ◌<◌, ◌≤◌, ◌^◌, length, IfOk, IfErr, OnOk, OnErr};
ghost use Rattle.std.specs.Int.{next_multiple_of};
ghost use Rattle.fidl_wire.specs.Term.{struct};
ghost use Rattle.fidl_wire.specs.Figure.{figure_of, struct_figure};
ghost use Rattle.fidl_ir.specs.Terms.{fields_view, definition_view};
ghost use Rattle.fidl_type_shape.specs.Views.{figure_view, figures_view};
ghost use Rattle.fidl_type_shape.specs.Limits.{member_count};
ghost use Rattle.fidl_type_shape.specs.Solutions.{is_settled, are_settled};
ghost use Rattle.fidl_type_shape.specs.Excesses.{IsPast, HoldsPastInline, IsDefinitionPast};

use crate::fault::Refusal;
use crate::figure::Figure;
use crate::type_figure::{flat_figure, is_settled, number_figure, type_figure};
use fidl_ir::{Definition, Field};
use fidl_limits::{MAX_INLINE_SIZE, MAX_LAYOUT_MEMBERS, MAX_NEST};

/// Where a member begins that follows what ends at `from`.
pub(crate) fn member_start(from: u64, member: Figure) -> u64
    requires { from < 2 ^ 40 }
    ensures place { result ≡ next_multiple_of from member.align }
    ensures near { result ≤ from + 7 }
{
    from.next_multiple_of(u64::from(member.align))
}

/// The figure of a struct whose members end here and have at most this alignment and nest.
fn closed_struct(end: u64, align: u32, nest: u32) -> Result<Figure, Refusal>
    requires short { end < 2 ^ 40 }
    requires aligned { 1 ≤ align }
    requires narrow { align ≤ 8 }
    requires shallow { nest ≤ MAX_NEST }
    ensures ok { IfOk result (λ f. figure_view f ≡ struct_figure end align nest) }
    ensures fault_is_true { IfErr result (λ refusal. IsPast refusal (struct_figure end align nest)) }
{
    let size = end.max(1).next_multiple_of(u64::from(align));
    if size > MAX_INLINE_SIZE as u64 {
        return Err(Refusal::Size);
    }
    if nest as usize >= MAX_NEST {
        return Err(Refusal::Nest);
    }
    Ok(Figure {
        size: size as u32,
        align,
        nest: nest + 1,
    })
}

/// The figure of a struct, where those of the definitions that stand inline in it are right.
fn fields_figure(figures: &[Figure], fields: &[Field]) -> Result<Figure, Refusal>
    requires { length fields.now ≤ MAX_LAYOUT_MEMBERS }
    ensures ok { IfOk result (λ f. figure_view f
        ≡ figure_of (figures_view figures.now) (struct (fields_view fields.now))) }
    ensures fault_is_true { IfErr result
        (HoldsPastInline (figures_view figures.now) (struct (fields_view fields.now))) }
{
    let mut end = 0;
    let mut align = 1;
    let mut nest = 0;
    for field in fields {
        let member = type_figure(figures, &field.of)?;
        end = member_start(end, member) + u64::from(member.size);
        align = member.align.max(align);
        nest = member.nest.max(nest);
    }
    closed_struct(end, align, nest)
}

/// How many members a definition has.
#[tactic(auto, using(crate::proofs::Fields::fields_counted, crate::proofs::Fields::rows_counted))]
fn member_count(definition: &Definition) -> usize
    ensures { result ≡ member_count (definition_view definition.now) }
{
    match definition {
        Definition::Bits { .. } => 0,
        Definition::Enum { values, .. } => match values {
            None => 0,
            Some(numbers) => numbers.len(),
        },
        Definition::Struct(fields) => fields.len(),
        Definition::Table(rows) => rows.len(),
        Definition::Union { rows, .. } => rows.len(),
    }
}

/// The figure of a definition, where those of the definitions that stand inline in it are right.
#[tactic(auto, using(crate::proofs::Fields::fields_counted, crate::proofs::Fields::rows_counted))]
pub(crate) fn definition_figure(
    figures: &[Figure],
    definition: &Definition,
) -> Result<Figure, Refusal>
    ensures ok { IfOk result (λ f. figure_view f
        ≡ figure_of (figures_view figures.now) (definition_view definition.now)) }
    ensures few { OnOk result (member_count (definition_view definition.now)
        ≤ MAX_LAYOUT_MEMBERS) }
    ensures fault_is_true { IfErr result
        (IsDefinitionPast (figures_view figures.now) (definition_view definition.now)) }
{
    if member_count(definition) > MAX_LAYOUT_MEMBERS as usize {
        return Err(Refusal::Members);
    }
    match definition {
        Definition::Bits { kind, .. } => Ok(number_figure(*kind)),
        Definition::Enum { kind, .. } => Ok(number_figure(*kind)),
        Definition::Struct(fields) => fields_figure(figures, fields),
        Definition::Table(_) => Ok(flat_figure(16, 8)),
        Definition::Union { .. } => Ok(flat_figure(16, 8)),
    }
}

/// Whether the figures of all definitions that stand inline in members are known.
fn are_settled(known: &[bool], fields: &[Field]) -> bool
    ensures { result ≡ are_settled known.now (fields_view fields.now) }
{
    for field in fields {
        if !is_settled(known, &field.of) {
            return false;
        }
    }
    true
}

/// Whether the figures of all definitions that stand inline in a definition are known.
pub(crate) fn is_ready(known: &[bool], definition: &Definition) -> bool
    ensures { result ≡ is_settled known.now (definition_view definition.now) }
{
    match definition {
        Definition::Bits { .. } => true,
        Definition::Enum { .. } => true,
        Definition::Struct(fields) => are_settled(known, fields),
        Definition::Table(_) => true,
        Definition::Union { .. } => true,
    }
}
