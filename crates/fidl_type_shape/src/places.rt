//! Where the members of structs stand, and that all that stands in definitions is within the limits.
ghost use Rattle.std.specs.Prelude.{◌≡◌, ◌<◌, ◌≤◌, [], ◌∷◌, length, map, IfOk, IfErr, OnOk};
ghost use Rattle.std.specs.List.{AllByRecursion};
ghost use Rattle.fidl_wire.specs.Term.{struct, fields_of};
ghost use Rattle.fidl_wire.specs.Figure.{figure_of, offsets};
ghost use Rattle.fidl_ir.specs.Terms.{fields_view, rows_view, definition_view, definitions_view};
ghost use Rattle.fidl_type_shape.specs.Views.{figures_view, lists};
ghost use Rattle.fidl_type_shape.specs.Limits.{IsWithin, parts, parts_of_fields, parts_of_rows};
ghost use Rattle.fidl_type_shape.specs.Limits.{member_count};
ghost use Rattle.fidl_type_shape.specs.Excesses.{HoldsPast, IsPastWithin};
ghost use Rattle.fidl_type_shape.specs.Faults.{IsTrueOf};
ghost use Rattle.fidl_type_shape.specs.Progress.{AreFound};

use crate::definition_figure::member_start;
use crate::fault::{FigureFault, Refusal};
use crate::figure::Figure;
use crate::rounds::fault_of;
use crate::type_figure::{check_type, type_figure};
use fidl_ir::{Definition, Field, Row};
use fidl_limits::{MAX_INLINE_SIZE, MAX_LAYOUT_MEMBERS};
use std::alloc::Global;

/// All that stands in the members of a struct is within the limits.
fn check_fields(figures: &[Figure], fields: &[Field]) -> Result<(), Refusal>
    ensures ok { OnOk result (AllByRecursion (λ t. IsWithin (figure_of (figures_view figures.now) t))
        (parts_of_fields (fields_view fields.now))) }
    ensures fault_is_true { IfErr result
        (HoldsPast (figures_view figures.now) (parts_of_fields (fields_view fields.now))) }
{
    for field in fields {
        check_type(figures, &field.of)?;
    }
    Ok(())
}

/// All that stands in the members of a table or a union is within the limits.
fn check_rows(figures: &[Figure], rows: &[Row]) -> Result<(), Refusal>
    ensures ok { OnOk result (AllByRecursion (λ t. IsWithin (figure_of (figures_view figures.now) t))
        (parts_of_rows (rows_view rows.now))) }
    ensures fault_is_true { IfErr result
        (HoldsPast (figures_view figures.now) (parts_of_rows (rows_view rows.now))) }
{
    for row in rows {
        check_type(figures, &row.of)?;
    }
    Ok(())
}

/// All that stands in a definition is within the limits, where its own figure is.
fn check_definition(figures: &[Figure], definition: &Definition) -> Result<(), Refusal>
    requires { IsWithin (figure_of (figures_view figures.now) (definition_view definition.now)) }
    ensures ok { OnOk result (AllByRecursion (λ t. IsWithin (figure_of (figures_view figures.now) t))
        (parts (definition_view definition.now))) }
    ensures fault_is_true { IfErr result
        (HoldsPast (figures_view figures.now) (parts (definition_view definition.now))) }
{
    match definition {
        Definition::Bits { .. } => Ok(()),
        Definition::Enum { .. } => Ok(()),
        Definition::Struct(fields) => check_fields(figures, fields),
        Definition::Table(rows) => check_rows(figures, rows),
        Definition::Union { rows, .. } => check_rows(figures, rows),
    }
}

/// Where the members of a struct stand, from its start.
fn field_offsets(alloc: Global, figures: &[Figure], fields: &[Field]) -> Result<Vec<u32>, Refusal>
    requires few { length fields.now ≤ MAX_LAYOUT_MEMBERS }
    requires small { (figure_of (figures_view figures.now) (struct (fields_view fields.now))).size
        ≤ MAX_INLINE_SIZE }
    ensures ok { IfOk result (λ found. found.items
        ≡ offsets (figures_view figures.now) 0 (fields_view fields.now)) }
    ensures fault_is_true { IfErr result
        (IsPastWithin (figures_view figures.now) (struct (fields_view fields.now))) }
{
    let mut found = Vec::new(alloc);
    let mut end = 0;
    for field in fields {
        let member = type_figure(figures, &field.of)?;
        let start = member_start(end, member);
        found.push(start as u32)?;
        end = start + u64::from(member.size);
    }
    Ok(found)
}

/// The offsets of the members of a definition, none where it is no struct. All that stands in it is
/// within the limits.
#[tactic(auto, using(crate::proofs::Fields::fields_counted))]
fn place(alloc: Global, figures: &[Figure], definition: &Definition) -> Result<Vec<u32>, Refusal>
    requires few { member_count (definition_view definition.now) ≤ MAX_LAYOUT_MEMBERS }
    requires own { IsWithin (figure_of (figures_view figures.now) (definition_view definition.now)) }
    ensures ok { IfOk result (λ found. found.items
        ≡ offsets (figures_view figures.now) 0 (fields_of (definition_view definition.now))) }
    ensures within { OnOk result
        (AllByRecursion (λ t. IsWithin (figure_of (figures_view figures.now) t))
        (parts (definition_view definition.now))) }
    ensures fault_is_true { IfErr result
        (IsPastWithin (figures_view figures.now) (definition_view definition.now)) }
{
    check_definition(figures, definition)?;
    match definition {
        Definition::Bits { .. } => Ok(Vec::new(alloc)),
        Definition::Enum { .. } => Ok(Vec::new(alloc)),
        Definition::Struct(fields) => field_offsets(alloc, figures, fields),
        Definition::Table(_) => Ok(Vec::new(alloc)),
        Definition::Union { .. } => Ok(Vec::new(alloc)),
    }
}

/// The offsets of the members of all structs. All that stands in definitions is within the limits.
pub(crate) fn place_all(
    alloc: Global,
    figures: &[Figure],
    definitions: &[Definition],
) -> Result<Vec<Vec<u32>>, FigureFault>
    requires long { length figures.now ≡ length definitions.now }
    requires found { AreFound (definitions_view definitions.now) (figures_view figures.now) [] }
    ensures ok { IfOk result (λ found. lists found.items ≡ map
        (λ d. offsets (figures_view figures.now) 0 (fields_of d)) (definitions_view definitions.now)) }
    ensures within { OnOk result (AllByRecursion
        (λ d. AllByRecursion (λ t. IsWithin (figure_of (figures_view figures.now) t)) (parts d))
        (definitions_view definitions.now)) }
    ensures fault { IfErr result (IsTrueOf (definitions_view definitions.now)) }
{
    let mut all = Vec::new(alloc);
    for (number, definition) in definitions.iter().enumerate() {
        match place(alloc, figures, definition) {
            Ok(offsets) => all.push(offsets)?,
            Err(refusal) => return Err(fault_of(number, refusal)),
        }
    }
    Ok(all)
}
