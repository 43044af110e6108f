//! Only resources hold handles.
ghost use Rattle.std.specs.Prelude.{◌≡◌, ℕ, map, get_or, IfOk, IfErr, OnOk, IfSome, IsNone};
ghost use Rattle.fidl_wire.specs.Term.{nothing};
ghost use Rattle.fidl_ir.specs.Terms.{term_view, fields_view, rows_view, definition_view};
ghost use Rattle.fidl_ir.specs.Terms.{definitions_view};
ghost use Rattle.fidl_ir.specs.Members.{field_types, row_types, member_types};
ghost use Rattle.fidl_ir_rules.specs.Resources.{bears, is_marked, mark_of, is_resource_by};
ghost use Rattle.fidl_ir_rules.specs.Resources.{is_resource, MembersHold, AllResourcesMarked};
ghost use Rattle.fidl_ir_rules.specs.Flags.{is_flagged, BearsAt, NoneBears, IsWrongMember};
ghost use Rattle.fidl_ir_rules.specs.Faults.{IsTrueOf};
ghost use Rattle.fidl_ir_rules.specs.declared.mark.Mark.TheVariants as Marks;

use crate::fault::DefinitionFault;
use crate::mark::Mark;
use fidl_ir::{Definition, Field, Row, Type};
use std::alloc::{AllocError, Global};

/// Whether a type is a handle or one of the flagged definitions, or holds one.
fn bears(flags: &[bool], of: &Type) -> bool
    ensures { result ≡ bears (is_flagged flags.now) (term_view of.now) }
{
    match of {
        Type::Handle { .. } => true,
        Type::Vector { element, .. } => bears(flags, element),
        Type::Array { element, .. } => bears(flags, element),
        Type::Box(number) => flags.get(*number as usize).copied().unwrap_or(false),
        Type::Named(number) => flags.get(*number as usize).copied().unwrap_or(false),
        Type::Bool | Type::Number(_) | Type::Text { .. } => false,
    }
}

/// The first member of a struct that bears.
fn bearing_field(flags: &[bool], fields: &[Field]) -> Option<usize>
    ensures some { IfSome result
        (BearsAt (is_flagged flags.now) (field_types (fields_view fields.now))) }
    ensures none { IsNone result
        → NoneBears (is_flagged flags.now) (field_types (fields_view fields.now)) }
{
    for (number, field) in fields.iter().enumerate() {
        if bears(flags, &field.of) {
            return Some(number);
        }
    }
    None
}

/// The first member of a table or a union that bears.
fn bearing_row(flags: &[bool], rows: &[Row]) -> Option<usize>
    ensures some { IfSome result (BearsAt (is_flagged flags.now) (row_types (rows_view rows.now))) }
    ensures none { IsNone result → NoneBears (is_flagged flags.now) (row_types (rows_view rows.now)) }
{
    for (number, row) in rows.iter().enumerate() {
        if bears(flags, &row.of) {
            return Some(number);
        }
    }
    None
}

/// The first member of a definition that bears.
fn bearing_member(flags: &[bool], definition: &Definition) -> Option<usize>
    ensures some { IfSome result
        (BearsAt (is_flagged flags.now) (member_types (definition_view definition.now))) }
    ensures none { IsNone result
        → NoneBears (is_flagged flags.now) (member_types (definition_view definition.now)) }
{
    match definition {
        Definition::Bits { .. } => None,
        Definition::Enum { .. } => None,
        Definition::Struct(fields) => bearing_field(flags, fields),
        Definition::Table(rows) => bearing_row(flags, rows),
        Definition::Union { rows, .. } => bearing_row(flags, rows),
    }
}

/// Which definitions are marked.
fn marked_flags(alloc: Global, marks: &[Mark]) -> Result<Vec<bool>, AllocError>
    ensures { IfOk result (λ flags. flags.items ≡ map is_marked marks.now) }
{
    let mut flags = Vec::new(alloc);
    for mark in marks {
        flags.push(matches!(mark, Mark::Resource))?;
    }
    Ok(flags)
}

/// Whether the definition of this number is a resource, by those that are marked.
fn is_resource(marked: &[bool], mark: Mark, definitions: &[Definition], number: usize) -> bool
    ensures { result ≡ is_resource_by (is_flagged marked.now) mark
        (get_or (definitions_view definitions.now) number nothing) }
{
    match mark {
        Mark::Resource => true,
        Mark::Value => false,
        Mark::Result => {
            if number >= definitions.len() {
                return false;
            }
            bearing_member(marked, &definitions[number]).is_some()
        }
    }
}

/// Which definitions are resources.
fn resource_flags(
    alloc: Global,
    definitions: &[Definition],
    marks: &[Mark],
) -> Result<Vec<bool>, AllocError>
    ensures { IfOk result (λ flags. (i : ℕ) → is_flagged flags.items i
        ≡ is_resource (definitions_view definitions.now) marks.now i) }
{
    let marked = marked_flags(alloc, marks)?;
    let mut flags = Vec::new(alloc);
    for (number, mark) in marks.iter().enumerate() {
        flags.push(is_resource(&marked, *mark, definitions, number))?;
    }
    Ok(flags)
}

/// The first member that bears, of a definition that isn't marked.
fn wrong_member(flags: &[bool], mark: Mark, definition: &Definition) -> Option<usize>
    ensures unmarked { IfSome result (λ m. mark ≡ Marks.Value) }
    ensures some { IfSome result
        (BearsAt (is_flagged flags.now) (member_types (definition_view definition.now))) }
    ensures none { IsNone result
        → MembersHold (is_flagged flags.now) mark (definition_view definition.now) }
{
    match mark {
        Mark::Resource => None,
        Mark::Value => bearing_member(flags, definition),
        Mark::Result => None,
    }
}

/// No definition that isn't marked has a member that bears.
fn check_members(
    definitions: &[Definition],
    marks: &[Mark],
    flags: &[bool],
) -> Result<(), DefinitionFault>
    ensures ok { OnOk result ((i : ℕ) → MembersHold (is_flagged flags.now) (mark_of marks.now i)
        (get_or (definitions_view definitions.now) i nothing)) }
    ensures fault { IfErr result (IsWrongMember (definitions_view definitions.now) marks.now
        (is_flagged flags.now)) }
{
    for (number, definition) in definitions.iter().enumerate() {
        let mark = marks.get(number).copied().unwrap_or(Mark::Value);
        if let Some(member) = wrong_member(flags, mark, definition) {
            return Err(DefinitionFault::NotResource {
                definition: number,
                member,
            });
        }
    }
    Ok(())
}

/// Nothing but what is marked `resource`, and results, has a member that is a handle or a resource,
/// or holds one in a vector, an array or a box.
pub(crate) fn check_resources(
    alloc: Global,
    definitions: &[Definition],
    marks: &[Mark],
) -> Result<(), DefinitionFault>
    ensures ok { OnOk result (AllResourcesMarked (definitions_view definitions.now) marks.now) }
    ensures fault_is_true { IfErr result (IsTrueOf (definitions_view definitions.now) marks.now) }
{
    let flags = resource_flags(alloc, definitions, marks)?;
    check_members(definitions, marks, &flags)
}
