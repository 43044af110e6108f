//! No struct stands in itself.
ghost use Rattle.std.specs.Prelude.{◌≡◌, ℕ, map, length, nat_lt, filter, IfOk, IfErr, OnOk};
ghost use Rattle.std.specs.Prelude.{List};
ghost use Rattle.std.specs.List.{filter_map};
ghost use Rattle.fidl_cycles.specs.Cycles.{points_of};
ghost use Rattle.fidl_ir.specs.Terms.{term_view, fields_view, definition_view, definitions_view};
ghost use Rattle.fidl_ir.specs.Members.{field_types};
ghost use Rattle.fidl_ir_rules.specs.Inline.{inline_name, inline_names, StandsInItself};
ghost use Rattle.fidl_ir_rules.specs.Faults.{IsTrueOf};
ghost use Rattle.fidl_ir_rules.specs.declared.mark.Mark.{Mark};

use crate::fault::DefinitionFault;
use fidl_cycles::find_cycle;
use fidl_ir::{Definition, Field, Type};
use std::alloc::{AllocError, Global};

/// The definition that a type is, or an array of it.
fn inline_name(of: &Type) -> Option<u32>
    ensures { result ≡ inline_name (term_view of.now) }
{
    match of {
        Type::Array { element, .. } => inline_name(element),
        Type::Named(number) => Some(*number),
        Type::Bool | Type::Number(_) | Type::Handle { .. } | Type::Text { .. } => None,
        Type::Vector { .. } | Type::Box(_) => None,
    }
}

/// The definitions that stand in the members of a struct, of those below this number.
fn field_targets(alloc: Global, fields: &[Field], count: usize) -> Result<Vec<usize>, AllocError>
    ensures { IfOk result (λ found. found.items ≡ filter (λ i. nat_lt i count)
        (filter_map inline_name (field_types (fields_view fields.now)))) }
{
    let mut found = Vec::new(alloc);
    for field in fields {
        if let Some(number) = inline_name(&field.of) {
            let target = number as usize;
            if target < count {
                found.push(target)?;
            }
        }
    }
    Ok(found)
}

/// Those that stand in a definition.
fn targets(alloc: Global, definition: &Definition, count: usize) -> Result<Vec<usize>, AllocError>
    ensures { IfOk result (λ found. found.items
        ≡ filter (λ i. nat_lt i count) (inline_names (definition_view definition.now))) }
{
    match definition {
        Definition::Bits { .. } => Ok(Vec::new(alloc)),
        Definition::Enum { .. } => Ok(Vec::new(alloc)),
        Definition::Struct(fields) => field_targets(alloc, fields, count),
        Definition::Table(_) => Ok(Vec::new(alloc)),
        Definition::Union { .. } => Ok(Vec::new(alloc)),
    }
}

/// The graph of what stands in what.
fn inline_graph(alloc: Global, definitions: &[Definition]) -> Result<Vec<Vec<usize>>, AllocError>
    ensures { IfOk result (λ graph. points_of graph.items ≡ map
        (λ d. filter (λ i. nat_lt i (length definitions.now)) (inline_names d))
        (definitions_view definitions.now)) }
{
    let mut graph = Vec::new(alloc);
    for definition in definitions {
        graph.push(targets(alloc, definition, definitions.len())?)?;
    }
    Ok(graph)
}

/// No struct stands in itself, through members and arrays; it may through boxes, vectors, tables
/// and unions.
pub(crate) fn check_inline(alloc: Global, definitions: &[Definition]) -> Result<(), DefinitionFault>
    ensures ok { OnOk result ((i : ℕ) → StandsInItself (definitions_view definitions.now) i → ⊥) }
    ensures fault_is_true { (marks : List Mark) → IfErr result
        (IsTrueOf (definitions_view definitions.now) marks) }
{
    let graph = inline_graph(alloc, definitions)?;
    match find_cycle(&graph, alloc)? {
        Ok(_) => Ok(()),
        Err(cycle_edge) => Err(DefinitionFault::InlineCycle {
            definition: cycle_edge.from,
        }),
    }
}
