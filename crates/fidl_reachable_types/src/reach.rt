//! The types that are reached from roots.
ghost use Rattle.std.specs.Prelude.{◌≡◌, ◌≤◌, [], length, get_or, map, IfOk, IfErr, OnOk};
ghost use Rattle.fidl_wire.specs.Term.{nothing};
ghost use Rattle.fidl_wire.specs.Term as ty;
ghost use Rattle.fidl_ir.specs.Terms.{definition_view, definitions_view};
ghost use Rattle.fidl_ir.specs.Members.{member_types};
ghost use Rattle.fidl_reachable_types.specs.Reached.{held, AreReached};
ghost use Rattle.fidl_reachable_types.specs.Faults.{IsTrueOf};
ghost use Rattle.fidl_reachable_types.specs.Growing.{reference_view, types_of, IsKept, GrowsBy, IsFullBy};

use crate::fault::EntryFault;
use crate::list::{TypeList, TypeRef};
use fidl_ir::{Definition, Type};
use std::alloc::Global;

/// Adds the types of the members of a definition.
#[tactic(auto, using(crate::proofs::Growth::begins))]
fn add_members<'d>(
    list: &mut TypeList<'d>,
    alloc: Global,
    definition: &'d Definition,
) -> Result<(), EntryFault>
    requires kept { IsKept list.old }
    ensures ok { OnOk result (GrowsBy list.old list.new
        (member_types (definition_view definition.now))) }
    ensures full { IfErr result (IsFullBy list.old
        (member_types (definition_view definition.now))) }
{
    match definition {
        Definition::Bits { .. } => Ok(()),
        Definition::Enum { .. } => Ok(()),
        Definition::Struct(fields) => list.add_fields(alloc, fields),
        Definition::Table(rows) => list.add_rows(alloc, rows),
        Definition::Union { rows, .. } => list.add_rows(alloc, rows),
    }
}

/// Adds what the definition of this number holds.
fn add_layout<'d>(
    list: &mut TypeList<'d>,
    alloc: Global,
    definitions: &'d [Definition],
    number: u32,
) -> Result<(), EntryFault>
    requires kept { IsKept list.old }
    ensures ok { OnOk result (GrowsBy list.old list.new
        (held (definitions_view definitions.now) (ty.named number))) }
    ensures full { IfErr result (IsFullBy list.old
        (held (definitions_view definitions.now) (ty.named number))) }
{
    match definitions.get(number as usize) {
        None => Ok(()),
        Some(definition) => add_members(list, alloc, definition),
    }
}

/// Adds what a type holds.
#[tactic(auto, using(crate::proofs::Growth::begins))]
fn add_held<'d>(
    list: &mut TypeList<'d>,
    alloc: Global,
    definitions: &'d [Definition],
    of: TypeRef<'d>,
) -> Result<(), EntryFault>
    requires kept { IsKept list.old }
    ensures ok { OnOk result (GrowsBy list.old list.new
        (held (definitions_view definitions.now) (reference_view of.entry))) }
    ensures full { IfErr result (IsFullBy list.old
        (held (definitions_view definitions.now) (reference_view of.entry))) }
{
    match of {
        TypeRef::Layout(number) => add_layout(list, alloc, definitions, number),
        TypeRef::Of(of) => match of {
            Type::Named(number) => add_layout(list, alloc, definitions, *number),
            Type::Box(number) => list.add(alloc, TypeRef::Layout(*number)),
            Type::Vector { element, .. } => list.add(alloc, TypeRef::Of(element)),
            Type::Array { element, .. } => list.add(alloc, TypeRef::Of(element)),
            Type::Bool | Type::Number(_) | Type::Handle { .. } | Type::Text { .. } => Ok(()),
        },
    }
}

/// Adds the definitions of these numbers.
#[tactic(auto, using(crate::proofs::Growth::begins))]
fn add_roots(list: &mut TypeList<'_>, alloc: Global, roots: &[u32]) -> Result<(), EntryFault>
    requires kept { IsKept list.old }
    ensures ok { OnOk result (GrowsBy list.old list.new (map ty.named roots.now)) }
    ensures full { IfErr result (IsFullBy list.old (map ty.named roots.now)) }
{
    for root in roots {
        list.add(alloc, TypeRef::Layout(*root))?;
    }
    Ok(())
}

/// The types that are reached from the definitions of these numbers, each once: the roots first,
/// then what each type in the list holds, in order (public source: the FIDL wire format, "Types").
/// Refused with TooMany where they are more than `limit`, and with Memory.
pub fn reached_types<'d>(
    alloc: Global,
    definitions: &'d [Definition],
    roots: &[u32],
    limit: usize,
) -> Result<TypeList<'d>, EntryFault>
    ensures ok { IfOk result (λ list. AreReached (definitions_view definitions.now) roots.now
        (types_of list)) }
    ensures within { IfOk result (λ list. length (types_of list) ≤ limit) }
    ensures kept { IfOk result IsKept }
    ensures fault_is_true { IfErr result (IsTrueOf (definitions_view definitions.now) roots.now
        limit) }
{
    let mut list = TypeList::new(alloc, limit);
    add_roots(&mut list, alloc, roots)?;
    for place in 0..limit {
        let Some(of) = list.get(place) else {
            return Ok(list);
        };
        add_held(&mut list, alloc, definitions, of)?;
    }
    Ok(list)
}
