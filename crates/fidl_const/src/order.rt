//! The values of all constants and members, in an order in which each follows all that it depends
//! on.
ghost use Rattle.std.specs.Prelude.{◌≡◌, ◌<◌, List, None, length, replicate, IfOk, IfErr, OnOk};
ghost use Rattle.fidl_named.specs.declared.meaning.Meaning.{Meaning as Meant};
ghost use Rattle.fidl_named.specs.declared.meaning.Meaning.TheVariants as Given;
ghost use Rattle.fidl_consts.specs.Dependencies.{IsKnownNode};
ghost use Rattle.fidl_consts.specs.Evaluated.{ConstantsHold};
ghost use Rattle.fidl_const.specs.Evaluating.{Fails};
ghost use Rattle.fidl_const.specs.Columns.{AreNumbered, HasRoom};
ghost use Rattle.fidl_consts.specs.Tables.{AreConsts, AreTrue, IsDone};
ghost use Rattle.fidl_const.specs.Columns.{HoldsIfConstant, IsFound, IsNodeOrder, UsesSettled};
ghost use Rattle.fidl_const.specs.Columns.{Extends, with_values, with_limits};
ghost use Rattle.fidl_consts.specs.Tables.{IsMemoryOr};

use crate::bounds::limits;
use crate::constants::{constant_entry, member_entry};
use crate::nodes::Numbers;
use fidl_consts::found::{alias_at, const_at, member_at};
use fidl_consts::scope::{FileScope, NamedFile, Scope};
use fidl_consts::types::is_string_type;
use fidl_consts::{ConstFault, Consts, Entry, Limits, node_number};
use fidl_named::{DeclarationId, Meaning, Named};
use std::alloc::{AllocError, Global};

/// What a declaration or a member has: a value, limits, or neither.
#[derive(Drop)]
pub(crate) struct Found {
    pub value: Option<Entry>,
    pub limits: Option<Limits>,
}

/// What a declaration has.
fn of_declaration(scope: &Scope<'_, '_, '_, '_>, id: DeclarationId) -> Result<Found, ConstFault>
    requires known { AreTrue scope.now.named.now scope.now.consts.now }
    requires settled { UsesSettled scope.now.named.now scope.now.consts.now
        (Given.Declared id) }
    ensures ok { IfOk result (IsFound scope.now.named.now (Given.Declared id)) }
    ensures fault_is_true { IfErr result (IsMemoryOr (Fails scope.now.named.now)) }
{
    if let Some(found) = const_at(scope.named, id) {
        return Ok(Found {
            value: Some(constant_entry(scope, id, found)?),
            limits: None,
        });
    }
    let mut limits_found = None;
    if let Some(found) = alias_at(scope.named, id) {
        let constructor = &found.alias.constructor;
        let file = NamedFile {
            named: scope.named,
            file_index: id.file,
            tree: found.file,
        };
        if is_string_type(&file, constructor)? {
            let inside = FileScope {
                alloc: scope.alloc,
                consts: scope.consts,
                file,
            };
            limits_found = Some(limits(&inside, constructor)?);
        }
    }
    Ok(Found {
        value: None,
        limits: limits_found,
    })
}

/// What a declaration or a member has.
fn of_node(scope: &Scope<'_, '_, '_, '_>, meaning: Meaning) -> Result<Found, ConstFault>
    requires known { AreTrue scope.now.named.now scope.now.consts.now }
    requires node { IsKnownNode scope.now.named.now meaning }
    requires settled { UsesSettled scope.now.named.now scope.now.consts.now meaning }
    ensures ok { IfOk result (IsFound scope.now.named.now meaning) }
    ensures fault_is_true { IfErr result (IsMemoryOr (Fails scope.now.named.now)) }
{
    let none = Found {
        value: None,
        limits: None,
    };
    match meaning {
        Meaning::Declared(id) => of_declaration(scope, id),
        Meaning::Member { of, number } => match member_at(scope.named, of, number) {
            None => Ok(none),
            Some(found) => Ok(Found {
                value: Some(member_entry(scope, of, number, found)?),
                limits: None,
            }),
        },
        Meaning::Predeclared(_) | Meaning::PropertyMember { .. } => Ok(none),
    }
}

/// Writes what the one of a number has.
fn set_found(consts: &mut Consts, number: usize, found: Found)
    requires value { number < length consts.old.values.items }
    requires limits { number < length consts.old.limits.items }
    ensures starts { consts.new.starts ≡ consts.old.starts }
    ensures values { consts.new.values.items ≡ with_values consts.old.values.items number found }
    ensures limits { consts.new.limits.items ≡ with_limits consts.old.limits.items number found }
{
    consts.values[number] = found.value;
    consts.limits[number] = found.limits;
}

/// Reads what a declaration or a member has into the table.
fn add_node(
    alloc: Global,
    named: &Named<'_, '_>,
    consts: &mut Consts,
    meaning: Meaning,
) -> Result<(), ConstFault>
    requires known { AreTrue named.now consts.old }
    requires room { (nodes : List Meant) × HasRoom named.now nodes consts.old }
    requires node { IsKnownNode named.now meaning }
    requires settled { UsesSettled named.now consts.old meaning }
    ensures known { OnOk result (AreTrue named.now consts.new) }
    ensures extends { OnOk result (Extends named.now consts.old consts.new) }
    ensures done { OnOk result (IsDone named.now consts.new meaning) }
    ensures holds { OnOk result (HoldsIfConstant named.now meaning) }
    ensures fault_is_true { IfErr result (IsMemoryOr (Fails named.now)) }
{
    let scope = Scope {
        alloc,
        named,
        consts: &*consts,
    };
    let found = of_node(&scope, meaning)?;
    let number = node_number(&consts.starts, meaning);
    set_found(consts, number, found);
    Ok(())
}

/// A column of a table without anything yet.
fn no_values(alloc: Global, count: usize) -> Result<Vec<Option<Entry>>, AllocError>
    ensures { IfOk result (λ values. values.items ≡ replicate count None) }
{
    let mut values = Vec::new(alloc);
    for _ in 0..count {
        values.push(None)?;
    }
    Ok(values)
}

/// The values of all, where an order has each after all that it depends on.
pub(crate) fn values_in_order(
    alloc: Global,
    named: &Named<'_, '_>,
    numbers: Numbers,
    order: &[usize],
) -> Result<Consts, ConstFault>
    requires numbered { AreNumbered named.now numbers.nodes.items numbers.starts.items }
    requires order { IsNodeOrder named.now numbers.nodes.items order.now }
    ensures ok { IfOk result (AreConsts named.now) }
    ensures holds { OnOk result (ConstantsHold named.now) }
    ensures fault_is_true { IfErr result (IsMemoryOr (Fails named.now)) }
{
    let count = numbers.nodes.len();
    let mut consts = Consts {
        starts: numbers.starts,
        values: no_values(alloc, count)?,
        limits: vec![in alloc; None; count]?,
    };
    for number in order {
        add_node(alloc, named, &mut consts, numbers.nodes[*number])?;
    }
    Ok(consts)
}
