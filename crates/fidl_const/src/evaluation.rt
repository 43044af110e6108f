//! The values of a set of files whose names are resolved.
ghost use Rattle.std.specs.Prelude.{◌<◌, IfErr, IfOk, OnOk};
ghost use Rattle.fidl_consts.specs.Evaluated.{Evaluates};
ghost use Rattle.fidl_const.specs.Evaluating.{IsTrueOfEvaluating};
ghost use Rattle.fidl_consts.specs.Tables.{AreConsts};

use crate::graph::value_graph;
use crate::nodes::{node_place, number_nodes};
use crate::order::values_in_order;
use crate::places::check_places;
use fidl_consts::scope::Scope;
use fidl_consts::{ConstFault, Consts};
use fidl_cycles::find_cycle;
use fidl_named::Named;
use std::alloc::Global;

/// Evaluates the constants, members, bounds and constraints of files whose names are resolved
/// (public source: the FIDL language specification, "Constants"). Refused with OutOfRange where a
/// value doesn't fit its type, or a string is longer than a bound; WrongKind where a value or a
/// type is of another kind than is wanted; ConstCycle where a constant or a member leads back to
/// itself; NotBits where `|` stands between values that it doesn't join; and Memory where memory
/// ran out.
pub fn evaluate(alloc: Global, named: &Named<'_, '_>) -> Result<Consts, ConstFault>
    ensures ok { IfOk result (AreConsts named.now) }
    ensures evaluates { OnOk result (Evaluates named.now) }
    ensures fault_is_true { IfErr result (IsTrueOfEvaluating named.now) }
{
    let numbers = number_nodes(named, alloc)?;
    let graph = value_graph(named, alloc, &numbers)?;
    match find_cycle(&graph, alloc)? {
        Err(cycle_edge) => {
            let Some(place) = node_place(named, numbers.nodes[cycle_edge.from]) else {
                unreachable!();
            };
            Err(ConstFault::ConstCycle { place })
        }
        Ok(order) => {
            let consts = values_in_order(alloc, named, numbers, &order)?;
            let scope = Scope {
                alloc,
                named,
                consts: &consts,
            };
            check_places(&scope)?;
            Ok(consts)
        }
    }
}
