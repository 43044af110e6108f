//! No protocol leads to itself.
ghost use Rattle.std.specs.Prelude.{◌<◌, length, IfErr, OnOk};
ghost use Rattle.std.specs.List.{Contains};
ghost use Rattle.fidl_cycles.specs.Cycles.{Leads, points_of};
ghost use Rattle.fidl_named.specs.declared.place.DeclarationId.{DeclarationId as Id};
ghost use Rattle.fidl_composition.specs.Protocols.{IsProtocol};
ghost use Rattle.fidl_composition.specs.Compositions.{Composes, IsTrueOfCompositions};
ghost use Rattle.fidl_composition.specs.Numbers.{AreCompositions};
ghost use Rattle.fidl_composition.specs.Tables.{IsNamePlace};

use crate::fault::ComposeFault;
use crate::found::protocol_at;
use fidl_cycles::find_cycle;
use fidl_named::{DeclarationId, Named, Place};
use std::alloc::Global;

/// The place of the name of the protocol of this number.
fn name_place(named: &Named<'_, '_>, ids: &[DeclarationId], number: usize) -> Place
    requires within { number < length ids.now }
    requires protocols { (p : Id) → Contains ids.now p → IsProtocol named.now p }
    ensures { IsNamePlace named.now ids.now number result }
{
    let id = ids[number];
    let Some(protocol) = protocol_at(named, id) else {
        unreachable!();
    };
    Place {
        file: id.file,
        span: protocol.name,
    }
}

/// No protocol leads to itself, where a graph has what each composes.
pub(crate) fn check_cycles(
    alloc: Global,
    named: &Named<'_, '_>,
    ids: &[DeclarationId],
    graph: &[Vec<usize>],
) -> Result<(), ComposeFault>
    requires { AreCompositions named.now (ids.now, points_of graph.now) }
    ensures ok { OnOk result ((p : Id) → Leads (Composes named.now) p p → ⊥) }
    ensures fault_is_true { IfErr result (IsTrueOfCompositions named.now) }
{
    match find_cycle(graph, alloc)? {
        Ok(_order) => Ok(()),
        Err(cycle_edge) => {
            let place = name_place(named, ids, cycle_edge.from);
            Err(ComposeFault::ComposeCycle { place })
        }
    }
}
