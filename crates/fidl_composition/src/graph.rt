//! What all protocols compose, as a graph over their numbers.
ghost use Rattle.std.specs.Prelude.{IfOk, IfErr, OnOk};
ghost use Rattle.std.specs.List.{AllByRecursion};
ghost use Rattle.fidl_cycles.specs.Cycles.{points_of};
ghost use Rattle.fidl_composition.specs.Protocols.{IsProtocol};
ghost use Rattle.fidl_composition.specs.Compositions.{ProtocolHolds, IsTrueOfCompositions};
ghost use Rattle.fidl_composition.specs.Tables.{AreNumbered, IsComposedRow, AreComposedRows};

use crate::composing::{Composing, composed_numbers};
use crate::fault::ComposeFault;
use crate::found::protocol_at;
use crate::protocols::Numbers;
use fidl_named::{DeclarationId, Named};
use std::alloc::Global;

/// The numbers of the protocols that the one of an id composes.
fn row_of(
    alloc: Global,
    named: &Named<'_, '_>,
    numbers: &Numbers,
    id: DeclarationId,
) -> Result<Vec<usize>, ComposeFault>
    requires protocol { IsProtocol named.now id }
    requires numbered { AreNumbered named.now numbers.now.ids.items
        (points_of numbers.now.rows.items) }
    ensures ok { IfOk result (λ row. IsComposedRow named.now numbers.now.ids.items id row.items) }
    ensures holds { OnOk result (ProtocolHolds named.now id) }
    ensures fault_is_true { IfErr result (IsTrueOfCompositions named.now) }
{
    let Some(protocol) = protocol_at(named, id) else {
        unreachable!();
    };
    let scope = Composing {
        named,
        numbers,
        id,
        protocol,
    };
    composed_numbers(alloc, &scope)
}

/// The graph of all protocols.
pub(crate) fn composition_graph(
    alloc: Global,
    named: &Named<'_, '_>,
    numbers: &Numbers,
) -> Result<Vec<Vec<usize>>, ComposeFault>
    requires numbered { AreNumbered named.now numbers.now.ids.items
        (points_of numbers.now.rows.items) }
    ensures ok { IfOk result (λ graph. AreComposedRows named.now numbers.now.ids.items
        numbers.now.ids.items (points_of graph.items)) }
    ensures holds { OnOk result (AllByRecursion (ProtocolHolds named.now) numbers.now.ids.items) }
    ensures fault_is_true { IfErr result (IsTrueOfCompositions named.now) }
{
    let mut graph = Vec::new(alloc);
    for id in &numbers.ids {
        let row = row_of(alloc, named, numbers, *id)?;
        graph.push(row)?;
    }
    Ok(graph)
}
