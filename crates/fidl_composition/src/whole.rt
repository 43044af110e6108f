//! The compositions of the protocols of files.
ghost use Rattle.std.specs.Prelude.{IfOk, IfErr, OnOk};
ghost use Rattle.fidl_composition.specs.Compositions.{ComposesHold, IsTrueOfCompositions};
ghost use Rattle.fidl_composition.specs.Numbers.{AreCompositions};

use crate::cycle::check_cycles;
use crate::fault::ComposeFault;
use crate::graph::composition_graph;
use crate::protocol_set::Compositions;
use crate::protocols::number_protocols;
use fidl_named::Named;
use std::alloc::Global;

/// The compositions of the protocols of files (public source: the FIDL language specification,
/// "Protocol composition"). A path that means no protocol, or more than one, is no composition:
/// where the names of the files are resolved there is none. Refused with BadCompose where a closed
/// protocol composes one that is not closed, or an ajar one an open one: at the path; ComposeCycle
/// where a protocol leads to itself by compositions: at the name of the first of the cycle; and
/// Memory where memory ran out.
pub fn compositions(alloc: Global, named: &Named<'_, '_>) -> Result<Compositions, ComposeFault>
    ensures ok { IfOk result (AreCompositions named.now) }
    ensures holds { OnOk result (ComposesHold named.now) }
    ensures fault_is_true { IfErr result (IsTrueOfCompositions named.now) }
{
    let numbers = number_protocols(alloc, named)?;
    let graph = composition_graph(alloc, named, &numbers)?;
    check_cycles(alloc, named, &numbers.ids, &graph)?;
    Ok(Compositions {
        ids: numbers.ids,
        graph,
    })
}
