//! All protocols of files with their methods.
ghost use Rattle.std.specs.Prelude.{◌≡◌, ◌<◌, length, slice_get, Some, IfOk, IfErr, OnOk};
ghost use Rattle.fidl_named.specs.declared.place.DeclarationId.{DeclarationId as Id};
ghost use Rattle.fidl_composition.specs.Compositions.{ComposesHold};
ghost use Rattle.fidl_composition.specs.Numbers.{AreCompositions};
ghost use Rattle.std.specs.Prelude.{List};
ghost use Rattle.fidl_tree.specs.declared.file.File.{File as Tree};
ghost use Rattle.fidl_protocol.specs.declared.fault.ProtocolFault.TheVariants.{Memory};
ghost use Rattle.fidl_protocol.specs.Methods.{MethodsDiffer};
ghost use Rattle.fidl_protocol.specs.Checked.{MembersHold, AreMethodsOf, AreProtocolsWith};
ghost use Rattle.fidl_protocol.specs.Faults.{IsTrueOfProtocols};
ghost use Rattle.fidl_protocol.specs.Gathered.{AreRows, AreGathered};

use crate::alike::place_of_two;
use crate::declaring::declared;
use crate::fault::ProtocolFault;
use crate::gathered::gathered;
use crate::method::{Method, Protocol};
use crate::names::two_of_one_name;
use crate::ordinals::{in_order, two_of_one_ordinal};
use crate::parts::of_compositions;
use fidl_composition::{Compositions, compositions};
use fidl_named::DeclarationId;
use fidl_types::Types;
use std::alloc::Global;

/// The compositions of the protocols.
fn composed(alloc: Global, types: &Types<'_, '_>) -> Result<Compositions, ProtocolFault>
    ensures ok { IfOk result (AreCompositions types.now) }
    ensures holds { OnOk result (ComposesHold types.now) }
    ensures fault_is_true { IfErr result (IsTrueOfProtocols types.now) }
{
    match compositions(alloc, types.named()) {
        Ok(found) => Ok(found),
        Err(fault) => Err(of_compositions(fault)),
    }
}

/// All methods of the protocol of this number.
fn all_methods(
    alloc: Global,
    compositions: &Compositions,
    rows: &[Vec<Method>],
    number: usize,
) -> Result<Vec<Method>, ProtocolFault>
    requires within { number < length compositions.now.0 }
    requires long { length rows.now ≡ length compositions.now.0 }
    ensures ok { IfOk result (λ ms. (files : List Tree) (id : Id)
        → AreCompositions files compositions.now → AreRows files compositions.now.0 rows.now
        → slice_get compositions.now.0 number ≡ Some id → AreGathered files id ms.items) }
    ensures fault { IfErr result (λ fault. fault ≡ Memory) }
{
    let reached = compositions.reached(alloc, number)?;
    Ok(gathered(alloc, rows, &reached)?)
}

/// A protocol, whose methods differ in their names and their ordinals.
fn protocol(
    alloc: Global,
    types: &Types<'_, '_>,
    compositions: &Compositions,
    id: DeclarationId,
    methods: Vec<Method>,
) -> Result<Protocol, ProtocolFault>
    requires known { AreCompositions types.now compositions.now }
    requires gathered { AreGathered types.now id methods.items }
    ensures id { IfOk result (λ p. p.id ≡ id) }
    ensures methods { IfOk result (λ p. AreMethodsOf types.now id p.methods.items) }
    ensures differ { OnOk result (MethodsDiffer types.now id) }
    ensures fault_is_true { IfErr result (IsTrueOfProtocols types.now) }
{
    if let Some(pair) = two_of_one_name(alloc, types.named(), &methods)? {
        let place = place_of_two(alloc, types.named(), compositions, id, &pair)?;
        return Err(ProtocolFault::DuplicateMethod { place });
    }
    let methods = in_order(methods)?;
    if let Some(pair) = two_of_one_ordinal(&methods) {
        let place = place_of_two(alloc, types.named(), compositions, id, &pair)?;
        return Err(ProtocolFault::DuplicateMethodOrdinal { place });
    }
    Ok(Protocol { id, methods })
}

/// The protocols of these compositions.
fn protocols_of(
    alloc: Global,
    types: &Types<'_, '_>,
    compositions: &Compositions,
    rows: &[Vec<Method>],
) -> Result<Vec<Protocol>, ProtocolFault>
    requires compositions { AreCompositions types.now compositions.now }
    requires rows { AreRows types.now compositions.now.0 rows.now }
    ensures ok { IfOk result (λ ps. AreProtocolsWith types.now ps.items) }
    ensures differ { OnOk result ((id : Id) → MethodsDiffer types.now id) }
    ensures fault_is_true { IfErr result (IsTrueOfProtocols types.now) }
{
    let mut protocols = Vec::new(alloc);
    for (number, id) in compositions.protocols().iter().enumerate() {
        let methods = all_methods(alloc, compositions, rows, number)?;
        protocols.push(protocol(alloc, types, compositions, *id, methods)?)?;
    }
    Ok(protocols)
}

/// All protocols in the order of the sources, each with its methods.
pub(crate) fn protocol_list(
    alloc: Global,
    types: &Types<'_, '_>,
) -> Result<Vec<Protocol>, ProtocolFault>
    ensures ok { IfOk result (λ ps. AreProtocolsWith types.now ps.items) }
    ensures members { OnOk result ((id : Id) → MembersHold types.now id) }
    ensures compositions { OnOk result (ComposesHold types.now) }
    ensures differ { OnOk result ((id : Id) → MethodsDiffer types.now id) }
    ensures fault_is_true { IfErr result (IsTrueOfProtocols types.now) }
{
    let compositions = composed(alloc, types)?;
    let rows = declared(alloc, types, compositions.protocols())?;
    protocols_of(alloc, types, &compositions, &rows)
}
