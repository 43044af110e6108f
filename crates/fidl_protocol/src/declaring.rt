//! The methods that a protocol declares, with what they carry.
ghost use Rattle.std.specs.Prelude.{◌≡◌, ◌<◌, length, map, IfErr, IfOk, OnOk};
ghost use Rattle.fidl_tree.specs.Views.{file_view, openness_view, protocol_member_view};
ghost use Rattle.fidl_composition.specs.Protocols.{IsProtocol, IsProtocolAt};
ghost use Rattle.fidl_method_rules.specs.Rules.{ProtocolHolds};
ghost use Rattle.fidl_method_rules.specs.MethodViews.{AreMethods, IsEntry};
ghost use Rattle.std.specs.List.{AllZip, Contains};
ghost use Rattle.fidl_named.specs.declared.place.DeclarationId.{DeclarationId as Id};
ghost use Rattle.fidl_protocol.specs.Checked.{MembersHold};
ghost use Rattle.fidl_protocol.specs.Faults.{IsTrueOfProtocols};
ghost use Rattle.fidl_protocol.specs.Gathered.{IsFound, IsMade, AreDeclaredBy, AreRows};

use crate::fault::ProtocolFault;
use crate::method::Method;
use crate::parts::{of_methods, of_payloads};
use fidl_method_rules::{OwnMethod, own_methods};
use fidl_named::{DeclarationId, Named};
use fidl_payloads::payloads;
use fidl_tree::{DeclarationBody, File, ProtocolDeclaration};
use fidl_types::Types;
use std::alloc::Global;

/// A protocol of files, with its declaration.
#[derive(Clone, Copy, Drop)]
pub(crate) struct Found<'f, 's> {
    id: DeclarationId,
    file: &'f File<'s>,
    protocol: &'f ProtocolDeclaration,
}

/// The protocol of an id.
fn find<'f, 's>(named: &Named<'f, 's>, id: DeclarationId) -> Found<'f, 's>
    requires { IsProtocol named.now id }
    ensures found { IsFound named.now result }
    ensures id { result.id ≡ id }
{
    let file = named.file(id.file);
    match &file.declarations[id.index].body {
        DeclarationBody::Protocol(protocol) => Found { id, file, protocol },
        DeclarationBody::Const(_)
        | DeclarationBody::Alias(_)
        | DeclarationBody::Type(_)
        | DeclarationBody::Service(_)
        | DeclarationBody::Resource(_) => unreachable!(),
    }
}

/// The methods and events of a protocol, with their ordinals.
fn own(
    alloc: Global,
    types: &Types<'_, '_>,
    found: &Found<'_, '_>,
) -> Result<Vec<OwnMethod>, ProtocolFault>
    requires found { IsFound types.now found.now }
    ensures ok { IfOk result (λ owns. AreMethods (file_view found.now.file.now)
        found.now.protocol.now.name
        (map protocol_member_view found.now.protocol.now.members.items) owns.items) }
    ensures holds { OnOk result (ProtocolHolds (file_view found.now.file.now)
        (openness_view found.now.protocol.now.openness) found.now.protocol.now.name
        (map protocol_member_view found.now.protocol.now.members.items)) }
    ensures fault_is_true { IfErr result (IsTrueOfProtocols types.now) }
{
    match own_methods(alloc, found.id.file, found.file, found.protocol) {
        Ok(owns) => Ok(owns),
        Err(fault) => Err(of_methods(fault)),
    }
}

/// A method with what its messages carry.
fn with_payloads(
    alloc: Global,
    types: &Types<'_, '_>,
    found: &Found<'_, '_>,
    own: OwnMethod,
) -> Result<Method, ProtocolFault>
    requires found { IsFound types.now found.now }
    requires entry { IsEntry (file_view found.now.file.now) found.now.protocol.now.name
        (map protocol_member_view found.now.protocol.now.members.items) own }
    ensures ok { IfOk result (IsMade types.now found.now own) }
    ensures fault_is_true { IfErr result (IsTrueOfProtocols types.now) }
{
    let member = &found.protocol.members[own.member];
    match payloads(alloc, types, found.id.file, found.protocol.name, member) {
        Ok(payloads) => Ok(Method {
            protocol: found.id,
            own,
            payloads,
        }),
        Err(fault) => Err(of_payloads(fault)),
    }
}

/// Methods with what their messages carry.
fn all_with_payloads(
    alloc: Global,
    types: &Types<'_, '_>,
    found: &Found<'_, '_>,
    owns: &[OwnMethod],
) -> Result<Vec<Method>, ProtocolFault>
    requires found { IsFound types.now found.now }
    requires entries { AreMethods (file_view found.now.file.now) found.now.protocol.now.name
        (map protocol_member_view found.now.protocol.now.members.items) owns.now }
    ensures ok { IfOk result (λ ms. AllZip (IsMade types.now found.now) owns.now ms.items) }
    ensures fault_is_true { IfErr result (IsTrueOfProtocols types.now) }
{
    let mut methods = Vec::new(alloc);
    for own in owns {
        methods.push(with_payloads(alloc, types, found, *own)?)?;
    }
    Ok(methods)
}

/// The methods that the protocol of an id declares.
fn declared_by(
    alloc: Global,
    types: &Types<'_, '_>,
    id: DeclarationId,
) -> Result<Vec<Method>, ProtocolFault>
    requires { IsProtocol types.now id }
    ensures ok { IfOk result (λ ms. AreDeclaredBy types.now id ms.items) }
    ensures holds { OnOk result (MembersHold types.now id) }
    ensures fault_is_true { IfErr result (IsTrueOfProtocols types.now) }
{
    let found = find(types.named(), id);
    let owns = own(alloc, types, &found)?;
    all_with_payloads(alloc, types, &found, &owns)
}

/// The methods that each of these protocols declares.
pub(crate) fn declared(
    alloc: Global,
    types: &Types<'_, '_>,
    ids: &[DeclarationId],
) -> Result<Vec<Vec<Method>>, ProtocolFault>
    requires { (id : Id) → Contains ids.now id → IsProtocol types.now id }
    ensures ok { IfOk result (λ rows. AreRows types.now ids.now rows.items) }
    ensures holds { OnOk result ((id : Id) → Contains ids.now id → MembersHold types.now id) }
    ensures fault_is_true { IfErr result (IsTrueOfProtocols types.now) }
{
    let mut rows = Vec::new(alloc);
    for id in ids {
        rows.push(declared_by(alloc, types, *id)?)?;
    }
    Ok(rows)
}
