//! The protocols of ids.
ghost use Rattle.std.specs.Prelude.{IfSome, IsNone};
ghost use Rattle.fidl_composition.specs.Protocols.{IsProtocol};
ghost use Rattle.fidl_composition.specs.Tables.{IsProtocolNode};

use fidl_consts::found::declaration_at;
use fidl_named::{DeclarationId, Named};
use fidl_tree::{DeclarationBody, ProtocolDeclaration};

/// The protocol of an id.
pub(crate) fn protocol_at<'f>(
    named: &Named<'f, '_>,
    id: DeclarationId,
) -> Option<&'f ProtocolDeclaration>
    ensures found { IfSome result (λ d. IsProtocolNode named.now id d.now) }
    ensures none { IsNone result → IsProtocol named.now id → ⊥ }
{
    let found = declaration_at(named, id)?;
    match &found.declaration.body {
        DeclarationBody::Protocol(protocol) => Some(protocol),
        DeclarationBody::Const(_)
        | DeclarationBody::Alias(_)
        | DeclarationBody::Type(_)
        | DeclarationBody::Service(_)
        | DeclarationBody::Resource(_) => None,
    }
}
