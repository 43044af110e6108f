//! The protocols of ids, with their files.
ghost use Rattle.std.specs.Prelude.{IfSome, IsNone};
ghost use Rattle.fidl_composition.specs.Protocols.{IsProtocol};
ghost use Rattle.fidl_table.specs.Listed.{IsFound};

use fidl_consts::found::declaration_at;
use fidl_named::{DeclarationId, Named};
use fidl_tree::{DeclarationBody, File, ProtocolDeclaration};

/// A protocol, with the file where it is declared.
#[derive(Clone, Copy, Drop)]
pub(crate) struct Found<'f, 's> {
    pub file: &'f File<'s>,
    pub protocol: &'f ProtocolDeclaration,
}

/// The protocol of an id.
pub(crate) fn find<'f, 's>(named: &Named<'f, 's>, id: DeclarationId) -> Option<Found<'f, 's>>
    ensures found { IfSome result (IsFound named.now id) }
    ensures none { IsNone result → ¬ (IsProtocol named.now id) }
{
    let found = declaration_at(named, id)?;
    match &found.declaration.body {
        DeclarationBody::Protocol(protocol) => Some(Found {
            file: found.file,
            protocol,
        }),
        DeclarationBody::Const(_)
        | DeclarationBody::Alias(_)
        | DeclarationBody::Type(_)
        | DeclarationBody::Service(_)
        | DeclarationBody::Resource(_) => None,
    }
}
