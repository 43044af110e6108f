//! What one protocol composes.
ghost use Rattle.std.specs.Prelude.{◌≡◌, ◌↔◌, ◌⊎◌, ℕ, map, IfOk, IfErr, OnOk};
ghost use Rattle.std.specs.List.{Contains};
ghost use Rattle.fidl_tree.specs.Syntax.{Openness as Level};
ghost use Rattle.fidl_tree.specs.Views.{openness_view, path_view, protocol_member_view};
ghost use Rattle.fidl_cycles.specs.Cycles.{points_of};
ghost use Rattle.fidl_named.specs.Meanings.{IsJust};
ghost use Rattle.fidl_named.specs.Paths.{path_place};
ghost use Rattle.fidl_composition.specs.Protocols.{HasOpenness};
ghost use Rattle.fidl_composition.specs.Compositions.{ComposesAt, MayCompose, ProtocolHolds};
ghost use Rattle.fidl_composition.specs.Compositions.{IsTrueOfCompositions};
ghost use Rattle.fidl_composition.specs.Tables.{IsProtocolNode, AreNumbered, IsTarget, IsTargetBy};
ghost use Rattle.fidl_composition.specs.Tables.{PathHolds, MemberHolds, IsComposedRow, IsWritten};

use crate::fault::ComposeFault;
use crate::found::protocol_at;
use crate::names::protocol_meant;
use crate::openness::may_compose;
use crate::protocols::Numbers;
use fidl_named::{DeclarationId, Named, Place, path_span};
use fidl_tree::{Path, ProtocolDeclaration, ProtocolMember, ProtocolMemberBody};
use std::alloc::Global;

/// A protocol whose compositions are looked at, and the numbers of all.
#[derive(Clone, Copy, Drop)]
pub(crate) struct Composing<'n, 'f, 's> {
    pub named: &'n Named<'f, 's>,
    pub numbers: &'n Numbers,
    pub id: DeclarationId,
    pub protocol: &'f ProtocolDeclaration,
}

/// The protocol may compose the one of an id, which a path of its own means.
fn check_openness(
    scope: &Composing<'_, '_, '_>,
    path: &Path,
    composed: DeclarationId,
) -> Result<(), ComposeFault>
    requires protocol { IsProtocolNode scope.now.named.now scope.now.id scope.now.protocol.now }
    requires composes { ComposesAt scope.now.named.now scope.now.id
        (path_place (path_view path.now)) composed }
    ensures ok { OnOk result ((other : Level) → HasOpenness scope.now.named.now composed other
        → MayCompose (openness_view scope.now.protocol.now.openness) other) }
    ensures fault_is_true { IfErr result (IsTrueOfCompositions scope.now.named.now) }
{
    let Some(other) = protocol_at(scope.named, composed) else {
        return Ok(());
    };
    if may_compose(scope.protocol, other) {
        return Ok(());
    }
    Err(ComposeFault::BadCompose {
        place: Place {
            file: scope.id.file,
            span: path_span(path),
        },
    })
}

/// The number of the protocol that a path of the protocol means.
fn find_target(scope: &Composing<'_, '_, '_>, path: &Path) -> Result<Option<usize>, ComposeFault>
    requires protocol { IsProtocolNode scope.now.named.now scope.now.id scope.now.protocol.now }
    requires numbered { AreNumbered scope.now.named.now scope.now.numbers.now.ids.items
        (points_of scope.now.numbers.now.rows.items) }
    requires written { IsWritten scope.now.protocol.now (path_view path.now) }
    ensures ok { IfOk result (IsJust (IsTarget scope.now.named.now scope.now.id.file
        scope.now.numbers.now.ids.items (path_view path.now))) }
    ensures holds { OnOk result (PathHolds scope.now.named.now scope.now.id.file
        (openness_view scope.now.protocol.now.openness) (path_view path.now)) }
    ensures fault_is_true { IfErr result (IsTrueOfCompositions scope.now.named.now) }
{
    let Some(composed) = protocol_meant(scope.named, scope.id.file, path)? else {
        return Ok(None);
    };
    check_openness(scope, path, composed)?;
    Ok(Some(scope.numbers.number(composed)))
}

/// Appends the number of the protocol that a member composes.
fn add_member(
    row: &mut Vec<usize>,
    scope: &Composing<'_, '_, '_>,
    member: &ProtocolMember,
) -> Result<(), ComposeFault>
    requires protocol { IsProtocolNode scope.now.named.now scope.now.id scope.now.protocol.now }
    requires numbered { AreNumbered scope.now.named.now scope.now.numbers.now.ids.items
        (points_of scope.now.numbers.now.rows.items) }
    requires among { Contains scope.now.protocol.now.members.items member.now }
    ensures ok { OnOk result ((t : ℕ) → Contains row.new.items t ↔ (Contains row.old.items t
        ⊎ IsTargetBy scope.now.named.now scope.now.id.file scope.now.numbers.now.ids.items
        (protocol_member_view member.now) t)) }
    ensures holds { OnOk result (MemberHolds scope.now.named.now scope.now.id.file
        (openness_view scope.now.protocol.now.openness) (protocol_member_view member.now)) }
    ensures fault_is_true { IfErr result (IsTrueOfCompositions scope.now.named.now) }
{
    match &member.body {
        ProtocolMemberBody::Compose(compose) => match find_target(scope, &compose.path)? {
            None => Ok(()),
            Some(target) => {
                row.push(target)?;
                Ok(())
            }
        },
        ProtocolMemberBody::Method(_) | ProtocolMemberBody::Event(_) => Ok(()),
    }
}

/// The numbers of the protocols that the protocol composes.
pub(crate) fn composed_numbers(
    alloc: Global,
    scope: &Composing<'_, '_, '_>,
) -> Result<Vec<usize>, ComposeFault>
    requires protocol { IsProtocolNode scope.now.named.now scope.now.id scope.now.protocol.now }
    requires numbered { AreNumbered scope.now.named.now scope.now.numbers.now.ids.items
        (points_of scope.now.numbers.now.rows.items) }
    ensures ok { IfOk result (λ row. IsComposedRow scope.now.named.now
        scope.now.numbers.now.ids.items scope.now.id row.items) }
    ensures holds { OnOk result (ProtocolHolds scope.now.named.now scope.now.id) }
    ensures fault_is_true { IfErr result (IsTrueOfCompositions scope.now.named.now) }
{
    let mut row = Vec::new(alloc);
    for member in &scope.protocol.members {
        add_member(&mut row, scope, member)?;
    }
    Ok(row)
}
