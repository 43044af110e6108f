//! By which composition a protocol reaches another.
ghost use Rattle.std.specs.Prelude.{◌≡◌, ◌<◌, ◌↔◌, length, slice_get, Some, IsTrue, IfOk, IfSome};
ghost use Rattle.std.specs.Prelude.{IsNone};
ghost use Rattle.std.specs.List.{Contains};
ghost use Rattle.fidl_span.specs.declared.words.Span.{Span as Where};
ghost use Rattle.fidl_named.specs.declared.place.DeclarationId.{DeclarationId as Id};
ghost use Rattle.fidl_tree.specs.Views.{protocol_member_view};
ghost use Rattle.fidl_composition.specs.Protocols.{IsProtocol};
ghost use Rattle.fidl_composition.specs.Compositions.{Composes, Reaches, IsWay};
ghost use Rattle.fidl_composition.specs.Numbers.{AreCompositions};
ghost use Rattle.fidl_composition.specs.Tables.{IsWayBy};

use crate::found::protocol_at;
use crate::names::protocol_meant;
use crate::protocol_set::Compositions;
use fidl_named::{DeclarationId, Named, Place, path_span};
use fidl_span::Span;
use fidl_tree::{ProtocolMember, ProtocolMemberBody};
use std::alloc::{AllocError, Global};

/// The number of a protocol.
fn number_in(ids: &[DeclarationId], id: DeclarationId) -> Option<usize>
    ensures found { IfSome result (λ n. slice_get ids.now n ≡ Some id) }
    ensures none { IsNone result → Contains ids.now id → ⊥ }
{
    for (number, other) in ids.iter().enumerate() {
        if *other == id {
            return Some(number);
        }
    }
    None
}

/// Whether one protocol reaches another.
fn reaches(
    alloc: Global,
    named: &Named<'_, '_>,
    compositions: &Compositions,
    from: DeclarationId,
    to: DeclarationId,
) -> Result<bool, AllocError>
    requires known { AreCompositions named.now compositions.now }
    requires from { IsProtocol named.now from }
    requires to { IsProtocol named.now to }
    ensures { IfOk result (λ yes. IsTrue yes ↔ Reaches named.now from to) }
{
    let ids = compositions.protocols();
    let Some(start) = number_in(ids, from) else {
        return Ok(false);
    };
    let Some(end) = number_in(ids, to) else {
        return Ok(false);
    };
    let reached = compositions.reached(alloc, start)?;
    Ok(reached.contains(&end))
}

/// Where the path stands by which a member composes a protocol that reaches another.
fn way_by(
    alloc: Global,
    named: &Named<'_, '_>,
    compositions: &Compositions,
    file_index: usize,
    member: &ProtocolMember,
    to: DeclarationId,
) -> Result<Option<Span>, AllocError>
    requires within { file_index < length named.now }
    requires known { AreCompositions named.now compositions.now }
    requires to { IsProtocol named.now to }
    ensures found { IfOk result (λ found. IfSome found (IsWayBy named.now file_index
        (protocol_member_view member.now) to)) }
    ensures none { IfOk result (λ found. IsNone found → (span : Where)
        → IsWayBy named.now file_index (protocol_member_view member.now) to span → ⊥) }
{
    let ProtocolMemberBody::Compose(compose) = &member.body else {
        return Ok(None);
    };
    let Some(composed) = protocol_meant(named, file_index, &compose.path)? else {
        return Ok(None);
    };
    if !reaches(alloc, named, compositions, composed, to)? {
        return Ok(None);
    }
    Ok(Some(path_span(&compose.path)))
}

/// The place of the first path by which one protocol composes a protocol that reaches another; nothing
/// where it composes none that does.
///
/// `AllocError`: memory ran out.
pub fn way_to(
    alloc: Global,
    named: &Named<'_, '_>,
    compositions: &Compositions,
    from: DeclarationId,
    to: DeclarationId,
) -> Result<Option<Place>, AllocError>
    requires known { AreCompositions named.now compositions.now }
    requires to { IsProtocol named.now to }
    ensures found { IfOk result (λ found. IfSome found (λ place. IsWay named.now from to place)) }
    ensures none { IfOk result (λ found. IsNone found → (q : Id) → Composes named.now from q
        → Reaches named.now q to → ⊥) }
{
    let Some(protocol) = protocol_at(named, from) else {
        return Ok(None);
    };
    for member in &protocol.members {
        if let Some(span) = way_by(alloc, named, compositions, from.file, member, to)? {
            return Ok(Some(Place {
                file: from.file,
                span,
            }));
        }
    }
    Ok(None)
}
