//! The methods and events among the members of a protocol.
ghost use Rattle.std.specs.Prelude.{◌≡◌, ◌↔◌, Some, None, IsTrue, IfSome, IsNone};
ghost use Rattle.fidl_tree.specs.Views.{openness_view, protocol_member_view};
ghost use Rattle.fidl_method_rules.specs.Methods.{method_of, MayStand};
ghost use Rattle.fidl_method_rules.specs.MethodViews.{method_view};

use fidl_declarations::is_strict;
use fidl_span::Span;
use fidl_tree::{Attribute, Openness, ProtocolMember, ProtocolMemberBody};

/// A method or an event of a protocol, without its payloads.
#[derive(Clone, Copy, Drop)]
pub(crate) struct Method<'f> {
    pub attributes: &'f [Attribute],
    pub name: Span,
    pub is_strict: bool,
    pub is_two_way: bool,
}

/// The method or the event that a member is, where it is one.
pub(crate) fn method_of(member: &ProtocolMember) -> Option<Method<'_>>
    ensures found { IfSome result (λ method. method_of (protocol_member_view member.now)
        ≡ Some (method_view method)) }
    ensures none { IsNone result → method_of (protocol_member_view member.now) ≡ None }
{
    match &member.body {
        ProtocolMemberBody::Compose(_) => None,
        ProtocolMemberBody::Method(method) => Some(Method {
            attributes: &member.attributes,
            name: method.name,
            is_strict: is_strict(&method.strictness),
            is_two_way: method.response.is_some(),
        }),
        ProtocolMemberBody::Event(event) => Some(Method {
            attributes: &member.attributes,
            name: event.name,
            is_strict: is_strict(&event.strictness),
            is_two_way: false,
        }),
    }
}

/// Whether a method may stand in a protocol of this openness.
pub(crate) fn may_stand(openness: &Option<Openness>, method: Method<'_>) -> bool
    ensures { IsTrue result ↔ MayStand (openness_view openness.now) (method_view method.entry) }
{
    match openness {
        None | Some(Openness::Open(_)) => true,
        Some(Openness::Ajar(_)) => method.is_strict || !method.is_two_way,
        Some(Openness::Closed(_)) => method.is_strict,
    }
}
