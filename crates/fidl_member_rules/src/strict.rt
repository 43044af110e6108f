//! Strict layouts that must have members.
ghost use Rattle.std.specs.Prelude.{◌≡◌, ◌↔◌, [], map, IsTrue};
ghost use Rattle.fidl_tree.specs.Syntax.{members_of};
ghost use Rattle.fidl_tree.specs.Views.{member_view, ordinal_member_view, body_view};
ghost use Rattle.fidl_tree.specs.Views.{is_strict_union};
ghost use Rattle.fidl_named.specs.MemberNames.{own_names, layout_names};
ghost use Rattle.fidl_member_rules.specs.Strict.{must_have_members, IsEmptyStrict};

use fidl_declarations::is_strict;
use fidl_tree::{
    LayoutBody, Member, OrdinalBody, OrdinalMember, Strictness, UnionModifiers, ValuesKeyword,
};

/// Whether a union is marked `strict`.
pub fn is_strict_union(modifiers: &UnionModifiers) -> bool
    ensures { result ≡ is_strict_union modifiers.now }
{
    match modifiers {
        UnionModifiers::StrictnessFirst { strictness, .. } => is_strict(strictness),
        UnionModifiers::ResourceFirst { strictness, .. } => match strictness {
            Strictness::Strict(_) => true,
            Strictness::Flexible(_) => false,
        },
    }
}

/// Whether a layout must have members.
fn must_have_members(body: &LayoutBody) -> bool
    ensures { result ≡ must_have_members (body_view body.now) }
{
    match body {
        LayoutBody::Values(layout) => match &layout.keyword {
            ValuesKeyword::Bits(_) => false,
            ValuesKeyword::Enum(_) => is_strict(&layout.strictness),
        },
        LayoutBody::Struct(_) => false,
        LayoutBody::Table(_) => false,
        LayoutBody::Union(layout) => is_strict_union(&layout.modifiers),
    }
}

/// Whether each ordinal is reserved, so that no member is there.
fn are_reserved(members: &[OrdinalMember]) -> bool
    ensures { IsTrue result ↔ own_names (members_of (map ordinal_member_view members.now)) ≡ [] }
{
    for member in members {
        match &member.body {
            OrdinalBody::Reserved(_) => {}
            OrdinalBody::Typed { .. } => return false,
        }
    }
    true
}

/// Whether there are no members.
fn are_none(members: &[Member]) -> bool
    ensures { IsTrue result ↔ own_names (members_of (map member_view members.now)) ≡ [] }
{
    members.is_empty()
}

/// Whether a layout has no members.
fn has_no_members(body: &LayoutBody) -> bool
    ensures { IsTrue result ↔ layout_names (body_view body.now) ≡ [] }
{
    match body {
        LayoutBody::Values(layout) => layout.members.is_empty(),
        LayoutBody::Struct(layout) => are_none(&layout.members),
        LayoutBody::Table(layout) => are_reserved(&layout.members),
        LayoutBody::Union(layout) => are_reserved(&layout.members),
    }
}

/// Whether a layout must have members and has none.
pub(crate) fn is_empty_strict(body: &LayoutBody) -> bool
    ensures { IsTrue result ↔ IsEmptyStrict (body_view body.now) }
{
    must_have_members(body) && has_no_members(body)
}
