//! The lists of members in declarations: the names of each layout, service and list of properties.
ghost use Rattle.std.specs.Prelude.{◌≡◌, ◌++◌, ◌∷◌, [], map, flat_map, OnOk, IfOk};
ghost use Rattle.fidl_tree.specs.Syntax.{members_of};
ghost use Rattle.fidl_tree.specs.Views.{type_view, body_view, value_member_view, member_view};
ghost use Rattle.fidl_tree.specs.Views.{ordinal_member_view, payload_view, response_view};
ghost use Rattle.fidl_tree.specs.Views.{protocol_body_view, protocol_member_view, property_view};
ghost use Rattle.fidl_tree.specs.Views.{declared_view};
ghost use Rattle.fidl_named.specs.Spots.{layout_spots};
ghost use Rattle.fidl_named.specs.SpotViews.{spots_view};
ghost use Rattle.fidl_names.specs.MemberLists.{held};
ghost use Rattle.fidl_named.specs.MemberNames.{own_name, own_names, value_names};
ghost use Rattle.fidl_named.specs.MemberNames.{layout_names};
ghost use Rattle.fidl_names.specs.MemberLists.{lists_of, type_lists, members_lists, perhaps};
ghost use Rattle.fidl_names.specs.MemberLists.{response_lists, protocol_lists, body_lists};

use fidl_named::spots::{self, Spot};
use fidl_span::Span;
use fidl_tree::{
    DeclarationBody, LayoutBody, Member, OrdinalBody, OrdinalMember, Payload, Property,
    ProtocolMember, ProtocolMemberBody, Response, TypeConstructor, ValueMember,
};
use std::alloc::{AllocError, Global};

/// The list of the members of bits or an enum.
fn push_values(
    lists: &mut Vec<Vec<Span>>,
    alloc: Global,
    members: &[ValueMember],
) -> Result<(), AllocError>
    ensures { OnOk result (held lists.new.items ≡ held lists.old.items
        ++ value_names (map value_member_view members.now) ∷ []) }
{
    let mut names = Vec::new(alloc);
    for member in members {
        names.push(member.name)?;
    }
    lists.push(names)?;
    Ok(())
}

/// The list of the members of a struct or a service.
fn push_names(
    lists: &mut Vec<Vec<Span>>,
    alloc: Global,
    members: &[Member],
) -> Result<(), AllocError>
    ensures { OnOk result (held lists.new.items ≡ held lists.old.items
        ++ own_names (members_of (map member_view members.now)) ∷ []) }
{
    let mut names = Vec::new(alloc);
    for member in members {
        names.push(member.name)?;
    }
    lists.push(names)?;
    Ok(())
}

/// The list of the members of a table or a union.
fn push_ordinals(
    lists: &mut Vec<Vec<Span>>,
    alloc: Global,
    members: &[OrdinalMember],
) -> Result<(), AllocError>
    ensures { OnOk result (held lists.new.items ≡ held lists.old.items
        ++ own_names (members_of (map ordinal_member_view members.now)) ∷ []) }
{
    let mut names = Vec::new(alloc);
    for member in members {
        push_name(&mut names, member)?;
    }
    lists.push(names)?;
    Ok(())
}

/// The name of a member of a table or a union; a reserved ordinal has none.
fn push_name(names: &mut Vec<Span>, member: &OrdinalMember) -> Result<(), AllocError>
    ensures { OnOk result (names.new.items ≡ names.old.items
        ++ own_name (ordinal_member_view member.now)) }
{
    match &member.body {
        OrdinalBody::Reserved(_) => Ok(()),
        OrdinalBody::Typed { name, .. } => {
            names.push(*name)?;
            Ok(())
        }
    }
}

/// The list of a layout.
fn push_own(lists: &mut Vec<Vec<Span>>, alloc: Global, body: &LayoutBody) -> Result<(), AllocError>
    ensures { OnOk result (held lists.new.items ≡ held lists.old.items
        ++ layout_names (body_view body.now) ∷ []) }
{
    match body {
        LayoutBody::Values(layout) => push_values(lists, alloc, &layout.members),
        LayoutBody::Struct(layout) => push_names(lists, alloc, &layout.members),
        LayoutBody::Table(layout) => push_ordinals(lists, alloc, &layout.members),
        LayoutBody::Union(layout) => push_ordinals(lists, alloc, &layout.members),
    }
}

/// The lists of the layouts among the spots of a walk, after those before them.
fn push_spots(
    lists: &mut Vec<Vec<Span>>,
    alloc: Global,
    spots: &[Spot<'_>],
) -> Result<(), AllocError>
    ensures { OnOk result (held lists.new.items ≡ held lists.old.items
        ++ lists_of (spots_view spots.now)) }
{
    for spot in spots {
        if let Spot::Layout { body } = spot {
            push_own(lists, alloc, body)?;
        }
    }
    Ok(())
}

/// The lists in a type.
fn push_type(
    lists: &mut Vec<Vec<Span>>,
    alloc: Global,
    constructor: &TypeConstructor,
) -> Result<(), AllocError>
    ensures { OnOk result (held lists.new.items ≡ held lists.old.items
        ++ type_lists (type_view constructor.now)) }
{
    let mut spots = Vec::new(alloc);
    spots::push_type(&mut spots, None, constructor)?;
    push_spots(lists, alloc, &spots)
}

/// Those in a layout.
fn push_layout(
    lists: &mut Vec<Vec<Span>>,
    alloc: Global,
    body: &LayoutBody,
) -> Result<(), AllocError>
    ensures { OnOk result (held lists.new.items ≡ held lists.old.items
        ++ lists_of (layout_spots (body_view body.now))) }
{
    let mut spots = Vec::new(alloc);
    spots::push_layout(&mut spots, body)?;
    push_spots(lists, alloc, &spots)
}

/// Those in the types of a service's members, and then the list of the members.
fn push_members(
    lists: &mut Vec<Vec<Span>>,
    alloc: Global,
    members: &[Member],
) -> Result<(), AllocError>
    ensures { OnOk result (held lists.new.items ≡ held lists.old.items
        ++ members_lists (members_of (map member_view members.now))) }
{
    let mut spots = Vec::new(alloc);
    spots::push_members(&mut spots, members)?;
    push_spots(lists, alloc, &spots)?;
    push_names(lists, alloc, members)
}

/// The lists in a request, a response or an event.
fn push_payload(
    lists: &mut Vec<Vec<Span>>,
    alloc: Global,
    payload: &Payload,
) -> Result<(), AllocError>
    ensures { OnOk result (held lists.new.items ≡ held lists.old.items
        ++ perhaps type_lists (payload_view payload.now)) }
{
    match &payload.constructor {
        None => Ok(()),
        Some(constructor) => push_type(lists, alloc, constructor),
    }
}

fn push_response(
    lists: &mut Vec<Vec<Span>>,
    alloc: Global,
    response: &Response,
) -> Result<(), AllocError>
    ensures { OnOk result (held lists.new.items ≡ held lists.old.items
        ++ response_lists (response_view response.now)) }
{
    push_payload(lists, alloc, &response.payload)?;
    match &response.error {
        None => Ok(()),
        Some(error) => push_type(lists, alloc, &error.constructor),
    }
}

fn push_protocol_member(
    lists: &mut Vec<Vec<Span>>,
    alloc: Global,
    body: &ProtocolMemberBody,
) -> Result<(), AllocError>
    ensures { OnOk result (held lists.new.items ≡ held lists.old.items
        ++ protocol_lists (protocol_body_view [] body.now)) }
{
    match body {
        ProtocolMemberBody::Compose(_) => Ok(()),
        ProtocolMemberBody::Method(method) => {
            push_payload(lists, alloc, &method.request)?;
            match &method.response {
                None => Ok(()),
                Some(response) => push_response(lists, alloc, response),
            }
        }
        ProtocolMemberBody::Event(event) => push_payload(lists, alloc, &event.payload),
    }
}

fn push_protocol(
    lists: &mut Vec<Vec<Span>>,
    alloc: Global,
    members: &[ProtocolMember],
) -> Result<(), AllocError>
    ensures { OnOk result (held lists.new.items ≡ held lists.old.items
        ++ flat_map protocol_lists (map protocol_member_view members.now)) }
{
    for member in members {
        push_protocol_member(lists, alloc, &member.body)?;
    }
    Ok(())
}

fn push_properties(
    lists: &mut Vec<Vec<Span>>,
    alloc: Global,
    properties: &[Property],
) -> Result<(), AllocError>
    ensures { OnOk result (held lists.new.items ≡ held lists.old.items
        ++ members_lists (members_of (map property_view properties.now))) }
{
    let mut names = Vec::new(alloc);
    for property in properties {
        names.push(property.name)?;
        push_type(lists, alloc, &property.constructor)?;
    }
    lists.push(names)?;
    Ok(())
}

/// The lists of members in a declaration.
pub(crate) fn member_lists(
    alloc: Global,
    body: &DeclarationBody,
) -> Result<Vec<Vec<Span>>, AllocError>
    ensures { IfOk result (λ lists. held lists.items ≡ body_lists (declared_view body.now)) }
{
    let mut lists = Vec::new(alloc);
    match body {
        DeclarationBody::Const(d) => push_type(&mut lists, alloc, &d.constructor)?,
        DeclarationBody::Alias(d) => push_type(&mut lists, alloc, &d.constructor)?,
        DeclarationBody::Type(d) => push_layout(&mut lists, alloc, &d.layout.body)?,
        DeclarationBody::Protocol(d) => push_protocol(&mut lists, alloc, &d.members)?,
        DeclarationBody::Service(d) => push_members(&mut lists, alloc, &d.members)?,
        DeclarationBody::Resource(d) => {
            push_type(&mut lists, alloc, &d.constructor)?;
            push_properties(&mut lists, alloc, &d.properties.members)?;
        }
    }
    Ok(lists)
}
