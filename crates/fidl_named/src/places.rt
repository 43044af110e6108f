//! The places of names and values in declarations, and what each place wants.
ghost use Rattle.std.specs.Prelude.{◌≡◌, ◌++◌, [], None, Some, map, flat_map, option_map};
ghost use Rattle.std.specs.Prelude.{option_copied, OnOk, IfOk};
ghost use Rattle.std.specs.Option.{option_to_list};
ghost use Rattle.fidl_tree.specs.Syntax.{members_of};
ghost use Rattle.fidl_tree.specs.Views.{path_view, value_view, constraints_view, type_view};
ghost use Rattle.fidl_tree.specs.Views.{body_view, values_view, member_view};
ghost use Rattle.fidl_tree.specs.Views.{payload_view, response_view};
ghost use Rattle.fidl_tree.specs.Views.{protocol_body_view, protocol_member_view, property_view};
ghost use Rattle.fidl_tree.specs.Views.{declared_view};
ghost use Rattle.fidl_named.specs.Spots.{type_spots, layout_spots, members_spots};
ghost use Rattle.fidl_named.specs.Places.{value_places, spot_places, places_of, perhaps};
ghost use Rattle.fidl_named.specs.Places.{response_places, values_path};
ghost use Rattle.fidl_named.specs.Places.{protocol_places, body_places};
ghost use Rattle.fidl_named.specs.ReferenceViews.{value_list_view};
ghost use Rattle.fidl_named.specs.PlaceViews.{name_place_view, name_places_view};
ghost use Rattle.fidl_named.specs.SpotViews.{spot_view, spots_view};

use crate::meaning::Wanted;
use crate::paths::value_paths;
use crate::spots;
use crate::spots::Spot;
use fidl_span::Span;
use fidl_tree::{
    Constraints, DeclarationBody, LayoutBody, Member, NextConstraint, Path, Payload, Property,
    ProtocolMember, ProtocolMemberBody, Response, TypeConstructor, Value, ValueMember,
    ValuesKeyword, ValuesLayout,
};
use std::alloc::{AllocError, Global};

/// A place of a name or of values, and what it wants.
#[derive(Clone, Copy, Drop)]
pub enum NamePlace<'f> {
    /// A name of a kind.
    Name {
        kind: Wanted,
        path: &'f Path,
    },
    /// A type with its constraints; it may be the second argument of another.
    Type {
        argument_of: Option<&'f Path>,
        path: &'f Path,
        constraints: Option<&'f Constraints>,
    },
    /// The constraints of a layout.
    Layout {
        constraints: Option<&'f Constraints>,
    },
    /// A number as an argument; it may be the second one of a type.
    Number {
        argument_of: Option<&'f Path>,
        number: Span,
    },
    /// The members of bits or an enum, with the name of the underlying type where one is written.
    Members {
        keyword: &'f ValuesKeyword,
        underlying: Option<&'f Path>,
        members: &'f [ValueMember],
    },
}

/// The constraints in a list of them, in order.
pub fn items<'f>(
    alloc: Global,
    constraints: Option<&'f Constraints>,
) -> Result<Vec<&'f Value>, AllocError>
    ensures { let values = constraints_view (option_copied constraints.entry) in
        IfOk result (λ found. value_list_view found.items ≡ values) }
{
    let mut found: Vec<&'f Value> = Vec::new(alloc);
    match constraints {
        None => {}
        Some(Constraints::Single { value, .. }) => found.push(value)?,
        Some(Constraints::List { first, rest, .. }) => {
            found.push(first)?;
            push_items(&mut found, rest)?;
        }
    }
    Ok(found)
}

fn push_items<'f>(
    found: &mut Vec<&'f Value>,
    constraints: &'f [NextConstraint],
) -> Result<(), AllocError>
    ensures { OnOk result (value_list_view found.new.items ≡ value_list_view found.old.items
        ++ map (λ n. value_view n.value) constraints.now) }
{
    for next in constraints {
        found.push(&next.value)?;
    }
    Ok(())
}

/// The places in a value, after those before them.
fn push_value<'f>(
    places: &mut Vec<NamePlace<'f>>,
    alloc: Global,
    value: &'f Value,
) -> Result<(), AllocError>
    ensures { OnOk result (name_places_view places.new.items ≡ name_places_view places.old.items
        ++ value_places (value_view value.now)) }
{
    let paths = value_paths(alloc, value)?;
    for path in &paths {
        places.push(NamePlace::Name {
            kind: Wanted::Value,
            path: *path,
        })?;
    }
    Ok(())
}

/// The place that a spot of the walk is, if it is one.
fn place_of<'f>(spot: Spot<'f>) -> Option<NamePlace<'f>>
    ensures { option_to_list (option_map name_place_view result) ≡ spot_places (spot_view spot.entry) }
{
    match spot {
        Spot::Named { argument_of, named } => Some(NamePlace::Type {
            argument_of,
            path: &named.path,
            constraints: named.constraints.as_ref(),
        }),
        Spot::Written { constraints, .. } => Some(NamePlace::Layout { constraints }),
        Spot::Number {
            argument_of,
            number,
        } => Some(NamePlace::Number {
            argument_of,
            number,
        }),
        Spot::Layout { body } => match body {
            LayoutBody::Values(layout) => Some(NamePlace::Members {
                keyword: &layout.keyword,
                underlying: underlying_path(layout),
                members: &layout.members,
            }),
            _ => None,
        },
    }
}

/// The name of the underlying type, where one is written.
fn underlying_path<'f>(layout: &'f ValuesLayout) -> Option<&'f Path>
    ensures { option_map path_view (option_copied result)
        ≡ values_path (values_view layout.now) }
{
    match &layout.underlying {
        None => None,
        Some(underlying) => Some(&underlying.named.path),
    }
}

/// The places among the spots of a walk, after those before them.
fn push_spots<'f>(places: &mut Vec<NamePlace<'f>>, spots: &[Spot<'f>]) -> Result<(), AllocError>
    ensures { OnOk result (name_places_view places.new.items ≡ name_places_view places.old.items
        ++ places_of (spots_view spots.now)) }
{
    for spot in spots {
        if let Some(place) = place_of(*spot) {
            places.push(place)?;
        }
    }
    Ok(())
}

/// Those in a type.
fn push_type<'f>(
    places: &mut Vec<NamePlace<'f>>,
    alloc: Global,
    constructor: &'f TypeConstructor,
) -> Result<(), AllocError>
    ensures { OnOk result (name_places_view places.new.items ≡ name_places_view places.old.items
        ++ places_of (type_spots None (type_view constructor.now))) }
{
    let mut spots = Vec::new(alloc);
    spots::push_type(&mut spots, None, constructor)?;
    push_spots(places, &spots)
}

/// Those in a layout.
fn push_layout<'f>(
    places: &mut Vec<NamePlace<'f>>,
    alloc: Global,
    body: &'f LayoutBody,
) -> Result<(), AllocError>
    ensures { OnOk result (name_places_view places.new.items ≡ name_places_view places.old.items
        ++ places_of (layout_spots (body_view body.now))) }
{
    let mut spots = Vec::new(alloc);
    spots::push_layout(&mut spots, body)?;
    push_spots(places, &spots)
}

/// Those in the members of a service.
fn push_members<'f>(
    places: &mut Vec<NamePlace<'f>>,
    alloc: Global,
    members: &'f [Member],
) -> Result<(), AllocError>
    ensures { OnOk result (name_places_view places.new.items ≡ name_places_view places.old.items
        ++ places_of (members_spots (members_of (map member_view members.now)))) }
{
    let mut spots = Vec::new(alloc);
    spots::push_members(&mut spots, members)?;
    push_spots(places, &spots)
}

/// Those in a request, a response or an event.
fn push_payload<'f>(
    places: &mut Vec<NamePlace<'f>>,
    alloc: Global,
    payload: &'f Payload,
) -> Result<(), AllocError>
    ensures { OnOk result (name_places_view places.new.items ≡ name_places_view places.old.items
        ++ perhaps (payload_view payload.now)) }
{
    match &payload.constructor {
        None => Ok(()),
        Some(constructor) => push_type(places, alloc, constructor),
    }
}

fn push_response<'f>(
    places: &mut Vec<NamePlace<'f>>,
    alloc: Global,
    response: &'f Response,
) -> Result<(), AllocError>
    ensures { OnOk result (name_places_view places.new.items ≡ name_places_view places.old.items
        ++ response_places (Some (response_view response.now))) }
{
    push_payload(places, alloc, &response.payload)?;
    match &response.error {
        None => Ok(()),
        Some(error) => push_type(places, alloc, &error.constructor),
    }
}

fn push_protocol_member<'f>(
    places: &mut Vec<NamePlace<'f>>,
    alloc: Global,
    body: &'f ProtocolMemberBody,
) -> Result<(), AllocError>
    ensures { OnOk result (name_places_view places.new.items ≡ name_places_view places.old.items
        ++ protocol_places (protocol_body_view [] body.now)) }
{
    match body {
        ProtocolMemberBody::Compose(composed) => {
            places.push(NamePlace::Name {
                kind: Wanted::Protocol,
                path: &composed.path,
            })?;
            Ok(())
        }
        ProtocolMemberBody::Method(method) => {
            push_payload(places, alloc, &method.request)?;
            match &method.response {
                None => Ok(()),
                Some(response) => push_response(places, alloc, response),
            }
        }
        ProtocolMemberBody::Event(event) => push_payload(places, alloc, &event.payload),
    }
}

fn push_protocol<'f>(
    places: &mut Vec<NamePlace<'f>>,
    alloc: Global,
    members: &'f [ProtocolMember],
) -> Result<(), AllocError>
    ensures { OnOk result (name_places_view places.new.items ≡ name_places_view places.old.items
        ++ flat_map protocol_places (map protocol_member_view members.now)) }
{
    for member in members {
        push_protocol_member(places, alloc, &member.body)?;
    }
    Ok(())
}

fn push_properties<'f>(
    places: &mut Vec<NamePlace<'f>>,
    alloc: Global,
    properties: &'f [Property],
) -> Result<(), AllocError>
    ensures { OnOk result (name_places_view places.new.items ≡ name_places_view places.old.items
        ++ places_of (members_spots (members_of (map property_view properties.now)))) }
{
    for property in properties {
        push_type(places, alloc, &property.constructor)?;
    }
    Ok(())
}

/// The places of names and values in a declaration, in order.
pub fn name_places<'f>(
    alloc: Global,
    body: &'f DeclarationBody,
) -> Result<Vec<NamePlace<'f>>, AllocError>
    ensures { let all = body_places (declared_view body.now) in
        IfOk result (λ found. name_places_view found.items ≡ all) }
{
    let mut places = Vec::new(alloc);
    match body {
        DeclarationBody::Const(d) => {
            push_type(&mut places, alloc, &d.constructor)?;
            push_value(&mut places, alloc, &d.value)?;
        }
        DeclarationBody::Alias(d) => push_type(&mut places, alloc, &d.constructor)?,
        DeclarationBody::Type(d) => push_layout(&mut places, alloc, &d.layout.body)?,
        DeclarationBody::Protocol(d) => push_protocol(&mut places, alloc, &d.members)?,
        DeclarationBody::Service(d) => push_members(&mut places, alloc, &d.members)?,
        DeclarationBody::Resource(d) => {
            push_type(&mut places, alloc, &d.constructor)?;
            push_properties(&mut places, alloc, &d.properties.members)?;
        }
    }
    Ok(places)
}
