//! The methods of a protocol by their names.
ghost use Rattle.std.specs.Prelude.{◌≡◌, ◌<◌, ℕ, IfOk, IfSome, IfNone, OnSome};
ghost use Rattle.fidl_table_format.specs.Section.{header_of};
ghost use Rattle.fidl_table_format.specs.Method.{method_number, has_request, has_response};
ghost use Rattle.fidl_verify.specs.Lookups.{protocol_record, method_record};
ghost use Rattle.fidl_script.specs.Script.{IsTwoWay, has_both};
ghost use Rattle.fidl_script.specs.Text.{Means};
ghost use Rattle.fidl_script.specs.Named.{FindsAll, HasNoneNamed, IsFirstNamed, name_of_method};

use fidl_verify::{Method, Payload, Protocol};
use std::alloc::{AllocError, Global};
use std::collections::BTreeMap;
use std::marker::Model;

/// A longer name is in no map: methods may share the bytes of long names, and a map has its own.
const LONGEST_NAME: usize = 255;

/// A method that is found by its name.
#[derive(Drop)]
pub(crate) struct Named<'t> {
    /// Its place in the protocol.
    pub(crate) place: u32,
    pub(crate) method: Method<'t>,
}

/// A protocol, and the places of its methods by their names.
#[derive(Drop)]
pub(crate) struct Methods<'p, 't> {
    protocol: &'p Protocol<'t>,
    places: BTreeMap<Vec<u8>, u32>,
}

impl<'p, 't> Model for Methods<'p, 't> {
    ghost use Rattle.fidl_verify.specs.Lookups.{TableProtocol};
    ghost use Rattle.fidl_script.specs.Named.{FindsAll};

    ghost Value = { TableProtocol };

    ghost view = { λ m. m.protocol.now };

    ghost invariant = { λ m. FindsAll m.protocol.now m.places };
}

/// The name of the method at a place.
fn name_at<'t>(protocol: &Protocol<'t>, place: u32) -> &'t [u8]
    requires { place < (protocol_record protocol.now).methods }
    ensures { result.now ≡ name_of_method protocol.now place }
{
    let method = protocol.at(place).unwrap();
    method.name()
}

/// The places of a protocol's methods by their names, without long ones: of several with one name
/// the first.
fn places_by_name(
    alloc: Global,
    protocol: &Protocol<'_>,
) -> Result<BTreeMap<Vec<u8>, u32>, AllocError>
    ensures { IfOk result (FindsAll protocol.now) }
{
    let mut places = BTreeMap::new(alloc);
    for place in 0..protocol.len() {
        let name = name_at(protocol, place);
        if name.len() <= LONGEST_NAME && !places.contains_key(name) {
            places.insert(Vec::from_slice(alloc, name)?, place)?;
        }
    }
    Ok(places)
}

/// The place of the first method of a name.
fn first_named(protocol: &Protocol<'_>, name: &[u8]) -> Option<u32>
    ensures found { IfSome result (IsFirstNamed protocol.now
        (protocol_record protocol.now).methods name.now) }
    ensures none { IfNone result (HasNoneNamed protocol.now
        (protocol_record protocol.now).methods name.now) }
{
    for place in 0..protocol.len() {
        if name_at(protocol, place) == name {
            return Some(place);
        }
    }
    None
}

/// Whether a method has a request.
fn has_request(method: &Method<'_>) -> bool
    ensures { result ≡ has_request (method_record method.now) }
{
    !matches!(method.request(), Payload::Missing)
}

/// Whether a method has a response.
fn has_response(method: &Method<'_>) -> bool
    ensures { result ≡ has_response (method_record method.now) }
{
    !matches!(method.response(), Payload::Missing)
}

/// Whether a method has both: an event has no request.
fn is_two_way(method: &Method<'_>) -> bool
    ensures { result ≡ has_both (method_record method.now) }
{
    has_request(method) && has_response(method)
}

/// The method at this place, where it is two-way.
pub(crate) fn two_way_at<'t>(protocol: &Protocol<'t>, place: u32) -> Option<Method<'t>>
    ensures table { IfSome result (λ m. m.table ≡ protocol.now.table) }
    ensures found { IfSome result (λ m. m.number ≡ method_number protocol.now.table
        (header_of protocol.now.table) protocol.now.number place) }
    ensures two_way { OnSome result (IsTwoWay protocol.now place) }
    ensures none { IfNone result (¬ (IsTwoWay protocol.now place)) }
{
    let method = protocol.at(place)?;
    if is_two_way(&method) {
        Some(method)
    } else {
        None
    }
}

impl<'p, 't> Methods<'p, 't> {
    /// The methods of a protocol.
    pub(crate) fn new(
        alloc: Global,
        protocol: &'p Protocol<'t>,
    ) -> Result<Methods<'p, 't>, AllocError>
        ensures { IfOk result (λ methods. methods ≡ protocol.now) }
    {
        let places = places_by_name(alloc, protocol)?;
        Ok(Methods { protocol, places })
    }

    /// How many methods there are.
    pub(crate) fn len(&self) -> u32
        ensures { result ≡ (protocol_record self.now).methods }
    {
        self.protocol.len()
    }

    /// The method at this place, where it is two-way.
    pub(crate) fn two_way_at(&self, place: u32) -> Option<Method<'t>>
        ensures table { IfSome result (λ m. m.table ≡ self.now.table) }
        ensures found { IfSome result (λ m. m.number ≡ method_number self.now.table
            (header_of self.now.table) self.now.number place) }
        ensures two_way { OnSome result (IsTwoWay self.now place) }
        ensures none { IfNone result (¬ (IsTwoWay self.now place)) }
    {
        two_way_at(self.protocol, place)
    }

    /// The place of the first method of a name.
    fn first_named(&self, name: &[u8]) -> Option<u32>
        ensures found { IfSome result (IsFirstNamed self.now (protocol_record self.now).methods
            name.now) }
        ensures none { IfNone result (HasNoneNamed self.now (protocol_record self.now).methods
            name.now) }
    {
        if name.len() <= LONGEST_NAME {
            let place = self.places.get(name)?;
            return Some(*place);
        }
        first_named(self.protocol, name)
    }

    /// The two-way method that a name means.
    pub(crate) fn named(&self, name: &[u8]) -> Option<Named<'t>>
        ensures table { IfSome result (λ named. named.method.table ≡ self.now.table) }
        ensures found { IfSome result (λ named. named.method.number ≡ method_number self.now.table
            (header_of self.now.table) self.now.number named.place) }
        ensures means { IfSome result (λ named. Means self.now name.now named.place) }
        ensures none { IfNone result ((place : ℕ) → ¬ (Means self.now name.now place)) }
    {
        let place = self.first_named(name)?;
        let method = self.two_way_at(place)?;
        Some(Named { place, method })
    }
}
