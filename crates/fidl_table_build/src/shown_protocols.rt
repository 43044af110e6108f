//! Whether the protocols of a table are those of a listing.
ghost use Rattle.std.specs.Prelude.{◌≡◌, ℕ, ◌+◌, ◌<◌, IfSome, IsTrue, Some, map, slice_get};
ghost use Rattle.fidl_table_format.specs.Section.{header_of};
ghost use Rattle.fidl_table_format.specs.Protocol.{methods_before};
ghost use Rattle.fidl_reachable_types.specs.Growing.{reference_view};
ghost use Rattle.fidl_table_build.specs.declared.listing.MethodEntry.{MethodEntry as Entry};
ghost use Rattle.fidl_verify.specs.Lookups.{openness_number, payload_of};
ghost use Rattle.fidl_table_build.specs.Methods.{ShowsPayload, ShowsMethod, ShowsProtocol};
ghost use Rattle.fidl_table_build.specs.Methods.{ShowsProtocols};

use crate::listing::{Carried, MethodEntry, ProtocolEntry};
use crate::protocols::{NO_PAYLOAD, openness_number};
use crate::records::Records;
use crate::shown_roots::is_entry_of;
use fidl_reachable_types::TypeRef;

/// Whether a message of a record carries this.
fn is_carried(types: &[TypeRef<'_>], carried: Carried, has_message: bool, entry: u32) -> bool
    ensures { IsTrue result → ShowsPayload (map reference_view types.now) carried
        (payload_of has_message entry) }
{
    match carried {
        Carried::Missing => !has_message,
        Carried::Empty => has_message && entry == NO_PAYLOAD,
        Carried::Definition(number) => {
            has_message && entry != NO_PAYLOAD && is_entry_of(types, number, entry)
        }
    }
}

/// Whether two names are the same.
fn is_same(one: &[u8], other: &[u8]) -> bool
    ensures { IsTrue result → one.now ≡ other.now }
{
    one == other
}

/// Whether the method of this number is this one.
fn is_method(records: &Records<'_>, types: &[TypeRef<'_>], method: &MethodEntry, index: u32) -> bool
    requires { index < (header_of records.now).methods }
    ensures { IsTrue result → ShowsMethod (map reference_view types.now) records.now method.now
        index }
{
    let record = records.method(index);
    if record.ordinal != method.ordinal {
        return false;
    }
    if record.is_strict() != method.strict {
        return false;
    }
    let name = records.name(record.name_place, record.name_length);
    if !is_same(name, &method.name) {
        return false;
    }
    if !is_carried(types, method.request, record.has_request(), record.request) {
        return false;
    }
    is_carried(
        types,
        method.response,
        record.has_response(),
        record.response,
    )
}

/// The number of a method by its place behind the first.
fn number_at(first: u32, place: usize) -> Option<u32>
    ensures { IfSome result (λ number. number ≡ first + place) }
{
    match u32::try_from(place) {
        Ok(place) => first.checked_add(place),
        Err(_) => None,
    }
}

/// Whether the methods from a number on are these, in this order.
fn are_methods(
    records: &Records<'_>,
    types: &[TypeRef<'_>],
    methods: &[MethodEntry],
    first: u32,
) -> bool
    ensures { IsTrue result → (k : ℕ) (m : Entry) → slice_get methods.now k ≡ Some m
        → ShowsMethod (map reference_view types.now) records.now m (first + k) }
{
    for (place, method) in methods.iter().enumerate() {
        let Some(number) = number_at(first, place) else {
            return false;
        };
        if number >= records.methods() || !is_method(records, types, method, number) {
            return false;
        }
    }
    true
}

/// Whether the protocol of this number is this one; its methods begin with that of the number
/// `first`.
fn is_protocol(
    records: &Records<'_>,
    types: &[TypeRef<'_>],
    protocol: &ProtocolEntry,
    index: u32,
    first: u32,
) -> bool
    requires within { index < (header_of records.now).protocols }
    requires first { first ≡ methods_before records.now
        (header_of records.now) index }
    ensures { IsTrue result → ShowsProtocol (map reference_view types.now) records.now
        protocol.now index }
{
    let record = records.protocol(index);
    let name = records.name(record.name_place, record.name_length);
    if !is_same(name, &protocol.name) {
        return false;
    }
    if record.openness != openness_number(protocol.openness) {
        return false;
    }
    if record.methods as usize != protocol.methods.len() {
        return false;
    }
    are_methods(records, types, &protocol.methods, first)
}

/// Whether the protocols are these, in this order, and no other.
pub(crate) fn are_protocols(
    records: &Records<'_>,
    types: &[TypeRef<'_>],
    protocols: &[ProtocolEntry],
) -> bool
    ensures { IsTrue result → ShowsProtocols (map reference_view types.now) protocols.now
        records.now }
{
    if records.protocols() as usize != protocols.len() {
        return false;
    }
    let mut first = 0;
    for index in 0..records.protocols() {
        if !is_protocol(records, types, &protocols[index as usize], index, first) {
            return false;
        }
        let Some(next) = first.checked_add(records.protocol(index).methods) else {
            return false;
        };
        first = next;
    }
    true
}
