//! What the messages of a member of a protocol carry.
ghost use Rattle.std.specs.Prelude.{◌≡◌, ◌<◌, ◌^◌, ◌++◌, length, option_map};
ghost use Rattle.std.specs.Prelude.{IfErr, IfOk, IfSome, IsNone, OnOk};
ghost use Rattle.fidl_tree.specs.Views.{payload_view, error_view, response_view, is_strict};
ghost use Rattle.fidl_tree.specs.Views.{protocol_member_view};
ghost use Rattle.fidl_tree.specs.declared.protocol.ProtocolMemberBody.TheVariants as Bodies;
ghost use Rattle.fidl_declarations.specs.Sites.{has_result};
ghost use Rattle.fidl_lower_types.specs.Numbers.{all_forms};
ghost use Rattle.fidl_lower_types.specs.TermViews.{AreKnown};
ghost use Rattle.fidl_payloads.specs.declared.payload.Payload.TheVariants.{Missing};
ghost use Rattle.fidl_payloads.specs.Results.{IsResultNumber, ResultStands};
ghost use Rattle.fidl_payloads.specs.Payloads.{PartIs, result_path, MethodAnswers, RequestIs};
ghost use Rattle.fidl_payloads.specs.Payloads.{ResponseIs};
ghost use Rattle.fidl_payloads.specs.Members.{IsMemberOf, HasBody, part_types, answer_types};
ghost use Rattle.fidl_payloads.specs.Members.{TypesHold, MemberHolds, TypesBreak, MemberBreaks};
ghost use Rattle.fidl_payloads.specs.Members.{IsReportIn};

use crate::fault::PayloadFault;
use crate::parts::part;
use crate::payload::{Payload, Payloads};
use fidl_declarations::is_strict;
use fidl_lower_types::{Sources, result_number};
use fidl_span::Span;
use fidl_tree::{ErrorType, Event, Method, ProtocolMember, ProtocolMemberBody};
use fidl_types::Types;
use std::alloc::Global;

/// Whether a two-way method has a result: where `error` is written, and where it is flexible.
fn has_result(strict: bool, error: &Option<ErrorType>) -> bool
    ensures { result ≡ has_result strict (option_map error_view error.now) }
{
    match (error, strict) {
        (None, true) => false,
        _ => true,
    }
}

/// The number of a method's result. Nothing only where there are too many forms.
fn result_of(
    sources: &Sources<'_, '_, '_>,
    file_index: usize,
    protocol: Span,
    method: Span,
) -> Option<u32>
    requires known { AreKnown sources.now }
    requires stands { ResultStands sources.now.named.now file_index
        (result_path protocol method) }
    ensures found { IfSome result (IsResultNumber sources.now.named.now file_index
        (result_path protocol method)) }
    ensures none { IsNone result → 2 ^ 32 < length (all_forms sources.now.named.now) }
{
    result_number(sources, file_index, protocol, method)
}

/// What the response of a method carries. What is written as one may be a payload, also where the
/// method has a result.
fn response_of(
    sources: &Sources<'_, '_, '_>,
    file_index: usize,
    protocol: Span,
    method: &Method,
) -> Result<Payload, PayloadFault>
    requires within { file_index < length sources.now.named.now }
    requires known { AreKnown sources.now }
    requires stands { HasBody sources.now.named.now file_index protocol
        (Bodies.Method method.now) }
    ensures ok { IfOk result (MethodAnswers sources.now.named.now file_index
        (result_path protocol method.now.name) (is_strict method.now.strictness)
        (option_map response_view method.now.response)) }
    ensures holds { OnOk result (TypesHold sources.now.named.now file_index
        (answer_types (option_map response_view method.now.response))) }
    ensures fault_is_true { IfErr result (IsReportIn file_index (TypesBreak sources.now.named.now
        file_index (answer_types (option_map response_view method.now.response)))) }
{
    let Some(response) = &method.response else {
        return Ok(Payload::Missing);
    };
    let written = part(sources, file_index, &response.payload)?;
    if !has_result(is_strict(&method.strictness), &response.error) {
        return Ok(written);
    }
    match result_of(sources, file_index, protocol, method.name) {
        // A number of a definition has 32 bits, so more forms than that are as good as no memory.
        None => Err(PayloadFault::Memory),
        Some(number) => Ok(Payload::Type(number)),
    }
}

/// What the messages of a method carry.
fn method_payloads(
    sources: &Sources<'_, '_, '_>,
    file_index: usize,
    protocol: Span,
    method: &Method,
) -> Result<Payloads, PayloadFault>
    requires within { file_index < length sources.now.named.now }
    requires known { AreKnown sources.now }
    requires stands { HasBody sources.now.named.now file_index protocol
        (Bodies.Method method.now) }
    ensures request { IfOk result (λ p. PartIs sources.now.named.now file_index
        (payload_view method.now.request) p.request) }
    ensures response { IfOk result (λ p. MethodAnswers sources.now.named.now file_index
        (result_path protocol method.now.name) (is_strict method.now.strictness)
        (option_map response_view method.now.response) p.response) }
    ensures holds { OnOk result (TypesHold sources.now.named.now file_index
        (part_types (payload_view method.now.request)
        ++ answer_types (option_map response_view method.now.response))) }
    ensures fault_is_true { IfErr result (IsReportIn file_index (TypesBreak sources.now.named.now
        file_index (part_types (payload_view method.now.request)
        ++ answer_types (option_map response_view method.now.response)))) }
{
    let request = part(sources, file_index, &method.request)?;
    let response = response_of(sources, file_index, protocol, method)?;
    Ok(Payloads { request, response })
}

/// What an event carries.
fn event_payloads(
    sources: &Sources<'_, '_, '_>,
    file_index: usize,
    event: &Event,
) -> Result<Payloads, PayloadFault>
    requires within { file_index < length sources.now.named.now }
    requires known { AreKnown sources.now }
    ensures request { IfOk result (λ p. p.request ≡ Missing) }
    ensures response { IfOk result (λ p. PartIs sources.now.named.now file_index
        (payload_view event.now.payload) p.response) }
    ensures holds { OnOk result (TypesHold sources.now.named.now file_index
        (part_types (payload_view event.now.payload))) }
    ensures fault_is_true { IfErr result (IsReportIn file_index (TypesBreak sources.now.named.now
        file_index (part_types (payload_view event.now.payload)))) }
{
    let response = part(sources, file_index, &event.payload)?;
    Ok(Payloads {
        request: Payload::Missing,
        response,
    })
}

/// What the messages of a member carry.
fn member_payloads(
    sources: &Sources<'_, '_, '_>,
    file_index: usize,
    protocol: Span,
    member: &ProtocolMember,
) -> Result<Payloads, PayloadFault>
    requires within { file_index < length sources.now.named.now }
    requires known { AreKnown sources.now }
    requires stands { IsMemberOf sources.now.named.now file_index protocol
        (protocol_member_view member.now) }
    ensures request { IfOk result (λ p. RequestIs sources.now.named.now file_index
        (protocol_member_view member.now) p.request) }
    ensures response { IfOk result (λ p. ResponseIs sources.now.named.now file_index protocol
        (protocol_member_view member.now) p.response) }
    ensures holds { OnOk result (MemberHolds sources.now.named.now file_index
        (protocol_member_view member.now)) }
    ensures fault_is_true { IfErr result (IsReportIn file_index (MemberBreaks
        sources.now.named.now file_index (protocol_member_view member.now))) }
{
    match &member.body {
        ProtocolMemberBody::Compose(_) => Ok(Payloads {
            request: Payload::Missing,
            response: Payload::Missing,
        }),
        ProtocolMemberBody::Method(method) => {
            method_payloads(sources, file_index, protocol, method)
        }
        ProtocolMemberBody::Event(event) => event_payloads(sources, file_index, event),
    }
}

/// What the request and the response of a member of a protocol carry, aliases followed (public
/// source: the FIDL language specification, "Protocols"): `member` is one of the protocol whose
/// name stands at `protocol` in the file of this number. The response of a two-way method is its
/// result where `error` is written and where the method is flexible. A composition has neither.
///
/// Refused with BadPayload, at the type, where one that is written as a payload is not a struct, a
/// table or a union, or may be absent; and with Memory where memory ran out, or where the files
/// have more than 2^32 forms.
pub fn payloads(
    alloc: Global,
    types: &Types<'_, '_>,
    file_index: usize,
    protocol: Span,
    member: &ProtocolMember,
) -> Result<Payloads, PayloadFault>
    requires within { file_index < length types.now }
    requires stands { IsMemberOf types.now file_index protocol
        (protocol_member_view member.now) }
    ensures request { IfOk result (λ p. RequestIs types.now file_index
        (protocol_member_view member.now) p.request) }
    ensures response { IfOk result (λ p. ResponseIs types.now file_index protocol
        (protocol_member_view member.now) p.response) }
    ensures holds { OnOk result (MemberHolds types.now file_index
        (protocol_member_view member.now)) }
    ensures fault_is_true { IfErr result (IsReportIn file_index (MemberBreaks types.now file_index
        (protocol_member_view member.now))) }
{
    let sources = types.sources(alloc);
    member_payloads(&sources, file_index, protocol, member)
}
