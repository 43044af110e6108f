//! Protocols and methods of tables: their rules, and what is found of them.
use crate::judging::{Asked, Suite, judge_all};
use crate::showing::text;
use fidl_verify::{Method, Openness, Payload, Protocol, Table};
use std::alloc::Global;
use std::test::Fail;

/// An empty struct and `uint8`. The open protocol `a` has the strict two-way `m` of ordinal 5, whose
/// request is the struct and whose response is empty, and the flexible event `m` of ordinal 6 with
/// the struct. The closed protocol `b` has the strict one-way `ab` of ordinal 5, which is empty.
const PROTOCOLS: &str = "
    46435432 0100 0000 02000000 00000000 00000000 00000000 02000000 03000000 03000000 00000000
    10 00 01 01 01000000 00000000 00000000 0000000000000000 00000000 00000000 00000000 00000000
    06 00 01 00 01000000 00000000 00000000 0000000000000000 00000000 00000000 00000000 00000000
    00000000 01000000 02000000 02000000
    01000000 01000000 00000000 01000000
    0500000000000000 02000000 01000000 07000000 00000000 ffffffff 00000000
    0600000000000000 02000000 01000000 04000000 ffffffff 00000000 00000000
    0500000000000000 00000000 02000000 03000000 ffffffff ffffffff 00000000
    61626d
";

/// What a message carries.
fn payload_text(alloc: Global, payload: Payload) -> Option<String> {
    match payload {
        Payload::Missing => format!(in alloc; "missing").ok(),
        Payload::Empty => format!(in alloc; "empty").ok(),
        Payload::Entry(entry) => format!(in alloc; "{entry}").ok(),
    }
}

/// The ordinal, the name in hexadecimal digits, whether it is strict, and the payloads.
fn method_text(alloc: Global, method: Option<Method<'_>>) -> Option<String> {
    let Some(method) = method else {
        return format!(in alloc; "none").ok();
    };
    let name = hex::encode(alloc, method.name()).ok()?;
    let request = payload_text(alloc, method.request())?;
    let response = payload_text(alloc, method.response())?;
    let (ordinal, strict) = (method.ordinal(), method.strict());
    format!(in alloc; "{ordinal} {name} {strict} {request} {response}").ok()
}

fn openness_text(alloc: Global, openness: Openness) -> Option<String> {
    match openness {
        Openness::Closed => format!(in alloc; "closed").ok(),
        Openness::Ajar => format!(in alloc; "ajar").ok(),
        Openness::Open => format!(in alloc; "open").ok(),
    }
}

/// What a call of a protocol answers.
fn protocol_text(alloc: Global, protocol: &Protocol<'_>, given: &str) -> Option<String> {
    let (name, at) = given.split_once(' ').unwrap_or((given, ""));
    match name {
        "openness" => openness_text(alloc, protocol.openness()),
        "len" => text(alloc, Some(protocol.len())),
        "at" => method_text(alloc, protocol.at(at.parse().ok()?)),
        "method" => method_text(alloc, protocol.method(at.parse().ok()?)),
        "named" => method_text(alloc, protocol.method_named(at.as_bytes())),
        _ => None,
    }
}

/// What a call of the protocol whose name stands first answers.
pub(crate) fn protocol_call(alloc: Global, table: &Table<'_>, given: &str) -> Option<String> {
    let (name, rest) = given.split_once(' ')?;
    match table.protocol(name.as_bytes()) {
        None => format!(in alloc; "no protocol").ok(),
        Some(protocol) => protocol_text(alloc, &protocol, rest),
    }
}

const SUITES: [Suite<'_>; 2] = [
    Suite {
        asked: Asked::Verdict,
        table: PROTOCOLS,
        count: 23,
        cases: "
            -> accepted 2
            # protocols: openness, names, their order, methods past the section and left over
            128=03 -> 12 BadMethod 0
            124=00 -> 11 BadName 0
            124=04 -> 11 BadName 0
            136=00 -> 10 NotSorted 1
            132=04 -> 6 BadIndex 0
            148=02 -> 6 BadIndex 1
            148=00 -> 6 BadIndex 2
            # methods: the ordinal, flags, the zero field
            152=00 -> 12 BadMethod 0
            159=80 -> 12 BadMethod 0
            168=0f -> 12 BadMethod 0
            232=01 -> 12 BadMethod 2
            180=01 -> 12 BadMethod 0
            # payloads: of a number, past the entries, of a message that the method does not have
            172=01 -> 12 BadMethod 0
            172=02 -> 12 BadMethod 0
            200=02 -> 12 BadMethod 1
            168=05 -> 12 BadMethod 0
            # names and order
            164=00 -> 11 BadName 0
            160=03 -> 11 BadName 0
            184=05 -> 10 NotSorted 1
            184=04 -> 10 NotSorted 1
            216=04 -> accepted 2
            # an optional union is no payload
            40=12 41=01 42=08 43=00 44=10 -> 12 BadMethod 0
        ",
    },
    Suite {
        asked: Asked::Call,
        table: PROTOCOLS,
        count: 17,
        cases: "
            protocol c len -> no protocol
            protocol ab len -> no protocol
            protocol a len -> 2
            protocol b len -> 1
            protocol a openness -> open
            protocol b openness -> closed
            protocol a at 0 -> 5 6d true 0 empty
            protocol a at 1 -> 6 6d false missing 0
            protocol a at 2 -> none
            protocol b at 0 -> 5 6162 true empty missing
            protocol b at 1 -> none
            protocol a method 6 -> 6 6d false missing 0
            protocol a method 7 -> none
            protocol b method 6 -> none
            protocol a named m -> 5 6d true 0 empty
            protocol b named a -> none
            protocol b named ab -> 5 6162 true empty missing
        ",
    },
];

#[test]
fn protocols_are_verified_and_found(rt: HostRuntime) -> Result<(), Fail> {
    judge_all(&rt, rt.alloc(), &SUITES)
}
