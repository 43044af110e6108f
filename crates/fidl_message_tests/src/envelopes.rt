//! Tables of tables and unions that are accepted or refused, and messages of them with known,
//! unknown and absent members.
use crate::judging::{Asked, Suite, judge_all};
use std::test::Fail;

/// A table written by hand after the table's rules: 0 `table {1: a uint8; 2: b string;}`, 1
/// `uint8`, 2 `string`, 3 `struct {u U;}`, 4 `U = union {1: n uint32;}`, 5 `uint32`, 6 `struct
/// {u U:optional;}`, 7 `U:optional`, 8 `struct {u S;}`, 9 `S = strict union {1: n uint32;}`.
pub(crate) const ENVELOPES: &str = "
    46435432 0100 0000 0a000000 08000000 00000000 00000000 00000000 00000000 04000000 00000000
    11 00 08 00 10000000 00000000 02000000 0000000000000000 00000000 00000000 00000000 00000000
    06 00 01 00 01000000 00000000 00000000 0000000000000000 00000000 00000000 00000000 00000000
    0c 00 08 00 10000000 00000000 00000000 ffffffff00000000 00000000 00000000 00000000 00000000
    10 00 08 01 10000000 02000000 01000000 0000000000000000 00000000 00000000 00000000 00000000
    12 00 08 00 10000000 03000000 01000000 0000000000000000 00000000 00000000 00000000 00000000
    08 00 04 00 04000000 00000000 00000000 0000000000000000 00000000 00000000 00000000 00000000
    10 00 08 01 10000000 04000000 01000000 0000000000000000 00000000 00000000 00000000 00000000
    12 01 08 00 10000000 05000000 01000000 0000000000000000 00000000 00000000 00000000 00000000
    10 00 08 01 10000000 06000000 01000000 0000000000000000 00000000 00000000 00000000 00000000
    12 02 08 00 10000000 07000000 01000000 0000000000000000 00000000 00000000 00000000 00000000
    01000000 01000000 00000000 01000000
    02000000 02000000 01000000 01000000
    00000000 04000000 02000000 01000000
    01000000 05000000 03000000 01000000
    00000000 07000000 02000000 01000000
    01000000 05000000 03000000 01000000
    00000000 09000000 02000000 01000000
    01000000 05000000 03000000 01000000
    6162756e
";

/// `struct {v vector<U>;}`, where U is a union of 60,000 members, which are `uint32`.
const MANY_MEMBERS: &str = "
    46435432 0100 0000 04000000 61ea0000 00000000*4 01000000 00000000
    10 00 08 01 10000000 00000000 01000000 0000000000000000 00000000 00000000 00000000 00000000
    0d 00 08 00 10000000 02000000 00000000 ffffffff00000000 00000000 00000000 00000000 00000000
    12 00 08 00 10000000 01000000 60ea0000 0000000000000000 00000000 00000000 00000000 00000000
    08 00 04 00 04000000 00000000 00000000 0000000000000000 00000000 00000000 00000000 00000000
    00000000 01000000 00000000 01000000
    0100000003000000:1,0000000001000000*60000
    61
";

const SUITES: [Suite<'_>; 5] = [
    Suite {
        asked: Asked::Verdict,
        table: ENVELOPES,
        count: 14,
        cases: "
            -> accepted 10
            # the ordinals of the table: 1 twice, none, the last, one more
            456=01 -> 10 NotSorted 0
            440=00 -> 10 NotSorted 0
            456=40 -> accepted 10
            456=41 -> 10 NotSorted 0
            # the ordinal of a union: none, any
            488=00 -> 10 NotSorted 4
            491=ff -> accepted 10
            # unions: strict and optional, another flag, strict without members
            401=03 -> accepted 10
            401=04 -> 5 BadKind 9
            412=00 -> 5 BadKind 9
            # tables: optional, of 65 members, of another size and nest
            41=01 -> 5 BadKind 0
            52=41 -> 5 BadKind 0
            44=08 -> 8 BadSize 0
            43=01 -> 9 BadNest 0
        ",
    },
    // A number in its envelope, with an absent envelope behind it, an unknown member; and unions: a
    // member may not stand behind an envelope that it fits into.
    Suite {
        asked: Asked::Message,
        table: ENVELOPES,
        count: 11,
        cases: "
            0 0100000000000000 ffffffffffffffff 0500000000000100 -> decoded
            0 0200000000000000 ffffffffffffffff 0500000000000100 0000000000000000 -> decoded
            0 0300000000000000 ffffffffffffffff 0000000000000000 0000000000000000 0102030400000100 -> decoded
            3 0100000000000000 0700000000000100 -> decoded
            3 0100000000000000 0800000000000000 0700000000000000 -> 13 BadEnvelope 8
            3 0000000000000000 0000000000000000 -> 9 AbsentRequired 0
            6 0000000000000000 0000000000000000 -> decoded
            6 0000000000000000 0500000000000100 -> 13 BadEnvelope 8
            3 0200000000000000 0700000000000100 -> decoded
            8 0100000000000000 0700000000000100 -> decoded
            8 0200000000000000 0700000000000100 -> 15 UnknownOrdinal 0
        ",
    },
    Suite {
        asked: Asked::Message,
        table: ENVELOPES,
        count: 10,
        cases: "
            # The text `hi`: its envelope, at 24, counts 24 bytes.
            0 0200000000000000 ffffffffffffffff 0000000000000000 1800000000000000 0200000000000000 ffffffffffffffff 6869000000000000 -> decoded
            0 0200000000000000 ffffffffffffffff 0000000000000000 1000000000000000 0200000000000000 ffffffffffffffff 6869000000000000 -> 14 WrongCounts 24
            0 0200000000000000 ffffffffffffffff 0000000000000000 2000000000000000 0200000000000000 ffffffffffffffff 6869000000000000 -> 14 WrongCounts 24
            0 0200000000000000 ffffffffffffffff 0000000000000000 1400000000000000 0200000000000000 ffffffffffffffff 6869000000000000 -> 13 BadEnvelope 24
            # No UTF-8, below an envelope that counts 65 handles, 64, and 16,777,224 bytes.
            0 0200000000000000 ffffffffffffffff 0000000000000000 1800000041000000 0200000000000000 ffffffffffffffff ff69000000000000 -> 14 WrongCounts 24
            0 0200000000000000 ffffffffffffffff 0000000000000000 1800000040000000 0200000000000000 ffffffffffffffff ff69000000000000 -> 12 NotUtf8 48
            0 0200000000000000 ffffffffffffffff 0000000000000000 0800000100000000 0200000000000000 ffffffffffffffff ff69000000000000 -> 14 WrongCounts 24
            # An unknown member behind the envelopes, with a handle. Its envelope is at 48.
            0 0500000000000000 ffffffffffffffff 0000000000000000 0000000000000000 0000000000000000 0000000000000000 0800000001000000 1122334455667788 with 9:3:1 -> decoded
            0 0500000000000000 ffffffffffffffff 0000000000000000 0000000000000000 0000000000000000 0000000000000000 0800000001000000 1122334455667788 -> 17 HandleMissing 48
            0 0500000000000000 ffffffffffffffff 0000000000000000 0000000000000000 0000000000000000 0000000000000000 0400000001000000 1122334455667788 with 9:3:1 -> 13 BadEnvelope 48
        ",
    },
    Suite {
        asked: Asked::Verdict,
        table: MANY_MEMBERS,
        count: 1,
        cases: "
            -> accepted 4
        ",
    },
    // A message of 65,536 bytes, in which the last of many members is searched
    // for each time.
    Suite {
        asked: Asked::Message,
        table: MANY_MEMBERS,
        count: 1,
        cases: "
            0 ff0f000000000000 ffffffffffffffff 60ea000000000000,0700000000000100*4095 -> decoded
        ",
    },
];

#[test]
fn tables_and_unions_are_decoded(rt: HostRuntime) -> Result<(), Fail> {
    judge_all(&rt, rt.alloc(), &SUITES)
}
