//! Depth through vectors, tables and unions: at most 32 objects out of line behind one another,
//! empty ones and unknown members too.
use crate::judging::{Asked, Suite, judge_all};
use std::test::Fail;

/// The types 0 `T = table {1: a T;}`, 1 `U = union {1: a U; 2: a uint32;}`, 3 `S = struct {a
/// vector<S>;}`; 2 is `uint32`, and 4 the vector.
const NESTED: &str = "
    46435432 0100 0000 05000000 04000000 00000000 00000000 00000000 00000000 01000000 00000000
    11 00 08 00 10000000 00000000 01000000 0000000000000000 00000000 00000000 00000000 00000000
    12 00 08 00 10000000 01000000 02000000 0000000000000000 00000000 00000000 00000000 00000000
    08 00 04 00 04000000 00000000 00000000 0000000000000000 00000000 00000000 00000000 00000000
    10 00 08 01 10000000 03000000 01000000 0000000000000000 00000000 00000000 00000000 00000000
    0d 00 08 00 10000000 03000000 00000000 ffffffff00000000 00000000 00000000 00000000 00000000
    01000000 00000000 00000000 01000000
    01000000 01000000 00000000 01000000
    02000000 02000000 00000000 01000000
    00000000 04000000 00000000 01000000
    61
";

const SUITES: [Suite<'_>; 3] = [
    Suite {
        asked: Asked::Verdict,
        table: NESTED,
        count: 1,
        cases: "
            -> accepted 5
        ",
    },
    // Tables in one another, the innermost without envelopes; one takes 16 bytes, and 24 with the
    // envelope of the next. The envelopes of a table are an object, and so is the table in one of
    // them: 16 are 31 objects, and 17 are 33.
    Suite {
        asked: Asked::Message,
        table: NESTED,
        count: 4,
        cases: "
            0 0100000000000000,ffffffffffffffff,6001000000000000:-24*15 0000000000000000 ffffffffffffffff -> decoded
            0 0100000000000000,ffffffffffffffff,7801000000000000:-24*16 0000000000000000 ffffffffffffffff -> 16 TooDeep 384
            # Vectors, the innermost without elements.
            3 0100000000000000,ffffffffffffffff*31 0000000000000000 ffffffffffffffff -> decoded
            3 0100000000000000,ffffffffffffffff*32 0000000000000000 ffffffffffffffff -> 16 TooDeep 512
        ",
    },
    // The content of an envelope is an object where it stands out of line, known or not, and none
    // in the envelope. Each envelope counts the 16 bytes of each union behind it.
    Suite {
        asked: Asked::Message,
        table: NESTED,
        count: 6,
        cases: "
            1 0100000000000000,0002000000000000:-16*32 0200000000000000 0700000000000100 -> decoded
            1 0100000000000000,1002000000000000:-16*33 0200000000000000 0700000000000100 -> 16 TooDeep 520
            1 0100000000000000,0002000000000000:-16*32 0900000000000000 0700000000000100 -> decoded
            1 0100000000000000,f801000000000000:-16*31 0900000000000000 0800000000000000 0102030405060708 -> decoded
            1 0100000000000000,0802000000000000:-16*32 0900000000000000 0800000000000000 0102030405060708 -> 16 TooDeep 520
            1 0900000000000000 1000000000000000 0102030405060708 -> 3 Truncated 16
        ",
    },
];

#[test]
fn objects_lie_at_most_32_deep(rt: HostRuntime) -> Result<(), Fail> {
    judge_all(&rt, rt.alloc(), &SUITES)
}
