//! Tables of bits and enums that are accepted or refused, and the rule that each refused one
//! breaks.
use crate::judging::{Asked, Suite, judge_all};
use std::test::Fail;

/// Five types: strict bits `B` of uint8 with the mask 15, a strict enum `E` of int8 with -1, 0
/// and 5, a flexible enum `F` of uint16, a strict enum of uint64 with 1 and the greatest
/// number, and flexible bits of uint64.
pub(crate) const NUMBERS: &str = "
    46435432 0100 0000 05000000 00000000 05000000 03000000 00000000 00000000 03000000 00000000
    0a 02 01 00 01000000 00000000 00000000 0f00000000000000 06000000 00000000 00000000 01000000
    0b 02 01 00 01000000 00000000 03000000 0000000000000000 02000000 00000000 01000000 01000000
    0b 00 02 00 02000000 03000000 00000000 0000000000000000 07000000 00000000 02000000 01000000
    0b 02 08 00 08000000 03000000 02000000 0000000000000000 09000000 00000000 00000000 00000000
    0a 00 08 00 08000000 00000000 00000000 0000000000000000 09000000 00000000 00000000 00000000
    ffffffffffffffff
    0000000000000000
    0500000000000000
    0100000000000000
    ffffffffffffffff
    00000000 01000000 00000000
    01000000 01000000 01000000
    02000000 01000000 02000000
    424546
";

const SUITES: [Suite<'_>; 4] = [
    Suite {
        asked: Asked::Verdict,
        table: NUMBERS,
        count: 9,
        cases: "
            -> accepted 5
            # no bit in the mask of B, and all eight
            56=00 -> accepted 5
            56=ff -> accepted 5
            # B is of uint8 still, and the flexible bits are strict with an empty mask
            64=06 -> accepted 5
            201=02 -> accepted 5
            # E has 1 and 4 between -1 and 5
            248=01 -> accepted 5
            248=04 -> accepted 5
            # the first value of the enum of uint64 is over the greatest of int64
            271=80 -> accepted 5
            # an entry without a name
            76=00 -> accepted 5
        ",
    },
    Suite {
        asked: Asked::Verdict,
        table: NUMBERS,
        count: 43,
        cases: "
            # bits: optional, optional and strict, another flag, a mask although flexible
            41=01 -> 5 BadKind 0
            41=03 -> 5 BadKind 0
            41=04 -> 5 BadKind 0
            41=00 -> 5 BadKind 0
            # bits: a mask over uint8, a signed type, bits, no kind, a number over 255
            57=01 -> 5 BadKind 0
            64=02 -> 5 BadKind 0
            64=0a -> 5 BadKind 0
            64=00 -> 5 BadKind 0
            65=01 -> 5 BadKind 0
            # bits: fields that they do not use
            48=01 -> 5 BadKind 0
            52=01 -> 5 BadKind 0
            68=01 -> 5 BadKind 0
            # enums: bool, an enum; none or too many values; values although flexible
            104=01 -> 5 BadKind 1
            104=0b -> 5 BadKind 1
            92=00 -> 5 BadKind 1
            94=01 -> 5 BadKind 1
            81=00 -> 5 BadKind 1
            132=01 -> 5 BadKind 2
            # enums: a mask; strict without values; optional
            96=01 -> 5 BadKind 1
            121=02 -> 5 BadKind 2
            121=01 -> 5 BadKind 2
            # where values begin, of flexible enums too, and values past the section
            88=01 -> 6 BadIndex 1
            128=02 -> 6 BadIndex 2
            128=00 -> 6 BadIndex 2
            168=02 -> 6 BadIndex 3
            172=03 -> 6 BadIndex 3
            # a value that no enum has
            172=01 -> 6 BadIndex 4
            # sizes and alignments, also where the underlying type asks for others
            44=02 -> 8 BadSize 0
            42=02 -> 8 BadSize 0
            124=01 -> 8 BadSize 2
            144=06 -> 8 BadSize 2
            # nest
            43=01 -> 9 BadNest 0
            123=01 -> 9 BadNest 2
            # values: equal to the next, over the next, over 127, below -128, over 255, falling as
            # signed numbers
            248=05 -> 10 NotSorted 1
            248=06 -> 10 NotSorted 1
            256=85 -> 10 NotSorted 1
            240=7f -> 10 NotSorted 1
            104=06 -> 10 NotSorted 1
            184=05 -> 10 NotSorted 3
            # names
            76=04 -> 11 BadName 0
            316=2d -> 11 BadName 0
            # the number of values
            16=04 -> 4 Surplus 0
            16=06 -> 3 Truncated 0
        ",
    },
    // The order of values is asked behind the nest, and before the names.
    Suite {
        asked: Asked::Verdict,
        table: NUMBERS,
        count: 6,
        cases: "
            116=04 -> 11 BadName 1
            116=04 248=06 -> 10 NotSorted 1
            116=04 248=06 83=01 -> 9 BadNest 1
            116=04 248=06 83=01 84=02 -> 8 BadSize 1
            116=04 248=06 83=01 84=02 88=01 -> 6 BadIndex 1
            116=04 248=06 83=01 84=02 88=01 104=01 -> 5 BadKind 1
        ",
    },
    // Each byte takes each value: each table is judged, none with another header is accepted, and
    // some other one is.
    Suite {
        asked: Asked::EachByte,
        table: NUMBERS,
        count: 1,
        cases: "
            -> true
        ",
    },
];

#[test]
fn bits_and_enums_are_judged(rt: HostRuntime) -> Result<(), Fail> {
    judge_all(&rt, rt.alloc(), &SUITES)
}
