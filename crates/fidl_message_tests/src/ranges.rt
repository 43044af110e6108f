//! Tables of version 2, where the values of enums are ranges, beside those of version 1.
use crate::judging::{Asked, Suite, judge_all};
use std::test::Fail;

/// `strict enum : uint32 {A = 1; B = 2; D = 4;}` with the root `e/E`, in version 2.
const RANGES: &str = "
    46435432 0200 0000 01000000 00000000 02000000 01000000 00000000 00000000 06000000 00000000
    0b 02 04 00 04000000 00000000 02000000 0000000000000000 08000000 00000000 00000000 03000000
    0100000000000000 0200000000000000
    0400000000000000 0400000000000000
    03000000 03000000 00000000
    652f45652f45
";

/// The same enum in version 1.
const VALUES: &str = "
    46435432 0100 0000 01000000 00000000 03000000 01000000 00000000 00000000 06000000 00000000
    0b 02 04 00 04000000 00000000 03000000 0000000000000000 08000000 00000000 00000000 03000000
    0100000000000000 0200000000000000 0400000000000000
    03000000 03000000 00000000
    652f45652f45
";

/// A strict enum that has all numbers of uint64, in version 2.
const WIDE: &str = "
    46435432 0200 0000 01000000 00000000 01000000 00000000 00000000 00000000 00000000 00000000
    0b 02 08 00 08000000 00000000 01000000 0000000000000000 09000000 00000000 00000000 00000000
    0000000000000000 ffffffffffffffff
";

const SUITES: [Suite<'_>; 8] = [
    Suite {
        asked: Asked::Verdict,
        table: RANGES,
        count: 19,
        cases: "
            -> accepted 1
            # other numbers that rise, and ranges of one number
            88=01 -> accepted 1
            104=05 -> accepted 1
            80=00 88=00 96=02 -> accepted 1
            # no version, and another
            4=00 -> 2 BadVersion 0
            4=03 -> 2 BadVersion 0
            5=01 -> 2 BadVersion 0
            # as if its records had 8 bytes
            4=01 -> 4 Surplus 0
            # ranges that touch, that share a number, and that fall
            96=03 -> 10 NotSorted 0
            88=03 -> 10 NotSorted 0
            96=02 -> 10 NotSorted 0
            80=05 88=06 -> 10 NotSorted 0
            # the lowest over the highest, in each of the ranges
            80=03 -> 10 NotSorted 0
            96=05 -> 10 NotSorted 0
            # an end outside uint32, and outside int8
            108=01 -> 10 NotSorted 0
            42=01 44=01 64=02 104=80 -> 10 NotSorted 0
            # ranges of a flexible enum, a range of no enum, and too few
            41=00 -> 5 BadKind 0
            52=01 -> 6 BadIndex 1
            52=03 -> 6 BadIndex 0
        ",
    },
    Suite {
        asked: Asked::Verdict,
        table: VALUES,
        count: 3,
        cases: "
            -> accepted 1
            # numbers of version 1 may follow one another; as ranges they would need more bytes
            96=03 -> accepted 1
            4=02 -> 3 Truncated 0
        ",
    },
    Suite {
        asked: Asked::Verdict,
        table: WIDE,
        count: 4,
        cases: "
            -> accepted 1
            80=ffffffffffffffff -> accepted 1
            # as int64 the highest is -1
            64=05 -> 10 NotSorted 0
            64=05 80=00000000000000800000000000000000 -> accepted 1
        ",
    },
    Suite {
        asked: Asked::Cuts,
        table: RANGES,
        count: 1,
        cases: "
            -> 130
        ",
    },
    Suite {
        asked: Asked::Call,
        table: RANGES,
        count: 5,
        cases: "
            values -> 2
            range 0 -> 1 2
            range 1 -> 4 4
            read_range 1 -> 4 4
            root e/E -> 0
        ",
    },
    Suite {
        asked: Asked::Message,
        table: RANGES,
        count: 6,
        cases: "
            0 0100000000000000 -> decoded
            0 0200000000000000 -> decoded
            0 0400000000000000 -> decoded
            0 0000000000000000 -> 6 UnknownValue 0
            0 0300000000000000 -> 6 UnknownValue 0
            0 0500000000000000 -> 6 UnknownValue 0
        ",
    },
    Suite {
        asked: Asked::Message,
        table: VALUES,
        count: 2,
        cases: "
            0 0400000000000000 -> decoded
            0 0300000000000000 -> 6 UnknownValue 0
        ",
    },
    Suite {
        asked: Asked::Message,
        table: WIDE,
        count: 3,
        cases: "
            0 0000000000000000 -> decoded
            0 ffffffffffffffff -> decoded
            0 0000000000000000 by 80=01 -> 6 UnknownValue 0
        ",
    },
];

#[test]
fn tables_of_both_versions_are_judged(rt: HostRuntime) -> Result<(), Fail> {
    judge_all(&rt, rt.alloc(), &SUITES)
}
