//! The rules of tables: what is refused, with which of the faults, and at which record.
use crate::judging::{Asked, Suite, judge_all};
use crate::structs::POINT;
use std::test::Fail;

/// `array<uint8, 3>`: entry 0 is the array, entry 1 is `uint8`.
const ARRAY: &str = "
    46435432 0100 0000 02000000 00000000 00000000 00000000 00000000 00000000 00000000 00000000
    0e 00 01 01 03000000 01000000 03000000 0000000000000000 00000000 00000000 00000000 00000000
    06 00 01 00 01000000 00000000 00000000 0000000000000000 00000000 00000000 00000000 00000000
";

/// The roots `a`, which is `uint8`, and `b`, which is `int8`.
pub(crate) const TWO_ROOTS: &str = "
    46435432 0100 0000 02000000 00000000 00000000 02000000 00000000 00000000 02000000 00000000
    06 00 01 00 01000000 00000000 00000000 0000000000000000 00000000 00000000 00000000 00000000
    02 00 01 00 01000000 00000000 00000000 0000000000000000 00000000 00000000 00000000 00000000
    00000000 01000000 00000000
    01000000 01000000 01000000
    6162
";

const SUITES: [Suite<'_>; 10] = [
    Suite {
        asked: Asked::Verdict,
        table: POINT,
        count: 36,
        cases: "
            -> accepted 2
            # the header: mark, version, the two reserved fields, one byte of names more and one
            # less
            0=47 -> 1 BadMagic 0
            4=00 -> 2 BadVersion 0
            4=02 -> accepted 2
            4=03 -> 2 BadVersion 0
            6=01 -> 2 BadVersion 0
            36=01 -> 2 BadVersion 0
            32=0d -> 3 Truncated 0
            32=0b -> 4 Surplus 0
            # kinds: none, table (whose size is another), past the last; flags, a field and a name
            # that the kind does not use
            40=00 -> 5 BadKind 0
            40=11 -> 8 BadSize 0
            40=14 -> 5 BadKind 0
            41=01 -> 5 BadKind 0
            81=01 -> 5 BadKind 1
            88=01 -> 5 BadKind 1
            116=01 -> 5 BadKind 1
            54=01 -> 5 BadKind 0
            # the entry of a row, the first row, a row past the section
            124=02 -> 6 BadIndex 0
            48=01 -> 6 BadIndex 0
            52=03 -> 6 BadIndex 0
            # the offset of y, also where the size of x asks for another
            136=05 -> 7 BadOffset 0
            84=08 -> 7 BadOffset 0
            # size, alignment and nest
            44=0c -> 8 BadSize 0
            42=08 -> 8 BadSize 0
            52=01 -> 8 BadSize 0
            84=03 -> 8 BadSize 1
            82=02 -> 8 BadSize 0
            43=02 -> 9 BadNest 0
            83=01 -> 9 BadNest 0
            # names: of the entry, past the names, of y
            164=2d -> 11 BadName 0
            72=0c -> 11 BadName 0
            170=5f -> 11 BadName 0
            170=31 -> 11 BadName 0
            # the root: its entry, a byte of its name, no name
            160=02 -> 6 BadIndex 0
            171=20 -> 11 BadName 0
            156=00 -> 11 BadName 0
        ",
    },
    Suite {
        asked: Asked::Verdict,
        table: POINT,
        count: 4,
        cases: "
            00 -> 4 Surplus 0
            ..175 -> 3 Truncated 0
            ..39 -> 3 Truncated 0
            ..0 -> 3 Truncated 0
        ",
    },
    Suite {
        asked: Asked::Verdict,
        table: ARRAY,
        count: 3,
        cases: "
            -> accepted 2
            44=00 52=00 -> 8 BadSize 0
            48=02 -> 6 BadIndex 0
        ",
    },
    Suite {
        asked: Asked::Verdict,
        table: TWO_ROOTS,
        count: 3,
        cases: "
            -> accepted 2
            144=6261 -> 10 NotSorted 1
            145=61 -> 10 NotSorted 1
        ",
    },
    // Of several broken rules the first in the order of the checks is reported, though its record
    // comes later.
    Suite {
        asked: Asked::Verdict,
        table: POINT,
        count: 8,
        cases: "
            170=5f -> 11 BadName 0
            170=5f 43=02 -> 9 BadNest 0
            170=5f 43=02 44=0c -> 8 BadSize 0
            170=5f 43=02 44=0c 120=01 -> 7 BadOffset 0
            170=5f 43=02 44=0c 120=01 140=02 -> 6 BadIndex 0
            170=5f 43=02 44=0c 120=01 140=02 41=01 -> 5 BadKind 0
            170=5f 43=02 44=0c 120=01 140=02 41=01 36=01 -> 2 BadVersion 0
            170=5f 43=02 44=0c 120=01 140=02 41=01 36=01 0=00 -> 1 BadMagic 0
        ",
    },
    Suite {
        asked: Asked::Verdict,
        table: "",
        count: 5,
        cases: "
            # No records at all.
            4643543201000000 0000000000000000 0000000000000000 0000000000000000 0000000000000000 -> accepted 0
            # A struct whose one member is the struct itself.
            4643543201000000 0100000001000000 0000000000000000 0000000000000000 0100000000000000 1000080108000000 0000000001000000 0000000000000000 0000000000000000 0000000000000000 0000000000000000 0000000001000000 61 -> 9 BadNest 0
            # A value of no entry, a protocol without a name, a method of no protocol.
            4643543201000000 0000000000000000 0100000000000000 0000000000000000 0000000000000000 0000000000000000 -> 6 BadIndex 0
            4643543201000000 0000000000000000 0000000000000000 0100000000000000 0000000000000000 0000000000000000 0000000000000000 -> 11 BadName 0
            4643543201000000 0000000000000000 0000000000000000 0000000001000000 0000000000000000 0000000000000000 0000000000000000 0000000000000000 0000000000000000 -> 6 BadIndex 0
        ",
    },
    Suite {
        asked: Asked::Verdict,
        table: POINT,
        count: 1,
        cases: "
            44=04 52=01 -> 6 BadIndex 1
        ",
    },
    // A table is no front of another: cut at each length it is truncated.
    Suite {
        asked: Asked::Cuts,
        table: POINT,
        count: 1,
        cases: "
            -> 176
        ",
    },
    Suite {
        asked: Asked::Cuts,
        table: ARRAY,
        count: 1,
        cases: "
            -> 120
        ",
    },
    Suite {
        asked: Asked::Cuts,
        table: TWO_ROOTS,
        count: 1,
        cases: "
            -> 146
        ",
    },
];

#[test]
fn each_rule_is_told(rt: HostRuntime) -> Result<(), Fail> {
    judge_all(&rt, rt.alloc(), &SUITES)
}
