//! Tables of vectors and boxes that are accepted or refused, and messages of them.
use crate::judging::{Asked, Suite, judge_all};
use std::test::Fail;

/// A table of eleven types: 0 `struct {a vector<uint32>:3; a vector<uint8>:<2, optional>; a
/// box<Pair>;}`, 1 `Pair = struct {a uint32;}`, 2 to 4 the types of the members of 0, 5
/// `uint32`, 6 `uint8`, 7 `Chain = struct {a box<Chain>;}`, 8 its box, 9 `struct {a
/// vector<Pair>:4;}`, 10 its vector.
const OBJECTS: &str = "
    46435432 0100 0000 0b000000 06000000 00000000 00000000 00000000 00000000 01000000 00000000
    10 00 08 01 28000000 00000000 03000000 0000000000000000 00000000 00000000 00000000 00000000
    10 00 04 01 04000000 03000000 01000000 0000000000000000 00000000 00000000 00000000 00000000
    0d 00 08 00 10000000 05000000 00000000 0300000000000000 00000000 00000000 00000000 00000000
    0d 01 08 00 10000000 06000000 00000000 0200000000000000 00000000 00000000 00000000 00000000
    0f 00 08 00 08000000 01000000 00000000 0000000000000000 00000000 00000000 00000000 00000000
    08 00 04 00 04000000 00000000 00000000 0000000000000000 00000000 00000000 00000000 00000000
    06 00 01 00 01000000 00000000 00000000 0000000000000000 00000000 00000000 00000000 00000000
    10 00 08 01 08000000 04000000 01000000 0000000000000000 00000000 00000000 00000000 00000000
    0f 00 08 00 08000000 07000000 00000000 0000000000000000 00000000 00000000 00000000 00000000
    10 00 08 01 10000000 05000000 01000000 0000000000000000 00000000 00000000 00000000 00000000
    0d 00 08 00 10000000 01000000 00000000 0400000000000000 00000000 00000000 00000000 00000000
    00000000 02000000 00000000 01000000
    10000000 03000000 00000000 01000000
    20000000 04000000 00000000 01000000
    00000000 05000000 00000000 01000000
    00000000 08000000 00000000 01000000
    00000000 0a000000 00000000 01000000
    61
";

const SUITES: [Suite<'_>; 4] = [
    // Entry 2 stands at 120, 3 at 160, 4 at 200, 8 at 360 and 10 at 440.
    Suite {
        asked: Asked::Verdict,
        table: OBJECTS,
        count: 21,
        cases: "
            -> accepted 11
            # accepted: a vector of structs, one of itself, one that is not optional, a box of
            # another struct, a bound of 0
            128=01 -> accepted 11
            448=0a -> accepted 11
            161=00 -> accepted 11
            368=01 -> accepted 11
            136=00 -> accepted 11
            # vectors: strict, a count, a bound of 33 bits, a subtype, a name, elements of no
            # entry
            121=02 -> 5 BadKind 2
            132=01 -> 5 BadKind 2
            140=01 -> 5 BadKind 2
            144=01 -> 5 BadKind 2
            156=01 -> 5 BadKind 2
            128=0b -> 6 BadIndex 2
            # boxes: optional, a bound, a count, of no entry, of a number, of a box
            201=01 -> 5 BadKind 4
            216=01 -> 5 BadKind 4
            212=01 -> 5 BadKind 4
            208=0b -> 6 BadIndex 4
            208=05 -> 6 BadIndex 4
            208=04 -> 6 BadIndex 4
            # size, alignment and nest: the struct that holds it comes first
            364=10 -> 8 BadSize 7
            362=04 -> 8 BadSize 7
            443=01 -> 9 BadNest 9
        ",
    },
    Suite {
        asked: Asked::Message,
        table: OBJECTS,
        count: 7,
        cases: "
            # A vector's elements and a box's members are read where the message has them.
            0 0200000000000000 ffffffffffffffff 0200000000000000 ffffffffffffffff ffffffffffffffff 0100000002000000 0708000000000000 0900000000000000 -> it.f0.len=2 it.f0.e0.u64=1 it.f0.e1.u64=2
            0 0200000000000000 ffffffffffffffff 0200000000000000 ffffffffffffffff ffffffffffffffff 0100000002000000 0708000000000000 0900000000000000 -> it.f0.e2.u64=none it.f0.count=2 it.f0.bytes=none
            0 0200000000000000 ffffffffffffffff 0200000000000000 ffffffffffffffff ffffffffffffffff 0100000002000000 0708000000000000 0900000000000000 -> it.f1.bytes=0708 it.f2.f0.u64=9 it.f1.absent=false it.n2.n0.u64=9
            0 0200000000000000 ffffffffffffffff 0200000000000000 ffffffffffffffff ffffffffffffffff 0100000002000000 0708000000000000 0900000000000000 -> it.f2.absent=false it.f2.len=none
            # Absent ones have nothing, and an empty vector is not absent.
            0 0000000000000000 ffffffffffffffff 0000000000000000 0000000000000000 0000000000000000 -> it.f0.absent=false it.f0.len=0 it.f0.e0.u64=none it.f1.absent=true it.f1.len=none it.f1.bytes=none
            0 0000000000000000 ffffffffffffffff 0000000000000000 0000000000000000 0000000000000000 -> it.f1.count=0 it.f2.absent=true it.f2.f0.u64=none it.n2.absent=true it.n2.n0.there=none
            # A vector of structs.
            9 0300000000000000 ffffffffffffffff 0100000002000000 0300000000000000 -> it.f0.e2.f0.u64=3
        ",
    },
    Suite {
        asked: Asked::Message,
        table: OBJECTS,
        count: 8,
        cases: "
            # Padding, a marker, and an absent vector where one is wanted.
            9 0300000000000000 ffffffffffffffff 0100000002000000 0300000000000100 -> 4 Padding 30
            9 0300000000000000 feffffffffffffff 0100000002000000 0300000000000000 -> 8 BadMarker 8
            9 0000000000000000 0000000000000000 -> 9 AbsentRequired 0
            # A count of 2^61 and more, of 2^64 - 1, of over its bound.
            9 0300000000000020 ffffffffffffffff 0100000002000000 0300000000000000 -> 10 BadCount 0
            9 ffffffffffffffff ffffffffffffffff 0100000002000000 0300000000000000 -> 10 BadCount 0
            9 0500000000000000 ffffffffffffffff 0000000000000000 0000000000000000 0000000000000000 -> 11 OverBound 0
            # The padding is cut off; an element is cut off.
            9 0300000000000000 ffffffffffffffff 0100000002000000 03000000 -> 3 Truncated 16
            9 0300000000000000 ffffffffffffffff 0100000002000000 -> 10 BadCount 0
        ",
    },
    // 32 boxes may lie behind one another; the 33rd is reported at the box that holds it.
    Suite {
        asked: Asked::Message,
        table: OBJECTS,
        count: 4,
        cases: "
            7 ffffffffffffffff*32 0000000000000000 -> decoded
            7 ffffffffffffffff*33 0000000000000000 -> 16 TooDeep 256
            7 ffffffffffffffff -> 3 Truncated 8
            7 ffffffffffffff00 -> 8 BadMarker 0
        ",
    },
];

#[test]
fn vectors_and_boxes_are_read(rt: HostRuntime) -> Result<(), Fail> {
    judge_all(&rt, rt.alloc(), &SUITES)
}
