//! Tables of strings and handles that are accepted or refused, and the views of their messages.
use crate::judging::{Asked, Suite, judge_all};
use std::test::Fail;

/// A table written by hand after the table's rules: entry 0 is a struct of two handles, of the
/// subtypes 3 and 5; 1 of an optional string and an optional handle; 2 of two strings; 3 of a
/// handle with the right 2; 4 of a handle with the rights that came; 5 of a string of at most
/// two bytes. Entries 6 and 7 are the handles of 0, 8 and 9 the string and the handle of 1, 10
/// the strings of 2, 11 and 12 the handles of 3 and 4, 13 the string of 5.
const OUTSIDE: &str = "
    46435432 0100 0000 0e000000 09000000 00000000 06000000 00000000 00000000 17000000 00000000
    10 00 04 01 08000000 00000000 02000000 0000000000000000 00000000 00000000 00000000 00000000
    10 00 08 01 18000000 02000000 02000000 0000000000000000 00000000 00000000 00000000 00000000
    10 00 08 01 20000000 04000000 02000000 0000000000000000 00000000 00000000 00000000 00000000
    10 00 04 01 04000000 06000000 01000000 0000000000000000 00000000 00000000 00000000 00000000
    10 00 04 01 04000000 07000000 01000000 0000000000000000 00000000 00000000 00000000 00000000
    10 00 08 01 10000000 08000000 01000000 0000000000000000 00000000 00000000 00000000 00000000
    13 00 04 00 04000000 00000000 00000000 0000000000000000 03000000 00000000 00000000 00000000
    13 00 04 00 04000000 00000000 00000000 0000000000000000 05000000 00000000 00000000 00000000
    0c 01 08 00 10000000 00000000 00000000 ffffffff00000000 00000000 00000000 00000000 00000000
    13 01 04 00 04000000 00000000 00000000 0000000000000000 00000000 00000000 00000000 00000000
    0c 00 08 00 10000000 00000000 00000000 ffffffff00000000 00000000 00000000 00000000 00000000
    13 00 04 00 04000000 00000000 00000000 0000000000000000 00000000 02000000 00000000 00000000
    13 00 04 00 04000000 00000000 00000000 0000000000000000 00000000 00000080 00000000 00000000
    0c 00 08 00 10000000 00000000 00000000 0200000000000000 00000000 00000000 00000000 00000000
    00000000 06000000 00000000 01000000
    04000000 07000000 01000000 01000000
    00000000 08000000 02000000 05000000
    10000000 09000000 07000000 01000000
    00000000 0a000000 08000000 01000000
    10000000 0a000000 09000000 01000000
    00000000 0b000000 0a000000 01000000
    00000000 0c000000 0b000000 01000000
    00000000 0d000000 0c000000 05000000
    11000000 01000000 00000000
    12000000 01000000 01000000
    13000000 01000000 02000000
    14000000 01000000 03000000
    15000000 01000000 04000000
    16000000 01000000 05000000
    686976616c7565686162686876616c7565484f50525354
";

const SUITES: [Suite<'_>; 2] = [
    // Entry 6 stands at 280, 8 at 360, 9 at 400, 10 at 440, 12 at 520 and 13 at 560.
    Suite {
        asked: Asked::Verdict,
        table: OUTSIDE,
        count: 31,
        cases: "
            -> accepted 14
            # a string and a handle that are optional, or not
            441=01 -> accepted 14
            361=00 -> accepted 14
            281=01 -> accepted 14
            401=00 -> accepted 14
            # bounds of 0 and of 32 bits
            576=00 -> accepted 14
            579=ff -> accepted 14
            # any subtype and rights
            304=00 -> accepted 14
            307=ff -> accepted 14
            551=00 -> accepted 14
            # a vector of the struct of entry 0, where the string was
            560=0d -> accepted 14
            # strings: strict, an element, a count, a subtype, rights, a name, a bound of 33 bits
            561=02 -> 5 BadKind 13
            561=03 -> 5 BadKind 13
            568=01 -> 5 BadKind 13
            572=01 -> 5 BadKind 13
            584=01 -> 5 BadKind 13
            588=01 -> 5 BadKind 13
            596=01 -> 5 BadKind 13
            580=01 -> 5 BadKind 13
            # handles: strict, an element, a count, a bound, a name
            281=02 -> 5 BadKind 6
            288=01 -> 5 BadKind 6
            292=01 -> 5 BadKind 6
            296=01 -> 5 BadKind 6
            316=01 -> 5 BadKind 6
            # a box, a table and a union have no bound
            560=0f -> 5 BadKind 13
            560=11 -> 5 BadKind 13
            560=12 -> 5 BadKind 13
            # sizes, alignments and nests: the struct that holds the string or the handle comes
            # first
            564=08 -> 8 BadSize 5
            562=04 -> 8 BadSize 5
            563=01 -> 9 BadNest 5
            282=08 -> 8 BadSize 0
        ",
    },
    Suite {
        asked: Asked::Message,
        table: OUTSIDE,
        count: 7,
        cases: "
            # A text is read where it stands in the message; an absent string has none.
            2 0000000000000000 ffffffffffffffff 0100000000000000 ffffffffffffffff 4100000000000000 -> it.str=none it.f0.str= it.f0.len=0 it.f1.str=A it.f1.len=1 it.f1.absent=false it.f1.u64=none
            2 0000000000000000 ffffffffffffffff 0100000000000000 ffffffffffffffff 4100000000000000 -> it.f1.handle=none it.f1.granted=none it.f1.e0.there=none
            1 0000000000000000 0000000000000000 0000000000000000 -> it.f0.absent=true it.f0.str=none it.f0.len=none
            # A handle has the record that came with it; it is granted the rights that its type
            # requires, or those that came.
            0 ffffffffffffffff with 7:3:6 8:5:1 -> it.f0.handle=7:3:6 it.f0.granted=0 it.f1.handle=8:5:1 it.f1.granted=0
            3 ffffffff00000000 with 7:3:6 -> it.f0.handle=7:3:6 it.f0.granted=2
            4 ffffffff00000000 with 7:3:6 -> it.f0.handle=7:3:6 it.f0.granted=6
            1 0000000000000000 0000000000000000 0000000000000000 -> it.f1.absent=true it.f1.handle=none
        ",
    },
];

#[test]
fn strings_and_handles_are_read(rt: HostRuntime) -> Result<(), Fail> {
    judge_all(&rt, rt.alloc(), &SUITES)
}
