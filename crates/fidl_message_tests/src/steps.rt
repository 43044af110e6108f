//! How many steps messages take at least, decoded or refused, where no clause says it.
use crate::judging::{Asked, Suite, judge_all};
use std::test::Fail;

/// `struct {s string;}`.
pub(crate) const TEXT: &str = "
    46435432 0100 0000 02000000 01000000 00000000 00000000 00000000 00000000 01000000 00000000
    10 00 08 01 10000000 00000000 01000000 0000000000000000 00000000 00000000 00000000 00000000
    0c 00 08 00 10000000 00000000 00000000 ffffffff00000000 00000000 00000000 00000000 00000000
    00000000 01000000 00000000 01000000
    61
";

/// A struct of a vector of structs, each of which holds 31 in one another; the last holds a bool.
const NESTED: &str = "
    46435432 0100 0000 23000000 21000000 00000000 00000000 00000000 00000000 01000000 00000000
    10 00 08 01 10000000 00000000 01000000 0000000000000000 00000000 00000000 00000000 00000000
    0d 00 08 00 10000000 02000000 00000000 ffffffff00000000 00000000 00000000 00000000 00000000
    1000012001000000:-16777216,0100000001000000:1,000000000000000000000000000000000000000000000000*32
    01000100 01000000 00*32
    00000000 01000000 00000000 01000000
    0000000003000000:4294967296,0000000001000000*32 61
";

/// A struct of a vector of unions, which have 60,000 members: each a uint32.
const UNIONS: &str = "
    46435432 0100 0000 04000000 61ea0000 00000000 00000000 00000000 00000000 01000000 00000000
    10 00 08 01 10000000 00000000 01000000 0000000000000000 00000000 00000000 00000000 00000000
    0d 00 08 00 10000000 02000000 00000000 ffffffff00000000 00000000 00000000 00000000 00000000
    12 00 08 00 10000000 01000000 60ea0000 0000000000000000 00000000 00000000 00000000 00000000
    08 00 04 00 04000000 00000000 00000000 0000000000000000 00000000 00000000 00000000 00000000
    00000000 01000000 00000000 01000000
    0100000003000000:1,0000000001000000*60000 61
";

const SUITES: [Suite<'_>; 6] = [
    // Two bytes of text, and six of padding.
    Suite {
        asked: Asked::Steps(8),
        table: TEXT,
        count: 1,
        cases: "
            0 0200000000000000 ffffffffffffffff 6869000000000000 -> steps
        ",
    },
    // It takes few more than those.
    Suite {
        asked: Asked::Steps(16),
        table: TEXT,
        count: 1,
        cases: "
            0 0200000000000000 ffffffffffffffff 6869000000000000 -> too few steps
        ",
    },
    // The last of 65,520 bools is 2.
    Suite {
        asked: Asked::Message,
        table: NESTED,
        count: 1,
        cases: "
            0 f0ff000000000000 ffffffffffffffff 01*65519 02 -> 5 BadBool 65535
        ",
    },
    Suite {
        asked: Asked::Steps(65_519),
        table: NESTED,
        count: 1,
        cases: "
            0 f0ff000000000000 ffffffffffffffff 01*65519 02 -> steps
        ",
    },
    // Each of 4,095 unions holds the last member, which a search finds by some 16 probes.
    Suite {
        asked: Asked::Message,
        table: UNIONS,
        count: 2,
        cases: "
            0 ff0f000000000000 ffffffffffffffff 60ea000000000000,0100000000000100*4095 -> decoded
            # The last envelope is wrong, and the links of 4,094 others are taken out.
            0 ff0f000000000000 ffffffffffffffff 60ea000000000000,0100000000000100*4094 60ea000000000000 0100000000000200 -> 13 BadEnvelope 65528
        ",
    },
    Suite {
        asked: Asked::Steps(57_330),
        table: UNIONS,
        count: 1,
        cases: "
            0 ff0f000000000000 ffffffffffffffff 60ea000000000000,0100000000000100*4095 -> steps
        ",
    },
];

#[test]
fn enough_steps_are_counted(rt: HostRuntime) -> Result<(), Fail> {
    judge_all(&rt, rt.alloc(), &SUITES)
}
