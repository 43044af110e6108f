//! Tables and messages at each limit, and one past it.
use crate::judging::{Asked, Suite, judge_all};
use crate::showing::text;
use fidl_decode::{DecodeFault, Scratch, decode};
use fidl_verify::Table;
use std::alloc::Global;
use std::test::Fail;

/// `struct {a array<bool, 65535>;}`.
const LONG: &str = "
    46435432 0100 0000 03000000 01000000 00000000 00000000 00000000 00000000 01000000 00000000
    10 00 01 02 ffff0000 00000000 01000000 0000000000000000 00000000 00000000 00000000 00000000
    0e 00 01 01 ffff0000 02000000 ffff0000 0000000000000000 00000000 00000000 00000000 00000000
    01 00 01 00 01000000 00000000 00000000 0000000000000000 00000000 00000000 00000000 00000000
    00000000 01000000 00000000 01000000
    61
";

/// 32 structs in one another, each of one member; the last holds a bool. The first has the nest
/// 32, and each next one less; each is the member of the one before.
const DEEP: &str = "
    46435432 0100 0000 21000000 20000000 00000000 00000000 00000000 00000000 01000000 00000000
    1000012001000000:-16777216,0000000001000000:1,000000000000000000000000000000000000000000000000*32
    01000100 01000000 00*32
    0000000001000000:4294967296,0000000001000000*32 61
";

/// A struct of 65,535 bools without its rows, and without the one byte of names. A row has the
/// offset of its member and the entry 1.
const MEMBERS: &str = "
    46435432 0100 0000 02000000 ffff0000 00000000 00000000 00000000 00000000 01000000 00000000
    10 00 01 01 ffff0000 00000000 ffff0000 0000000000000000 00000000 00000000 00000000 00000000
    01 00 01 00 01000000 00000000 00000000 0000000000000000 00000000 00000000 00000000 00000000
";

/// The header of a table of 65,535 entries, and no more.
const ENTRIES: &str = "
    46435432 0100 0000 ffff0000 00000000 00000000 00000000 00000000 00000000 01000000 00000000
";

/// A strict enum of uint32 of one value, without that value and the one byte of names. The
/// number of its values is at 16 and at 52.
const ENUM: &str = "
    46435432 0100 0000 01000000 00000000 01000000 00000000 00000000 00000000 01000000 00000000
    0b 02 04 00 04000000 00000000 01000000 0000000000000000 08000000 00000000 00000000 00000000
";

/// What is answered to a number of 64 bits: with so many values 1, 3, 5 and so on just these are
/// decoded.
fn is_told(table: &Table<'_>, count: u64, number: u64, scratch: &mut Scratch) -> bool {
    if table.entries() != 1 {
        return false;
    }
    let refused = decode(table, 0, &mut number.to_le_bytes(), &[], scratch).err();
    if number % 2 == 1 && number / 2 < count {
        refused.is_none()
    } else {
        refused == Some(DecodeFault::UnknownValue { at: 0 })
    }
}

/// How many of the numbers from 0 to twice the count of values, and of 2^32 - 1, are decoded just
/// where they are values.
pub(crate) fn values_found(
    alloc: Global,
    table: &Table<'_>,
    given: &str,
    scratch: &mut Scratch,
) -> Option<String> {
    let count = u64::from(given.parse::<u32>().ok()?);
    let mut told = 0u32;
    for number in 0..=2 * count {
        if is_told(table, count, number, scratch) {
            told = told.saturating_add(1);
        }
    }
    if is_told(table, count, u64::from(u32::MAX), scratch) {
        told = told.saturating_add(1);
    }
    text(alloc, Some(told))
}

const SUITES: [Suite<'_>; 9] = [
    Suite {
        asked: Asked::Verdict,
        table: LONG,
        count: 2,
        cases: "
            -> accepted 3
            44=00000100 84=00000100 92=00000100 -> 8 BadSize 0
        ",
    },
    Suite {
        asked: Asked::Verdict,
        table: DEEP,
        count: 2,
        cases: "
            -> accepted 33
            ..0 46435432 0100 0000 22000000 21000000 00*16 01000000 00000000 1000012101000000:-16777216,0000000001000000:1,000000000000000000000000000000000000000000000000*33 01000100 01000000 00*32 0000000001000000:4294967296,0000000001000000*33 61 -> 9 BadNest 0
        ",
    },
    Suite {
        asked: Asked::Verdict,
        table: MEMBERS,
        count: 2,
        cases: "
            0000000001000000:1,0000000001000000*65535 61 -> accepted 2
            12=00000100 44=00000100 52=00000100 0000000001000000:1,0000000001000000*65536 61 -> 5 BadKind 0
        ",
    },
    Suite {
        asked: Asked::Verdict,
        table: ENTRIES,
        count: 2,
        cases: "
            0100010001000000,0000000000000000000000000000000000000000000000000000000000000000*65535 61 -> accepted 65535
            8=00000100 0100010001000000,0000000000000000000000000000000000000000000000000000000000000000*65536 61 -> 6 BadIndex 0
        ",
    },
    Suite {
        asked: Asked::Verdict,
        table: ENUM,
        count: 6,
        cases: "
            0100000000000000 61 -> accepted 1
            16=02 52=02 0100000000000000:2*2 61 -> accepted 1
            16=03 52=03 0100000000000000:2*3 61 -> accepted 1
            16=e803 52=e803 0100000000000000:2*1000 61 -> accepted 1
            16=ffff 52=ffff 0100000000000000:2*65535 61 -> accepted 1
            16=000001 52=000001 0100000000000000:2*65536 61 -> 5 BadKind 0
        ",
    },
    Suite {
        asked: Asked::Message,
        table: LONG,
        count: 3,
        cases: "
            0 01*65535 00 -> decoded
            0 01*65534 0200 -> 5 BadBool 65534
            0 00*65537 -> 19 BytesLeft 65536
        ",
    },
    Suite {
        asked: Asked::Message,
        table: DEEP,
        count: 3,
        cases: "
            0 0100000000000000 -> decoded
            0 0100000000000000 with 1:3:0*64 -> 20 HandlesLeft 8
            0 0100000000000000 with 1:3:0*65 -> 2 TooManyHandles 0
        ",
    },
    // A message that is past a limit is not read.
    Suite {
        asked: Asked::Steps(1),
        table: LONG,
        count: 5,
        cases: "
            0 01*65535 00 -> steps
            0 01*65534 0200 with 1:3:0*65 -> no steps
            0 01*65534 0200 -> steps
            0 01*65535 00 with 1:3:0*65 -> no steps
            0 01*65535 00 with 1:3:0*64 -> steps
        ",
    },
    // The enum has the values 1, 3, 5 and so on, as many as are given. The numbers from 0 to twice
    // as many, and 2^32 - 1, are decoded where they are values, and else refused.
    Suite {
        asked: Asked::Values,
        table: ENUM,
        count: 5,
        cases: "
            1 by 0100000000000000 61 -> 4
            2 by 16=02 52=02 0100000000000000:2*2 61 -> 6
            3 by 16=03 52=03 0100000000000000:2*3 61 -> 8
            1000 by 16=e803 52=e803 0100000000000000:2*1000 61 -> 2002
            65535 by 16=ffff 52=ffff 0100000000000000:2*65535 61 -> 131072
        ",
    },
];

#[test]
fn each_limit_is_kept(rt: HostRuntime) -> Result<(), Fail> {
    judge_all(&rt, rt.alloc(), &SUITES)
}
