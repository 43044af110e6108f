//! Views of bits and enums: their numbers, by the sign of their underlying type.
use crate::choices::CHOICE;
use crate::judging::{Asked, Suite, judge_all};
use crate::numbers::NUMBERS;
use std::test::Fail;

const SUITES: [Suite<'_>; 3] = [
    Suite {
        asked: Asked::Message,
        table: CHOICE,
        count: 7,
        cases: "
            0 0300000000000000 by 61 -> it.f0.u64=3 it.f0.i64=none
            0 0300000000000000 by 80=0a00040004000000 61 -> it.f0.u64=3 it.f0.i64=none
            0 0300000000000000 by 16=02 80=0b02040004000000 92=02 0100000000000000 0300000000000000 61 -> it.f0.u64=3 it.f0.i64=none
            0 0500000000000000 by 80=0a02040004000000 96=05 61 -> it.f0.u64=5 it.f0.i64=none
            0 ffffffffffffffff by 42=08 44=08 80=0a00080008000000 104=09 61 -> it.f0.u64=18446744073709551615 it.f0.i64=none
            0 ffffffffffffffff by 42=08 44=08 80=0b00080008000000 104=09 61 -> it.f0.u64=18446744073709551615 it.f0.i64=none
            0 0000008000000000 by 80=0a02040004000000 96=00000080 61 -> it.f0.u64=2147483648 it.f0.i64=none
        ",
    },
    Suite {
        asked: Asked::Message,
        table: CHOICE,
        count: 9,
        cases: "
            0 fe00000000000000 by 16=01 42=01 44=01 80=0b02010001000000 92=01 104=02 feffffffffffffff 61 -> it.f0.u64=none it.f0.i64=-2
            0 fe00000000000000 by 42=01 44=01 80=0b00010001000000 104=02 61 -> it.f0.u64=none it.f0.i64=-2
            0 feff000000000000 by 16=01 42=02 44=02 80=0b02020002000000 92=01 104=03 feffffffffffffff 61 -> it.f0.u64=none it.f0.i64=-2
            0 feff000000000000 by 42=02 44=02 80=0b00020002000000 104=03 61 -> it.f0.u64=none it.f0.i64=-2
            0 feffffff00000000 by 16=01 80=0b02040004000000 92=01 104=04 feffffffffffffff 61 -> it.f0.u64=none it.f0.i64=-2
            0 feffffff00000000 by 104=04 61 -> it.f0.u64=none it.f0.i64=-2
            0 feffffffffffffff by 16=01 42=08 44=08 80=0b02080008000000 92=01 104=05 feffffffffffffff 61 -> it.f0.u64=none it.f0.i64=-2
            0 feffffffffffffff by 42=08 44=08 80=0b00080008000000 104=05 61 -> it.f0.u64=none it.f0.i64=-2
            0 7f00000000000000 by 16=01 42=01 44=01 80=0b02010001000000 92=01 104=02 7f00000000000000 61 -> it.f0.u64=none it.f0.i64=127
        ",
    },
    Suite {
        asked: Asked::Message,
        table: NUMBERS,
        count: 3,
        cases: "
            0 0500000000000000 -> it.u64=5 it.i64=none it.absent=false it.bool=none it.bytes=none it.len=none it.e0.there=none it.count=0 it.f0.there=none
            1 0500000000000000 -> it.u64=none it.i64=5 it.absent=false it.bool=none it.bytes=none it.len=none it.e0.there=none it.count=0 it.f0.there=none
            2 0500000000000000 -> it.u64=5 it.i64=none it.absent=false it.bool=none it.bytes=none it.len=none it.e0.there=none it.count=0 it.f0.there=none
        ",
    },
];

#[test]
fn numbers_of_choices_are_read(rt: HostRuntime) -> Result<(), Fail> {
    judge_all(&rt, rt.alloc(), &SUITES)
}
