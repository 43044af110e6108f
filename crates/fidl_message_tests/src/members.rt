//! Views of tables and unions: their members, known, unknown and absent.
use crate::envelopes::ENVELOPES;
use crate::judging::{Asked, Suite, judge_all};
use std::test::Fail;

const SUITES: [Suite<'_>; 2] = [
    Suite {
        asked: Asked::Message,
        table: ENVELOPES,
        count: 17,
        cases: "
            # A number in its envelope, and the same with an absent envelope behind it: none,
            # absent, past the count, past the ordinals of tables.
            0 0100000000000000 ffffffffffffffff 0500000000000100 -> it.len=1 it.m1.u64=5 it.?1=none it.absent=false it.variant=none it.f0.there=none it.e0.there=none it.bytes=none it.m0.there=none
            0 0100000000000000 ffffffffffffffff 0500000000000100 -> it.?0=none it.m2.there=none it.?2=none it.m3.there=none it.?3=none it.m64.there=none it.?64=none it.m65.there=none it.?65=none
            0 0100000000000000 ffffffffffffffff 0500000000000100 -> it.m18446744073709551615.there=none it.?18446744073709551615=none
            0 0200000000000000 ffffffffffffffff 0500000000000100 0000000000000000 -> it.len=2 it.m1.u64=5 it.?1=none it.absent=false it.variant=none it.f0.there=none it.e0.there=none it.bytes=none
            0 0200000000000000 ffffffffffffffff 0500000000000100 0000000000000000 -> it.m0.there=none it.?0=none it.m2.there=none it.?2=none it.m3.there=none it.?3=none it.m64.there=none it.?64=none
            0 0200000000000000 ffffffffffffffff 0500000000000100 0000000000000000 -> it.m65.there=none it.?65=none it.m18446744073709551615.there=none it.?18446744073709551615=none
            # A text behind the envelopes.
            0 0200000000000000 ffffffffffffffff 0000000000000000 1800000000000000 0200000000000000 ffffffffffffffff 6869000000000000 -> it.len=2 it.m2.str=hi it.m2.bytes=6869 it.m2.u64=none it.?2=none
            0 0200000000000000 ffffffffffffffff 0000000000000000 1800000000000000 0200000000000000 ffffffffffffffff 6869000000000000 -> it.m1.there=none it.?1=none it.m3.there=none it.?3=none
            # Unknown members are given as they came, in their envelopes and behind them.
            0 0300000000000000 ffffffffffffffff 0000000000000000 0000000000000000 0102030400000100 -> it.len=3 it.?3=in/01020304 it.m3.there=none it.m1.there=none it.?1=none it.m2.there=none it.?2=none
            0 0500000000000000 ffffffffffffffff 0000000000000000 0000000000000000 0000000000000000 0000000000000000 0800000001000000 1122334455667788 with 9:3:1 -> it.len=5
            0 0500000000000000 ffffffffffffffff 0000000000000000 0000000000000000 0000000000000000 0000000000000000 0800000001000000 1122334455667788 with 9:3:1 -> it.?5=out/1122334455667788/9:3:1
            0 0500000000000000 ffffffffffffffff 0000000000000000 0000000000000000 0000000000000000 0000000000000000 0800000001000000 1122334455667788 with 9:3:1 -> it.m5.there=none it.m4.there=none
            0 0500000000000000 ffffffffffffffff 0000000000000000 0000000000000000 0000000000000000 0000000000000000 0800000001000000 1122334455667788 with 9:3:1 -> it.?4=none it.m6.there=none it.?6=none
            # Each unknown member has the handles that came with it.
            0 0400000000000000 ffffffffffffffff 0500000000000100 0000000000000000 0607080901000100 0800000002000000 15161718191a1b1c with 9:3:1 7:4:2 8:5:6 -> it.len=4 it.m1.u64=5 it.?3=in/06070809/9:3:1
            0 0400000000000000 ffffffffffffffff 0500000000000100 0000000000000000 0607080901000100 0800000002000000 15161718191a1b1c with 9:3:1 7:4:2 8:5:6 -> it.?4=out/15161718191a1b1c/7:4:2/8:5:6
            0 0400000000000000 ffffffffffffffff 0500000000000100 0000000000000000 0607080901000100 0800000002000000 15161718191a1b1c with 9:3:1 7:4:2 8:5:6 -> it.m2.there=none it.?2=none it.m5.there=none
            0 0400000000000000 ffffffffffffffff 0500000000000100 0000000000000000 0607080901000100 0800000002000000 15161718191a1b1c with 9:3:1 7:4:2 8:5:6 -> it.?5=none
        ",
    },
    Suite {
        asked: Asked::Message,
        table: ENVELOPES,
        count: 12,
        cases: "
            # A union of the member 7: in the type that must be there, in the optional one, in the
            # strict one; and an absent one.
            3 0100000000000000 0700000000000100 -> it.f0.variant=1 it.f0.v.u64=7 it.f0.absent=false it.variant=none it.f0.m1.there=none it.f0.?1=none it.f0.len=none it.f0.f0.there=none it.f0.m2.there=none
            3 0100000000000000 0700000000000100 -> it.f0.?2=none it.f0.len=none it.f0.f0.there=none
            6 0100000000000000 0700000000000100 -> it.f0.variant=1 it.f0.v.u64=7 it.f0.absent=false it.variant=none it.f0.m1.there=none it.f0.?1=none it.f0.len=none it.f0.f0.there=none it.f0.m2.there=none
            6 0100000000000000 0700000000000100 -> it.f0.?2=none it.f0.len=none it.f0.f0.there=none
            8 0100000000000000 0700000000000100 -> it.f0.variant=1 it.f0.v.u64=7 it.f0.absent=false it.variant=none it.f0.m1.there=none it.f0.?1=none it.f0.len=none it.f0.f0.there=none it.f0.m2.there=none
            8 0100000000000000 0700000000000100 -> it.f0.?2=none it.f0.len=none it.f0.f0.there=none
            6 0000000000000000 0000000000000000 -> it.f0.absent=true it.f0.variant=none it.f0.v.u64=none it.f0.m0.there=none it.f0.?0=none it.f0.len=none it.f0.f0.there=none it.f0.m1.there=none
            6 0000000000000000 0000000000000000 -> it.f0.?1=none it.f0.len=none it.f0.f0.there=none
            # An unknown member of a union is given as it came, in its envelope and behind it.
            3 0200000000000000 0700000000000100 -> it.f0.variant=2 it.f0.v.there=none it.f0.?2=in/07000000 it.f0.absent=false it.f0.m1.there=none it.f0.?1=none it.f0.len=none it.f0.f0.there=none
            6 0000000000000080 0800000002000000 0102030405060708 with 8:5:6 9:3:1 -> it.f0.variant=9223372036854775808 it.f0.v.there=none it.f0.?9223372036854775808=out/0102030405060708/8:5:6/9:3:1
            6 0000000000000080 0800000002000000 0102030405060708 with 8:5:6 9:3:1 -> it.f0.m1.there=none it.f0.?1=none it.f0.len=none it.f0.f0.there=none it.f0.m0.there=none it.f0.?0=none it.f0.len=none
            6 0000000000000080 0800000002000000 0102030405060708 with 8:5:6 9:3:1 -> it.f0.f0.there=none
        ",
    },
];

#[test]
fn members_are_read(rt: HostRuntime) -> Result<(), Fail> {
    judge_all(&rt, rt.alloc(), &SUITES)
}
