//! The cases.
use crate::answers::{answer, table_bytes};
use fidl_verify::verify;
use std::test::Fail;

const CASES: &str = "
    0 fields 1 2 -> 0100000002000000 0
    2 table 2 1=5 -> 0200000000000000ffffffffffffffff05000000000001000000000000000000 0
    2 table 5 5:out:1122334455667788 -> 0500000000000000ffffffffffffffff000000000000000000000000000000000000000000000000000000000000000008000000010000001122334455667788 1
    2 table 3 3:in:01020304 -> 0300000000000000ffffffffffffffff000000000000000000000000000000000102030401000100 1
    4 text 6869 -> 0200000000000000ffffffffffffffff6869000000000000 0
    4 text  -> 0000000000000000ffffffffffffffff 0
    7 handles 1 -> 0100000000000000ffffffffffffffffffffffff00000000 1
    10 number 2 -> 0200000000000000 0
    11 union 1=7 -> 01000000000000000700000000000100 0
    12 list 1 2 3 -> 0102030000000000 0
    0 true -> 1 WrongShape
    0 fields 1 -> 1 WrongShape
    0 fields 1 2 3 -> 1 WrongShape
    0 list 1 2 -> 1 WrongShape
    0 fields 1 4294967296 -> 1 WrongShape
    0 fields -1 0 -> 1 WrongShape
    2 absent -> 1 WrongShape
    2 table 2 1:in:01020304 -> 1 WrongShape
    2 table 2 2=1 -> 1 WrongShape
    2 table 3 3:in:010203 -> 1 WrongShape
    2 table 3 3:out:01020304 -> 1 WrongShape
    2 table 3 3:out: -> 1 WrongShape
    2 table 1 2=1 -> 1 WrongShape
    2 table 2 0=1 -> 1 WrongShape
    2 table 2 1=1 1=1 -> 1 WrongShape
    4 absent -> 1 WrongShape
    5 fields 0 -> 1 WrongShape
    8 absent -> 1 WrongShape
    9 text 616263 -> 2 OverBound
    4 text c080 -> 3 NotUtf8
    10 number 3 -> 4 UnknownValue
    10 number -1 -> 1 WrongShape
    11 absent -> 1 WrongShape
    11 union 0=7 -> 1 WrongShape
    11 union 2:in:01020304 -> 1 WrongShape
    12 list 1 2 -> 1 WrongShape
    5 boxes 32 -> 264 bytes 0
    5 boxes 33 -> 6 TooDeep
    5 boxes 2000 -> 6 TooDeep
    7 handles 64 -> 272 bytes 64
    7 handles 65 -> 8 TooManyHandles
    4 long 16777200 -> 16777216 bytes 0
    4 long 16777201 -> 7 TooLong
    2 table 2097150 1=1 -> 16777216 bytes 0
    2 table 2097151 1=1 -> 7 TooLong
    2 table 18446744073709551615 1=1 -> 7 TooLong
";

#[test]
fn values_are_encoded(rt: HostRuntime) -> Result<(), Fail> {
    let alloc = rt.alloc();
    let bytes = table_bytes(alloc).unwrap_or(Vec::new(alloc));
    let table = verify(&bytes)?;
    let mut count = 0u32;
    for line in CASES.lines() {
        let Some((given, want)) = line.trim_start().split_once(" -> ") else {
            continue;
        };
        let got = answer(alloc, &table, given).unwrap_or(String::new(alloc));
        assert_eq!(rt; got.as_str(), want, "{given}");
        count = count.saturating_add(1);
    }
    assert_eq!(rt; count, 46);
    Ok(())
}
