//! Messages of bits and enums: strict ones have their members alone, flexible ones have any bytes.
use crate::judging::{Asked, Suite, judge_all};
use crate::numbers::NUMBERS;
use crate::showing::text;
use fidl_decode::{Scratch, decode};
use fidl_verify::Table;
use std::alloc::Global;
use std::test::Fail;

/// The table of `struct {e E;}` without its one byte of names, which is `a`: entry 0 is the struct,
/// and entry 1 is E, here a flexible enum of uint32. Another E has other bytes from 80 on (kind,
/// flags, alignment, nest and size; at 92 the number of its values, at 96 its mask, at 104 its
/// underlying type), and the struct its alignment and size at 42 and 44. Values, whose number is at
/// 16 too, stand before the names.
pub(crate) const CHOICE: &str = "
    46435432 0100 0000 02000000 01000000 00000000 00000000 00000000 00000000 01000000 00000000
    10 00 04 01 04000000 00000000 01000000 0000000000000000 00000000 00000000 00000000 00000000
    0b 00 04 00 04000000 00000000 00000000 0000000000000000 08000000 00000000 00000000 00000000
    00000000 01000000 00000000 01000000
";

/// `struct {a uint8; l array<E, 3>; b B;}` with a strict enum E of uint16 with 1 and 256, and
/// strict bits B of uint8 with 6.
const MANY: &str = "
    46435432 0100 0000 05000000 03000000 02000000 00000000 00000000 00000000 01000000 00000000
    10 00 02 02 0a000000 00000000 03000000 0000000000000000 00000000 00000000 00000000 00000000
    06 00 01 00 01000000 00000000 00000000 0000000000000000 00000000 00000000 00000000 00000000
    0e 00 02 01 06000000 03000000 03000000 0000000000000000 00000000 00000000 00000000 00000000
    0b 02 02 00 02000000 00000000 02000000 0000000000000000 07000000 00000000 00000000 00000000
    0a 02 01 00 01000000 00000000 00000000 0600000000000000 06000000 00000000 00000000 00000000
    00000000 01000000 00000000 01000000
    02000000 02000000 00000000 01000000
    08000000 04000000 00000000 01000000
    0100000000000000
    0001000000000000
    61
";

/// Whether a message of an entry is decoded.
fn is_decoded(table: &Table<'_>, entry: u32, bytes: &mut [u8], scratch: &mut Scratch) -> bool {
    entry < table.entries() && decode(table, entry, bytes, &[], scratch).is_ok()
}

/// How many of 256 messages of an entry, which is a flexible enum or bits of 32 bits, are decoded.
pub(crate) fn any_bytes(
    alloc: Global,
    table: &Table<'_>,
    given: &str,
    scratch: &mut Scratch,
) -> Option<String> {
    let entry = given.parse::<u32>().ok()?;
    let mut found = 0u32;
    for byte in 0..=255u8 {
        let mut bytes = [byte, 255, 0, byte, 0, 0, 0, 0];
        if is_decoded(&*table, entry, &mut bytes, scratch) {
            found = found.saturating_add(1);
        }
    }
    text(alloc, Some(found))
}

/// Whether a message encodes a value of an entry of `NUMBERS`, as the entries are described there.
fn is_encoded(entry: u32, bytes: [u8; 8]) -> bool {
    let number = u64::from_le_bytes(bytes);
    match entry {
        0 => number <= 15,
        1 => number == 255 || number == 0 || number == 5,
        2 => number <= 65_535,
        3 => number == 1 || number == u64::MAX,
        _ => true,
    }
}

/// How many messages of eight times a byte, with the byte at a place changed to each value, are
/// decoded just where they encode a value.
fn agreeing(table: &Table<'_>, entry: u32, fill: u8, place: usize, scratch: &mut Scratch) -> u32 {
    let mut found = 0u32;
    for byte in 0..=255u8 {
        let mut bytes = [fill; 8];
        if let Some(own) = bytes.get_mut(place) {
            *own = byte;
        }
        let is_one = is_encoded(entry, bytes);
        if is_decoded(&*table, entry, &mut bytes, scratch) == is_one {
            found = found.saturating_add(1);
        }
    }
    found
}

/// The same of eight times 0, 1 or 255, at all eight places.
pub(crate) fn encoded(
    alloc: Global,
    table: &Table<'_>,
    given: &str,
    scratch: &mut Scratch,
) -> Option<String> {
    let entry = given.parse::<u32>().ok()?;
    let mut found = 0u32;
    for fill in [0, 1, 255] {
        for place in 0..8 {
            found = found.saturating_add(agreeing(table, entry, fill, place, scratch));
        }
    }
    text(alloc, Some(found))
}

const SUITES: [Suite<'_>; 8] = [
    Suite {
        asked: Asked::Verdict,
        table: CHOICE,
        count: 21,
        cases: "
            16=02 80=0b02040004000000 92=02 0100000000000000 0200000000000000 61 -> accepted 2
            80=0a02040004000000 96=05 61 -> accepted 2
            61 -> accepted 2
            104=04 61 -> accepted 2
            80=0a00040004000000 61 -> accepted 2
            16=02 80=0b02040004000000 92=02 0100000000000000 0300000000000000 61 -> accepted 2
            42=08 44=08 80=0a00080008000000 104=09 61 -> accepted 2
            42=08 44=08 80=0b00080008000000 104=09 61 -> accepted 2
            80=0a02040004000000 96=00000080 61 -> accepted 2
            16=01 42=01 44=01 80=0b02010001000000 92=01 104=02 7f00000000000000 61 -> accepted 2
            16=02 42=01 44=01 80=0b02010001000000 92=02 104=02 feffffffffffffff 0700000000000000 61 -> accepted 2
            16=01 42=01 44=01 80=0b02010001000000 92=01 104=02 feffffffffffffff 61 -> accepted 2
            42=01 44=01 80=0b00010001000000 104=02 61 -> accepted 2
            16=02 42=02 44=02 80=0b02020002000000 92=02 104=03 feffffffffffffff 0700000000000000 61 -> accepted 2
            16=01 42=02 44=02 80=0b02020002000000 92=01 104=03 feffffffffffffff 61 -> accepted 2
            42=02 44=02 80=0b00020002000000 104=03 61 -> accepted 2
            16=02 80=0b02040004000000 92=02 104=04 feffffffffffffff 0700000000000000 61 -> accepted 2
            16=01 80=0b02040004000000 92=01 104=04 feffffffffffffff 61 -> accepted 2
            16=02 42=08 44=08 80=0b02080008000000 92=02 104=05 feffffffffffffff 0700000000000000 61 -> accepted 2
            16=01 42=08 44=08 80=0b02080008000000 92=01 104=05 feffffffffffffff 61 -> accepted 2
            42=08 44=08 80=0b00080008000000 104=05 61 -> accepted 2
        ",
    },
    Suite {
        asked: Asked::Verdict,
        table: MANY,
        count: 1,
        cases: "
            -> accepted 5
        ",
    },
    Suite {
        asked: Asked::Message,
        table: CHOICE,
        count: 18,
        cases: "
            # `enum : uint32 {A = 1; B = 2;}`. A message that is refused is followed by one that
            # is decoded: a refusal leaves the scratch good.
            0 0100000000000000 by 16=02 80=0b02040004000000 92=02 0100000000000000 0200000000000000 61 -> decoded
            0 0300000000000000 by 16=02 80=0b02040004000000 92=02 0100000000000000 0200000000000000 61 -> 6 UnknownValue 0
            0 0200000000000000 by 16=02 80=0b02040004000000 92=02 0100000000000000 0200000000000000 61 -> decoded
            0 0000000000000000 by 16=02 80=0b02040004000000 92=02 0100000000000000 0200000000000000 61 -> 6 UnknownValue 0
            0 0101000000000000 by 16=02 80=0b02040004000000 92=02 0100000000000000 0200000000000000 61 -> 6 UnknownValue 0
            0 0100008000000000 by 16=02 80=0b02040004000000 92=02 0100000000000000 0200000000000000 61 -> 6 UnknownValue 0
            0 ffffffff00000000 by 16=02 80=0b02040004000000 92=02 0100000000000000 0200000000000000 61 -> 6 UnknownValue 0
            0 0200000001000000 by 16=02 80=0b02040004000000 92=02 0100000000000000 0200000000000000 61 -> 4 Padding 4
            0 0100000000000000 by 16=02 80=0b02040004000000 92=02 0100000000000000 0200000000000000 61 -> decoded
            # Bits of uint32 with the mask 5.
            0 0500000000000000 by 80=0a02040004000000 96=05 61 -> decoded
            0 0200000000000000 by 80=0a02040004000000 96=05 61 -> 7 UnknownBits 0
            0 0000000000000000 by 80=0a02040004000000 96=05 61 -> decoded
            0 0700000000000000 by 80=0a02040004000000 96=05 61 -> 7 UnknownBits 0
            0 0100000000000000 by 80=0a02040004000000 96=05 61 -> decoded
            0 0401000000000000 by 80=0a02040004000000 96=05 61 -> 7 UnknownBits 0
            0 0400008000000000 by 80=0a02040004000000 96=05 61 -> 7 UnknownBits 0
            0 0400000001000000 by 80=0a02040004000000 96=05 61 -> 4 Padding 4
            0 0400000000000000 by 80=0a02040004000000 96=05 61 -> decoded
        ",
    },
    Suite {
        asked: Asked::Message,
        table: CHOICE,
        count: 6,
        cases: "
            0 0300000009000000 by 61 -> 4 Padding 4
            0 03000000 by 61 -> 3 Truncated 0
            0 0300000009000000 by 104=04 61 -> 4 Padding 4
            0 03000000 by 104=04 61 -> 3 Truncated 0
            0 0300000009000000 by 80=0a00040004000000 61 -> 4 Padding 4
            0 03000000 by 80=0a00040004000000 61 -> 3 Truncated 0
        ",
    },
    // Strict enums with the values -2 and 7, of int8, int16, int32 and int64: in a message of each
    // -2, 7, and then -7, 126, 3, 0, and 254 where that is not -2.
    Suite {
        asked: Asked::Message,
        table: CHOICE,
        count: 27,
        cases: "
            0 fe00000000000000 by 16=02 42=01 44=01 80=0b02010001000000 92=02 104=02 feffffffffffffff 0700000000000000 61 -> decoded
            0 0700000000000000 by 16=02 42=01 44=01 80=0b02010001000000 92=02 104=02 feffffffffffffff 0700000000000000 61 -> decoded
            0 f900000000000000 by 16=02 42=01 44=01 80=0b02010001000000 92=02 104=02 feffffffffffffff 0700000000000000 61 -> 6 UnknownValue 0
            0 7e00000000000000 by 16=02 42=01 44=01 80=0b02010001000000 92=02 104=02 feffffffffffffff 0700000000000000 61 -> 6 UnknownValue 0
            0 0300000000000000 by 16=02 42=01 44=01 80=0b02010001000000 92=02 104=02 feffffffffffffff 0700000000000000 61 -> 6 UnknownValue 0
            0 0000000000000000 by 16=02 42=01 44=01 80=0b02010001000000 92=02 104=02 feffffffffffffff 0700000000000000 61 -> 6 UnknownValue 0
            0 feff000000000000 by 16=02 42=02 44=02 80=0b02020002000000 92=02 104=03 feffffffffffffff 0700000000000000 61 -> decoded
            0 0700000000000000 by 16=02 42=02 44=02 80=0b02020002000000 92=02 104=03 feffffffffffffff 0700000000000000 61 -> decoded
            0 f9ff000000000000 by 16=02 42=02 44=02 80=0b02020002000000 92=02 104=03 feffffffffffffff 0700000000000000 61 -> 6 UnknownValue 0
            0 7e00000000000000 by 16=02 42=02 44=02 80=0b02020002000000 92=02 104=03 feffffffffffffff 0700000000000000 61 -> 6 UnknownValue 0
            0 0300000000000000 by 16=02 42=02 44=02 80=0b02020002000000 92=02 104=03 feffffffffffffff 0700000000000000 61 -> 6 UnknownValue 0
            0 0000000000000000 by 16=02 42=02 44=02 80=0b02020002000000 92=02 104=03 feffffffffffffff 0700000000000000 61 -> 6 UnknownValue 0
            0 fe00000000000000 by 16=02 42=02 44=02 80=0b02020002000000 92=02 104=03 feffffffffffffff 0700000000000000 61 -> 6 UnknownValue 0
            0 feffffff00000000 by 16=02 80=0b02040004000000 92=02 104=04 feffffffffffffff 0700000000000000 61 -> decoded
            0 0700000000000000 by 16=02 80=0b02040004000000 92=02 104=04 feffffffffffffff 0700000000000000 61 -> decoded
            0 f9ffffff00000000 by 16=02 80=0b02040004000000 92=02 104=04 feffffffffffffff 0700000000000000 61 -> 6 UnknownValue 0
            0 7e00000000000000 by 16=02 80=0b02040004000000 92=02 104=04 feffffffffffffff 0700000000000000 61 -> 6 UnknownValue 0
            0 0300000000000000 by 16=02 80=0b02040004000000 92=02 104=04 feffffffffffffff 0700000000000000 61 -> 6 UnknownValue 0
            0 0000000000000000 by 16=02 80=0b02040004000000 92=02 104=04 feffffffffffffff 0700000000000000 61 -> 6 UnknownValue 0
            0 fe00000000000000 by 16=02 80=0b02040004000000 92=02 104=04 feffffffffffffff 0700000000000000 61 -> 6 UnknownValue 0
            0 feffffffffffffff by 16=02 42=08 44=08 80=0b02080008000000 92=02 104=05 feffffffffffffff 0700000000000000 61 -> decoded
            0 0700000000000000 by 16=02 42=08 44=08 80=0b02080008000000 92=02 104=05 feffffffffffffff 0700000000000000 61 -> decoded
            0 f9ffffffffffffff by 16=02 42=08 44=08 80=0b02080008000000 92=02 104=05 feffffffffffffff 0700000000000000 61 -> 6 UnknownValue 0
            0 7e00000000000000 by 16=02 42=08 44=08 80=0b02080008000000 92=02 104=05 feffffffffffffff 0700000000000000 61 -> 6 UnknownValue 0
            0 0300000000000000 by 16=02 42=08 44=08 80=0b02080008000000 92=02 104=05 feffffffffffffff 0700000000000000 61 -> 6 UnknownValue 0
            0 0000000000000000 by 16=02 42=08 44=08 80=0b02080008000000 92=02 104=05 feffffffffffffff 0700000000000000 61 -> 6 UnknownValue 0
            0 fe00000000000000 by 16=02 42=08 44=08 80=0b02080008000000 92=02 104=05 feffffffffffffff 0700000000000000 61 -> 6 UnknownValue 0
        ",
    },
    // The message itself is decoded after each refusal.
    Suite {
        asked: Asked::Message,
        table: MANY,
        count: 22,
        cases: "
            0 0901010000010100 0600000000000000 -> 4 Padding 1
            0 0900010000010100 0600000000000000 -> decoded
            0 0900020000010100 0600000000000000 -> 6 UnknownValue 2
            0 0900010000010100 0600000000000000 -> decoded
            0 0900010100010100 0600000000000000 -> 6 UnknownValue 2
            0 0900010000010100 0600000000000000 -> decoded
            0 0900010001010100 0600000000000000 -> 6 UnknownValue 4
            0 0900010000010100 0600000000000000 -> decoded
            0 0900010000000100 0600000000000000 -> 6 UnknownValue 4
            0 0900010000010100 0600000000000000 -> decoded
            0 0900010000010000 0600000000000000 -> 6 UnknownValue 6
            0 0900010000010100 0600000000000000 -> decoded
            0 0900010000010101 0600000000000000 -> 6 UnknownValue 6
            0 0900010000010100 0600000000000000 -> decoded
            0 0900010000010100 0100000000000000 -> 7 UnknownBits 8
            0 0900010000010100 0600000000000000 -> decoded
            0 0900010000010100 0e00000000000000 -> 7 UnknownBits 8
            0 0900010000010100 0600000000000000 -> decoded
            0 0900010000010100 0601000000000000 -> 4 Padding 9
            0 0900010000010100 0600000000000000 -> decoded
            0 0900010000010100 0600000000000001 -> 4 Padding 15
            0 0900010000010100 0600000000000000 -> decoded
        ",
    },
    // Flexible enums of uint32 and of int32, and flexible bits of uint32.
    Suite {
        asked: Asked::AnyBytes,
        table: CHOICE,
        count: 3,
        cases: "
            0 by 61 -> 256
            0 by 104=04 61 -> 256
            0 by 80=0a00040004000000 61 -> 256
        ",
    },
    // Of each entry the messages of eight times 0, 1 or 255, with each byte changed to each value:
    // just those of a value are decoded.
    Suite {
        asked: Asked::Encoded,
        table: NUMBERS,
        count: 5,
        cases: "
            0 -> 6144
            1 -> 6144
            2 -> 6144
            3 -> 6144
            4 -> 6144
        ",
    },
];

#[test]
fn choices_are_decoded(rt: HostRuntime) -> Result<(), Fail> {
    judge_all(&rt, rt.alloc(), &SUITES)
}
