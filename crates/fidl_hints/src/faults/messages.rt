//! Messages.
use crate::explaining::Explanation;

const ALL: [Explanation<'static>; 20] = [
    Explanation {
        stage: "decode",
        number: 1,
        name: "TooLong",
        lines: "    The message has over 16,777,216 bytes.
    Rules: docs/decoding.md, \"Refusals\"
",
    },
    Explanation {
        stage: "decode",
        number: 2,
        name: "TooManyHandles",
        lines: "    Over 64 handles came with the message.
    Rules: docs/decoding.md, \"Refusals\"
",
    },
    Explanation {
        stage: "decode",
        number: 3,
        name: "Truncated",
        lines: "    The message ends before an object, or its padding, does.
    Rules: docs/decoding.md, \"Refusals\"
  Of the library:
    library demo;
    type S = struct { x uint32; y uint32; };
  Refused:
    demo/S 01000000
  Accepted:
    demo/S 0100000002000000
",
    },
    Explanation {
        stage: "decode",
        number: 4,
        name: "Padding",
        lines: "    A byte between two objects, or behind the last, is not zero.
    Rules: docs/decoding.md, \"Refusals\"
  Of the library:
    library demo;
    type S = struct { x uint8; };
  Refused:
    demo/S 0100000000000001
  Accepted:
    demo/S 0100000000000000
",
    },
    Explanation {
        stage: "decode",
        number: 5,
        name: "BadBool",
        lines: "    A bool is neither 0 nor 1.
    Rules: docs/decoding.md, \"Refusals\"
  Of the library:
    library demo;
    type S = struct { x bool; };
  Refused:
    demo/S 0200000000000000
  Accepted:
    demo/S 0100000000000000
",
    },
    Explanation {
        stage: "decode",
        number: 6,
        name: "UnknownValue",
        lines: "    The number of a strict enum is none of its members.
    Rules: docs/decoding.md, \"Refusals\"
  Of the library:
    library demo;
    type S = struct { x strict enum { A = 1; }; };
  Refused:
    demo/S 0200000000000000
  Accepted:
    demo/S 0100000000000000
",
    },
    Explanation {
        stage: "decode",
        number: 7,
        name: "UnknownBits",
        lines: "    The number of strict bits has a bit that is no member.
    Rules: docs/decoding.md, \"Refusals\"
  Of the library:
    library demo;
    type S = struct { x strict bits { A = 1; }; };
  Refused:
    demo/S 0200000000000000
  Accepted:
    demo/S 0100000000000000
",
    },
    Explanation {
        stage: "decode",
        number: 8,
        name: "BadMarker",
        lines: "    The marker of a string, a vector, a box or a handle is neither zeros nor ones.
    Rules: docs/decoding.md, \"Refusals\"
  Of the library:
    library demo;
    type S = struct { x box<struct { y uint8; }>; };
  Refused:
    demo/S 0100000000000000
  Accepted:
    demo/S 0000000000000000
",
    },
    Explanation {
        stage: "decode",
        number: 9,
        name: "AbsentRequired",
        lines: "    A value is absent that is not optional.
    Rules: docs/decoding.md, \"Refusals\"
  Of the library:
    library demo;
    type S = struct { x string; };
  Refused:
    demo/S 00000000000000000000000000000000
  Accepted:
    demo/S 0000000000000000ffffffffffffffff
",
    },
    Explanation {
        stage: "decode",
        number: 10,
        name: "BadCount",
        lines: "    A count is not 0 where its value is absent, or more than the message has room for.
    Rules: docs/decoding.md, \"Refusals\"
  Of the library:
    library demo;
    type S = struct { x vector<uint8>; };
  Refused:
    demo/S 0900000000000000ffffffffffffffff0100000000000000
  Accepted:
    demo/S 0100000000000000ffffffffffffffff0100000000000000
",
    },
    Explanation {
        stage: "decode",
        number: 11,
        name: "OverBound",
        lines: "    A string or a vector is longer than its bound.
    Rules: docs/decoding.md, \"Refusals\"
  Of the library:
    library demo;
    type S = struct { x string:1; };
  Refused:
    demo/S 0200000000000000ffffffffffffffff6161000000000000
  Accepted:
    demo/S 0100000000000000ffffffffffffffff6100000000000000
",
    },
    Explanation {
        stage: "decode",
        number: 12,
        name: "NotUtf8",
        lines: "    The bytes of a string are not UTF-8.
    Rules: docs/decoding.md, \"Refusals\"
  Of the library:
    library demo;
    type S = struct { x string; };
  Refused:
    demo/S 0100000000000000ffffffffffffffffff00000000000000
  Accepted:
    demo/S 0100000000000000ffffffffffffffff6100000000000000
",
    },
    Explanation {
        stage: "decode",
        number: 13,
        name: "BadEnvelope",
        lines: "    An envelope's counts or flags are none that its member can have.
    Rules: docs/decoding.md, \"Refusals\"
  Of the library:
    library demo;
    type T = table { 1: x uint8; };
  Refused:
    demo/T 0100000000000000ffffffffffffffff0500000000000200
  Accepted:
    demo/T 0100000000000000ffffffffffffffff0500000000000100
",
    },
    Explanation {
        stage: "decode",
        number: 14,
        name: "WrongCounts",
        lines: "    An envelope counts other bytes or handles than its member has.
    Rules: docs/decoding.md, \"Refusals\"
  Of the library:
    library demo;
    type T = table { 1: x uint64; };
  Refused:
    demo/T 0100000000000000ffffffffffffffff10000000000000000500000000000000
  Accepted:
    demo/T 0100000000000000ffffffffffffffff08000000000000000500000000000000
",
    },
    Explanation {
        stage: "decode",
        number: 15,
        name: "UnknownOrdinal",
        lines: "    The ordinal of a strict union is none of its members.
    Rules: docs/decoding.md, \"Refusals\"
  Of the library:
    library demo;
    type S = struct { x strict union { 1: y uint8; }; };
  Refused:
    demo/S 02000000000000000500000000000100
  Accepted:
    demo/S 01000000000000000500000000000100
",
    },
    Explanation {
        stage: "decode",
        number: 16,
        name: "TooDeep",
        lines: "    Over 32 objects would lie behind one another.
    Rules: docs/decoding.md, \"Refusals\"
  Of the library:
    library demo;
    type S = struct { next box<S>; };
  Refused:
    demo/S ffffffffffffffffffffffffffffffffffffffffffffffffffffffffffffffffffffffffffffffffffffffffffffffffffffffffffffffffffffffffffffffffffffffffffffffffffffffffffffffffffffffffffffffffffffffffffffffffffffffffffffffffffffffffffffffffffffffffffffffffffffffffffffffffffffffffffffffffffffffffffffffffffffffffffffffffffffffffffffffffffffffffffffffffffffffffffffffffffffffffffffffffffffffffffffffffffffffffffffffffffffffffffffffffffffffffffffffffffffffffffffffffffffffffffffffffffffffffffffffffffffffffffffffffffffffffffffffffffffffffffffffff0000000000000000
  Accepted:
    demo/S ffffffffffffffff0000000000000000
",
    },
    Explanation {
        stage: "decode",
        number: 17,
        name: "HandleMissing",
        lines: "    A handle of the value came with no record.
    Rules: docs/decoding.md, \"Refusals\"
  Of the library:
    library demo;
    protocol P {};
    type S = resource struct { x client_end:P; };
  Refused:
    demo/S ffffffff00000000
  Accepted:
    demo/S ffffffff00000000 with 1:4:2147483648
",
    },
    Explanation {
        stage: "decode",
        number: 18,
        name: "WrongHandle",
        lines: "    A handle came with another object type, or with fewer rights, than its type asks for.
    Rules: docs/decoding.md, \"Refusals\"
  Of the library:
    library demo;
    protocol P {};
    type S = resource struct { x client_end:P; };
  Refused:
    demo/S ffffffff00000000 with 1:3:2147483648
  Accepted:
    demo/S ffffffff00000000 with 1:4:2147483648
",
    },
    Explanation {
        stage: "decode",
        number: 19,
        name: "BytesLeft",
        lines: "    Bytes are left behind the value.
    Rules: docs/decoding.md, \"Refusals\"
  Of the library:
    library demo;
    type S = struct { x uint64; };
  Refused:
    demo/S 01000000000000000000000000000000
  Accepted:
    demo/S 0100000000000000
",
    },
    Explanation {
        stage: "decode",
        number: 20,
        name: "HandlesLeft",
        lines: "    Handles are left behind the value.
    Rules: docs/decoding.md, \"Refusals\"
  Of the library:
    library demo;
    type S = struct { x uint64; };
  Refused:
    demo/S 0100000000000000 with 1:4:0
  Accepted:
    demo/S 0100000000000000
",
    },
];

/// What is said of these faults, by their numbers.
pub(crate) fn all() -> &'static [Explanation<'static>] {
    &ALL
}
