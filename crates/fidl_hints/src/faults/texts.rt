//! Texts of values, and the values that they spell.
use crate::explaining::Explanation;

const ALL: [Explanation<'static>; 14] = [
    Explanation {
        stage: "notation",
        number: 1,
        name: "Syntax",
        lines: "    No value of the type is written so. The place is that of the word that does not fit, or the end of
    the text.
    Rules: docs/notation.md, \"Faults\"
  Of the library:
    library demo;
    type S = struct { x uint32; y uint32; };
  Refused:
    demo/S {x: 1}
  Accepted:
    demo/S {x: 1, y: 2}
",
    },
    Explanation {
        stage: "notation",
        number: 2,
        name: "UnknownName",
        lines: "    A name stands in the text that no member has.
    Rules: docs/notation.md, \"Faults\"
  Of the library:
    library demo;
    type S = struct { x uint32; y uint32; };
  Refused:
    demo/S {x: 1, z: 2}
  Accepted:
    demo/S {x: 1, y: 2}
",
    },
    Explanation {
        stage: "notation",
        number: 3,
        name: "OutOfRange",
        lines: "    A number is outside its type.
    Rules: docs/notation.md, \"Faults\"
  Of the library:
    library demo;
    type S = struct { x uint8; };
  Refused:
    demo/S {x: 256}
  Accepted:
    demo/S {x: 255}
",
    },
    Explanation {
        stage: "notation",
        number: 4,
        name: "Repeated",
        lines: "    A member of a struct stands again, or a member of a table does not rise.
    Rules: docs/notation.md, \"Faults\"
  Of the library:
    library demo;
    type S = struct { x uint32; y uint32; };
  Refused:
    demo/S {x: 1, x: 2}
  Accepted:
    demo/S {x: 1, y: 2}
",
    },
    Explanation {
        stage: "notation",
        number: 5,
        name: "Memory",
        lines: "    Memory ran out. This says nothing of the text. The program prints \"error: out of memory\" then.
    Rules: docs/notation.md, \"Faults\"
",
    },
    Explanation {
        stage: "encode",
        number: 1,
        name: "WrongShape",
        lines: "    The value is not of the type, for a reason that no other fault names. What the type requires is absent,
    or a count is another, or an unknown member stands in a strict union.
    Rules: docs/encoding.md, \"Refusals\"
  Of the library:
    library demo;
    type S = struct { x string; };
  Refused:
    demo/S {x: absent}
  Accepted:
    demo/S {x: \"a\"}
",
    },
    Explanation {
        stage: "encode",
        number: 2,
        name: "OverBound",
        lines: "    A string or a vector is longer than its bound.
    Rules: docs/encoding.md, \"Refusals\"
  Of the library:
    library demo;
    type S = struct { x string:1; };
  Refused:
    demo/S {x: \"ab\"}
  Accepted:
    demo/S {x: \"a\"}
",
    },
    Explanation {
        stage: "encode",
        number: 3,
        name: "NotUtf8",
        lines: "    The bytes of a string are not UTF-8. No text spells such a string.
    Rules: docs/encoding.md, \"Refusals\"
",
    },
    Explanation {
        stage: "encode",
        number: 4,
        name: "UnknownValue",
        lines: "    A number is no member of its strict enum, or has a bit that its strict bits do not have.
    Rules: docs/encoding.md, \"Refusals\"
  Of the library:
    library demo;
    type S = struct { x strict enum { A = 1; }; };
  Refused:
    demo/S {x: 2}
  Accepted:
    demo/S {x: 1}
",
    },
    Explanation {
        stage: "encode",
        number: 5,
        name: "WrongHandle",
        lines: "    A handle has another object type, or fewer rights, than its type asks for.
    Rules: docs/encoding.md, \"Refusals\"
  Of the library:
    library demo;
    protocol P {};
    type S = resource struct { x client_end:P; };
  Refused:
    demo/S {x: handle(1, 3, 2147483648)}
  Accepted:
    demo/S {x: handle(1, 4, 2147483648)}
",
    },
    Explanation {
        stage: "encode",
        number: 6,
        name: "TooDeep",
        lines: "    Over 32 objects would lie behind one another.
    Rules: docs/encoding.md, \"Refusals\"
  Of the library:
    library demo;
    type S = struct { next box<S>; };
  Refused:
    demo/S {next: {next: {next: {next: {next: {next: {next: {next: {next: {next: {next: {next: {next: {next: {next: {next: {next: {next: {next: {next: {next: {next: {next: {next: {next: {next: {next: {next: {next: {next: {next: {next: {next: {next: absent}}}}}}}}}}}}}}}}}}}}}}}}}}}}}}}}}}
  Accepted:
    demo/S {next: absent}
",
    },
    Explanation {
        stage: "encode",
        number: 7,
        name: "TooLong",
        lines: "    The message would have over 16,777,216 bytes.
    Rules: docs/encoding.md, \"Refusals\"
",
    },
    Explanation {
        stage: "encode",
        number: 8,
        name: "TooManyHandles",
        lines: "    The message would have over 64 handles.
    Rules: docs/encoding.md, \"Refusals\"
",
    },
    Explanation {
        stage: "encode",
        number: 9,
        name: "Memory",
        lines: "    Memory ran out. This says nothing of the value. The program prints \"error: out of memory\" then.
    Rules: docs/encoding.md, \"Refusals\"
",
    },
];

/// What is said of these faults, by their numbers.
pub(crate) fn all() -> &'static [Explanation<'static>] {
    &ALL
}
