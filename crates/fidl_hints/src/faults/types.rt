//! The types of sources.
use crate::explaining::Explanation;

const ALL: [Explanation<'static>; 12] = [
    Explanation {
        stage: "types",
        number: 1,
        name: "NotResource",
        lines: "    A layout that holds a handle, at once or in what it holds, is marked `resource`.
    Rules: docs/language.md, \"Rules of definitions\"
  Refused:
    library demo;
    protocol P {};
    type S = struct { c client_end:P; };
  Accepted:
    library demo;
    protocol P {};
    type S = resource struct { c client_end:P; };
",
    },
    Explanation {
        stage: "types",
        number: 2,
        name: "InlineCycle",
        lines: "    A struct stands in itself, so it has no size. A box breaks the cycle.
    Rules: docs/language.md, \"Rules of definitions\"
  Refused:
    library demo;
    type S = struct { next S; };
  Accepted:
    library demo;
    type S = struct { next box<S>; };
",
    },
    Explanation {
        stage: "types",
        number: 3,
        name: "BadOrdinal",
        lines: "    An ordinal is at least 1, in a table at most 64, in a union at most 4,294,967,295.
    Rules: docs/language.md, \"Rules of layouts\"
  Refused:
    library demo;
    type T = table { 65: x uint8; };
  Accepted:
    library demo;
    type T = table { 64: x uint8; };
",
    },
    Explanation {
        stage: "types",
        number: 4,
        name: "DuplicateOrdinal",
        lines: "    No two members of one layout have the same ordinal.
    Rules: docs/language.md, \"Rules of layouts\"
  Refused:
    library demo;
    type T = table {
        1: x uint8;
        1: y uint8;
    };
  Accepted:
    library demo;
    type T = table {
        1: x uint8;
        2: y uint8;
    };
",
    },
    Explanation {
        stage: "types",
        number: 5,
        name: "DuplicateValue",
        lines: "    No two members of one layout have the same number.
    Rules: docs/language.md, \"Numbers of members\"
  Refused:
    library demo;
    type E = enum { A = 1; B = 1; };
  Accepted:
    library demo;
    type E = enum { A = 1; B = 2; };
",
    },
    Explanation {
        stage: "types",
        number: 6,
        name: "NotPowerOfTwo",
        lines: "    Each member of bits is a power of two.
    Rules: docs/language.md, \"Numbers of members\"
  Refused:
    library demo;
    type B = bits { A = 1; C = 3; };
  Accepted:
    library demo;
    type B = bits { A = 1; C = 2; };
",
    },
    Explanation {
        stage: "types",
        number: 7,
        name: "EmptyStrict",
        lines: "    A strict enum and a strict union have a member.
    Rules: docs/language.md, \"Rules of layouts\"
  Refused:
    library demo;
    type E = strict enum {};
  Accepted:
    library demo;
    type E = flexible enum {};
",
    },
    Explanation {
        stage: "types",
        number: 8,
        name: "OptionalMember",
        lines: "    A member of a table or a union, and the type after `error`, is not optional and no box:
    it may be left out as it is.
    Rules: docs/language.md, \"Uses of types\"
  Refused:
    library demo;
    type T = table { 1: name string:optional; };
  Accepted:
    library demo;
    type T = table { 1: name string; };
",
    },
    Explanation {
        stage: "types",
        number: 9,
        name: "BadConstraint",
        lines: "    The type is not written as its name asks: it has arguments or constraints that it may not
    have, or lacks some that it needs. A constraint is given once: also not again where an
    alias gives it. A resource definition has the properties and types that it needs.
    Rules: docs/language.md, \"Uses of types\", \"Terms of types\", \"What constraints give\", \"Resource definitions\"
  Refused:
    library demo;
    type S = struct { x uint8:3; };
  Accepted:
    library demo;
    type S = struct { x string:3; };
",
    },
    Explanation {
        stage: "types",
        number: 10,
        name: "BadBox",
        lines: "    A box holds a struct.
    Rules: docs/language.md, \"Uses of types\"
  Refused:
    library demo;
    type S = struct { a box<uint8>; };
  Accepted:
    library demo;
    type S = struct { a box<struct { x uint8; }>; };
",
    },
    Explanation {
        stage: "types",
        number: 11,
        name: "OutOfProfile",
        lines: "    FIDL has this, and Rongkhab does not: float32 and float64, `@available`, and transports
    other than `Channel`.
    Rules: docs/language.md, \"Uses of types\", \"Rules of layouts\"
  Refused:
    library demo;
    type S = struct { a float32; };
  Accepted:
    library demo;
    type S = struct { a int32; };
",
    },
    Explanation {
        stage: "types",
        number: 12,
        name: "Memory",
        lines: "    Memory ran out. The program then ends with status 4.
    Rules: docs/language.md, \"Checking types\"
",
    },
];

/// What is said of these faults, by their numbers.
pub(crate) fn all() -> &'static [Explanation<'static>] {
    &ALL
}
