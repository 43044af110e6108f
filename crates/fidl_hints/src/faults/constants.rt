//! The constants of sources.
use crate::explaining::Explanation;

const ALL: [Explanation<'static>; 5] = [
    Explanation {
        stage: "const",
        number: 1,
        name: "OutOfRange",
        lines: "    The number is not in the range of its type, or the string is longer than its bound.
    Rules: docs/language.md, \"Values\", \"Evaluating\"
  Refused:
    library demo;
    const A uint8 = 256;
  Accepted:
    library demo;
    const A uint8 = 255;
",
    },
    Explanation {
        stage: "const",
        number: 2,
        name: "WrongKind",
        lines: "    Another kind of value or of type is wanted here: a number, a string, a bool, or a member
    of this enum.
    Rules: docs/language.md, \"Types of constants\", \"Values\"
  Refused:
    library demo;
    const A uint8 = \"a\";
  Accepted:
    library demo;
    const A uint8 = 97;
",
    },
    Explanation {
        stage: "const",
        number: 3,
        name: "ConstCycle",
        lines: "    A constant or a member depends on itself.
    Rules: docs/language.md, \"Cycles of constants\"
  Refused:
    library demo;
    const A uint8 = B;
    const B uint8 = A;
  Accepted:
    library demo;
    const A uint8 = B;
    const B uint8 = 1;
",
    },
    Explanation {
        stage: "const",
        number: 4,
        name: "NotBits",
        lines: "    `|` joins bits and unsigned numbers alone.
    Rules: docs/language.md, \"Values\", \"Evaluating\"
  Refused:
    library demo;
    const A int8 = 1 | 2;
  Accepted:
    library demo;
    const A uint8 = 1 | 2;
",
    },
    Explanation {
        stage: "const",
        number: 5,
        name: "Memory",
        lines: "    Memory ran out. The program then ends with status 4.
    Rules: docs/language.md, \"Evaluating\"
",
    },
];

/// What is said of these faults, by their numbers.
pub(crate) fn all() -> &'static [Explanation<'static>] {
    &ALL
}
