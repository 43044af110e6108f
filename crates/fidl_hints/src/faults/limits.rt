//! The limits of types.
use crate::explaining::Explanation;

const ALL: [Explanation<'static>; 5] = [
    Explanation {
        stage: "layout",
        number: 1,
        name: "TooNested",
        lines: "    More than 32 structs and arrays stand inline in one another.
    Rules: docs/language.md, \"Figures\", \"Laying out\"
  Refused:
    library demo;
    alias A = array<array<array<array<array<array<array<array<array<array<array<array<array<array<array<array<array<array<array<array<array<array<array<array<array<array<array<array<array<array<array<array<array<bool, 1>, 1>, 1>, 1>, 1>, 1>, 1>, 1>, 1>, 1>, 1>, 1>, 1>, 1>, 1>, 1>, 1>, 1>, 1>, 1>, 1>, 1>, 1>, 1>, 1>, 1>, 1>, 1>, 1>, 1>, 1>, 1>, 1>;
  Accepted:
    library demo;
    alias A = array<array<bool, 1>, 1>;
",
    },
    Explanation {
        stage: "layout",
        number: 2,
        name: "TooLarge",
        lines: "    The type has more than 65,535 bytes.
    Rules: docs/language.md, \"Figures\", \"Laying out\"
  Refused:
    library demo;
    type S = struct { a array<uint8, 65536>; };
  Accepted:
    library demo;
    type S = struct { a array<uint8, 65535>; };
",
    },
    Explanation {
        stage: "layout",
        number: 3,
        name: "TooManyTypes",
        lines: "    The declared types reach more than 65,535 types. No short source has it.
    Rules: docs/language.md, \"Types of a table\", \"Laying out\"
",
    },
    Explanation {
        stage: "layout",
        number: 4,
        name: "TooManyMembers",
        lines: "    The layout has more than 65,535 members. No short source has it.
    Rules: docs/language.md, \"Figures\", \"Laying out\"
",
    },
    Explanation {
        stage: "layout",
        number: 5,
        name: "Memory",
        lines: "    Memory ran out. The program then ends with status 4.
    Rules: docs/language.md, \"Laying out\"
",
    },
];

/// What is said of these faults, by their numbers.
pub(crate) fn all() -> &'static [Explanation<'static>] {
    &ALL
}
