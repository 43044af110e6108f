//! Coding tables.
use crate::explaining::Explanation;

const ALL: [Explanation<'static>; 12] = [
    Explanation {
        stage: "table",
        number: 1,
        name: "BadMagic",
        lines: "    The file does not begin as a coding table does. Perhaps it is another file.
    Rules: docs/table.md, \"Faults\"
",
    },
    Explanation {
        stage: "table",
        number: 2,
        name: "BadVersion",
        lines: "    The file is a coding table of another version of the format.
    Rules: docs/table.md, \"Faults\"
",
    },
    Explanation {
        stage: "table",
        number: 3,
        name: "Truncated",
        lines: "    The file ends before its last section does. Perhaps it was not written whole.
    Rules: docs/table.md, \"Faults\"
",
    },
    Explanation {
        stage: "table",
        number: 4,
        name: "Surplus",
        lines: "    Bytes stand behind the last section of the file.
    Rules: docs/table.md, \"Faults\"
",
    },
    Explanation {
        stage: "table",
        number: 5,
        name: "BadKind",
        lines: "    An entry has a kind that there is not, or fields that its kind does not have.
    Rules: docs/table.md, \"Kinds\", \"Faults\"
",
    },
    Explanation {
        stage: "table",
        number: 6,
        name: "BadIndex",
        lines: "    A record names records that the table does not have, or does not name those that are
    its own.
    Rules: docs/table.md, \"Faults\"
",
    },
    Explanation {
        stage: "table",
        number: 7,
        name: "BadOffset",
        lines: "    The members of a struct do not lie where their types put them.
    Rules: docs/table.md, \"Faults\"
",
    },
    Explanation {
        stage: "table",
        number: 8,
        name: "BadSize",
        lines: "    An entry's size or alignment is not that of its type.
    Rules: docs/table.md, \"Faults\"
",
    },
    Explanation {
        stage: "table",
        number: 9,
        name: "BadNest",
        lines: "    An entry's depth of structs and arrays is not that of its type, or over 32.
    Rules: docs/table.md, \"Faults\"
",
    },
    Explanation {
        stage: "table",
        number: 10,
        name: "NotSorted",
        lines: "    Records that rise do not rise: members by ordinal, values, roots and protocols by name,
    methods by ordinal.
    Rules: docs/table.md, \"Faults\"
",
    },
    Explanation {
        stage: "table",
        number: 11,
        name: "BadName",
        lines: "    A name lies outside of the names, or is no name of its kind.
    Rules: docs/table.md, \"Faults\"
",
    },
    Explanation {
        stage: "table",
        number: 12,
        name: "BadMethod",
        lines: "    A protocol's openness or a method's record is none that there can be.
    Rules: docs/table.md, \"Faults\"
",
    },
];

/// What is said of these faults, by their numbers.
pub(crate) fn all() -> &'static [Explanation<'static>] {
    &ALL
}
