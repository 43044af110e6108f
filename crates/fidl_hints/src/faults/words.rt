//! The words and the syntax of sources.
use crate::explaining::Explanation;

const ALL: [Explanation<'static>; 10] = [
    Explanation {
        stage: "lex",
        number: 1,
        name: "NotUtf8",
        lines: "    The source is not UTF-8. The place is the first byte that is at fault.
    Rules: docs/language.md, \"Bytes\", \"Faults\"
",
    },
    Explanation {
        stage: "lex",
        number: 2,
        name: "BadByte",
        lines: "    No word begins with this byte, and it is no blank. A lone `/` is such a byte,
    and so is each byte over 127 outside of string literals and comments.
    Rules: docs/language.md, \"Words\", \"Gaps\"
  Refused:
    library demo;
    const A uint8 = 7 # 2;
  Accepted:
    library demo;
    const A uint8 = 7; // 2
",
    },
    Explanation {
        stage: "lex",
        number: 3,
        name: "BadIdentifier",
        lines: "    A name begins with a letter, and does not end with `_`.
    Rules: docs/language.md, \"Words\"
  Refused:
    library demo;
    const _LIMIT uint8 = 1;
  Accepted:
    library demo;
    const LIMIT uint8 = 1;
",
    },
    Explanation {
        stage: "lex",
        number: 4,
        name: "OpenString",
        lines: "    A string literal ends on the line on which it begins.
    Rules: docs/language.md, \"Words\"
  Refused:
    library demo;
    const A string = \"a;
  Accepted:
    library demo;
    const A string = \"a\";
",
    },
    Explanation {
        stage: "lex",
        number: 5,
        name: "BadEscape",
        lines: "    Behind a backslash stands one of the escapes of string literals.
    Rules: docs/language.md, \"Words\"
  Refused:
    library demo;
    const A string = \"a\\x\";
  Accepted:
    library demo;
    const A string = \"a\\n\";
",
    },
    Explanation {
        stage: "lex",
        number: 6,
        name: "BadNumber",
        lines: "    A word that begins with a digit is a number: decimal, hexadecimal with 0x, or binary
    with 0b.
    Rules: docs/language.md, \"Words\"
  Refused:
    library demo;
    const A uint8 = 1a;
  Accepted:
    library demo;
    const A uint8 = 0x1a;
",
    },
    Explanation {
        stage: "lex",
        number: 7,
        name: "Memory",
        lines: "    Memory ran out. The program then ends with status 4.
    Rules: docs/language.md, \"Faults\"
",
    },
    Explanation {
        stage: "parse",
        number: 1,
        name: "Unexpected",
        lines: "    The grammar wants another word here, or more words at the end of the source. Often a `;`
    or a bracket is missing before the place.
    Rules: docs/language.md, \"Grammar\", \"Refusals of the parser\"
  Refused:
    library demo;
    type S = struct {
        x uint8
    };
  Accepted:
    library demo;
    type S = struct {
        x uint8;
    };
",
    },
    Explanation {
        stage: "parse",
        number: 2,
        name: "TooNested",
        lines: "    More than 64 brackets are open. The place is the first bracket over that limit.
    Rules: docs/language.md, \"Limit of open brackets\"
  Refused:
    library demo;
    const A uint8 = (((((((((((((((((((((((((((((((((((((((((((((((((((((((((((((((((1)))))))))))))))))))))))))))))))))))))))))))))))))))))))))))))))));
  Accepted:
    library demo;
    const A uint8 = ((1));
",
    },
    Explanation {
        stage: "parse",
        number: 3,
        name: "Memory",
        lines: "    Memory ran out. The program then ends with status 4.
    Rules: docs/language.md, \"Refusals of the parser\"
",
    },
];

/// What is said of these faults, by their numbers.
pub(crate) fn all() -> &'static [Explanation<'static>] {
    &ALL
}
