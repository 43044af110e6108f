//! The protocols of sources.
use crate::explaining::Explanation;

const ALL: [Explanation<'static>; 10] = [
    Explanation {
        stage: "protocol",
        number: 1,
        name: "NotStrict",
        lines: "    A flexible method stands only in a protocol that is open enough: a flexible event or
    one-way method in an ajar or open protocol, a flexible two-way method in an open one.
    Rules: docs/language.md, \"Methods\"
  Refused:
    library demo;
    closed protocol P { M(); };
  Accepted:
    library demo;
    closed protocol P { strict M(); };
",
    },
    Explanation {
        stage: "protocol",
        number: 2,
        name: "BadCompose",
        lines: "    A protocol composes protocols that are at most as open as it is.
    Rules: docs/language.md, \"Compositions\"
  Refused:
    library demo;
    open protocol Q {};
    closed protocol P { compose Q; };
  Accepted:
    library demo;
    closed protocol Q {};
    closed protocol P { compose Q; };
",
    },
    Explanation {
        stage: "protocol",
        number: 3,
        name: "DuplicateMethod",
        lines: "    Two methods of a protocol have one name, also where one comes by a composition.
    Rules: docs/language.md, \"Methods of protocols\"
  Refused:
    library demo;
    protocol P {
        M();
        M();
    };
  Accepted:
    library demo;
    protocol P {
        M();
        N();
    };
",
    },
    Explanation {
        stage: "protocol",
        number: 4,
        name: "DuplicateMethodOrdinal",
        lines: "    Two methods of a protocol have one ordinal, also where one comes by a composition.
    Rules: docs/language.md, \"Methods of protocols\", \"Ordinals\"
  Refused:
    library demo;
    protocol P {
        M();
        @selector(\"M\") N();
    };
  Accepted:
    library demo;
    protocol P {
        M();
        @selector(\"O\") N();
    };
",
    },
    Explanation {
        stage: "protocol",
        number: 5,
        name: "ZeroOrdinal",
        lines: "    The ordinal that SHA-256 gives this method is 0. No source is known that has it.
    Rules: docs/language.md, \"Ordinals\", \"Methods\"
",
    },
    Explanation {
        stage: "protocol",
        number: 6,
        name: "BadPayload",
        lines: "    What a method carries is a struct, a table or a union, and is not optional.
    Rules: docs/language.md, \"Payloads\"
  Refused:
    library demo;
    protocol P { M(uint32); };
  Accepted:
    library demo;
    protocol P { M(struct { x uint32; }); };
",
    },
    Explanation {
        stage: "protocol",
        number: 7,
        name: "ComposeCycle",
        lines: "    A protocol composes itself, at once or through others.
    Rules: docs/language.md, \"Compositions\"
  Refused:
    library demo;
    protocol P { compose P; };
  Accepted:
    library demo;
    protocol Q {};
    protocol P { compose Q; };
",
    },
    Explanation {
        stage: "protocol",
        number: 8,
        name: "BadSelector",
        lines: "    A method has at most one `@selector`, and its text is an identifier or a full name.
    Rules: docs/language.md, \"Methods\"
  Refused:
    library demo;
    protocol P {
        @selector(\"a b\") M();
    };
  Accepted:
    library demo;
    protocol P {
        @selector(\"demo/P.N\") M();
    };
",
    },
    Explanation {
        stage: "protocol",
        number: 9,
        name: "TooManyTypes",
        lines: "    The declared types and the payloads reach more than 65,535 types. No short source has it.
    Rules: docs/language.md, \"Checked protocols\"
",
    },
    Explanation {
        stage: "protocol",
        number: 10,
        name: "Memory",
        lines: "    Memory ran out. The program then ends with status 4.
    Rules: docs/language.md, \"Checked protocols\"
",
    },
];

/// What is said of these faults, by their numbers.
pub(crate) fn all() -> &'static [Explanation<'static>] {
    &ALL
}
