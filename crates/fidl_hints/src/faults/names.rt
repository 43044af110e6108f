//! The names of sources.
use crate::explaining::Explanation;

const ALL: [Explanation<'static>; 8] = [
    Explanation {
        stage: "names",
        number: 1,
        name: "DuplicateName",
        lines: "    The name is declared twice in its library, or twice in the same list of members.
    Rules: docs/language.md, \"Faults of names\", \"Members\"
  Refused:
    library demo;
    type S = struct {};
    type S = table {};
  Accepted:
    library demo;
    type S = struct {};
    type T = table {};
",
    },
    Explanation {
        stage: "names",
        number: 2,
        name: "UnknownLibrary",
        lines: "    No file that was given belongs to the imported library. Give its files too.
    Rules: docs/language.md, \"Imports\"
  Refused:
    // a.fidl
    library demo;
    using zx;
    const A zx.Size = 1;
  Accepted:
    // a.fidl
    library demo;
    using zx;
    const A zx.Size = 1;
    // b.fidl
    library zx;
    alias Size = uint64;
",
    },
    Explanation {
        stage: "names",
        number: 3,
        name: "UnknownName",
        lines: "    Nothing that is declared or imported has this name.
    Rules: docs/language.md, \"Meanings\", \"Places of names\"
  Refused:
    library demo;
    type S = struct { x Int; };
  Accepted:
    library demo;
    alias Int = int32;
    type S = struct { x Int; };
",
    },
    Explanation {
        stage: "names",
        number: 4,
        name: "AmbiguousName",
        lines: "    The name has two meanings: that of a member, and that of a declaration of another
    library.
    Rules: docs/language.md, \"Meanings\"
  Refused:
    // a.fidl
    library x;
    const Y uint8 = 1;
    // b.fidl
    library demo;
    using x;
    type x = enum { Y = 1; };
    const K uint8 = x.Y;
  Accepted:
    // a.fidl
    library x;
    const Y uint8 = 1;
    // b.fidl
    library demo;
    using x;
    const K uint8 = x.Y;
",
    },
    Explanation {
        stage: "names",
        number: 5,
        name: "AliasCycle",
        lines: "    An alias leads back to itself.
    Rules: docs/language.md, \"Aliases\"
  Refused:
    library demo;
    alias A = B;
    alias B = A;
  Accepted:
    library demo;
    alias A = B;
    alias B = uint8;
",
    },
    Explanation {
        stage: "names",
        number: 6,
        name: "ImportCycle",
        lines: "    A library imports one whose imports lead back to it.
    Rules: docs/language.md, \"Imports\"
  Refused:
    // a.fidl
    library a;
    using b;
    // b.fidl
    library b;
    using a;
  Accepted:
    // a.fidl
    library a;
    using b;
    // b.fidl
    library b;
",
    },
    Explanation {
        stage: "names",
        number: 7,
        name: "BadImport",
        lines: "    A library imports itself, or a name under which it imports is taken already.
    Rules: docs/language.md, \"Imports\"
  Refused:
    library demo;
    using demo;
  Accepted:
    // a.fidl
    library demo;
    using zx;
    // b.fidl
    library zx;
",
    },
    Explanation {
        stage: "names",
        number: 8,
        name: "Memory",
        lines: "    Memory ran out. The program then ends with status 4.
    Rules: docs/language.md, \"Faults of names\"
",
    },
];

/// What is said of these faults, by their numbers.
pub(crate) fn all() -> &'static [Explanation<'static>] {
    &ALL
}
