//! Tests of `decode`: tables that are refused before roots, and texts that are no handles.
use crate::tables::POINT;
use fidl_tool::{File, Outcome, Output, TypedMessage, decode, read_handle};
use fidl_wire::HandleInfo;
use std::alloc::Global;
use std::test::Fail;

/// What a run of `decode` answered and printed.
#[derive(Drop)]
struct Ran {
    outcome: Outcome,
    out: Vec<u8>,
    errors: Vec<u8>,
}

fn run_decode(alloc: Global, table: &[u8], message: TypedMessage<'_>) -> Ran {
    let file = File {
        name: "a.fct",
        bytes: table,
    };
    let mut out = Output::new(Vec::new(alloc));
    let mut errors = Output::new(Vec::new(alloc));
    let outcome = decode(alloc, &file, message, &mut out, &mut errors);
    Ran {
        outcome,
        out: out.into_writer(),
        errors: errors.into_writer(),
    }
}

#[test]
fn tables_are_refused_before_roots(rt: HostRuntime) -> Result<(), Fail> {
    let alloc = rt.alloc();
    let mut moved = POINT;
    moved[136] = 5;
    let mut longer = Vec::from_slice(alloc, &POINT)?;
    longer.push(0)?;
    let no_root = "error: ROOT: no root of \"a.fct\" has the name \"Line\"\n";
    let cases: [(&[u8], &str, Outcome, &str); 4] = [
        (&moved, "Line", Outcome::Refused, "table 7 BadOffset at 0\n"),
        (
            &POINT[..175],
            "Point",
            Outcome::Refused,
            "table 3 Truncated at 0\n",
        ),
        (
            longer.as_slice(),
            "Point",
            Outcome::Refused,
            "table 4 Surplus at 0\n",
        ),
        (&POINT, "Line", Outcome::NoRoot, no_root),
    ];
    for (table, root, outcome, errors) in cases {
        let message = TypedMessage {
            root,
            bytes: &mut [],
            handles: &[],
        };
        let ran = run_decode(alloc, table, message);
        assert_eq!(rt; ran.outcome, outcome, "for {errors}");
        assert!(rt; ran.out.is_empty(), "for {errors}");
        assert!(rt; ran.errors.as_slice() == errors.as_bytes(), "for {errors}");
    }
    Ok(())
}

#[test]
fn texts_that_are_no_handles(rt: HostRuntime) {
    let texts = [
        "",
        "1:2",
        "1:2:3:4",
        "+1:2:3",
        "1: 2:3",
        "1:2:4294967296",
        "1::3",
        "-1:2:3",
        "1:2:0x3",
    ];
    for text in texts {
        assert!(rt; read_handle(text).is_none(), "for {text}");
    }
    let handle = HandleInfo {
        id: 2,
        object_type: 5,
        rights: 4_294_967_295,
    };
    assert_eq!(rt; read_handle("2:005:4294967295"), Some(handle));
}
