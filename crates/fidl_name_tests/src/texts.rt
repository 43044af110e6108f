// Worked cases: the whole text of what has no value.
use fidl_const::{ConstFault, evaluate};
use fidl_test_sources::{Parsed, named, trees};
use std::alloc::Global;
use std::test::Fail;

/// The fault of evaluating files, if there is one.
fn fault(alloc: Global, files: &Parsed<'_>) -> Result<Option<ConstFault>, Fail> {
    let named = named(alloc, files)?;
    match evaluate(alloc, &named) {
        Ok(_) => Ok(None),
        Err(fault) => Ok(Some(fault)),
    }
}

/// The text at fault where this source is refused.
fn text_at_fault(alloc: Global, src: &[u8]) -> Result<Vec<u8>, Fail> {
    let files = trees(alloc, &[src])?;
    let fault = fault(alloc, &files)?.ok_or("a refusal")?;
    let span = fault.place().ok_or("a place")?.span;
    let text = src.get(span.from..span.to).ok_or("a text")?;
    Ok(Vec::from_slice(alloc, text)?)
}

#[test]
fn names_the_whole_text_of_a_value(rt: HostRuntime) -> Result<(), Fail> {
    let texts: [&[u8]; 5] = [
        b"1 | 2",
        b"1 | 2 | 3",
        b"(1) | 3 | -4",
        b"1 | (2 | 3)",
        b"1 | N | 3 | (4 | N)",
    ];
    for text in texts {
        let mut src = Vec::from_slice(rt.alloc(), b"library t; const N int8 = 1; const A int8 = ")?;
        src.extend_from_slice(text)?;
        src.extend_from_slice(b";")?;
        let found = text_at_fault(rt.alloc(), &src)?;
        assert_eq!(rt; found.as_slice(), text, "the text at fault");
    }
    Ok(())
}
