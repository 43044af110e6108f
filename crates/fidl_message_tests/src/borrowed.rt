//! What a view gives out borrows what was decoded: a text outlives its view, and never the `Decoded`. The cases in
//! `.ci/must-not-compile` edit these tests so that they break this, and the compiler has to refuse
//! each.

use fidl_decode::{Decoded, Scratch, decode};
use fidl_verify::verify;
use fidl_view::Views;
use std::test::Fail;

/// A table written by hand after the table's rules: its one entry is a string of at most 9 bytes.
const STRING: [u8; 80] = [
    0x46, 0x43, 0x54, 0x32, 1, 0, 0, 0, 1, 0, 0, 0, 0, 0, 0, 0, 0, 0, 0, 0, 0, 0, 0, 0, 0, 0, 0, 0,
    0, 0, 0, 0, 0, 0, 0, 0, 0, 0, 0, 0, 12, 0, 8, 0, 16, 0, 0, 0, 0, 0, 0, 0, 0, 0, 0, 0, 9, 0, 0,
    0, 0, 0, 0, 0, 0, 0, 0, 0, 0, 0, 0, 0, 0, 0, 0, 0, 0, 0, 0, 0,
];

/// The text "A": its count, its marker, and its byte with the padding.
const TEXT: [u8; 24] = [
    1, 0, 0, 0, 0, 0, 0, 0, 255, 255, 255, 255, 255, 255, 255, 255, 0x41, 0, 0, 0, 0, 0, 0, 0,
];

/// The text that a message encodes: it borrows what was decoded, and outlives its view.
fn text_of<'v>(decoded: &'v Decoded<'v, 'v, 'v>) -> Option<&'v str> {
    let view = decoded.view();
    view.as_str()
}

#[test]
fn a_text_outlives_its_view(rt: HostRuntime) -> Result<(), Fail> {
    let table = verify(&STRING)?;
    assert!(rt; table.entries() == 1);
    let mut scratch = Scratch::new(rt.alloc())?;
    let mut message = TEXT;
    let decoded = decode(&table, 0, &mut message, &[], &mut scratch)?;
    assert_eq!(rt; text_of(&decoded), Some("A"));
    let released = decoded.release();
    assert!(rt; &*released == TEXT.as_slice());
    released[16] = 0x42;
    let other = decode(&table, 0, &mut message, &[], &mut scratch)?;
    assert_eq!(rt; text_of(&other), Some("B"));
    Ok(())
}
