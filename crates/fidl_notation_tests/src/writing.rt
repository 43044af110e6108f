//! A string, decoded by a table that is written by hand, as text and as an owned tree.
use fidl_decode::{Scratch, decode};
use fidl_notation::dump;
use fidl_streams::{Refusal, TestSink};
use fidl_verify::verify;
use fidl_view::{View, Views};
use fidl_wire::Value;
use std::test::Fail;

/// A table written by hand after the table's rules: its one entry is a string of at most 9 bytes.
const STRING: [u8; 80] = [
    0x46, 0x43, 0x54, 0x32, 1, 0, 0, 0, 1, 0, 0, 0, 0, 0, 0, 0, 0, 0, 0, 0, 0, 0, 0, 0, 0, 0, 0, 0,
    0, 0, 0, 0, 0, 0, 0, 0, 0, 0, 0, 0, 12, 0, 8, 0, 16, 0, 0, 0, 0, 0, 0, 0, 0, 0, 0, 0, 9, 0, 0,
    0, 0, 0, 0, 0, 0, 0, 0, 0, 0, 0, 0, 0, 0, 0, 0, 0, 0, 0, 0, 0,
];

/// The text "A": its count, its marker, and its byte with the padding.
const MESSAGE: [u8; 24] = [
    1, 0, 0, 0, 0, 0, 0, 0, 255, 255, 255, 255, 255, 255, 255, 255, 0x41, 0, 0, 0, 0, 0, 0, 0,
];

/// What the notation writes of it.
const TEXT: [u8; 3] = *b"\"A\"";

/// Whether a sink of this much room, which takes one byte a call and goes wrong at a chosen call,
/// has taken the front of the text of this length, and the answer says whether that is all of it.
fn takes_front(
    view: View<'_, '_>,
    room: &mut [u8],
    refuses_at: Option<u64>,
    refusal: Refusal,
    front: usize,
) -> bool {
    let mut sink = TestSink::new(room, 1, refuses_at, refusal);
    let is_whole = dump(&view, &mut sink).is_ok();
    let taken = sink.contents();
    taken.len() == front && TEXT.starts_with(taken) && is_whole == (front == TEXT.len())
}

#[test]
fn each_write_fails_in_turn(rt: HostRuntime) -> Result<(), Fail> {
    let table = verify(&STRING)?;
    assert!(rt; table.entries() == 1);
    let mut scratch = Scratch::new(rt.alloc())?;
    let mut message = MESSAGE;
    let decoded = decode(&table, 0, &mut message, &[], &mut scratch)?;
    let view = decoded.view();
    for front in 0..4usize {
        let call = Some(front as u64);
        let mut room = [0u8; 8];
        assert!(rt; takes_front(view, &mut room, call, Refusal::Fails, front));
        assert!(rt; takes_front(view, &mut room, call, Refusal::TakesNone, front));
    }
    let mut room = [0u8; 2];
    assert!(rt; takes_front(view, &mut room, None, Refusal::Fails, 2));
    Ok(())
}

#[test]
fn a_tree_owns_its_text(rt: HostRuntime) -> Result<(), Fail> {
    let table = verify(&STRING)?;
    assert!(rt; table.entries() == 1);
    let mut scratch = Scratch::new(rt.alloc())?;
    let mut message = MESSAGE;
    let decoded = decode(&table, 0, &mut message, &[], &mut scratch)?;
    let tree = decoded.view().to_value(rt.alloc())?;
    let is_text = match &tree {
        Value::Text(bytes) => bytes.as_slice() == b"A".as_slice(),
        _ => false,
    };
    assert!(rt; is_text);
    Ok(())
}
