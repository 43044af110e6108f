//! Messages of the greatest length, 16,777,216 bytes, and of one byte more.
use crate::bytes::bytes_of;
use crate::steps::TEXT;
use fidl_decode::{DecodeFault, Scratch, attempt, decode};
use fidl_verify::verify;
use fidl_view::Views;
use fidl_wire::HandleInfo;
use std::test::Fail;

/// `struct {v vector<box<struct {x bool;}>>;}`.
const BOXES: &str = "
    46435432 0100 0000 05000000 02000000 00000000 00000000 00000000 00000000 01000000 00000000
    10 00 08 01 10000000 00000000 01000000 0000000000000000 00000000 00000000 00000000 00000000
    0d 00 08 00 10000000 02000000 00000000 ffffffff00000000 00000000 00000000 00000000 00000000
    0f 00 08 00 08000000 03000000 00000000 0000000000000000 00000000 00000000 00000000 00000000
    10 00 01 01 01000000 01000000 01000000 0000000000000000 00000000 00000000 00000000 00000000
    01 00 01 00 01000000 00000000 00000000 0000000000000000 00000000 00000000 00000000 00000000
    00000000 01000000 00000000 01000000
    00000000 04000000 00000000 01000000
    61
";

/// A text of 16,777,200 bytes, behind its count and its marker.
const LONGEST: &str = "f0ffff0000000000 ffffffffffffffff 6161616161616161*2097150";

/// 1,048,575 boxes. Each has a bool and seven bytes of padding, of which the very last is 9.
const MANY_BOXES: &str = "
    ffff0f0000000000 ffffffffffffffff ffffffffffffffff*1048575
    0100000000000000*1048574 0100000000000009
";

/// A handle.
const HANDLE: HandleInfo = HandleInfo {
    id: 1,
    object_type: 3,
    rights: 0,
};

#[test]
fn the_longest_text_is_decoded(rt: HostRuntime) -> Result<(), Fail> {
    let bytes = bytes_of(rt.alloc(), TEXT, "").ok_or("memory")?;
    let table = verify(&bytes)?;
    assert!(rt; 0 < table.entries());
    let mut scratch = Scratch::new(rt.alloc())?;
    let mut message = bytes_of(rt.alloc(), LONGEST, "").ok_or("memory")?;
    assert_eq!(rt; message.len(), 16_777_216);
    let decoded = decode(&table, 0, &mut message, &[], &mut scratch)?;
    let view = decoded.view();
    let text = view.field(0).ok_or("no member")?.as_str().ok_or("no text")?;
    assert!(rt; text.len() == 16_777_200 && text.bytes().all(|byte| byte == b'a'));
    let _ = decoded.release();
    let came = bytes_of(rt.alloc(), LONGEST, "").ok_or("memory")?;
    assert!(rt; message.as_slice() == came.as_slice());
    Ok(())
}

#[test]
fn a_byte_more_is_too_long(rt: HostRuntime) -> Result<(), Fail> {
    let bytes = bytes_of(rt.alloc(), TEXT, "").ok_or("memory")?;
    let table = verify(&bytes)?;
    assert!(rt; 0 < table.entries());
    let mut scratch = Scratch::new(rt.alloc())?;
    let mut message = bytes_of(rt.alloc(), LONGEST, "00").ok_or("memory")?;
    assert_eq!(rt; message.len(), 16_777_217);
    // It is reported before the handles are counted, and takes no step.
    match attempt(&table, 0, &mut message, &[HANDLE; 65], &mut scratch) {
        Ok(_) => return Err("decoded".into()),
        Err(refused) => {
            assert!(rt; refused.fault == DecodeFault::TooLong { at: 0 });
            assert!(rt; refused.room.steps() == 0);
        }
    }
    let came = bytes_of(rt.alloc(), LONGEST, "00").ok_or("memory")?;
    assert!(rt; message.as_slice() == came.as_slice());
    Ok(())
}

#[test]
fn a_refusal_at_the_last_byte_takes_a_million_links_out(rt: HostRuntime) -> Result<(), Fail> {
    let bytes = bytes_of(rt.alloc(), BOXES, "").ok_or("memory")?;
    let table = verify(&bytes)?;
    assert!(rt; 0 < table.entries());
    let mut scratch = Scratch::new(rt.alloc())?;
    let mut message = bytes_of(rt.alloc(), MANY_BOXES, "").ok_or("memory")?;
    assert_eq!(rt; message.len(), 16_777_216);
    let refused = decode(&table, 0, &mut message, &[], &mut scratch).err();
    assert!(rt; refused == Some(DecodeFault::Padding { at: 16_777_215 }));
    let came = bytes_of(rt.alloc(), MANY_BOXES, "").ok_or("memory")?;
    assert!(rt; message.as_slice() == came.as_slice());
    // With its last byte 0 it is decoded, and given back.
    if let Some(last) = message.last_mut() {
        *last = 0;
    }
    let decoded = decode(&table, 0, &mut message, &[], &mut scratch)?;
    let _ = decoded.release();
    if let Some(last) = message.last_mut() {
        *last = 9;
    }
    assert!(rt; message.as_slice() == came.as_slice());
    Ok(())
}
