//! What stands in a buffer while its message is decoded, and that it is as it came afterwards.
use crate::bytes::bytes_of;
use crate::envelopes::ENVELOPES;
use fidl_decode::{DecodeFault, Scratch, decode};
use fidl_verify::verify;
use fidl_wire::HandleInfo;
use std::test::Fail;

/// A table of five envelopes. The last is that of an unknown member of eight bytes and a handle.
const MEMBER: [u8; 64] = [
    5, 0, 0, 0, 0, 0, 0, 0, 255, 255, 255, 255, 255, 255, 255, 255, 0, 0, 0, 0, 0, 0, 0, 0, 0, 0,
    0, 0, 0, 0, 0, 0, 0, 0, 0, 0, 0, 0, 0, 0, 0, 0, 0, 0, 0, 0, 0, 0, 8, 0, 0, 0, 1, 0, 0, 0, 0x11,
    0x22, 0x33, 0x44, 0x55, 0x66, 0x77, 0x88,
];

/// The handle of its member.
const HANDLE: HandleInfo = HandleInfo {
    id: 9,
    object_type: 3,
    rights: 1,
};

#[test]
fn links_stand_in_a_decoded_message(rt: HostRuntime) -> Result<(), Fail> {
    let bytes = bytes_of(rt.alloc(), ENVELOPES, "").ok_or("memory")?;
    let table = verify(&bytes)?;
    assert!(rt; 0 < table.entries());
    let mut scratch = Scratch::new(rt.alloc())?;
    let mut message = MEMBER;
    let decoded = decode(&table, 0, &mut message, &[HANDLE], &mut scratch)?;
    // The marker's object is at 16. The member is at 56, and has one eight of bytes and one handle,
    // from the first on.
    let raw = decoded.links().raw();
    assert!(rt; raw[8..16] == [16, 0, 0, 0, 0, 0, 0, 0]);
    assert!(rt; raw[48..56] == [7, 0, 0, 1, 0, 0, 1, 0]);
    assert!(rt; raw[..8] == MEMBER[..8]);
    assert!(rt; raw[16..48] == MEMBER[16..48]);
    assert!(rt; raw[56..] == MEMBER[56..]);
    assert!(rt; &*decoded.release() == MEMBER.as_slice());
    assert!(rt; message == MEMBER);
    Ok(())
}

#[test]
fn a_refusal_takes_the_links_out(rt: HostRuntime) -> Result<(), Fail> {
    let bytes = bytes_of(rt.alloc(), ENVELOPES, "").ok_or("memory")?;
    let table = verify(&bytes)?;
    assert!(rt; 0 < table.entries());
    let mut scratch = Scratch::new(rt.alloc())?;
    let mut message = MEMBER;
    let refused = decode(&table, 0, &mut message, &[HANDLE, HANDLE], &mut scratch).err();
    assert!(rt; refused == Some(DecodeFault::HandlesLeft { at: 64 }));
    assert!(rt; message == MEMBER);
    Ok(())
}

#[test]
fn one_scratch_serves_a_thousand_messages(rt: HostRuntime) -> Result<(), Fail> {
    let bytes = bytes_of(rt.alloc(), ENVELOPES, "").ok_or("memory")?;
    let table = verify(&bytes)?;
    assert!(rt; 0 < table.entries());
    let mut scratch = Scratch::new(rt.alloc())?;
    let mut message = MEMBER;
    for round in 0..1_000usize {
        // The whole message is accepted, and each of its fronts is refused.
        let size = 64 - 8 * (round % 9);
        let front = &mut message[..size];
        match decode(&table, 0, front, &[HANDLE], &mut scratch) {
            Ok(decoded) => assert!(rt; size == 64 && &*decoded.release() == MEMBER.as_slice()),
            Err(_) => assert!(rt; size < 64),
        }
        assert!(rt; message == MEMBER);
    }
    Ok(())
}
