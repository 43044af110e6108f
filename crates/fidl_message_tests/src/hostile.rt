//! Messages of tables and unions that are cut, changed, or come with other handles.
use crate::envelopes::ENVELOPES;
use crate::judging::{Asked, Suite, judge_all};
use crate::reading::message_of;
use crate::showing::text;
use fidl_decode::{Scratch, decode};
use fidl_verify::Table;
use fidl_wire::HandleInfo;
use std::alloc::Global;
use std::test::Fail;

/// Whether a message of the first entry is refused. The buffer is left as it came.
fn is_refused(
    table: &Table<'_>,
    bytes: &mut [u8],
    handles: &[HandleInfo],
    scratch: &mut Scratch,
) -> bool {
    if table.entries() == 0 {
        return false;
    }
    match decode(table, 0, bytes, handles, scratch) {
        Ok(decoded) => {
            let _ = decoded.release();
            false
        }
        Err(_) => true,
    }
}

/// How many fronts of a message are refused.
fn refused_fronts(
    table: &Table<'_>,
    bytes: &mut [u8],
    handles: &[HandleInfo],
    scratch: &mut Scratch,
) -> u32 {
    let mut refused = 0u32;
    for length in 0..bytes.len() {
        if is_refused(table, &mut bytes[..length], handles, scratch) {
            refused = refused.saturating_add(1);
        }
    }
    refused
}

/// Whether a message is refused with no handle or one, if that is another number than it has.
fn others_are_refused(
    table: &Table<'_>,
    bytes: &mut [u8],
    count: usize,
    scratch: &mut Scratch,
) -> bool {
    let handles = [HandleInfo {
        id: 9,
        object_type: 3,
        rights: 1,
    }];
    (count == 0 || is_refused(table, bytes, &[], scratch))
        && (count == 1 || is_refused(table, bytes, &handles, scratch))
}

/// How many fronts of a message are refused, where it is decoded itself, and refused with another
/// number of handles.
pub(crate) fn fronts(
    alloc: Global,
    table: &Table<'_>,
    given: &str,
    scratch: &mut Scratch,
) -> Option<String> {
    let mut message = message_of(alloc, given)?;
    let (bytes, handles) = (message.bytes.as_mut_slice(), message.handles.as_slice());
    if message.entry != 0 || is_refused(table, bytes, handles, scratch) {
        return None;
    }
    if !others_are_refused(table, bytes, handles.len(), scratch) {
        return None;
    }
    text(alloc, Some(refused_fronts(table, bytes, handles, scratch)))
}

/// How many of the changes of a byte are refused, where the message itself is decoded after each.
fn refused_changes(table: &Table<'_>, bytes: &mut [u8], scratch: &mut Scratch) -> Option<u32> {
    let mut refused = 0u32;
    for at in 0..bytes.len() {
        let own = bytes[at];
        for byte in 0..=255 {
            bytes[at] = byte;
            if is_refused(table, bytes, &[], scratch) {
                refused = refused.saturating_add(1);
            }
            bytes[at] = own;
            if is_refused(table, bytes, &[], scratch) {
                return None;
            }
        }
    }
    Some(refused)
}

/// How many changes of a byte of a message are refused, where the message itself is decoded after
/// each.
pub(crate) fn changes(
    alloc: Global,
    table: &Table<'_>,
    given: &str,
    scratch: &mut Scratch,
) -> Option<String> {
    let mut message = message_of(alloc, given)?;
    if message.entry != 0 {
        return None;
    }
    text(
        alloc,
        refused_changes(table, message.bytes.as_mut_slice(), scratch),
    )
}

const SUITES: [Suite<'_>; 2] = [
    // No message is the front of another, and none of these is one with a handle more or less: a
    // number in its envelope, one with an absent envelope behind it, an unknown member in its
    // envelope, the text `hi`, and an unknown member behind the envelopes, with a handle.
    Suite {
        asked: Asked::Fronts,
        table: ENVELOPES,
        count: 5,
        cases: "
            0 0100000000000000 ffffffffffffffff 0500000000000100 -> 24
            0 0200000000000000 ffffffffffffffff 0500000000000100 0000000000000000 -> 32
            0 0300000000000000 ffffffffffffffff 0000000000000000 0000000000000000 0102030400000100 -> 40
            0 0200000000000000 ffffffffffffffff 0000000000000000 1800000000000000 0200000000000000 ffffffffffffffff 6869000000000000 -> 56
            0 0500000000000000 ffffffffffffffff 0000000000000000 0000000000000000 0000000000000000 0000000000000000 0800000001000000 1122334455667788 with 9:3:1 -> 64
        ",
    },
    // After each change of a byte of the text, whether it is decoded or refused, the message itself
    // is decoded. Of 56 * 255 other messages not refused are other ASCII characters at two bytes, 2
    // * 127, the text's counts 3 to 8, whose further characters are U+0000, and the flags 1 of the
    // first envelope, which make its zeros a member.
    Suite {
        asked: Asked::Changes,
        table: ENVELOPES,
        count: 1,
        cases: "
            0 0200000000000000 ffffffffffffffff 0000000000000000 1800000000000000 0200000000000000 ffffffffffffffff 6869000000000000 -> 14019
        ",
    },
];

#[test]
fn cut_and_changed_messages_are_refused(rt: HostRuntime) -> Result<(), Fail> {
    judge_all(&rt, rt.alloc(), &SUITES)
}
