//! What `verify` answers to tables, to their fronts, and to changes of each byte.
use crate::showing::text;
use fidl_verify::verify;
use std::alloc::Global;

/// The number of entries of a table that is accepted, or the fault's number, name and place.
pub(crate) fn verdict(alloc: Global, bytes: &[u8]) -> Option<String> {
    match verify(bytes) {
        Ok(table) => format!(in alloc; "accepted {}", table.entries()).ok(),
        Err(fault) => {
            format!(in alloc; "{} {} {}", fault.number(), fault.name(), fault.at()).ok()
        }
    }
}

/// The number and the place of the fault, or zeros where the table is accepted.
fn refusal(bytes: &[u8]) -> (u32, u32) {
    match verify(bytes) {
        Ok(_) => (0, 0),
        Err(fault) => (fault.number(), fault.at()),
    }
}

/// How many fronts of a table are truncated.
pub(crate) fn cuts(alloc: Global, bytes: &[u8]) -> Option<String> {
    let mut truncated = 0u32;
    for length in 0..bytes.len() {
        if refusal(&bytes[..length]) == (3, 0) {
            truncated = truncated.saturating_add(1);
        }
    }
    text(alloc, Some(truncated))
}

/// Whether the answer to a table with this byte changed is one that can be: a number of a fault,
/// and a record of five; another header is refused.
fn can_be((number, at): (u32, u32), place: usize, is_own: bool) -> bool {
    number <= 12 && at <= 5 && (is_own || 40 <= place || number != 0)
}

/// Whether another table is accepted, where each byte takes each value and the answer to each table
/// can be.
pub(crate) fn each_byte(alloc: Global, bytes: &mut [u8]) -> Option<String> {
    let mut another = false;
    for place in 0..bytes.len() {
        let own = bytes[place];
        for byte in 0..=255u8 {
            bytes[place] = byte;
            let answer = refusal(bytes);
            if !can_be(answer, place, byte == own) {
                return None;
            }
            another = another || (answer.0 == 0 && byte != own);
        }
        bytes[place] = own;
    }
    text(alloc, Some(another))
}
