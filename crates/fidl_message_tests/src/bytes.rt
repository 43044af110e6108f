//! How tables of cases write bytes and handles.
//!
//! Bytes are words between spaces, read one after the other. A word of hexadecimal digits is its
//! bytes, and `01,02*3` is `01 02` three times. In such a run `7801000000000000:-24` is a number of
//! 64 bits, the last byte the greatest, which changes by -24 from one time to the next. The word
//! `30=05ff` writes bytes over those from place 30 on, and `..28` leaves the first 28. A handle is
//! `9:3:1`, its id, its object type and its rights, and `9:3:1*65` is 65 of it.
use fidl_wire::HandleInfo;
use hex::FromHex;
use std::alloc::Global;

/// What is repeated in a word, and how often.
fn repeated(word: &str) -> Option<(&str, u64)> {
    match word.split_once('*') {
        Some((once, count)) => Some((once, count.parse().ok()?)),
        None => Some((word, 1)),
    }
}

/// A part of a run: bytes, or a number of 64 bits that changes by a step from one time to the next.
#[derive(Drop)]
enum Part {
    Bytes(Vec<u8>),
    Number { first: u64, step: u64 },
}

/// The part that a text says.
fn part_of(alloc: Global, text: &str) -> Option<Part> {
    match text.split_once(':') {
        Some((first, step)) => Some(Part::Number {
            first: u64::from_le_bytes(<[u8; 8] as FromHex>::from_hex(first).ok()?),
            step: step.parse::<i64>().ok()?.cast_unsigned(),
        }),
        None => Some(Part::Bytes(hex::decode(alloc, text).ok()?)),
    }
}

/// The parts that a text says, with `,` between them.
fn parts(alloc: Global, text: &str) -> Option<Vec<Part>> {
    let mut found = Vec::new(alloc);
    for text in text.split(',') {
        found.push(part_of(alloc, text)?).ok()?;
    }
    Some(found)
}

/// Adds a part for the turn of this number.
fn push_part(bytes: &mut Vec<u8>, part: &Part, turn: u64) -> Option<()> {
    match part {
        Part::Bytes(same) => bytes.extend_from_slice(same.as_slice()).ok(),
        Part::Number { first, step } => {
            let number = first.wrapping_add(step.wrapping_mul(turn));
            bytes.extend_from_slice(&number.to_le_bytes()).ok()
        }
    }
}

/// Adds a run.
fn push_run(bytes: &mut Vec<u8>, alloc: Global, word: &str) -> Option<()> {
    let (once, count) = repeated(word)?;
    let parts = parts(alloc, once)?;
    for turn in 0..count {
        for part in &parts {
            push_part(bytes, part, turn)?;
        }
    }
    Some(())
}

/// Writes bytes over those that stand from a place on.
fn overwrite(bytes: &mut Vec<u8>, alloc: Global, place: &str, text: &str) -> Option<()> {
    let mut at = place.parse::<usize>().ok()?;
    for byte in hex::decode(alloc, text).ok()?.as_slice() {
        *bytes.get_mut(at)? = *byte;
        at = at.checked_add(1)?;
    }
    Some(())
}

/// Leaves so many of the bytes.
fn cut(bytes: &mut Vec<u8>, length: &str) -> Option<()> {
    let length = length.parse::<usize>().ok()?;
    if bytes.len() < length {
        return None;
    }
    bytes.truncate(length);
    Some(())
}

/// Reads a word.
fn push_word(bytes: &mut Vec<u8>, alloc: Global, word: &str) -> Option<()> {
    if let Some(length) = word.strip_prefix("..") {
        return cut(bytes, length);
    }
    match word.split_once('=') {
        Some((place, text)) => overwrite(bytes, alloc, place, text),
        None => push_run(bytes, alloc, word),
    }
}

/// The bytes that a text says behind those of another; nothing where it has a word that is none of
/// these, or memory ran out.
pub fn bytes_of(alloc: Global, base: &str, text: &str) -> Option<Vec<u8>> {
    let mut bytes = Vec::new(alloc);
    for word in base.split_whitespace().chain(text.split_whitespace()) {
        push_word(&mut bytes, alloc, word)?;
    }
    Some(bytes)
}

/// The record of a handle.
fn record(text: &str) -> Option<HandleInfo> {
    let (id, rest) = text.split_once(':')?;
    let (object_type, rights) = rest.split_once(':')?;
    Some(HandleInfo {
        id: id.parse().ok()?,
        object_type: object_type.parse().ok()?,
        rights: rights.parse().ok()?,
    })
}

/// The records that a text says; nothing where it has a word that is none, or memory ran out.
pub fn records_of(alloc: Global, text: &str) -> Option<Vec<HandleInfo>> {
    let mut handles = Vec::new(alloc);
    for word in text.split_whitespace() {
        let (once, count) = repeated(word)?;
        for _ in 0..count {
            handles.push(record(once)?).ok()?;
        }
    }
    Some(handles)
}

#[cfg(test)]
mod tests;
