//! What single words stand for.
use fidl_reading::{Word, number_of, text_of};
use fidl_table_format::EntryKind;
use std::alloc::Global;
use std::test::Fail;

/// A number of a kind that a word at place 7 writes, or the fault's number and place.
fn number_shown(alloc: Global, text: &[u8], kind: EntryKind) -> Option<String> {
    let word = Word { at: 7, text };
    match number_of(&word, kind) {
        Ok(number) => format!(in alloc; "{}", i64::try_from(number).ok()?).ok(),
        Err(fault) => {
            let at = fault.at()?;
            format!(in alloc; "{} {} at {}", fault.number(), fault.name(), at).ok()
        }
    }
}

#[test]
fn numbers_are_those_of_their_kind(rt: HostRuntime) -> Result<(), Fail> {
    let alloc = rt.alloc();
    let least = number_shown(alloc, b"-128", EntryKind::Int8).unwrap_or(String::new(alloc));
    assert_eq!(rt; least.as_str(), "-128");
    let below = number_shown(alloc, b"-129", EntryKind::Int8).unwrap_or(String::new(alloc));
    assert_eq!(rt; below.as_str(), "3 OutOfRange at 7");
    let zero = number_shown(alloc, b"-000", EntryKind::Uint64).unwrap_or(String::new(alloc));
    assert_eq!(rt; zero.as_str(), "0");
    let name = number_shown(alloc, b"12x", EntryKind::Uint64).unwrap_or(String::new(alloc));
    assert_eq!(rt; name.as_str(), "1 Syntax at 7");
    Ok(())
}

#[test]
fn long_numbers_are_judged(rt: HostRuntime) -> Result<(), Fail> {
    let alloc = rt.alloc();
    let mut digits: Vec<u8> = Vec::new(alloc);
    digits.resize(1000, b'0')?;
    digits.push(b'9')?;
    let nine = number_shown(alloc, &digits, EntryKind::Uint8).unwrap_or(String::new(alloc));
    assert_eq!(rt; nine.as_str(), "9");
    let mut nines: Vec<u8> = Vec::new(alloc);
    nines.resize(1000, b'9')?;
    let beyond = number_shown(alloc, &nines, EntryKind::Int64).unwrap_or(String::new(alloc));
    assert_eq!(rt; beyond.as_str(), "3 OutOfRange at 7");
    Ok(())
}

#[test]
fn escapes_stand_for_their_bytes(rt: HostRuntime) -> Result<(), Fail> {
    let alloc = rt.alloc();
    let found = text_of(alloc, b"\"a\\\\n\\n\\u{E9}\\u{0}\"")?;
    let is = match &found {
        Some(bytes) => bytes.as_slice() == b"a\\n\n\xc3\xa9\x00".as_slice(),
        None => false,
    };
    assert!(rt; is);
    let open = text_of(alloc, b"\"a\\\"")?;
    assert!(rt; open.is_none());
    Ok(())
}
