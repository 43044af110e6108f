//! The words of texts, and the places of faults.
use fidl_reading::{NotationFault, words_of};
use std::alloc::Global;
use std::str::from_utf8;
use std::test::Fail;

/// The words of a text with a blank behind each, and where they end; or the fault.
fn shown(alloc: Global, text: &[u8]) -> Option<String> {
    match words_of(alloc, text) {
        Ok(cut) => {
            let mut shown = String::new(alloc);
            for word in &cut.words {
                let part = format!(in alloc; "{}:{} ", word.at, from_utf8(word.text).ok()?).ok()?;
                shown.push_str(&part).ok()?;
            }
            let part = format!(in alloc; "{}", cut.end).ok()?;
            shown.push_str(&part).ok()?;
            Some(shown)
        }
        Err(fault) => fault_text(alloc, fault),
    }
}

/// A fault's number, name and place.
fn fault_text(alloc: Global, fault: NotationFault) -> Option<String> {
    let at = fault.at()?;
    format!(in alloc; "{} {} at {}", fault.number(), fault.name(), at).ok()
}

#[test]
fn words_stand_where_they_are(rt: HostRuntime) -> Result<(), Fail> {
    let text = shown(rt.alloc(), b"{x: -1,\t\"a b\\\"\"}\n").unwrap_or(String::new(rt.alloc()));
    assert_eq!(rt; text.as_str(), "0:{ 1:x 2:: 4:-1 6:, 8:\"a b\\\"\" 15:} 17");
    Ok(())
}

#[test]
fn bad_strings_end_the_words(rt: HostRuntime) -> Result<(), Fail> {
    let alloc = rt.alloc();
    let open = shown(alloc, b"[\"abc").unwrap_or(String::new(alloc));
    assert_eq!(rt; open.as_str(), "0:[ 1");
    let line = shown(alloc, b"\"a\nb\"").unwrap_or(String::new(alloc));
    assert_eq!(rt; line.as_str(), "0");
    let surrogate = shown(alloc, b"\"\\u{D800}\"").unwrap_or(String::new(alloc));
    assert_eq!(rt; surrogate.as_str(), "0");
    let last = shown(alloc, b"\"\\u{10FFFF}\"").unwrap_or(String::new(alloc));
    assert_eq!(rt; last.as_str(), "0:\"\\u{10FFFF}\" 12");
    Ok(())
}

#[test]
fn bytes_that_are_not_utf8_are_told(rt: HostRuntime) -> Result<(), Fail> {
    let text = shown(rt.alloc(), b"\"ab\xff\"").unwrap_or(String::new(rt.alloc()));
    assert_eq!(rt; text.as_str(), "1 Syntax at 3");
    Ok(())
}

#[test]
fn the_bracket_beyond_the_limit_is_told(rt: HostRuntime) -> Result<(), Fail> {
    let mut text: Vec<u8> = Vec::new(rt.alloc());
    text.resize(4096, b'[')?;
    let within = shown(rt.alloc(), &text).unwrap_or(String::new(rt.alloc()));
    assert!(rt; within.ends_with(" 4096"));
    text.push(b'{')?;
    let beyond = shown(rt.alloc(), &text).unwrap_or(String::new(rt.alloc()));
    assert_eq!(rt; beyond.as_str(), "1 Syntax at 4096");
    Ok(())
}
