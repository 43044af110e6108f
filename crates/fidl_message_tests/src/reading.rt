//! How the tables of cases write messages: the number of the entry, the bytes and, behind the word
//! `with`, the handles, as `bytes` reads them.
use crate::bytes::{bytes_of, records_of};
use fidl_wire::HandleInfo;
use std::alloc::Global;

/// A message of an entry's type.
#[derive(Drop)]
pub(crate) struct Message {
    pub(crate) entry: u32,
    pub(crate) bytes: Vec<u8>,
    pub(crate) handles: Vec<HandleInfo>,
}

/// The message that a text says.
pub(crate) fn message_of(alloc: Global, text: &str) -> Option<Message> {
    let (entry, rest) = text.split_once(' ')?;
    let (bytes, handles) = rest.split_once(" with ").unwrap_or((rest, ""));
    Some(Message {
        entry: entry.parse().ok()?,
        bytes: bytes_of(alloc, bytes, "")?,
        handles: records_of(alloc, handles)?,
    })
}

/// A case: its line, what is given, the changes of the table behind the word `by`, and the answer
/// that is wanted.
#[derive(Clone, Copy, Drop)]
pub(crate) struct Case<'a> {
    pub(crate) line: &'a str,
    pub(crate) given: &'a str,
    pub(crate) changes: &'a str,
    pub(crate) want: &'a str,
}

/// The case of a line. A line without `->` wants what nothing answers, so that it fails.
fn case_of(line: &str) -> Case<'_> {
    let (given, want) = line.split_once("->").unwrap_or((line, "no answer"));
    let (given, changes) = given.split_once(" by ").unwrap_or((given, ""));
    Case {
        line,
        given: given.trim(),
        changes,
        want: want.trim(),
    }
}

/// The cases of a text: one a line, with `->` before the answer, but for empty lines and those that
/// begin with `#`.
pub(crate) fn cases(alloc: Global, text: &str) -> Option<Vec<Case<'_>>> {
    let mut found = Vec::new(alloc);
    for line in text.lines() {
        let line = line.trim();
        if !line.is_empty() && !line.starts_with('#') {
            found.push(case_of(line)).ok()?;
        }
    }
    Some(found)
}
