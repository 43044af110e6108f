//! What the views of a message show, as text.
//!
//! A claim such as `it.f0.e2.u64=3` has a path, a call and what it answers. A path begins with
//! `it`, the view of the message. `f0` is a struct's member, by its place; `e2` an element; `g2`
//! the element that the iterator gives third; `n2` the member of a struct that its iterator gives
//! third; `m5` the member of a table with the ordinal 5; `v` a union's member. The calls are named below. Each answers `none` where it has nothing to give, or
//! its path leads nowhere.
use fidl_view::{Unknown, View};
use fidl_wire::HandleInfo;
use std::alloc::Global;
use std::fmt::Display;

/// What stands at a step of a path. The outer `None` says that the step has no meaning.
fn step<'v, 'm>(part: View<'v, 'm>, word: &str) -> Option<Option<View<'v, 'm>>> {
    if let Some(at) = word.strip_prefix('f') {
        return Some(part.field(at.parse().ok()?));
    }
    if let Some(at) = word.strip_prefix('e') {
        return Some(part.element(at.parse().ok()?));
    }
    if let Some(ordinal) = word.strip_prefix('m') {
        return Some(part.member(ordinal.parse().ok()?));
    }
    other_step(part, word)
}

/// The same for the other steps.
fn other_step<'v, 'm>(part: View<'v, 'm>, word: &str) -> Option<Option<View<'v, 'm>>> {
    if let Some(at) = word.strip_prefix('g') {
        return Some(given(part, at.parse().ok()?));
    }
    if let Some(at) = word.strip_prefix('n') {
        return Some(listed(part, at.parse().ok()?));
    }
    match word {
        "it" => Some(Some(part)),
        "v" => match part.variant() {
            Some((_, member)) => Some(member),
            None => Some(None),
        },
        _ => None,
    }
}

/// What the iterator over the elements gives after so many calls, whatever it gave before.
fn given<'v, 'm>(part: View<'v, 'm>, calls: u64) -> Option<View<'v, 'm>> {
    let mut elements = part.elements();
    for _ in 0..calls {
        let _before = elements.next();
    }
    elements.next()
}

/// What the iterator over a struct's members gives after so many calls, whatever it gave before.
fn listed<'v, 'm>(part: View<'v, 'm>, calls: u64) -> Option<View<'v, 'm>> {
    let mut members = part.members()?.fields();
    for _ in 0..calls {
        let _before = members.next();
    }
    members.next()
}

/// What stands at the end of a path.
fn reach<'v, 'm>(view: View<'v, 'm>, steps: &str) -> Option<Option<View<'v, 'm>>> {
    let mut part = Some(view);
    for word in steps.split('.') {
        part = match part {
            Some(holder) => step(holder, word)?,
            None => None,
        };
    }
    Some(part)
}

/// An answer as text.
pub(crate) fn text<T: Display + Drop>(alloc: Global, answer: Option<T>) -> Option<String> {
    match answer {
        Some(value) => format!(in alloc; "{value}").ok(),
        None => format!(in alloc; "none").ok(),
    }
}

/// A handle as text.
fn record_text(alloc: Global, handle: HandleInfo) -> Option<String> {
    format!(in alloc; "{}:{}:{}", handle.id, handle.object_type, handle.rights).ok()
}

/// An unknown member as text: where its bytes stand, the bytes, and its handles.
fn unknown_text(alloc: Global, member: Unknown<'_>) -> Option<String> {
    let bytes = hex::encode(alloc, member.bytes).ok()?;
    let place = if member.inline { "in" } else { "out" };
    let mut text = format!(in alloc; "{place}/{bytes}").ok()?;
    for handle in member.handles {
        text.push('/').ok()?;
        text.push_str(record_text(alloc, *handle)?.as_str()).ok()?;
    }
    Some(text)
}

/// What a call answers: a number, a bool, a text or a length.
fn answer(alloc: Global, part: View<'_, '_>, call: &str) -> Option<String> {
    match call {
        "u64" => text(alloc, part.as_u64()),
        "i64" => text(alloc, part.as_i64()),
        "bool" => text(alloc, part.as_bool()),
        "str" => text(alloc, part.as_str()),
        "len" => text(alloc, part.len()),
        "absent" => text(alloc, Some(part.is_absent())),
        _ => other_answer(alloc, part, call),
    }
}

/// The bytes of a list or a text.
fn bytes_text(alloc: Global, part: View<'_, '_>) -> Option<String> {
    match part.as_bytes() {
        Some(bytes) => hex::encode(alloc, bytes).ok(),
        None => text::<u64>(alloc, None),
    }
}

/// The record of a handle.
fn handle_text(alloc: Global, part: View<'_, '_>) -> Option<String> {
    match part.handle() {
        Some(handle) => record_text(alloc, handle),
        None => text::<u64>(alloc, None),
    }
}

/// The ordinal of a union's member.
fn variant_text(alloc: Global, part: View<'_, '_>) -> Option<String> {
    match part.variant() {
        Some((ordinal, _)) => text(alloc, Some(ordinal)),
        None => text::<u64>(alloc, None),
    }
}

/// The unknown member of an ordinal.
fn unknown_at(alloc: Global, part: View<'_, '_>, ordinal: &str) -> Option<String> {
    match part.unknown(ordinal.parse().ok()?) {
        Some(member) => unknown_text(alloc, member),
        None => text::<u64>(alloc, None),
    }
}

/// What the other calls answer: bytes, handles and what they are granted, the number of elements
/// that are given, the ordinal of a union's member, and of an unknown member, as in `?5`, all.
fn other_answer(alloc: Global, part: View<'_, '_>, call: &str) -> Option<String> {
    match call {
        "bytes" => bytes_text(alloc, part),
        "handle" => handle_text(alloc, part),
        "variant" => variant_text(alloc, part),
        "granted" => text(alloc, part.granted()),
        "count" => text(alloc, Some(part.elements().count())),
        "there" => text(alloc, Some("yes")),
        _ => unknown_at(alloc, part, call.strip_prefix('?')?),
    }
}

/// Whether a call has a meaning.
fn is_call(call: &str) -> bool {
    match call {
        "u64" | "i64" | "bool" | "str" | "len" | "absent" => true,
        "bytes" | "handle" | "variant" | "granted" | "count" | "there" => true,
        _ => call.starts_with('?'),
    }
}

/// What the call at the end of a path answers; nothing where the path or the call has no meaning.
fn shown(alloc: Global, view: View<'_, '_>, path: &str) -> Option<String> {
    let (steps, call) = path.rsplit_once('.')?;
    match reach(view, steps)? {
        Some(part) => answer(alloc, part, call),
        None => {
            if is_call(call) {
                text::<u64>(alloc, None)
            } else {
                None
            }
        }
    }
}

/// The claim that begins as this one does, with what the view shows.
fn claim(alloc: Global, view: View<'_, '_>, word: &str) -> Option<String> {
    let (path, _) = word.split_once('=')?;
    let answer = shown(alloc, view, path)?;
    format!(in alloc; "{path}={}", answer.as_str()).ok()
}

/// The claims, where all of them hold, or the first that does not with what the view shows;
/// `decoded` claims nothing.
pub(crate) fn claims(alloc: Global, view: View<'_, '_>, wanted: &str) -> Option<String> {
    if wanted.is_empty() {
        return None;
    }
    if wanted != "decoded" {
        for word in wanted.split_whitespace() {
            let found = claim(alloc, view, word)?;
            if found.as_str() != word {
                return Some(found);
            }
        }
    }
    format!(in alloc; "{wanted}").ok()
}
