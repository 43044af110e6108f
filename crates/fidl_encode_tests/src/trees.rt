//! How cases write values.
//!
//! `absent`, `true`, `number -1`, `text 6869`, `long 65520` (so many bytes), `list 1 2`, `fields 1
//! 2`, `handles 64` (a list of so many), `boxes 33` (a struct with so many boxes behind one
//! another), `table 5 1=5 3:in:01020304` (the count, a known number, and an unknown member with one
//! handle) and `union 1=7`.
use fidl_wire::{Bytes, Content, HandleInfo, Handles, Member, Members, Value, Values};
use std::alloc::Global;

/// The handle of this number.
fn handle(id: u32) -> HandleInfo {
    HandleInfo {
        id,
        object_type: 3,
        rights: 1,
    }
}

/// The bytes that a text says in hexadecimal digits.
fn bytes(alloc: Global, text: &str) -> Option<Bytes> {
    Some(Bytes::from_vec(hex::decode(alloc, text).ok()?))
}

/// So many bytes.
fn long(alloc: Global, count: usize) -> Option<Bytes> {
    let mut items = Vec::new(alloc);
    items.resize(count, b'a').ok()?;
    Some(Bytes::from_vec(items))
}

/// Numbers, one behind the other.
fn numbers(alloc: Global, text: &str) -> Option<Values> {
    let mut values = Values::new(alloc);
    for word in text.split_whitespace() {
        let number = word.parse::<i64>().ok()?;
        values.push(Value::Number(i128::from(number))).ok()?;
    }
    Some(values)
}

/// So many handles.
fn handles(alloc: Global, count: u32) -> Option<Values> {
    let mut values = Values::new(alloc);
    for id in 0..count {
        values.push(Value::Handle(handle(id))).ok()?;
    }
    Some(values)
}

/// A struct of one member.
fn struct_of(alloc: Global, value: Value) -> Option<Value> {
    let mut values = Values::new(alloc);
    values.push(value).ok()?;
    Some(Value::Fields(values))
}

/// A struct with so many present boxes behind one another.
fn boxes(alloc: Global, count: u32) -> Option<Value> {
    let mut value = struct_of(alloc, Value::Absent)?;
    for _ in 0..count {
        value = struct_of(alloc, value)?;
    }
    Some(value)
}

/// An unknown member of these bytes and one handle.
fn unknown(alloc: Global, inline: bool, text: &str) -> Option<Member> {
    let mut handles = Handles::new(alloc);
    handles.push(handle(9)).ok()?;
    Some(Member::Unknown {
        inline,
        bytes: bytes(alloc, text)?,
        handles,
    })
}

/// A member behind its ordinal.
fn member(alloc: Global, word: &str) -> Option<(u64, Member)> {
    if let Some((ordinal, number)) = word.split_once('=') {
        let number = number.parse::<i64>().ok()?;
        return Some((
            ordinal.parse().ok()?,
            Member::Known(Value::Number(i128::from(number))),
        ));
    }
    let (ordinal, rest) = word.split_once(':')?;
    let (place, text) = rest.split_once(':')?;
    let member = unknown(alloc, place == "in", text)?;
    Some((ordinal.parse().ok()?, member))
}

/// A table: its count, and its members.
fn table(alloc: Global, text: &str) -> Option<Value> {
    let (count, rest) = text.split_once(' ')?;
    let mut members = Members::new(alloc);
    for word in rest.split_whitespace() {
        let (ordinal, member) = member(alloc, word)?;
        members.push(ordinal, member).ok()?;
    }
    Some(Value::Table {
        count: count.parse().ok()?,
        members,
    })
}

/// A union of a member.
fn union(alloc: Global, text: &str) -> Option<Value> {
    let (ordinal, member) = member(alloc, text)?;
    Some(Value::Union(ordinal, Content::new(alloc, member).ok()?))
}

/// The value that a text says; nothing where it says none, or memory ran out.
pub(crate) fn value_of(alloc: Global, text: &str) -> Option<Value> {
    let (kind, rest) = text.split_once(' ').unwrap_or((text, ""));
    match kind {
        "absent" => Some(Value::Absent),
        "true" => Some(Value::Bool(true)),
        "number" => Some(Value::Number(i128::from(rest.parse::<i64>().ok()?))),
        "text" => Some(Value::Text(bytes(alloc, rest)?)),
        "long" => Some(Value::Text(long(alloc, rest.parse().ok()?)?)),
        "list" => Some(Value::List(numbers(alloc, rest)?)),
        "fields" => Some(Value::Fields(numbers(alloc, rest)?)),
        "handles" => Some(Value::List(handles(alloc, rest.parse().ok()?)?)),
        "boxes" => boxes(alloc, rest.parse().ok()?),
        "table" => table(alloc, rest),
        "union" => union(alloc, rest),
        _ => None,
    }
}
