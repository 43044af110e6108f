//! The owned trees of values: lists, members and contents.
use fidl_wire::{Bytes, Content, HandleInfo, Handles, Member, Members, Value, Values};
use std::alloc::{AllocError, Global};
use std::test::Fail;

const HANDLE: HandleInfo = HandleInfo {
    id: 9,
    object_type: 3,
    rights: 1,
};

/// An unknown member of four bytes, with a handle.
fn unknown(alloc: Global) -> Result<Member, AllocError> {
    let mut handles = Handles::new(alloc);
    handles.push(HANDLE)?;
    let mut bytes = Bytes::new(alloc);
    for byte in [1, 2, 3, 4] {
        bytes.push(byte)?;
    }
    Ok(Member::Unknown {
        inline: true,
        bytes,
        handles,
    })
}

/// The members 1, which is -7, and 3, which is unknown.
fn members(alloc: Global) -> Result<Members, AllocError> {
    let mut members = Members::new(alloc);
    members.push(1, Member::Known(Value::Number(-7)))?;
    members.push(3, unknown(alloc)?)?;
    Ok(members)
}

/// A bool, a table of these members, and a union.
fn values(alloc: Global) -> Result<Values, AllocError> {
    let mut values = Values::new(alloc);
    values.push(Value::Bool(true))?;
    let members = members(alloc)?;
    values.push(Value::Table { count: 3, members })?;
    values.push(Value::Union(1, Content::new(alloc, Member::Known(Value::Absent))?))?;
    Ok(values)
}

/// Whether a member is one of those above, under its ordinal.
fn is_member(ordinal: u64, member: &Member) -> bool {
    match member {
        Member::Known(Value::Number(number)) => ordinal == 1 && *number == -7,
        Member::Unknown {
            inline,
            bytes,
            handles,
        } => {
            ordinal == 3
                && *inline
                && bytes.as_slice() == [1, 2, 3, 4].as_slice()
                && handles.as_slice() == [HANDLE].as_slice()
        }
        _ => false,
    }
}

/// Whether members are those above.
fn are_members(members: &Members) -> bool {
    for (ordinal, member) in members.iter() {
        if !is_member(*ordinal, member) {
            return false;
        }
    }
    members.len() == 2 && !members.is_empty()
}

/// How many of some values are the table above.
fn tables(values: &Values) -> u32 {
    let mut found = 0u32;
    for value in values.iter() {
        if let Value::Table { count, members } = value {
            if *count == 3 && are_members(members) {
                found = found.saturating_add(1);
            }
        }
    }
    found
}

/// A tree is built from below, and its parts are found in order.
#[test]
fn a_tree_is_built_and_read(rt: HostRuntime) -> Result<(), Fail> {
    assert!(rt; Handles::new(rt.alloc()).is_empty());
    let values = values(rt.alloc())?;
    assert_eq!(rt; values.len(), 3);
    assert_eq!(rt; tables(&values), 1);
    Ok(())
}

/// Whether bytes that are made of a `Vec` give it back.
fn bytes_back(alloc: Global) -> Result<bool, AllocError> {
    let bytes = Bytes::from_vec([5, 6].to_vec(alloc)?).into_vec();
    Ok(bytes.as_slice() == [5, 6].as_slice())
}

/// Whether handles that are made of a `Vec` give it back.
fn handles_back(alloc: Global) -> Result<bool, AllocError> {
    let handles = Handles::from_vec([HANDLE].to_vec(alloc)?).into_vec();
    Ok(handles.as_slice() == [HANDLE].as_slice())
}

/// How many values a list of one gives back.
fn values_back(alloc: Global) -> Result<usize, AllocError> {
    let mut items = Vec::new(alloc);
    items.push(Value::Bool(false))?;
    Ok(Values::from_vec(items).into_vec().len())
}

/// How many members a list of one gives back.
fn members_back(alloc: Global) -> Result<usize, AllocError> {
    let mut entries = Vec::new(alloc);
    entries.push((2, Member::Known(Value::Absent)))?;
    Ok(Members::from_vec(entries).into_vec().len())
}

/// Whether a content gives the member that it was made of.
fn is_content(alloc: Global) -> Result<bool, AllocError> {
    let content = Content::new(alloc, Member::Known(Value::Number(4)))?;
    let is_there = matches!(content.member(), Member::Known(Value::Number(4)));
    Ok(is_there && matches!(content.into_member(), Member::Known(Value::Number(4))))
}

/// Lists of values and members that are made of a `Vec` give that `Vec` back, and a content its
/// member.
#[test]
fn lists_give_their_vec_back(rt: HostRuntime) -> Result<(), Fail> {
    assert_eq!(rt; values_back(rt.alloc())?, 1);
    assert_eq!(rt; members_back(rt.alloc())?, 1);
    assert!(rt; is_content(rt.alloc())?);
    Ok(())
}
