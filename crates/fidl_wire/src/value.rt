//! The owned tree of a value, and the lists that it consists of.
ghost use Rattle.std.specs.Prelude.{◌≡◌, ◌↔◌, [], ◌∷◌, ◌++◌, length, map, IfOk, OnErr, IsTrue};
ghost use Rattle.std.specs.Slice.Iter.{iter_rest};
ghost use Rattle.fidl_wire.specs.Views.{content_view, entry_view, member_view, members_view};
ghost use Rattle.fidl_wire.specs.Views.{value_view, values_view};

use crate::bytes::Bytes;
use crate::handle::{HandleInfo, Handles};
use std::alloc::{AllocError, Global};
use std::slice::Iter;

/// A value of any FIDL type.
#[cycle(value)]
#[derive(Debug, Drop)]
pub enum Value {
    /// An absent string, vector, box, union or handle.
    Absent,
    /// A bool.
    Bool(bool),
    /// A number, bits or enum.
    Number(i128),
    /// A string, by its UTF-8 bytes.
    Text(Bytes),
    /// A vector or array.
    List(Values),
    /// A struct, or the struct in a present box: its members in order.
    Fields(Values),
    /// A present handle.
    Handle(HandleInfo),
    /// A table: how many envelopes it has, and its present members.
    Table { count: u64, members: Members },
    /// A present union: its ordinal and member.
    Union(u64, Content),
}

/// A member of a table or a union.
#[cycle(value)]
#[derive(Debug, Drop)]
pub enum Member {
    /// A member that the layout has.
    Known(Value),
    /// A member that the layout does not have, raw: the four bytes of an inline envelope or all
    /// bytes out of line, and its handles.
    Unknown {
        inline: bool,
        bytes: Bytes,
        handles: Handles,
    },
}

/// The elements of a list, or the fields of a struct.
#[cycle(value)]
#[derive(Debug, Drop)]
pub struct Values {
    items: Vec<Value>,
}

/// The members of a table, by rising ordinals.
#[cycle(value)]
#[derive(Debug, Drop)]
pub struct Members {
    entries: Vec<(u64, Member)>,
}

/// The member of a union.
#[cycle(value)]
#[derive(Debug, Drop)]
pub struct Content {
    member: Box<Member>,
}

impl Values {
    /// An empty list of values. It allocates nothing.
    pub fn new(alloc: Global) -> Values
        ensures { values_view result ≡ [] }
    {
        Values {
            items: Vec::new(alloc),
        }
    }

    /// The list of the values in a `Vec`, which it takes over.
    pub fn from_vec(items: Vec<Value>) -> Values
        ensures { values_view result ≡ map value_view items.items }
    {
        Values { items }
    }

    /// Returns the `Vec` of the values.
    pub fn into_vec(self) -> Vec<Value>
        ensures { map value_view result.items ≡ values_view self }
    {
        let Values { items } = self;
        items
    }

    /// Adds a value at the end. An error means that memory ran out; the values are then unchanged.
    pub fn push(&mut self, value: Value) -> Result<(), AllocError>
        ensures ok { IfOk result (λ _. values_view self.new ≡ values_view self.old
            ++ value_view value ∷ []) }
        ensures err { OnErr result (values_view self.new ≡ values_view self.old) }
    {
        self.items.push(value)?;
        Ok(())
    }

    /// The number of values.
    pub fn len(&self) -> usize
        ensures { result ≡ length (values_view self.now) }
    {
        self.items.len()
    }

    /// Whether the list is empty.
    pub fn is_empty(&self) -> bool
        ensures { IsTrue result ↔ (values_view self.now ≡ []) }
    {
        self.items.is_empty()
    }

    /// The values, in order.
    pub fn as_slice(&self) -> &[Value]
        ensures { map value_view result.now ≡ values_view self.now }
    {
        &self.items
    }

    /// An iterator over the values.
    pub fn iter(&self) -> Iter<'_, Value>
        ensures { map value_view (iter_rest result) ≡ values_view self.now }
    {
        self.items.iter()
    }
}

impl Members {
    /// An empty list of members. It allocates nothing.
    pub fn new(alloc: Global) -> Members
        ensures { members_view result ≡ [] }
    {
        Members {
            entries: Vec::new(alloc),
        }
    }

    /// The list of the members in a `Vec`, which it takes over.
    pub fn from_vec(entries: Vec<(u64, Member)>) -> Members
        ensures { members_view result ≡ map entry_view entries.items }
    {
        Members { entries }
    }

    /// Returns the `Vec` of the members.
    pub fn into_vec(self) -> Vec<(u64, Member)>
        ensures { map entry_view result.items ≡ members_view self }
    {
        let Members { entries } = self;
        entries
    }

    /// Adds a member at the end. An error means that memory ran out; the members are then
    /// unchanged.
    pub fn push(&mut self, ordinal: u64, member: Member) -> Result<(), AllocError>
        ensures ok { IfOk result (λ _. members_view self.new ≡ members_view self.old
            ++ (ordinal, member_view member) ∷ []) }
        ensures err { OnErr result (members_view self.new ≡ members_view self.old) }
    {
        self.entries.push((ordinal, member))?;
        Ok(())
    }

    /// The number of members.
    pub fn len(&self) -> usize
        ensures { result ≡ length (members_view self.now) }
    {
        self.entries.len()
    }

    /// Whether the list is empty.
    pub fn is_empty(&self) -> bool
        ensures { IsTrue result ↔ (members_view self.now ≡ []) }
    {
        self.entries.is_empty()
    }

    /// The members with their ordinals, in order.
    pub fn as_slice(&self) -> &[(u64, Member)]
        ensures { map entry_view result.now ≡ members_view self.now }
    {
        &self.entries
    }

    /// An iterator over the members with their ordinals.
    pub fn iter(&self) -> Iter<'_, (u64, Member)>
        ensures { map entry_view (iter_rest result) ≡ members_view self.now }
    {
        self.entries.iter()
    }
}

impl Content {
    /// The content of a union that has this member. An error means that memory ran out.
    pub fn new(alloc: Global, member: Member) -> Result<Content, AllocError>
        ensures { IfOk result (λ c. content_view c ≡ member_view member) }
    {
        Ok(Content {
            member: Box::new(alloc, member)?,
        })
    }

    /// The member.
    pub fn member(&self) -> &Member
        ensures { member_view result.now ≡ content_view self.now }
    {
        &self.member
    }

    /// Returns the member.
    pub fn into_member(self) -> Member
        ensures { member_view result ≡ content_view self }
    {
        Box::into_inner(self.member)
    }
}
