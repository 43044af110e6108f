//! The owned tree of the value that a view shows (docs/views.md).
ghost use Rattle.std.specs.Prelude.{◌≡◌, ◌++◌, ◌<◌, ◌≤◌, ◌+◌, ℕ, Bool, IfOk, IsSome, IsTrue};
ghost use Rattle.std.specs.Option.{option_map};
ghost use Rattle.fidl_wire.specs.Value.{Value as Data, unknown, union};
ghost use Rattle.fidl_wire.specs.Views.{value_view, member_view, members_view};
ghost use Rattle.fidl_wire.specs.Term as ty;
ghost use Rattle.fidl_wire.specs.Figure.{Declarations};
ghost use Rattle.fidl_table_format.specs.declared.kind.EntryKind.TheVariants as EntryKind;
ghost use Rattle.fidl_table_format.specs.Section.{header_of, entry_at};
ghost use Rattle.fidl_table_format.specs.Terms.{declarations_of};
ghost use Rattle.fidl_table_format.specs.Entry.{IsOf, kind_is};
ghost use Rattle.fidl_table_format.specs.Uses.{uses_ordinals};
ghost use Rattle.fidl_table_format.specs.WellFormed.{WellFormed};
ghost use Rattle.fidl_view.specs.Parts.{numbers_of};
ghost use Rattle.fidl_view.specs.Within.{HasPart, HasPartWithin, HasValueWithin};
ghost use Rattle.fidl_view.specs.Within.{HasElementsWithin, HasMembersWithin, HasMemberWithin};
ghost use Rattle.fidl_view.specs.Trees.{IsTree, Gives, GivesValue, GivesElements, GivesMembers};
ghost use Rattle.fidl_view.specs.Trees.{GivesMember, GivesHeld, listed_at};

use crate::envelope::Unknown;
use crate::view::View;
use fidl_table_format::EntryKind;
use fidl_verify::Table;
use fidl_wire::{Bytes, Content, Handles, MAX_MESSAGE_BYTES, Member, Members, Value, Values};
use std::alloc::{AllocError, Global};

/// A bool.
fn bool_tree(view: View<'_, '_>) -> Value
    requires { ∥ ((ds : Declarations) × HasPart ds ty.bool view) ∥₁ }
    ensures { (ds : Declarations) → IsTree ds ty.bool view.entry result }
{
    Value::Bool(view.as_bool().unwrap())
}

/// A number, also of bits or an enum.
fn number_tree(view: View<'_, '_>) -> Value
    requires well_formed { WellFormed view.decoded.now.table }
    requires part { ∥ ((ds : Declarations) × (t : ty.Term) × IsSome (numbers_of t)
        × HasPart ds t view) ∥₁ }
    ensures { (ds : Declarations) (t : ty.Term) → IsSome (numbers_of t)
        → IsTree ds t view.entry result }
{
    match view.as_u64() {
        Some(number) => Value::Number(i128::from(number)),
        None => Value::Number(i128::from(view.as_i64().unwrap())),
    }
}

/// A string, or that it is absent.
fn string_tree(alloc: Global, view: View<'_, '_>) -> Result<Value, AllocError>
    ensures { (ds : Declarations) (optional : Bool) (bound : ℕ)
        → Gives ds (ty.string optional bound) view.entry result }
{
    match view.as_str() {
        Some(text) => Ok(Value::Text(Bytes::from_vec(Vec::from_slice(alloc, text.as_bytes())?))),
        None => Ok(Value::Absent),
    }
}

/// A handle, or that it is absent.
fn handle_tree(view: View<'_, '_>) -> Value
    ensures { (ds : Declarations) (optional : Bool) (subtype rights : ℕ)
        → IsTree ds (ty.handle optional subtype rights) view.entry result }
{
    match view.handle() {
        Some(handle) => Value::Handle(handle),
        None => Value::Absent,
    }
}

/// A member that the layout does not know, by its raw parts.
fn unknown_tree(alloc: Global, member: Unknown<'_>) -> Result<Member, AllocError>
    ensures { IfOk result (λ tree. member_view tree ≡ unknown member.entry.inline
        member.entry.bytes.now member.entry.handles.now) }
{
    let bytes = Bytes::from_vec(Vec::from_slice(alloc, member.bytes)?);
    let handles = Handles::from_vec(Vec::from_slice(alloc, member.handles)?);
    Ok(Member::Unknown {
        inline: member.inline,
        bytes,
        handles,
    })
}

/// A union of this member.
fn union_tree_of(alloc: Global, ordinal: u64, member: Member) -> Result<Value, AllocError>
    ensures { IfOk result (λ tree. value_view tree ≡ union ordinal (member_view member)) }
{
    Ok(Value::Union(ordinal, Content::new(alloc, member)?))
}

/// Adds what a table holds at an ordinal.
fn add_held(members: &mut Members, ordinal: u64, held: Option<Member>) -> Result<(), AllocError>
    ensures { IfOk result (λ _. members_view members.new ≡ members_view members.old
        ++ listed_at ordinal (option_map member_view held)) }
{
    match held {
        Some(member) => members.push(ordinal, member),
        None => Ok(()),
    }
}

/// The elements of an array, or of a vector that is there: values of an entry, of at most this
/// depth.
#[cycle(tree)]
fn elements_tree(
    alloc: Global,
    table: &Table<'_>,
    element: u32,
    view: View<'_, '_>,
    depth: usize,
) -> Result<Values, AllocError>
    requires table { view.decoded.now.table ≡ table.now }
    requires element { element < (header_of table.now).entries }
    requires part { ∥ HasElementsWithin table.now element depth view ∥₁ }
    ensures { GivesElements table.now element view.entry result }
{
    let count = view.len().unwrap();
    let mut items = Values::new(alloc);
    for at in 0..count {
        let part = view.element(at).unwrap();
        let item = value_tree(alloc, table, element, part, depth)?;
        items.push(item)?;
    }
    Ok(items)
}

/// The members of a struct of an entry, or of such a struct in a box that is there, of at most this
/// depth.
#[cycle(tree)]
fn members_tree(
    alloc: Global,
    table: &Table<'_>,
    index: u32,
    view: View<'_, '_>,
    depth: usize,
) -> Result<Values, AllocError>
    requires table { view.decoded.now.table ≡ table.now }
    requires index { index < (header_of table.now).entries }
    requires of_struct { IsOf EntryKind.Struct (entry_at table.now index) }
    requires part { ∥ HasMembersWithin table.now index depth view ∥₁ }
    ensures { GivesMembers table.now index view.entry result }
{
    let entry = table.entry(index);
    // Read, so that a row's index is known to be a number of 32 bits.
    let _rows = table.rows();
    let mut items = Values::new(alloc);
    for at in 0..entry.count {
        let row = table.row(entry.first + at);
        let part = view.field(at as usize).unwrap();
        let item = value_tree(alloc, table, row.entry, part, depth)?;
        items.push(item)?;
    }
    Ok(items)
}

/// A vector of elements of an entry, or that it is absent.
#[cycle(tree)]
fn vector_tree(
    alloc: Global,
    table: &Table<'_>,
    element: u32,
    view: View<'_, '_>,
    depth: usize,
) -> Result<Value, AllocError>
    requires table { view.decoded.now.table ≡ table.now }
    requires element { element < (header_of table.now).entries }
    requires well_formed { WellFormed table.now }
    requires part { ∥ ((optional : Bool) × (bound : ℕ) × HasPartWithin
        (declarations_of table.now) (ty.vector optional bound (ty.named element)) depth view) ∥₁ }
    ensures { (optional : Bool) (bound : ℕ) → Gives (declarations_of table.now)
        (ty.vector optional bound (ty.named element)) view.entry result }
{
    if view.is_absent() {
        return Ok(Value::Absent);
    }
    Ok(Value::List(elements_tree(alloc, table, element, view, depth - 1)?))
}

/// The struct of an entry in a box, or that it is absent.
#[cycle(tree)]
fn box_tree(
    alloc: Global,
    table: &Table<'_>,
    index: u32,
    view: View<'_, '_>,
    depth: usize,
) -> Result<Value, AllocError>
    requires well_formed { WellFormed table.now }
    requires table { view.decoded.now.table ≡ table.now }
    requires index { index < (header_of table.now).entries }
    requires of_struct { IsOf EntryKind.Struct (entry_at table.now index) }
    requires part { ∥ HasPartWithin (declarations_of table.now) (ty.box (ty.named index)) depth view ∥₁ }
    ensures { Gives (declarations_of table.now) (ty.box (ty.named index)) view.entry result }
{
    if view.is_absent() {
        return Ok(Value::Absent);
    }
    Ok(Value::Fields(members_tree(alloc, table, index, view, depth - 1)?))
}

/// An ordinal of the layout of a table's or union's entry; what it holds lies no deeper than this.
#[derive(Clone, Copy)]
pub(crate) struct Slot {
    index: u32,
    ordinal: u64,
    depth: usize,
}

/// A known member of a table or a union.
#[cycle(tree)]
fn member_tree(
    alloc: Global,
    table: &Table<'_>,
    slot: Slot,
    view: View<'_, '_>,
) -> Result<Member, AllocError>
    requires table { view.decoded.now.table ≡ table.now }
    requires well_formed { WellFormed table.now }
    requires index { slot.index < (header_of table.now).entries }
    requires kind { IsTrue (kind_is uses_ordinals (entry_at table.now slot.index)) }
    requires part { ∥ HasMemberWithin table.now slot.index slot.ordinal slot.depth view ∥₁ }
    ensures { GivesMember table.now slot.index slot.ordinal view.entry result }
{
    let mut probes = 0;
    let row = table.member(slot.index, slot.ordinal, &mut probes).unwrap();
    if table.entry(row.entry).size <= 4 {
        return Ok(Member::Known(value_tree(alloc, table, row.entry, view, slot.depth)?));
    }
    Ok(Member::Known(value_tree(alloc, table, row.entry, view, slot.depth - 1)?))
}

/// What a table holds at an ordinal, if anything.
#[cycle(tree)]
fn held_tree(
    alloc: Global,
    table: &Table<'_>,
    slot: Slot,
    view: View<'_, '_>,
) -> Result<Option<Member>, AllocError>
    requires table { view.decoded.now.table ≡ table.now }
    requires well_formed { WellFormed table.now }
    requires index { slot.index < (header_of table.now).entries }
    requires of_table { IsOf EntryKind.Table (entry_at table.now slot.index) }
    requires part { ∥ HasValueWithin table.now slot.index (slot.depth + 1) view ∥₁ }
    ensures { GivesHeld table.now slot.index slot.ordinal view.entry result }
{
    if let Some(part) = view.member(slot.ordinal) {
        return Ok(Some(member_tree(alloc, table, slot, part)?));
    }
    if let Some(member) = view.unknown(slot.ordinal) {
        return Ok(Some(unknown_tree(alloc, member)?));
    }
    Ok(None)
}

/// A table of an entry: how many envelopes it has, and its members by their ordinals.
#[cycle(tree)]
fn table_tree(
    alloc: Global,
    table: &Table<'_>,
    index: u32,
    view: View<'_, '_>,
    depth: usize,
) -> Result<Value, AllocError>
    requires table { view.decoded.now.table ≡ table.now }
    requires well_formed { WellFormed table.now }
    requires index { index < (header_of table.now).entries }
    requires of_table { IsOf EntryKind.Table (entry_at table.now index) }
    requires part { ∥ HasValueWithin table.now index depth view ∥₁ }
    ensures { GivesValue table.now index view.entry result }
{
    let count = view.len().unwrap();
    let mut members = Members::new(alloc);
    for at in 0..count {
        let slot = Slot {
            index,
            ordinal: at as u64 + 1,
            depth: depth - 1,
        };
        let held = held_tree(alloc, table, slot, view)?;
        add_held(&mut members, slot.ordinal, held)?;
    }
    Ok(Value::Table {
        count: count as u64,
        members,
    })
}

/// A union of an entry, or that it is absent.
#[cycle(tree)]
fn union_tree(
    alloc: Global,
    table: &Table<'_>,
    index: u32,
    view: View<'_, '_>,
    depth: usize,
) -> Result<Value, AllocError>
    requires table { view.decoded.now.table ≡ table.now }
    requires well_formed { WellFormed table.now }
    requires index { index < (header_of table.now).entries }
    requires of_union { IsOf EntryKind.Union (entry_at table.now index) }
    requires part { ∥ HasValueWithin table.now index depth view ∥₁ }
    ensures { GivesValue table.now index view.entry result }
{
    let Some((ordinal, known)) = view.variant() else {
        return Ok(Value::Absent);
    };
    if let Some(part) = known {
        let slot = Slot {
            index,
            ordinal,
            depth,
        };
        let member = member_tree(alloc, table, slot, part)?;
        return union_tree_of(alloc, ordinal, member);
    }
    let member = view.unknown(ordinal).unwrap();
    let raw = unknown_tree(alloc, member)?;
    union_tree_of(alloc, ordinal, raw)
}

/// The value of an entry, of at most this depth, that a view shows.
#[cycle(tree)]
fn value_tree(
    alloc: Global,
    table: &Table<'_>,
    index: u32,
    view: View<'_, '_>,
    depth: usize,
) -> Result<Value, AllocError>
    requires table { view.decoded.now.table ≡ table.now }
    requires index { index < (header_of table.now).entries }
    requires part { ∥ HasValueWithin table.now index depth view ∥₁ }
    ensures { GivesValue table.now index view.entry result }
{
    let entry = table.entry(index);
    let kind = EntryKind::from_number(entry.kind).unwrap();
    match kind {
        EntryKind::Bool => Ok(bool_tree(view)),
        EntryKind::String => string_tree(alloc, view),
        EntryKind::Handle => Ok(handle_tree(view)),
        EntryKind::Array => {
            let items = elements_tree(alloc, table, entry.first, view, depth)?;
            Ok(Value::List(items))
        }
        EntryKind::Vector => vector_tree(alloc, table, entry.first, view, depth),
        EntryKind::Struct => {
            let items = members_tree(alloc, table, index, view, depth)?;
            Ok(Value::Fields(items))
        }
        EntryKind::Box => box_tree(alloc, table, entry.first, view, depth),
        EntryKind::Table => table_tree(alloc, table, index, view, depth),
        EntryKind::Union => union_tree(alloc, table, index, view, depth),
        _ => Ok(number_tree(view)),
    }
}

impl View<'_, '_> {
    ghost use Rattle.fidl_view.specs.Views.{IsShownBy};

    /// The owned tree of the value that the view shows. An error means that memory ran out.
    pub fn to_value(self, alloc: Global) -> Result<Value, AllocError>
        ensures { (v : Data) → IsShownBy self.entry v → IfOk result (λ tree. value_view tree ≡ v) }
    {
        value_tree(
            alloc,
            self.table(),
            self.entry(),
            self,
            MAX_MESSAGE_BYTES + 1,
        )
    }
}
