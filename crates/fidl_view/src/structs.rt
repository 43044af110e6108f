//! What a view answers of structs and boxes.
ghost use Rattle.std.specs.Prelude.{◌≡◌, ◌+◌, ◌<◌, ◌≤◌, length, Some, None, IfSome, MatchOption};
ghost use Rattle.std.specs.Prelude.{IsTrue, IsFalse};
ghost use Rattle.fidl_wire.specs.Value.{Value};
ghost use Rattle.fidl_limits.specs.declared.limits.TheConstants.{MAX_MESSAGE_BYTES};
ghost use Rattle.fidl_table_format.specs.declared.kind.EntryKind.TheVariants as EntryKind;
ghost use Rattle.fidl_table_format.specs.Section.{header_of, entry_at};
ghost use Rattle.fidl_table_format.specs.Entry.{IsOf};
ghost use Rattle.fidl_view.specs.Parts.{field_of, IsNoStruct};
ghost use Rattle.fidl_view.specs.Members.{HaveMembers};

use crate::view::View;
use fidl_decode::Decoded;
use fidl_table_format::{Row, row_from};

/// The number of the kind of boxes. The kind is compared as a number, since the compiler makes a
/// branch of a match on it, which each member that is read would take again.
const BOX: u8 = 15;

/// The number of the kind of structs.
const STRUCT: u8 = 16;

/// The members of a struct, or of the struct in a box: the struct's entry, and where it stands in
/// the message. It borrows the `Decoded`, as a view does.
#[derive(Clone, Copy)]
pub struct Members<'v, 'm> {
    pub(crate) decoded: &'v Decoded<'v, 'm, 'v>,
    pub(crate) index: u32,
    pub(crate) place: usize,
    ghost in_range: { index < (header_of decoded.now.table).entries },
    ghost of_struct: { IsOf EntryKind.Struct (entry_at decoded.now.table index) },
    ghost short: { length decoded.now.bytes ≤ MAX_MESSAGE_BYTES },
    ghost shown: { ∥ HaveMembers decoded.now index place ∥₁ },
}

/// The first of two entries where it is wanted, else the second, without a branch.
#[inline(always)]
fn either_entry(wants_first: bool, first: u32, second: u32) -> u32
    ensures yes { IsTrue wants_first → result ≡ first }
    ensures no { IsFalse wants_first → result ≡ second }
{
    if wants_first { first } else { second }
}

/// The first of two places where it is wanted, else the second, without a branch.
#[inline(always)]
fn either_place(wants_first: bool, first: usize, second: usize) -> usize
    ensures yes { IsTrue wants_first → result ≡ first }
    ensures no { IsFalse wants_first → result ≡ second }
{
    if wants_first { first } else { second }
}

impl<'v, 'm> View<'v, 'm> {
    ghost use Rattle.fidl_view.specs.Views.{part_of, message_held, ShowsMembersOf, IsShownBy};
    ghost use Rattle.fidl_view.specs.Members.{HaveMembersAt};
    ghost use Rattle.fidl_view.specs.Views.{type_shown, field_type, AreFieldsOf, entry_held};
    ghost use Rattle.fidl_view.specs.Views.{entry_shown};

    /// The members of a struct.
    #[inline(always)]
    pub fn struct_members(self) -> Members<'v, 'm>
        requires { IsOf EntryKind.Struct (entry_shown self) }
        ensures message { message_held result ≡ (part_of self.entry).message }
        ensures entry { entry_held result ≡ (part_of self.entry).index }
        ensures of { AreFieldsOf self.entry result }
        ensures members { (v : Value) → IsShownBy self.entry v → ShowsMembersOf v result }
    {
        // Read, so that the table is known to be well-formed.
        let _rows = self.decoded.table().rows();
        Members {
            decoded: self.decoded,
            index: self.index,
            place: self.place,
        }
    }

    /// The members of the struct in a box; none where the box is absent.
    #[inline(always)]
    pub fn box_members(self) -> Option<Members<'v, 'm>>
        requires { IsOf EntryKind.Box (entry_shown self) }
        ensures message { IfSome result (λ members. message_held members
            ≡ (part_of self.entry).message) }
        ensures entry { IfSome result (λ members. entry_held members
            ≡ (entry_shown self.entry).first) }
        ensures of { IfSome result (AreFieldsOf self.entry) }
        ensures members { (v : Value) → IsShownBy self.entry v
            → MatchOption result (IsNoStruct v) (ShowsMembersOf v) }
    {
        let content = self.decoded.table().entry(self.index).first;
        if self.decoded.links().is_blank(self.place) {
            return None;
        }
        Some(Members {
            decoded: self.decoded,
            index: content,
            place: self.decoded.links().object_of_marker(self.place),
        })
    }

    /// Whether it is a struct.
    #[inline(always)]
    fn is_struct(self) -> bool
        ensures yes { IsTrue result → IsOf EntryKind.Struct (entry_shown self.entry) }
        ensures no { IsFalse result → IsOf EntryKind.Struct (entry_shown self.entry) → ⊥ }
    {
        self.decoded.table().entry(self.index).kind == STRUCT
    }

    /// Whether it is a box.
    #[inline(always)]
    fn is_box(self) -> bool
        ensures yes { IsTrue result → IsOf EntryKind.Box (entry_shown self.entry) }
        ensures no { IsFalse result → IsOf EntryKind.Box (entry_shown self.entry) → ⊥ }
    {
        self.decoded.table().entry(self.index).kind == BOX
    }

    /// Where the struct in a box begins in the message; 0 where the box is absent, and where it is
    /// no box. The message's first word is then read in place of the box's, and no branch is taken.
    #[inline(always)]
    fn object_if(self, boxed: bool) -> usize
        requires { IsTrue boxed → IsOf EntryKind.Box (entry_shown self) }
        ensures absent { (v : Value) → IsTrue boxed → result ≡ 0 → IsShownBy self.entry v
            → IsNoStruct v }
        ensures boxed { 0 < result → IsTrue boxed }
        ensures there { (v : Value) → 0 < result → IsShownBy self.entry v
            → HaveMembersAt (part_of self.entry).message (entry_shown self.entry).first result v }
    {
        // Read, so that the table is known to be well-formed, and the message to have whole words.
        let _rows = self.decoded.table().rows();
        let _entry = self.decoded.entry();
        let links = self.decoded.links();
        let marker = either_place(boxed, self.place, 0);
        let blank = links.is_blank(marker);
        if boxed & !blank {
            links.object_of_marker(marker)
        } else {
            0
        }
    }

    /// The members of a struct, or of the struct in a box; none where the box is absent, and of
    /// another kind.
    #[inline(always)]
    pub fn members(self) -> Option<Members<'v, 'm>>
        ensures message { IfSome result (λ members. message_held members
            ≡ (part_of self.entry).message) }
        ensures of { IfSome result (AreFieldsOf self.entry) }
        ensures members { (v : Value) → IsShownBy self.entry v
            → MatchOption result (IsNoStruct v) (ShowsMembersOf v) }
    {
        // No branch tells a box from a struct. So the compiler finds the members once for a caller
        // that reads several of one view, and not again for each.
        let boxed = self.is_box();
        let object = self.object_if(boxed);
        let content = self.decoded.table().entry(self.index).first;
        let index = either_entry(boxed, content, self.index);
        let place = either_place(boxed, object, self.place);
        if !self.is_struct() & (!boxed | (object == 0)) {
            return None;
        }
        Some(Members {
            decoded: self.decoded,
            index,
            place,
        })
    }

    /// The member of a struct, or of the struct in a box, at this place in its declaration, counted
    /// from 0; none past the last, of an absent box, and of another kind.
    #[inline(always)]
    pub fn field(self, at: usize) -> Option<View<'v, 'm>>
        ensures message { IfSome result (λ part. (part_of part).message
            ≡ (part_of self.entry).message) }
        ensures typed { IfSome result (λ part. Some (type_shown part)
            ≡ field_type self.entry at) }
        ensures part { (v : Value) → IsShownBy self.entry v
            → MatchOption result (field_of v at ≡ None)
            (λ part. (x : Value) × (field_of v at ≡ Some x) × IsShownBy part x) }
    {
        let Some(members) = self.members() else {
            return None;
        };
        let table = members.decoded.table();
        let entry = table.entry(members.index);
        if at >= entry.count as usize {
            return None;
        }
        let row = row_from(
            table.bytes(),
            table.rows_start() + 16 * (entry.first as usize + at),
        );
        Some(members.part(at as u32, &row))
    }
}

impl<'v, 'm> Members<'v, 'm> {
    ghost use Rattle.fidl_view.specs.Views.{part_of, message_held, entry_held, place_held};
    ghost use Rattle.fidl_view.specs.Views.{struct_held, row_held, ShowsMembersOf, IsShownBy};

    /// The decoded message that they are of.
    #[inline(always)]
    pub fn decoded(self) -> &'v Decoded<'v, 'm, 'v>
        ensures { result.now ≡ message_held self.entry }
    {
        self.decoded
    }

    /// The number of the struct's entry, which is below the table's `entries`.
    #[inline(always)]
    pub fn entry(self) -> u32
        ensures value { result ≡ entry_held self.entry }
        ensures in_range { result < (header_of (message_held self.entry).table).entries }
        ensures of_struct { IsOf EntryKind.Struct
            (entry_at (message_held self.entry).table result) }
    {
        self.index
    }

    /// Where the struct stands in the message, in bytes from its start.
    #[inline(always)]
    pub fn place(self) -> usize
        ensures { result ≡ place_held self.entry }
    {
        self.place
    }

    /// The member at this place in the struct's declaration, counted from 0, whose row is this one.
    #[inline(always)]
    pub fn part(self, at: u32, row: &Row) -> View<'v, 'm>
        requires counted { at < (struct_held self).count }
        requires row { row.now ≡ row_held self at }
        ensures message { (part_of result).message ≡ message_held self.entry }
        ensures entry { (part_of result).index ≡ row.now.entry }
        ensures place { (part_of result).place ≡ place_held self.entry + row.now.key }
        ensures part { (v : Value) → ShowsMembersOf v self.entry
            → (x : Value) × (field_of v at ≡ Some x) × IsShownBy result x }
    {
        // Read, so that the table is known to be well-formed.
        let _rows = self.decoded.table().rows();
        View {
            decoded: self.decoded,
            index: row.entry,
            place: self.place + row.key as usize,
        }
    }
}
