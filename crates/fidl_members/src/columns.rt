//! Columns of one kind, whose members are read by one load.
ghost use Rattle.std.specs.Prelude.{◌≡◌, ◌≢◌, ◌<◌, Some, IfSome, IfNone, MatchOption};
ghost use Rattle.std.specs.Option.{option_copied};
ghost use Rattle.fidl_wire.specs.Value.{Value};
ghost use Rattle.fidl_table_format.specs.declared.kind.EntryKind.TheVariants as EntryKind;
ghost use Rattle.fidl_table_format.specs.Section.{header_of, entry_at};
ghost use Rattle.fidl_table_format.specs.Entry.{IsOf};
ghost use Rattle.fidl_members.specs.Scalars.{scalar_of, type_in};
ghost use Rattle.fidl_members.specs.Entries.{owner, entry_at_row, HasField};

use crate::column::Column;
use crate::kinds::{entry_kind, scalar_kind};
use crate::reads::scalar_in;
use crate::scalar::Scalar;
use fidl_table_format::EntryKind;
use fidl_verify::Table;
use fidl_view::{Members, View};
use std::marker::PhantomData;

/// A column of bools or numbers.
#[derive(Drop)]
pub struct ScalarColumn<'t, S: Scalar> {
    /// The column, of any type.
    pub column: Column<'t>,
    scalar: PhantomData<S>,
    ghost read_as: { scalar_of (type_in column.table.now column.row.entry) ≡ Some S.kind },
}

/// A column of strings.
#[derive(Clone, Copy)]
pub struct TextColumn<'t> {
    /// The column, of any type.
    pub column: Column<'t>,
    ghost of_strings: { IsOf EntryKind.String (entry_at column.table.now column.row.entry) },
}

/// A column of structs.
#[derive(Clone, Copy)]
pub struct StructColumn<'t> {
    /// The column, of any type.
    pub column: Column<'t>,
    ghost of_structs: { IsOf EntryKind.Struct (entry_at column.table.now column.row.entry) },
}

/// A column of boxes.
#[derive(Clone, Copy)]
pub struct BoxColumn<'t> {
    /// The column, of any type.
    pub column: Column<'t>,
    ghost of_boxes: { IsOf EntryKind.Box (entry_at column.table.now column.row.entry) },
}

impl<'t> Column<'t> {
    ghost use Rattle.fidl_members.specs.Owners.{entry_of, column_type};

    /// The column as one of bools or numbers of this type; none where its type is another.
    pub fn scalar<S: Scalar>(self) -> Option<ScalarColumn<'t, S>>
        ensures column { IfSome result (λ c. c.column ≡ self.entry) }
        ensures none { IfNone result (scalar_of (column_type self.entry) ≢ Some S.kind) }
    {
        if !S::is_of(scalar_kind(self.table, self.row.entry)) {
            return None;
        }
        Some(ScalarColumn {
            column: self,
            scalar: PhantomData,
        })
    }

    /// The column as one of strings; none where its type is another.
    pub fn text(self) -> Option<TextColumn<'t>>
        ensures column { IfSome result (λ c. c.column ≡ self.entry) }
        ensures none { IfNone result (IsOf EntryKind.String (entry_of self.entry) → ⊥) }
    {
        match entry_kind(self.table, self.row.entry) {
            EntryKind::String => Some(TextColumn { column: self }),
            _ => None,
        }
    }

    /// The column as one of structs; none where its type is another.
    pub fn members(self) -> Option<StructColumn<'t>>
        ensures column { IfSome result (λ c. c.column ≡ self.entry) }
        ensures none { IfNone result (IsOf EntryKind.Struct (entry_of self.entry) → ⊥) }
    {
        match entry_kind(self.table, self.row.entry) {
            EntryKind::Struct => Some(StructColumn { column: self }),
            _ => None,
        }
    }

    /// The column as one of boxes; none where its type is another.
    pub fn boxed(self) -> Option<BoxColumn<'t>>
        ensures column { IfSome result (λ c. c.column ≡ self.entry) }
        ensures none { IfNone result (IsOf EntryKind.Box (entry_of self.entry) → ⊥) }
    {
        match entry_kind(self.table, self.row.entry) {
            EntryKind::Box => Some(BoxColumn { column: self }),
            _ => None,
        }
    }
}

impl<'t, S: Scalar> ScalarColumn<'t, S> {
    ghost use Rattle.fidl_view.specs.Parts.{field_of};
    ghost use Rattle.fidl_view.specs.Views.{ShowsMembersOf};
    ghost use Rattle.fidl_members.specs.Owners.{owner_of, owner_held, place_in};

    /// The member at this place in the declaration of the struct of an entry, counted from 0; none
    /// past the last, of an entry of another kind, and where the member is not of this type.
    pub fn find(table: &'t Table<'t>, entry: u32, at: usize) -> Option<ScalarColumn<'t, S>>
        requires { entry < (header_of table.now).entries }
        ensures of { IfSome result (λ c. owner_of c.column ≡ owner table.now entry) }
        ensures place { IfSome result (λ c. place_in c.column ≡ at) }
        ensures none { IfNone result (HasField table.now entry at
            → scalar_of (type_in table.now (entry_at_row table.now entry at)) ≢ Some S.kind) }
    {
        Column::find(table, entry, at)?.scalar::<S>()
    }

    /// The bool or number of a struct of the column's entry and table.
    #[inline(always)]
    pub fn read(&self, members: Members<'_, '_>) -> S
        requires same { owner_of self.now.column ≡ owner_held members }
        ensures { (v : Value) → ShowsMembersOf v members.entry
            → field_of v (place_in self.now.column) ≡ Some (S.value result) }
    {
        scalar_in::<S>(self.column.part(members))
    }
}

impl<'t> TextColumn<'t> {
    ghost use Rattle.fidl_view.specs.Parts.{field_of, string_of};
    ghost use Rattle.fidl_view.specs.Views.{ShowsMembersOf};
    ghost use Rattle.fidl_members.specs.Owners.{owner_of, owner_held, place_in};

    /// The member at this place in the declaration of the struct of an entry, counted from 0; none
    /// past the last, of an entry of another kind, and where the member is not a string.
    pub fn find(table: &'t Table<'t>, entry: u32, at: usize) -> Option<TextColumn<'t>>
        requires { entry < (header_of table.now).entries }
        ensures of { IfSome result (λ c. owner_of c.column ≡ owner table.now entry) }
        ensures place { IfSome result (λ c. place_in c.column ≡ at) }
        ensures none { IfNone result (HasField table.now entry at
            → IsOf EntryKind.String (entry_at table.now (entry_at_row table.now entry at)) → ⊥) }
    {
        Column::find(table, entry, at)?.text()
    }

    /// The text of a struct of the column's entry and table, a slice of the message itself; none
    /// where it is absent.
    #[inline(always)]
    pub fn read<'v, 'm>(&self, members: Members<'v, 'm>) -> Option<&'v str>
        requires same { owner_of self.now.column ≡ owner_held members }
        ensures { (v : Value) → ShowsMembersOf v members.entry
            → (x : Value) × (field_of v (place_in self.now.column) ≡ Some x)
            × (option_copied result ≡ string_of x) }
    {
        self.column.part(members).text()
    }
}

impl<'t> StructColumn<'t> {
    ghost use Rattle.fidl_view.specs.Parts.{field_of};
    ghost use Rattle.fidl_view.specs.Views.{message_held, ShowsMembersOf};
    ghost use Rattle.fidl_members.specs.Owners.{owner_of, owner_held, place_in, type_of_column};

    /// The member at this place in the declaration of the struct of an entry, counted from 0; none
    /// past the last, of an entry of another kind, and where the member is not a struct.
    pub fn find(table: &'t Table<'t>, entry: u32, at: usize) -> Option<StructColumn<'t>>
        requires { entry < (header_of table.now).entries }
        ensures of { IfSome result (λ c. owner_of c.column ≡ owner table.now entry) }
        ensures place { IfSome result (λ c. place_in c.column ≡ at) }
        ensures none { IfNone result (HasField table.now entry at
            → IsOf EntryKind.Struct (entry_at table.now (entry_at_row table.now entry at)) → ⊥) }
    {
        Column::find(table, entry, at)?.members()
    }

    /// The members of the struct that is a member of a struct of the column's entry and table.
    #[inline(always)]
    pub fn read<'v, 'm>(&self, members: Members<'v, 'm>) -> Members<'v, 'm>
        requires same { owner_of self.now.column ≡ owner_held members }
        ensures message { message_held result ≡ message_held members.entry }
        ensures of { owner_held result ≡ type_of_column self.now.column }
        ensures members { (v : Value) → ShowsMembersOf v members.entry
            → (x : Value) × (field_of v (place_in self.now.column) ≡ Some x)
            × ShowsMembersOf x result }
    {
        self.column.part(members).struct_members()
    }
}

impl<'t> BoxColumn<'t> {
    ghost use Rattle.fidl_view.specs.Parts.{field_of, IsNoStruct};
    ghost use Rattle.fidl_view.specs.Views.{message_held, ShowsMembersOf};
    ghost use Rattle.fidl_members.specs.Owners.{owner_of, owner_held, place_in};
    ghost use Rattle.fidl_members.specs.Owners.{entry_of};

    /// The member at this place in the declaration of the struct of an entry, counted from 0; none
    /// past the last, of an entry of another kind, and where the member is not a box.
    pub fn find(table: &'t Table<'t>, entry: u32, at: usize) -> Option<BoxColumn<'t>>
        requires { entry < (header_of table.now).entries }
        ensures of { IfSome result (λ c. owner_of c.column ≡ owner table.now entry) }
        ensures place { IfSome result (λ c. place_in c.column ≡ at) }
        ensures none { IfNone result (HasField table.now entry at
            → IsOf EntryKind.Box (entry_at table.now (entry_at_row table.now entry at)) → ⊥) }
    {
        Column::find(table, entry, at)?.boxed()
    }

    /// The members of the struct in the box that is a member of a struct of the column's entry and
    /// table; none where it is absent.
    #[inline(always)]
    pub fn read<'v, 'm>(&self, members: Members<'v, 'm>) -> Option<Members<'v, 'm>>
        requires same { owner_of self.now.column ≡ owner_held members }
        ensures message { IfSome result (λ inner. message_held inner ≡ message_held members.entry) }
        ensures of { IfSome result (λ inner. owner_held inner
            ≡ owner (message_held members.entry).table (entry_of self.now.column).first) }
        ensures members { (v : Value) → ShowsMembersOf v members.entry
            → (x : Value) × (field_of v (place_in self.now.column) ≡ Some x)
            × MatchOption result (IsNoStruct x) (ShowsMembersOf x) }
    {
        self.column.part(members).box_members()
    }
}
