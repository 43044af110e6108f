//! A member of the structs of one entry, looked up once.
ghost use Rattle.std.specs.Prelude.{◌≡◌, ◌+◌, ◌<◌, IfSome, IfNone};
ghost use Rattle.fidl_wire.specs.Value.{Value};
ghost use Rattle.fidl_table_format.specs.declared.kind.EntryKind.TheVariants as EntryKind;
ghost use Rattle.fidl_table_format.specs.Section.{header_of, entry_at, row_at};
ghost use Rattle.fidl_table_format.specs.Entry.{IsOf};
ghost use Rattle.fidl_members.specs.Entries.{owner, entry_at_row, HasField, HasContent};

use crate::kinds::entry_kind;
use fidl_table_format::{EntryKind, Row};
use fidl_verify::Table;
use fidl_view::{Members, View};

/// A member of the structs of one entry of a table: where it stands in each, and of which type it
/// is.
#[derive(Clone, Copy)]
pub struct Column<'t> {
    pub(crate) table: &'t Table<'t>,
    /// The struct's entry, the member's place in its declaration, and its row.
    pub(crate) of: u32,
    pub(crate) at: u32,
    pub(crate) row: Row,
    ghost in_range: { of < (header_of table.now).entries },
    ghost of_struct: { IsOf EntryKind.Struct (entry_at table.now of) },
    ghost counted: { at < (entry_at table.now of).count },
    ghost below: { row.entry < (header_of table.now).entries },
    ghost is_row: { row ≡ row_at table.now (header_of table.now)
        ((entry_at table.now of).first + at) },
}

impl<'t> Column<'t> {
    ghost use Rattle.fidl_view.specs.Parts.{field_of};
    ghost use Rattle.fidl_view.specs.Views.{part_of, message_held, ShowsMembersOf, IsShownBy};
    ghost use Rattle.fidl_members.specs.Owners.{owner_of, owner_held, place_in, type_of_column};
    ghost use Rattle.fidl_members.specs.Owners.{owner_shown, entry_of};

    /// The member at this place in the declaration of the struct of an entry, counted from 0; none
    /// past the last, and of an entry of another kind.
    pub fn find(table: &'t Table<'t>, entry: u32, at: usize) -> Option<Column<'t>>
        requires { entry < (header_of table.now).entries }
        ensures of { IfSome result (λ c. owner_of c ≡ owner table.now entry) }
        ensures place { IfSome result (λ c. place_in c ≡ at) }
        ensures typed { IfSome result (λ c. type_of_column c
            ≡ owner table.now (entry_at_row table.now entry at)) }
        ensures none { IfNone result (HasField table.now entry at → ⊥) }
    {
        let EntryKind::Struct = entry_kind(table, entry) else {
            return None;
        };
        let parts = table.entry(entry);
        if at >= parts.count as usize {
            return None;
        }
        // Read, so that the number of rows, and with it each row's, is known to have 32 bits.
        let _rows = table.rows();
        Some(Column {
            table,
            of: entry,
            at: at as u32,
            row: table.row(parts.first + at as u32),
        })
    }

    /// The entry of the member's type.
    pub fn entry(&self) -> u32
        ensures value { owner self.now.table.now result ≡ type_of_column self.now }
        ensures in_range { result < (header_of self.now.table.now).entries }
    {
        self.row.entry
    }

    /// The entry of the elements of an array or a vector, or of the struct in a box; none of another
    /// kind.
    pub fn content(&self) -> Option<u32>
        ensures value { IfSome result (λ content. content ≡ (entry_of self.now).first) }
        ensures some { IfSome result (λ content. HasContent (entry_of self.now)) }
        ensures none { IfNone result (HasContent (entry_of self.now) → ⊥) }
        ensures in_range { IfSome result
            (λ content. content < (header_of self.now.table.now).entries) }
    {
        match entry_kind(self.table, self.row.entry) {
            EntryKind::Array | EntryKind::Vector | EntryKind::Box => {
                Some(self.table.entry(self.row.entry).first)
            }
            _ => None,
        }
    }

    /// The members of the struct that a view of the column's entry and table shows.
    #[inline(always)]
    pub fn struct_in<'v, 'm>(&self, view: View<'v, 'm>) -> Members<'v, 'm>
        requires same { owner_of self.now ≡ owner_shown view }
        ensures message { message_held result ≡ (part_of view.entry).message }
        ensures of { owner_held result ≡ owner_of self.now }
        ensures members { (v : Value) → IsShownBy view.entry v → ShowsMembersOf v result }
    {
        view.struct_members()
    }

    /// The member's view among the members of a struct of the column's entry and table.
    #[inline(always)]
    pub fn part<'v, 'm>(&self, members: Members<'v, 'm>) -> View<'v, 'm>
        requires same { owner_of self.now ≡ owner_held members }
        ensures message { (part_of result).message ≡ message_held members.entry }
        ensures of { owner_shown result ≡ type_of_column self.now }
        ensures part { (v : Value) → ShowsMembersOf v members.entry
            → (x : Value) × (field_of v (place_in self.now) ≡ Some x) × IsShownBy result x }
    {
        members.part(self.at, &self.row)
    }
}
