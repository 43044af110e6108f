//! The members of a struct, one by one.
ghost use Rattle.std.specs.Prelude.{◌≡◌, ◌≤◌};
ghost use Rattle.fidl_wire.specs.Value.{Value};
ghost use Rattle.fidl_table_format.specs.Section.{entry_at};
ghost use Rattle.fidl_view.specs.Fields.{parts_of_rows};

use crate::structs::Members;
use crate::view::View;

/// The views of a struct's members that are left, in the order of their declaration (docs/views.md,
/// "Members one by one").
#[derive(Drop)]
pub struct Fields<'v, 'm> {
    pub(crate) members: Members<'v, 'm>,
    /// The row of the first member, the place in the declaration of the next, and how many there are.
    pub(crate) first: u32,
    pub(crate) next: u32,
    pub(crate) count: u32,
    ghost begun: { first ≡ (entry_at members.decoded.now.table members.index).first },
    ghost counted: { count ≡ (entry_at members.decoded.now.table members.index).count },
    ghost order: { next ≤ count },
}

impl<'v, 'm> Iterator for Fields<'v, 'm> {
    ghost use Rattle.std.specs.Prelude.{◌-◌};
    ghost use Rattle.std.specs.Iterator.{YieldsFirstBy, at_most};
    ghost use Rattle.fidl_view.specs.Views.{part_of, fields_left};

    type Item = View<'v, 'm>;

    ghost next_gives = { YieldsFirstBy part_of fields_left };

    ghost remaining = { λ s. at_most (s.count - s.next) };

    #[inline(always)]
    fn next(&mut self) -> Option<View<'v, 'm>> {
        if self.next == self.count {
            return None;
        }
        let table = self.members.decoded().table();
        // Read, so that the number of rows, and with it each row's, is known to have 32 bits.
        let _rows = table.rows();
        let row = table.row(self.first + self.next);
        let part = self.members.part(self.next, &row);
        self.next += 1;
        Some(part)
    }
}

impl<'v, 'm> Members<'v, 'm> {
    ghost use Rattle.fidl_view.specs.Views.{message_held, struct_held, place_held, fields_left};
    ghost use Rattle.fidl_view.specs.Views.{ShowsMembersOf, ShowsFieldsOf};

    /// The views of all members of the struct, in the order of their declaration.
    #[inline(always)]
    pub fn fields(self) -> Fields<'v, 'm>
        ensures parts { fields_left result ≡ parts_of_rows (message_held self.entry)
            (struct_held self.entry).first (place_held self.entry)
            (struct_held self.entry).count }
        ensures shown { (v : Value) → ShowsMembersOf v self.entry → ShowsFieldsOf v result }
    {
        let entry = self.decoded().table().entry(self.entry());
        Fields {
            members: self,
            first: entry.first,
            next: 0,
            count: entry.count,
        }
    }
}
