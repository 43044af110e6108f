//! The shape `strict`: a struct of a vector of structs of strict enums and bits.
ghost use Rattle.std.specs.Prelude.{◌≡◌, ◌<◌, IfSome};
ghost use Rattle.fidl_table_format.specs.Section.{header_of};
ghost use Rattle.fidl_view.specs.Views.{part_of};
ghost use Rattle.fidl_members.specs.Entries.{owner};
ghost use Rattle.fidl_members.specs.Owners.{owner_of, owner_held};

use crate::found::Found;
use crate::roots::element_of;
use fidl_members::ScalarColumn;
use fidl_verify::Table;
use fidl_view::{Members, View};

/// The members of a mark.
#[derive(Drop)]
pub struct Mark<'t> {
    pub table: &'t Table<'t>,
    entry: u32,
    color: ScalarColumn<'t, u8>,
    access: ScalarColumn<'t, u16>,
    ready: ScalarColumn<'t, bool>,
    level: ScalarColumn<'t, i32>,
    number: ScalarColumn<'t, u32>,
    ghost of_color: { owner_of color.column ≡ owner table.now entry },
    ghost of_access: { owner_of access.column ≡ owner table.now entry },
    ghost of_ready: { owner_of ready.column ≡ owner table.now entry },
    ghost of_level: { owner_of level.column ≡ owner table.now entry },
    ghost of_number: { owner_of number.column ≡ owner table.now entry },
}

impl<'t> Mark<'t> {
    /// The members of the elements of the vector in a root's struct.
    pub fn find(table: &'t Table<'t>, root: u32) -> Option<Mark<'t>>
        requires { root < (header_of table.now).entries }
        ensures { IfSome result (λ m. m.table.now ≡ table.now) }
    {
        let entry = element_of(table, root)?;
        Some(Mark {
            table,
            entry,
            color: ScalarColumn::find(table, entry, 0)?,
            access: ScalarColumn::find(table, entry, 1)?,
            ready: ScalarColumn::find(table, entry, 2)?,
            level: ScalarColumn::find(table, entry, 3)?,
            number: ScalarColumn::find(table, entry, 4)?,
        })
    }

    /// The sum of a mark.
    #[inline(always)]
    fn sum_mark(&self, members: Members<'_, '_>) -> u64
        requires { owner self.now.table.now self.now.entry ≡ owner_held members }
    {
        u64::from(self.color.read(members))
            .wrapping_add(u64::from(self.access.read(members)))
            .wrapping_add(u64::from(self.ready.read(members)))
            .wrapping_add(i64::from(self.level.read(members)).cast_unsigned())
            .wrapping_add(u64::from(self.number.read(members)))
    }
}

impl<'t> Found for Mark<'t> {
    ghost table = { λ m. m.table.now };

    fn sum(&self, view: View<'_, '_>) -> Option<u64> {
        let items = view.field(0)?.elements();
        if items.entry() != self.entry {
            return None;
        }
        let mut sum = 0u64;
        for at in 0..items.left() {
            let members = self.number.column.struct_in(items.at(at));
            sum = sum.wrapping_add(self.sum_mark(members));
        }
        Some(sum)
    }
}
