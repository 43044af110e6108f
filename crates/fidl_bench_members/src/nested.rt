//! A struct of two numbers.
ghost use Rattle.std.specs.Prelude.{◌≡◌, ◌<◌, IfSome};
ghost use Rattle.fidl_table_format.specs.Section.{header_of};
ghost use Rattle.fidl_view.specs.Views.{part_of};
ghost use Rattle.fidl_members.specs.Entries.{owner};
ghost use Rattle.fidl_members.specs.Owners.{owner_of, owner_held};

use fidl_members::ScalarColumn;
use fidl_verify::Table;
use fidl_view::{Members, View};

/// The members of a struct of two numbers.
#[derive(Drop)]
pub(crate) struct Nested<'t> {
    pub table: &'t Table<'t>,
    pub entry: u32,
    a: ScalarColumn<'t, u64>,
    b: ScalarColumn<'t, u32>,
    ghost of_a: { owner_of a.column ≡ owner table.now entry },
    ghost of_b: { owner_of b.column ≡ owner table.now entry },
}

impl<'t> Nested<'t> {
    /// The members of the struct of an entry, where it is one of two numbers.
    pub(crate) fn find(table: &'t Table<'t>, entry: u32) -> Option<Nested<'t>>
        requires { entry < (header_of table.now).entries }
        ensures { IfSome result (λ n. owner n.table.now n.entry ≡ owner table.now entry) }
    {
        Some(Nested {
            table,
            entry,
            a: ScalarColumn::find(table, entry, 0)?,
            b: ScalarColumn::find(table, entry, 1)?,
        })
    }

    /// The sum of both numbers of the struct that a view shows, where it is of this entry.
    #[inline(always)]
    pub(crate) fn sum_of(&self, view: View<'_, '_>) -> Option<u64>
        requires { (part_of view).message.table ≡ self.now.table.now }
    {
        if view.entry() != self.entry {
            return None;
        }
        Some(self.sum(self.a.column.struct_in(view)))
    }

    /// The sum of both numbers.
    #[inline(always)]
    pub(crate) fn sum(&self, members: Members<'_, '_>) -> u64
        requires { owner self.now.table.now self.now.entry ≡ owner_held members }
    {
        self.a
            .read(members)
            .wrapping_add(u64::from(self.b.read(members)))
    }
}
