//! The shape `chain`: a struct of a number and a box of the next such struct.
ghost use Rattle.std.specs.Prelude.{◌≡◌, ◌<◌, IfSome};
ghost use Rattle.fidl_table_format.specs.Section.{header_of};
ghost use Rattle.fidl_view.specs.Views.{part_of};
ghost use Rattle.fidl_members.specs.Entries.{owner};
ghost use Rattle.fidl_members.specs.Owners.{owner_of, entry_of};

use crate::found::Found;
use fidl_members::{BoxColumn, ScalarColumn};
use fidl_verify::Table;
use fidl_view::View;
use fidl_wire::MAX_DEPTH;

/// The members of a node.
#[derive(Drop)]
pub struct Chain<'t> {
    pub table: &'t Table<'t>,
    entry: u32,
    value: ScalarColumn<'t, u64>,
    next: BoxColumn<'t>,
    ghost of_value: { owner_of value.column ≡ owner table.now entry },
    ghost of_next: { owner_of next.column ≡ owner table.now entry },
    ghost again: { (entry_of next.column).first ≡ entry },
}

impl<'t> Chain<'t> {
    /// The members of the struct of an entry, where it is a node.
    pub fn find(table: &'t Table<'t>, entry: u32) -> Option<Chain<'t>>
        requires { entry < (header_of table.now).entries }
        ensures { IfSome result (λ c. c.table.now ≡ table.now) }
    {
        let next = BoxColumn::find(table, entry, 1)?;
        if next.column.content()? != entry {
            return None;
        }
        Some(Chain {
            table,
            entry,
            value: ScalarColumn::find(table, entry, 0)?,
            next,
        })
    }
}

impl<'t> Found for Chain<'t> {
    ghost table = { λ c. c.table.now };

    fn sum(&self, view: View<'_, '_>) -> Option<u64> {
        if view.entry() != self.entry {
            return None;
        }
        let mut sum = 0u64;
        let mut node = self.next.column.struct_in(view);
        // No message has more boxes behind one another.
        for _ in 0..=MAX_DEPTH {
            sum = sum.wrapping_add(self.value.read(node));
            let Some(next) = self.next.read(node) else {
                return Some(sum);
            };
            node = next;
        }
        None
    }
}
