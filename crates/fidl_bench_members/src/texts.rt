//! The shape `texts`: a struct of 24 texts.
ghost use Rattle.std.specs.Prelude.{◌≡◌, ◌<◌, IfSome};
ghost use Rattle.fidl_table_format.specs.Section.{header_of};
ghost use Rattle.fidl_view.specs.Views.{part_of};
ghost use Rattle.fidl_members.specs.Entries.{owner};
ghost use Rattle.fidl_members.specs.Owners.{owner_held};

use crate::found::Found;
use crate::pairs::TextColumns;
use fidl_verify::Table;
use fidl_view::{Members, View};

/// Eight texts behind one another.
#[derive(Drop)]
struct Eight<'t> {
    a: TextColumns<'t>,
    b: TextColumns<'t>,
    c: TextColumns<'t>,
    d: TextColumns<'t>,
    ghost of_b: { owner b.table.now b.entry ≡ owner a.table.now a.entry },
    ghost of_c: { owner c.table.now c.entry ≡ owner a.table.now a.entry },
    ghost of_d: { owner d.table.now d.entry ≡ owner a.table.now a.entry },
}

/// All texts.
#[derive(Drop)]
pub struct Texts<'t> {
    pub table: &'t Table<'t>,
    entry: u32,
    front: Eight<'t>,
    middle: Eight<'t>,
    back: Eight<'t>,
    ghost of_front: { owner front.a.table.now front.a.entry ≡ owner table.now entry },
    ghost of_middle: { owner middle.a.table.now middle.a.entry ≡ owner table.now entry },
    ghost of_back: { owner back.a.table.now back.a.entry ≡ owner table.now entry },
}

impl<'t> Eight<'t> {
    /// The texts from a place on.
    fn find(table: &'t Table<'t>, entry: u32, at: u8) -> Option<Eight<'t>>
        requires { entry < (header_of table.now).entries }
        ensures { IfSome result (λ e. owner e.a.table.now e.a.entry ≡ owner table.now entry) }
    {
        let first = u32::from(at);
        Some(Eight {
            a: TextColumns::find(table, entry, first)?,
            b: TextColumns::find(table, entry, first + 2)?,
            c: TextColumns::find(table, entry, first + 4)?,
            d: TextColumns::find(table, entry, first + 6)?,
        })
    }

    /// Their length, in bytes.
    #[inline(always)]
    fn length(&self, members: Members<'_, '_>) -> Option<u64>
        requires { owner self.now.a.table.now self.now.a.entry ≡ owner_held members }
    {
        let front = self
            .a
            .length(members)?
            .wrapping_add(self.b.length(members)?);
        let back = self
            .c
            .length(members)?
            .wrapping_add(self.d.length(members)?);
        Some(front.wrapping_add(back))
    }
}

impl<'t> Texts<'t> {
    /// The texts of the struct of an entry, where it has 24.
    pub fn find(table: &'t Table<'t>, entry: u32) -> Option<Texts<'t>>
        requires { entry < (header_of table.now).entries }
        ensures { IfSome result (λ t. t.table.now ≡ table.now) }
    {
        Some(Texts {
            table,
            entry,
            front: Eight::find(table, entry, 0)?,
            middle: Eight::find(table, entry, 8)?,
            back: Eight::find(table, entry, 16)?,
        })
    }
}

impl<'t> Found for Texts<'t> {
    ghost table = { λ t. t.table.now };

    fn sum(&self, view: View<'_, '_>) -> Option<u64> {
        if view.entry() != self.entry {
            return None;
        }
        let members = self.front.a.first().struct_in(view);
        let front = self.front.length(members)?;
        let middle = self.middle.length(members)?;
        let back = self.back.length(members)?;
        Some(front.wrapping_add(middle).wrapping_add(back))
    }
}
