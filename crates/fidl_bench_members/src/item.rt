//! The shape `tables`: a struct of a vector of tables.
ghost use Rattle.std.specs.Prelude.{◌≡◌, ◌<◌, IfSome};
ghost use Rattle.fidl_table_format.specs.Section.{header_of};
ghost use Rattle.fidl_view.specs.Views.{part_of};
ghost use Rattle.fidl_members.specs.Entries.{owner};
ghost use Rattle.fidl_members.specs.Owners.{owner_shown, owner_of_slot, type_of_slot};

use crate::found::Found;
use crate::nested::Nested;
use crate::roots::element_of;
use fidl_members::{ScalarSlot, StructSlot, TextSlot};
use fidl_verify::Table;
use fidl_view::View;

/// The numbers of an item.
#[derive(Drop)]
struct Numbers<'t> {
    table: &'t Table<'t>,
    entry: u32,
    id: ScalarSlot<'t, u32>,
    size: ScalarSlot<'t, u64>,
    kind: ScalarSlot<'t, u16>,
    active: ScalarSlot<'t, bool>,
    ghost of_id: { owner_of_slot id.slot ≡ owner table.now entry },
    ghost of_size: { owner_of_slot size.slot ≡ owner table.now entry },
    ghost of_kind: { owner_of_slot kind.slot ≡ owner table.now entry },
    ghost of_active: { owner_of_slot active.slot ≡ owner table.now entry },
}

/// The members of an item.
#[derive(Drop)]
pub struct Item<'t> {
    numbers: Numbers<'t>,
    name: TextSlot<'t>,
    place: StructSlot<'t>,
    nested: Nested<'t>,
    ghost of_name: { owner_of_slot name.slot ≡ owner numbers.table.now numbers.entry },
    ghost of_place: { owner_of_slot place.slot ≡ owner numbers.table.now numbers.entry },
    ghost of_nested: { owner nested.table.now nested.entry ≡ type_of_slot place.slot },
}

impl<'t> Numbers<'t> {
    /// The numbers of the tables of an entry.
    fn find(table: &'t Table<'t>, entry: u32) -> Option<Numbers<'t>>
        requires { entry < (header_of table.now).entries }
        ensures { IfSome result (λ n. owner n.table.now n.entry ≡ owner table.now entry) }
    {
        Some(Numbers {
            table,
            entry,
            id: ScalarSlot::find(table, entry, 1)?,
            size: ScalarSlot::find(table, entry, 2)?,
            kind: ScalarSlot::find(table, entry, 4)?,
            active: ScalarSlot::find(table, entry, 6)?,
        })
    }

    /// Their sum.
    #[inline(always)]
    fn sum(&self, view: View<'_, '_>) -> Option<u64>
        requires { owner self.now.table.now self.now.entry ≡ owner_shown view }
    {
        Some(
            u64::from(self.id.read(view)?)
                .wrapping_add(self.size.read(view)?)
                .wrapping_add(u64::from(self.kind.read(view)?))
                .wrapping_add(u64::from(self.active.read(view)?)),
        )
    }
}

impl<'t> Item<'t> {
    /// The members of the elements of the vector in a root's struct.
    pub fn find(table: &'t Table<'t>, root: u32) -> Option<Item<'t>>
        requires { root < (header_of table.now).entries }
        ensures { IfSome result (λ i. i.numbers.table.now ≡ table.now) }
    {
        let entry = element_of(table, root)?;
        let place = StructSlot::find(table, entry, 5)?;
        let nested = Nested::find(table, place.slot.entry())?;
        Some(Item {
            numbers: Numbers::find(table, entry)?,
            name: TextSlot::find(table, entry, 3)?,
            place,
            nested,
        })
    }

    /// The sum of an item, which may have no place.
    #[inline(always)]
    fn sum_item(&self, view: View<'_, '_>) -> Option<u64>
        requires { owner self.now.numbers.table.now self.now.numbers.entry ≡ owner_shown view }
    {
        let plain = self
            .numbers
            .sum(view)?
            .wrapping_add(self.name.read(view)??.len() as u64);
        match self.place.read(view) {
            Some(place) => Some(plain.wrapping_add(self.nested.sum(place))),
            None => Some(plain),
        }
    }
}

impl<'t> Found for Item<'t> {
    ghost table = { λ i. i.numbers.table.now };

    fn sum(&self, view: View<'_, '_>) -> Option<u64> {
        let items = view.field(0)?.elements();
        if items.entry() != self.numbers.entry {
            return None;
        }
        let mut sum = 0u64;
        for at in 0..items.left() {
            sum = sum.wrapping_add(self.sum_item(items.at(at))?);
        }
        Some(sum)
    }
}
