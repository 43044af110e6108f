//! The shape `wide`: a table of twenty members.
ghost use Rattle.std.specs.Prelude.{◌≡◌, ◌<◌, IfSome};
ghost use Rattle.fidl_table_format.specs.Section.{header_of};
ghost use Rattle.fidl_view.specs.Views.{part_of};
ghost use Rattle.fidl_members.specs.Entries.{owner};
ghost use Rattle.fidl_members.specs.Owners.{owner_shown, owner_of_slot, type_of_slot};

use crate::found::Found;
use crate::nested::Nested;
use crate::pairs::{NumberPair, TextPair};
use fidl_members::{ScalarSlot, StructSlot};
use fidl_verify::Table;
use fidl_view::View;

/// The first eight members, which stand in their envelopes.
#[derive(Drop)]
struct Inside<'t> {
    a: NumberPair<'t, u32>,
    b: NumberPair<'t, u32>,
    c: NumberPair<'t, u32>,
    d: NumberPair<'t, u32>,
    ghost of_b: { owner b.table.now b.entry ≡ owner a.table.now a.entry },
    ghost of_c: { owner c.table.now c.entry ≡ owner a.table.now a.entry },
    ghost of_d: { owner d.table.now d.entry ≡ owner a.table.now a.entry },
}

/// The next ten, which stand out of line.
#[derive(Drop)]
struct Outside<'t> {
    a: NumberPair<'t, u64>,
    b: NumberPair<'t, u64>,
    c: NumberPair<'t, u64>,
    d: TextPair<'t>,
    e: TextPair<'t>,
    ghost of_b: { owner b.table.now b.entry ≡ owner a.table.now a.entry },
    ghost of_c: { owner c.table.now c.entry ≡ owner a.table.now a.entry },
    ghost of_d: { owner d.table.now d.entry ≡ owner a.table.now a.entry },
    ghost of_e: { owner e.table.now e.entry ≡ owner a.table.now a.entry },
}

/// All members.
#[derive(Drop)]
pub struct Wide<'t> {
    pub table: &'t Table<'t>,
    entry: u32,
    inside: Inside<'t>,
    outside: Outside<'t>,
    place: StructSlot<'t>,
    nested: Nested<'t>,
    truth: ScalarSlot<'t, bool>,
    ghost of_inside: { owner inside.a.table.now inside.a.entry ≡ owner table.now entry },
    ghost of_outside: { owner outside.a.table.now outside.a.entry ≡ owner table.now entry },
    ghost of_place: { owner_of_slot place.slot ≡ owner table.now entry },
    ghost of_nested: { owner nested.table.now nested.entry ≡ type_of_slot place.slot },
    ghost of_truth: { owner_of_slot truth.slot ≡ owner table.now entry },
}

impl<'t> Inside<'t> {
    /// The members of the tables of an entry.
    fn find(table: &'t Table<'t>, entry: u32) -> Option<Inside<'t>>
        requires { entry < (header_of table.now).entries }
        ensures { IfSome result (λ i. owner i.a.table.now i.a.entry ≡ owner table.now entry) }
    {
        Some(Inside {
            a: NumberPair::find(table, entry, 1)?,
            b: NumberPair::find(table, entry, 3)?,
            c: NumberPair::find(table, entry, 5)?,
            d: NumberPair::find(table, entry, 7)?,
        })
    }

    /// Their sum.
    #[inline(always)]
    fn sum(&self, view: View<'_, '_>) -> Option<u64>
        requires { owner self.now.a.table.now self.now.a.entry ≡ owner_shown view }
    {
        let front = both(self.a.read(view)?).wrapping_add(both(self.b.read(view)?));
        let back = both(self.c.read(view)?).wrapping_add(both(self.d.read(view)?));
        Some(front.wrapping_add(back))
    }
}

/// The sum of two numbers.
fn both(pair: (u32, u32)) -> u64 {
    u64::from(pair.0).wrapping_add(u64::from(pair.1))
}

/// The same of long ones, modulo 2^64.
fn both_long(pair: (u64, u64)) -> u64 {
    pair.0.wrapping_add(pair.1)
}

impl<'t> Outside<'t> {
    /// The members of the tables of an entry.
    fn find(table: &'t Table<'t>, entry: u32) -> Option<Outside<'t>>
        requires { entry < (header_of table.now).entries }
        ensures { IfSome result (λ o. owner o.a.table.now o.a.entry ≡ owner table.now entry) }
    {
        Some(Outside {
            a: NumberPair::find(table, entry, 9)?,
            b: NumberPair::find(table, entry, 11)?,
            c: NumberPair::find(table, entry, 13)?,
            d: TextPair::find(table, entry, 15)?,
            e: TextPair::find(table, entry, 17)?,
        })
    }

    /// Their sum.
    #[inline(always)]
    fn sum(&self, view: View<'_, '_>) -> Option<u64>
        requires { owner self.now.a.table.now self.now.a.entry ≡ owner_shown view }
    {
        let numbers = both_long(self.a.read(view)?)
            .wrapping_add(both_long(self.b.read(view)?))
            .wrapping_add(both_long(self.c.read(view)?));
        let texts = self.d.length(view)?.wrapping_add(self.e.length(view)?);
        Some(numbers.wrapping_add(texts))
    }
}

impl<'t> Wide<'t> {
    /// The members of the tables of an entry, where it has the twenty.
    pub fn find(table: &'t Table<'t>, entry: u32) -> Option<Wide<'t>>
        requires { entry < (header_of table.now).entries }
        ensures { IfSome result (λ w. w.table.now ≡ table.now) }
    {
        let place = StructSlot::find(table, entry, 19)?;
        let nested = Nested::find(table, place.slot.entry())?;
        Some(Wide {
            table,
            entry,
            inside: Inside::find(table, entry)?,
            outside: Outside::find(table, entry)?,
            place,
            nested,
            truth: ScalarSlot::find(table, entry, 20)?,
        })
    }
}

impl<'t> Found for Wide<'t> {
    ghost table = { λ w. w.table.now };

    fn sum(&self, view: View<'_, '_>) -> Option<u64> {
        if view.entry() != self.entry {
            return None;
        }
        let front = self.inside.sum(view)?.wrapping_add(self.outside.sum(view)?);
        let place = self.nested.sum(self.place.read(view)?);
        let truth = u64::from(self.truth.read(view)?);
        Some(front.wrapping_add(place).wrapping_add(truth))
    }
}
