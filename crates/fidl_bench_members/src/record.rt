//! The shape `records`: a struct of a vector of records.
ghost use Rattle.std.specs.Prelude.{◌≡◌, ◌<◌, IfSome};
ghost use Rattle.fidl_table_format.specs.Section.{header_of};
ghost use Rattle.fidl_view.specs.Views.{part_of};
ghost use Rattle.fidl_members.specs.Entries.{owner};
ghost use Rattle.fidl_members.specs.Owners.{owner_of, owner_held, entry_of};

use crate::found::Found;
use crate::nested::Nested;
use crate::roots::element_of;
use fidl_members::{BoxColumn, ScalarColumn, TextColumn};
use fidl_verify::Table;
use fidl_view::{Members, View};

/// The numbers of a record.
#[derive(Drop)]
struct Numbers<'t> {
    table: &'t Table<'t>,
    entry: u32,
    id: ScalarColumn<'t, u32>,
    kind: ScalarColumn<'t, u16>,
    flags: ScalarColumn<'t, u8>,
    active: ScalarColumn<'t, bool>,
    score: ScalarColumn<'t, i64>,
    ghost of_id: { owner_of id.column ≡ owner table.now entry },
    ghost of_kind: { owner_of kind.column ≡ owner table.now entry },
    ghost of_flags: { owner_of flags.column ≡ owner table.now entry },
    ghost of_active: { owner_of active.column ≡ owner table.now entry },
    ghost of_score: { owner_of score.column ≡ owner table.now entry },
}

/// The members of a record.
#[derive(Drop)]
pub struct Record<'t> {
    numbers: Numbers<'t>,
    name: TextColumn<'t>,
    extra: BoxColumn<'t>,
    nested: Nested<'t>,
    ghost of_name: { owner_of name.column ≡ owner numbers.table.now numbers.entry },
    ghost of_extra: { owner_of extra.column ≡ owner numbers.table.now numbers.entry },
    ghost of_nested: { owner nested.table.now nested.entry
        ≡ owner numbers.table.now (entry_of extra.column).first },
}

impl<'t> Numbers<'t> {
    /// The numbers of the struct of an entry, where it is one of a record.
    fn find(table: &'t Table<'t>, entry: u32) -> Option<Numbers<'t>>
        requires { entry < (header_of table.now).entries }
        ensures { IfSome result (λ n. owner n.table.now n.entry ≡ owner table.now entry) }
    {
        Some(Numbers {
            table,
            entry,
            id: ScalarColumn::find(table, entry, 0)?,
            kind: ScalarColumn::find(table, entry, 1)?,
            flags: ScalarColumn::find(table, entry, 2)?,
            active: ScalarColumn::find(table, entry, 3)?,
            score: ScalarColumn::find(table, entry, 4)?,
        })
    }

    /// Their sum.
    #[inline(always)]
    fn sum(&self, members: Members<'_, '_>) -> u64
        requires { owner self.now.table.now self.now.entry ≡ owner_held members }
    {
        u64::from(self.id.read(members))
            .wrapping_add(u64::from(self.kind.read(members)))
            .wrapping_add(u64::from(self.flags.read(members)))
            .wrapping_add(u64::from(self.active.read(members)))
            .wrapping_add(self.score.read(members).cast_unsigned())
    }
}

impl<'t> Record<'t> {
    /// The members of the elements of the vector in a root's struct.
    pub fn find(table: &'t Table<'t>, root: u32) -> Option<Record<'t>>
        requires { root < (header_of table.now).entries }
        ensures { IfSome result (λ r. r.numbers.table.now ≡ table.now) }
    {
        let entry = element_of(table, root)?;
        let extra = BoxColumn::find(table, entry, 6)?;
        let nested = Nested::find(table, extra.column.content()?)?;
        Some(Record {
            numbers: Numbers::find(table, entry)?,
            name: TextColumn::find(table, entry, 5)?,
            extra,
            nested,
        })
    }

    /// The sum of a record.
    #[inline(always)]
    fn sum_record(&self, members: Members<'_, '_>) -> Option<u64>
        requires { owner self.now.numbers.table.now self.now.numbers.entry ≡ owner_held members }
    {
        let plain = self
            .numbers
            .sum(members)
            .wrapping_add(self.name.read(members)?.len() as u64);
        match self.extra.read(members) {
            Some(extra) => Some(plain.wrapping_add(self.nested.sum(extra))),
            None => Some(plain),
        }
    }
}

impl<'t> Found for Record<'t> {
    ghost table = { λ r. r.numbers.table.now };

    fn sum(&self, view: View<'_, '_>) -> Option<u64> {
        let items = view.field(0)?.elements();
        if items.entry() != self.numbers.entry {
            return None;
        }
        let mut sum = 0u64;
        for at in 0..items.left() {
            let members = self.name.column.struct_in(items.at(at));
            sum = sum.wrapping_add(self.sum_record(members)?);
        }
        Some(sum)
    }
}
