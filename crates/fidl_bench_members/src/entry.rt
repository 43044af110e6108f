//! The shape `lists`: a struct of a vector of structs that hold vectors themselves.
ghost use Rattle.std.specs.Prelude.{◌≡◌, ◌<◌, IfSome};
ghost use Rattle.fidl_table_format.specs.Section.{header_of};
ghost use Rattle.fidl_view.specs.Views.{part_of};
ghost use Rattle.fidl_members.specs.Entries.{owner};
ghost use Rattle.fidl_members.specs.Owners.{owner_of, owner_held};

use crate::found::Found;
use crate::roots::element_of;
use fidl_members::{Column, ScalarColumn, ScalarType, TextColumn};
use fidl_verify::Table;
use fidl_view::{Members, View};

/// The vectors of an entry.
#[derive(Drop)]
struct Vectors<'t> {
    table: &'t Table<'t>,
    entry: u32,
    weights: Column<'t>,
    weight: ScalarType<'t, u32>,
    scores: Column<'t>,
    score: ScalarType<'t, i64>,
    ghost of_weights: { owner_of weights ≡ owner table.now entry },
    ghost of_weight: { weight.table.now ≡ table.now },
    ghost of_scores: { owner_of scores ≡ owner table.now entry },
    ghost of_score: { score.table.now ≡ table.now },
}

/// The members of an entry.
#[derive(Drop)]
pub struct Entry<'t> {
    vectors: Vectors<'t>,
    id: ScalarColumn<'t, u32>,
    name: TextColumn<'t>,
    last: ScalarColumn<'t, u64>,
    ghost of_id: { owner_of id.column ≡ owner vectors.table.now vectors.entry },
    ghost of_name: { owner_of name.column ≡ owner vectors.table.now vectors.entry },
    ghost of_last: { owner_of last.column ≡ owner vectors.table.now vectors.entry },
}

impl<'t> Vectors<'t> {
    /// The vectors of the struct of an entry.
    fn find(table: &'t Table<'t>, entry: u32) -> Option<Vectors<'t>>
        requires { entry < (header_of table.now).entries }
        ensures { IfSome result (λ v. owner v.table.now v.entry ≡ owner table.now entry) }
    {
        let weights = Column::find(table, entry, 1)?;
        let scores = Column::find(table, entry, 2)?;
        Some(Vectors {
            table,
            entry,
            weights,
            weight: ScalarType::find(table, weights.content()?)?,
            scores,
            score: ScalarType::find(table, scores.content()?)?,
        })
    }

    /// The sum of the weights.
    #[inline(always)]
    fn sum_weights(&self, members: Members<'_, '_>) -> Option<u64>
        requires { owner self.now.table.now self.now.entry ≡ owner_held members }
    {
        let weights = self.weights.part(members).elements();
        if weights.entry() != self.weight.entry {
            return None;
        }
        let mut sum = 0u64;
        for at in 0..weights.left() {
            sum = sum.wrapping_add(u64::from(self.weight.read(weights.at(at))));
        }
        Some(sum)
    }

    /// The sum of the scores, modulo 2^64.
    #[inline(always)]
    fn sum_scores(&self, members: Members<'_, '_>) -> Option<u64>
        requires { owner self.now.table.now self.now.entry ≡ owner_held members }
    {
        let scores = self.scores.part(members).elements();
        if scores.entry() != self.score.entry {
            return None;
        }
        let mut sum = 0u64;
        for at in 0..scores.left() {
            sum = sum.wrapping_add(self.score.read(scores.at(at)).cast_unsigned());
        }
        Some(sum)
    }
}

impl<'t> Entry<'t> {
    /// The members of the elements of the vector in a root's struct.
    pub fn find(table: &'t Table<'t>, root: u32) -> Option<Entry<'t>>
        requires { root < (header_of table.now).entries }
        ensures { IfSome result (λ e. e.vectors.table.now ≡ table.now) }
    {
        let entry = element_of(table, root)?;
        Some(Entry {
            vectors: Vectors::find(table, entry)?,
            id: ScalarColumn::find(table, entry, 0)?,
            name: TextColumn::find(table, entry, 3)?,
            last: ScalarColumn::find(table, entry, 4)?,
        })
    }

    /// The sum of an entry.
    #[inline(always)]
    fn sum_entry(&self, members: Members<'_, '_>) -> Option<u64>
        requires { owner self.now.vectors.table.now self.now.vectors.entry ≡ owner_held members }
    {
        let lists = self
            .vectors
            .sum_weights(members)?
            .wrapping_add(self.vectors.sum_scores(members)?);
        let numbers = u64::from(self.id.read(members)).wrapping_add(self.last.read(members));
        let text = self.name.read(members)?.len() as u64;
        Some(lists.wrapping_add(numbers).wrapping_add(text))
    }
}

impl<'t> Found for Entry<'t> {
    ghost table = { λ e. e.vectors.table.now };

    fn sum(&self, view: View<'_, '_>) -> Option<u64> {
        let items = view.field(0)?.elements();
        if items.entry() != self.vectors.entry {
            return None;
        }
        let mut sum = 0u64;
        for at in 0..items.left() {
            let members = self.name.column.struct_in(items.at(at));
            sum = sum.wrapping_add(self.sum_entry(members)?);
        }
        Some(sum)
    }
}
