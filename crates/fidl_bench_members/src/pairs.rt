//! Two members behind one another.
ghost use Rattle.std.specs.Prelude.{◌≡◌, ◌<◌, IfSome};
ghost use Rattle.fidl_table_format.specs.Section.{header_of};
ghost use Rattle.fidl_members.specs.Entries.{owner};
ghost use Rattle.fidl_members.specs.Owners.{owner_of, owner_held, owner_shown, owner_of_slot};

use fidl_members::{Column, Scalar, ScalarSlot, TextColumn, TextSlot};
use fidl_verify::Table;
use fidl_view::{Members, View};

/// Two numbers of a table.
#[derive(Drop)]
pub(crate) struct NumberPair<'t, S: Scalar> {
    pub table: &'t Table<'t>,
    pub entry: u32,
    first: ScalarSlot<'t, S>,
    second: ScalarSlot<'t, S>,
    ghost of_first: { owner_of_slot first.slot ≡ owner table.now entry },
    ghost of_second: { owner_of_slot second.slot ≡ owner table.now entry },
}

/// Two texts of a table.
#[derive(Drop)]
pub(crate) struct TextPair<'t> {
    pub table: &'t Table<'t>,
    pub entry: u32,
    first: TextSlot<'t>,
    second: TextSlot<'t>,
    ghost of_first: { owner_of_slot first.slot ≡ owner table.now entry },
    ghost of_second: { owner_of_slot second.slot ≡ owner table.now entry },
}

/// Two texts of a struct.
#[derive(Drop)]
pub(crate) struct TextColumns<'t> {
    pub table: &'t Table<'t>,
    pub entry: u32,
    first: TextColumn<'t>,
    second: TextColumn<'t>,
    ghost of_first: { owner_of first.column ≡ owner table.now entry },
    ghost of_second: { owner_of second.column ≡ owner table.now entry },
}

impl<'t, S: Scalar> NumberPair<'t, S> {
    /// The members at an ordinal and the next.
    pub(crate) fn find(table: &'t Table<'t>, entry: u32, ordinal: u32) -> Option<NumberPair<'t, S>>
        requires { entry < (header_of table.now).entries }
        ensures { IfSome result (λ p. owner p.table.now p.entry ≡ owner table.now entry) }
    {
        Some(NumberPair {
            table,
            entry,
            first: ScalarSlot::find(table, entry, u64::from(ordinal))?,
            second: ScalarSlot::find(table, entry, u64::from(ordinal) + 1)?,
        })
    }

    /// Both.
    #[inline(always)]
    pub(crate) fn read(&self, view: View<'_, '_>) -> Option<(S, S)>
        requires { owner self.now.table.now self.now.entry ≡ owner_shown view }
    {
        Some((self.first.read(view)?, self.second.read(view)?))
    }
}

impl<'t> TextPair<'t> {
    /// The members at an ordinal and the next.
    pub(crate) fn find(table: &'t Table<'t>, entry: u32, ordinal: u32) -> Option<TextPair<'t>>
        requires { entry < (header_of table.now).entries }
        ensures { IfSome result (λ p. owner p.table.now p.entry ≡ owner table.now entry) }
    {
        Some(TextPair {
            table,
            entry,
            first: TextSlot::find(table, entry, u64::from(ordinal))?,
            second: TextSlot::find(table, entry, u64::from(ordinal) + 1)?,
        })
    }

    /// The length of both, in bytes.
    #[inline(always)]
    pub(crate) fn length(&self, view: View<'_, '_>) -> Option<u64>
        requires { owner self.now.table.now self.now.entry ≡ owner_shown view }
    {
        let first = self.first.read(view)??.len() as u64;
        Some(first.wrapping_add(self.second.read(view)??.len() as u64))
    }
}

impl<'t> TextColumns<'t> {
    /// The members at a place and the next.
    pub(crate) fn find(table: &'t Table<'t>, entry: u32, at: u32) -> Option<TextColumns<'t>>
        requires { entry < (header_of table.now).entries }
        ensures { IfSome result (λ p. owner p.table.now p.entry ≡ owner table.now entry) }
    {
        Some(TextColumns {
            table,
            entry,
            first: TextColumn::find(table, entry, at as usize)?,
            second: TextColumn::find(table, entry, at as usize + 1)?,
        })
    }

    /// The column of the first.
    #[inline(always)]
    pub(crate) fn first(&self) -> &Column<'t>
        ensures { owner_of result.now ≡ owner self.now.table.now self.now.entry }
    {
        &self.first.column
    }

    /// The length of both, in bytes.
    #[inline(always)]
    pub(crate) fn length(&self, members: Members<'_, '_>) -> Option<u64>
        requires { owner self.now.table.now self.now.entry ≡ owner_held members }
    {
        let first = self.first.read(members)?.len() as u64;
        Some(first.wrapping_add(self.second.read(members)?.len() as u64))
    }
}
