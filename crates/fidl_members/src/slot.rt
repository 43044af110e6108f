//! A member of the tables of one entry, looked up once.
ghost use Rattle.std.specs.Prelude.{◌≡◌, ◌<◌, ℕ, Some, None, IfSome, IfNone, MatchOption};
ghost use Rattle.fidl_wire.specs.Value.{Value};
ghost use Rattle.fidl_wire.specs.Term.{find};
ghost use Rattle.fidl_table_format.specs.declared.kind.EntryKind.TheVariants as EntryKind;
ghost use Rattle.fidl_table_format.specs.Section.{header_of, entry_at};
ghost use Rattle.fidl_table_format.specs.Entry.{IsOf};
ghost use Rattle.fidl_table_format.specs.Terms.{members_of};
ghost use Rattle.fidl_members.specs.Entries.{entry_named, owner, HasMember};

use crate::kinds::entry_kind;
use fidl_table_format::EntryKind;
use fidl_verify::Table;
use fidl_view::View;

/// A member of the tables of one entry of a coding table: its ordinal, and of which type it is.
#[derive(Clone, Copy)]
pub struct Slot<'t> {
    pub(crate) table: &'t Table<'t>,
    /// The entry of the tables, the member's ordinal, and the entry of its type.
    pub(crate) of: u32,
    pub(crate) ordinal: u64,
    pub(crate) entry: u32,
    ghost in_range: { of < (header_of table.now).entries },
    ghost of_table: { IsOf EntryKind.Table (entry_at table.now of) },
    ghost below: { entry < (header_of table.now).entries },
    ghost known: { entry_named (find (members_of table.now of) ordinal) ≡ Some entry },
}

impl<'t> Slot<'t> {
    ghost use Rattle.fidl_view.specs.Parts.{member_of};
    ghost use Rattle.fidl_view.specs.Views.{part_of, IsShownBy};
    ghost use Rattle.fidl_members.specs.Owners.{owner_shown, owner_of_slot, type_of_slot};
    ghost use Rattle.fidl_members.specs.Owners.{ordinal_of};

    /// The member at this ordinal of the tables of an entry; none where the layout has no such
    /// ordinal, and of an entry of another kind.
    pub fn find(table: &'t Table<'t>, entry: u32, ordinal: u64) -> Option<Slot<'t>>
        requires { entry < (header_of table.now).entries }
        ensures of { IfSome result (λ s. owner_of_slot s ≡ owner table.now entry) }
        ensures ordinal { IfSome result (λ s. ordinal_of s ≡ ordinal) }
        ensures typed { IfSome result (λ s. (m : ℕ) → HasMember table.now entry ordinal m
            → type_of_slot s ≡ owner table.now m) }
        ensures none { IfNone result ((m : ℕ) → HasMember table.now entry ordinal m → ⊥) }
    {
        let EntryKind::Table = entry_kind(table, entry) else {
            return None;
        };
        let mut probes = 0;
        let Some(row) = table.member(entry, ordinal, &mut probes) else {
            return None;
        };
        Some(Slot {
            table,
            of: entry,
            ordinal,
            entry: row.entry,
        })
    }

    /// The entry of the member's type.
    pub fn entry(&self) -> u32
        ensures value { owner self.now.table.now result ≡ type_of_slot self.now }
        ensures in_range { result < (header_of self.now.table.now).entries }
    {
        self.entry
    }

    /// The member's view in a table of the slot's entry and coding table; none where it is absent.
    #[inline(always)]
    pub fn part<'v, 'm>(&self, view: View<'v, 'm>) -> Option<View<'v, 'm>>
        requires same { owner_of_slot self.now ≡ owner_shown view }
        ensures message { IfSome result (λ part. (part_of part).message
            ≡ (part_of view.entry).message) }
        ensures of { IfSome result (λ part. owner_shown part ≡ type_of_slot self.now) }
        ensures part { (v : Value) → IsShownBy view.entry v
            → MatchOption result (member_of v (ordinal_of self.now) ≡ None)
            (λ part. (x : Value) × (member_of v (ordinal_of self.now) ≡ Some x) × IsShownBy part x) }
    {
        view.known_member(self.ordinal, self.entry)
    }
}
