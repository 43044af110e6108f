//! Slots of one kind, whose members are read by one load once they are found.
ghost use Rattle.std.specs.Prelude.{◌≡◌, ◌≢◌, ◌<◌, ℕ, Some, None, IfSome, IfNone, MatchOption};
ghost use Rattle.std.specs.Option.{option_copied};
ghost use Rattle.fidl_wire.specs.Value.{Value};
ghost use Rattle.fidl_table_format.specs.declared.kind.EntryKind.TheVariants as EntryKind;
ghost use Rattle.fidl_table_format.specs.Section.{header_of, entry_at};
ghost use Rattle.fidl_table_format.specs.Entry.{IsOf};
ghost use Rattle.fidl_members.specs.Scalars.{scalar_of, type_in};
ghost use Rattle.fidl_members.specs.Entries.{owner, HasMember};

use crate::kinds::{entry_kind, scalar_kind};
use crate::reads::scalar_in;
use crate::scalar::Scalar;
use crate::slot::Slot;
use fidl_table_format::EntryKind;
use fidl_verify::Table;
use fidl_view::{Members, View};
use std::marker::PhantomData;

/// A slot of bools or numbers.
#[derive(Drop)]
pub struct ScalarSlot<'t, S: Scalar> {
    /// The slot, of any type.
    pub slot: Slot<'t>,
    scalar: PhantomData<S>,
    ghost read_as: { scalar_of (type_in slot.table.now slot.entry) ≡ Some S.kind },
}

/// A slot of strings.
#[derive(Clone, Copy)]
pub struct TextSlot<'t> {
    /// The slot, of any type.
    pub slot: Slot<'t>,
    ghost of_strings: { IsOf EntryKind.String (entry_at slot.table.now slot.entry) },
}

/// A slot of structs.
#[derive(Clone, Copy)]
pub struct StructSlot<'t> {
    /// The slot, of any type.
    pub slot: Slot<'t>,
    ghost of_structs: { IsOf EntryKind.Struct (entry_at slot.table.now slot.entry) },
}

impl<'t> Slot<'t> {
    ghost use Rattle.fidl_members.specs.Owners.{entry_of_slot, slot_type};

    /// The slot as one of bools or numbers of this type; none where its type is another.
    pub fn scalar<S: Scalar>(self) -> Option<ScalarSlot<'t, S>>
        ensures slot { IfSome result (λ s. s.slot ≡ self.entry) }
        ensures none { IfNone result (scalar_of (slot_type self.entry) ≢ Some S.kind) }
    {
        if !S::is_of(scalar_kind(self.table, self.entry)) {
            return None;
        }
        Some(ScalarSlot {
            slot: self,
            scalar: PhantomData,
        })
    }

    /// The slot as one of strings; none where its type is another.
    pub fn text(self) -> Option<TextSlot<'t>>
        ensures slot { IfSome result (λ s. s.slot ≡ self.entry) }
        ensures none { IfNone result (IsOf EntryKind.String (entry_of_slot self.entry) → ⊥) }
    {
        match entry_kind(self.table, self.entry) {
            EntryKind::String => Some(TextSlot { slot: self }),
            _ => None,
        }
    }

    /// The slot as one of structs; none where its type is another.
    pub fn members(self) -> Option<StructSlot<'t>>
        ensures slot { IfSome result (λ s. s.slot ≡ self.entry) }
        ensures none { IfNone result (IsOf EntryKind.Struct (entry_of_slot self.entry) → ⊥) }
    {
        match entry_kind(self.table, self.entry) {
            EntryKind::Struct => Some(StructSlot { slot: self }),
            _ => None,
        }
    }
}

impl<'t, S: Scalar> ScalarSlot<'t, S> {
    ghost use Rattle.fidl_view.specs.Parts.{member_of};
    ghost use Rattle.fidl_view.specs.Views.{IsShownBy};
    ghost use Rattle.fidl_members.specs.Owners.{owner_shown, owner_of_slot, ordinal_of};

    /// The member at this ordinal of the tables of an entry; none where the layout has no such
    /// ordinal, of an entry of another kind, and where the member is not of this type.
    pub fn find(table: &'t Table<'t>, entry: u32, ordinal: u64) -> Option<ScalarSlot<'t, S>>
        requires { entry < (header_of table.now).entries }
        ensures of { IfSome result (λ s. owner_of_slot s.slot ≡ owner table.now entry) }
        ensures ordinal { IfSome result (λ s. ordinal_of s.slot ≡ ordinal) }
        ensures none { IfNone result ((m : ℕ) → HasMember table.now entry ordinal m
            → scalar_of (type_in table.now m) ≢ Some S.kind) }
    {
        let Some(slot) = Slot::find(table, entry, ordinal) else {
            return None;
        };
        slot.scalar::<S>()
    }

    /// The bool or number of a table of the slot's entry and coding table; none where it is absent.
    #[inline(always)]
    pub fn read(&self, view: View<'_, '_>) -> Option<S>
        requires same { owner_of_slot self.now.slot ≡ owner_shown view }
        ensures { (v : Value) → IsShownBy view.entry v
            → MatchOption result (member_of v (ordinal_of self.now.slot) ≡ None)
            (λ n. member_of v (ordinal_of self.now.slot) ≡ Some (S.value n)) }
    {
        let Some(part) = self.slot.part(view) else {
            return None;
        };
        Some(scalar_in::<S>(part))
    }
}

impl<'t> TextSlot<'t> {
    ghost use Rattle.fidl_view.specs.Parts.{member_of, string_of};
    ghost use Rattle.fidl_view.specs.Views.{IsShownBy};
    ghost use Rattle.fidl_members.specs.Owners.{owner_shown, owner_of_slot, ordinal_of};

    /// The member at this ordinal of the tables of an entry; none where the layout has no such
    /// ordinal, of an entry of another kind, and where the member is not a string.
    pub fn find(table: &'t Table<'t>, entry: u32, ordinal: u64) -> Option<TextSlot<'t>>
        requires { entry < (header_of table.now).entries }
        ensures of { IfSome result (λ s. owner_of_slot s.slot ≡ owner table.now entry) }
        ensures ordinal { IfSome result (λ s. ordinal_of s.slot ≡ ordinal) }
        ensures none { IfNone result ((m : ℕ) → HasMember table.now entry ordinal m
            → IsOf EntryKind.String (entry_at table.now m) → ⊥) }
    {
        let Some(slot) = Slot::find(table, entry, ordinal) else {
            return None;
        };
        slot.text()
    }

    /// The text of a table of the slot's entry and coding table, a slice of the message itself;
    /// none where the member is absent, and `Some(None)` where its text is.
    #[inline(always)]
    pub fn read<'v, 'm>(&self, view: View<'v, 'm>) -> Option<Option<&'v str>>
        requires same { owner_of_slot self.now.slot ≡ owner_shown view }
        ensures { (v : Value) → IsShownBy view.entry v
            → MatchOption result (member_of v (ordinal_of self.now.slot) ≡ None)
            (λ text. (x : Value) × (member_of v (ordinal_of self.now.slot) ≡ Some x)
            × (option_copied text ≡ string_of x)) }
    {
        let Some(part) = self.slot.part(view) else {
            return None;
        };
        Some(part.text())
    }
}

impl<'t> StructSlot<'t> {
    ghost use Rattle.fidl_view.specs.Parts.{member_of};
    ghost use Rattle.fidl_view.specs.Views.{part_of, message_held, IsShownBy, ShowsMembersOf};
    ghost use Rattle.fidl_members.specs.Owners.{owner_shown, owner_held, owner_of_slot};
    ghost use Rattle.fidl_members.specs.Owners.{ordinal_of, type_of_slot};

    /// The member at this ordinal of the tables of an entry; none where the layout has no such
    /// ordinal, of an entry of another kind, and where the member is not a struct.
    pub fn find(table: &'t Table<'t>, entry: u32, ordinal: u64) -> Option<StructSlot<'t>>
        requires { entry < (header_of table.now).entries }
        ensures of { IfSome result (λ s. owner_of_slot s.slot ≡ owner table.now entry) }
        ensures ordinal { IfSome result (λ s. ordinal_of s.slot ≡ ordinal) }
        ensures none { IfNone result ((m : ℕ) → HasMember table.now entry ordinal m
            → IsOf EntryKind.Struct (entry_at table.now m) → ⊥) }
    {
        let Some(slot) = Slot::find(table, entry, ordinal) else {
            return None;
        };
        slot.members()
    }

    /// The members of the struct that a table of the slot's entry and coding table holds; none where
    /// it is absent.
    #[inline(always)]
    pub fn read<'v, 'm>(&self, view: View<'v, 'm>) -> Option<Members<'v, 'm>>
        requires same { owner_of_slot self.now.slot ≡ owner_shown view }
        ensures message { IfSome result (λ inner. message_held inner
            ≡ (part_of view.entry).message) }
        ensures of { IfSome result (λ inner. owner_held inner ≡ type_of_slot self.now.slot) }
        ensures members { (v : Value) → IsShownBy view.entry v
            → MatchOption result (member_of v (ordinal_of self.now.slot) ≡ None)
            (λ inner. (x : Value) × (member_of v (ordinal_of self.now.slot) ≡ Some x)
            × ShowsMembersOf x inner) }
    {
        let Some(part) = self.slot.part(view) else {
            return None;
        };
        Some(part.struct_members())
    }
}
