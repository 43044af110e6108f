//! Worked facts: small tables that show the types of a list, and some that don't.
ghost use Rattle.std.specs.Prelude.{◌≡◌, ℕ, [], ◌∷◌, codes};
ghost use Rattle.fidl_wire.specs.Term.{uint8};
ghost use Rattle.fidl_wire.specs.Term as ty;
ghost use Rattle.fidl_wire.specs.Figure.{Declarations, no_declarations};
ghost use Rattle.fidl_ir.specs.declared.term.Row.{Row};
ghost use Rattle.fidl_table_format.specs.declared.record.Entry.{Entry};
ghost use Rattle.fidl_table_format.specs.Section.{entry_at};
ghost use Rattle.fidl_table_check.specs.Numbered.{AreEntries, ShowsTypes, HaveNames};
ghost use Rattle.fidl_table_check.specs.Members.{IsEntryOf, IsMember, IsRow};
ghost use Rattle.fidl_table_check.specs.Samples.{one_entry, one_row};

/// The entries are as many as the types, and each is its type.
pub fn entries_of_types()
    ensures none { AreEntries no_declarations [] [] }
    ensures a_bool { AreEntries no_declarations (ty.bool ∷ []) (one_entry 1) }
    ensures fewer { ¬ AreEntries no_declarations (ty.bool ∷ []) [] }
    ensures more { ¬ AreEntries no_declarations [] (one_entry 1) }
    ensures other { ¬ AreEntries no_declarations (ty.number uint8 ∷ []) (one_entry 1) }
{}

/// A table shows a type by its values.
pub fn types_that_are_shown()
    ensures a_bool { ShowsTypes no_declarations (ty.bool ∷ []) (one_entry 1) }
    ensures other { ¬ ShowsTypes no_declarations (ty.bool ∷ []) (one_entry 6) }
{}

/// An entry has the name of the definition whose number its type has; that of another type may have
/// any.
pub fn names_of_entries()
    ensures same { HaveNames (codes "a" ∷ []) (ty.named 0 ∷ []) (one_entry 16) }
    ensures of_number { HaveNames (codes "b" ∷ codes "a" ∷ []) (ty.named 1 ∷ []) (one_entry 16) }
    ensures other { ¬ HaveNames (codes "b" ∷ []) (ty.named 0 ∷ []) (one_entry 16) }
    ensures no_name { ¬ HaveNames [] (ty.named 0 ∷ []) (one_entry 16) }
    ensures no_layout { HaveNames [] (ty.bool ∷ []) (one_entry 1) }
{}

/// A row is a member of its name and of the type of its number, and in a table or union of its
/// ordinal.
pub fn rows_of_members()
    ensures same { IsMember (ty.bool ∷ []) (one_entry 1) (one_row 0) (codes "a") ty.bool }
    ensures other_name { ¬ IsMember (ty.bool ∷ []) (one_entry 1) (one_row 0) (codes "b") ty.bool }
    ensures other_type { ¬ IsMember (ty.bool ∷ []) (one_entry 1) (one_row 0) (codes "a")
        (ty.named 0) }
    ensures other_number { ¬ IsMember (ty.bool ∷ []) (one_entry 1) (one_row 1) (codes "a") ty.bool }
    ensures other_ordinal { (e : Entry) (r : Row) → r.ordinal ≡ 1 → ¬ IsRow (ty.bool ∷ []) [] e 0 r }
    ensures entry { IsEntryOf (one_entry 1) (entry_at (one_entry 1) 0) }
    ensures no_entry { (e : Entry) → ¬ IsEntryOf [] e }
{}
