//! Worked facts of tables and unions: entries and tables that keep the rules, and some that break
//! one.
ghost use Rattle.std.specs.Prelude.{◌≡◌, None, Some};
ghost use Rattle.fidl_wire.specs.Term as ty;
ghost use Rattle.fidl_wire.specs.Term.{find};
ghost use Rattle.fidl_table_format.specs.Section.{header_of, entry_at};
ghost use Rattle.fidl_table_format.specs.Terms.{members_of};
ghost use Rattle.fidl_table_format.specs.Entry.{HasShape, HasSize, IsSorted, entry_figure};
ghost use Rattle.fidl_table_format.specs.WellFormed.{WellFormed};
ghost use Rattle.fidl_table_format.specs.Samples.{an_entry, table_and_union};

/// A table has no flag, and at most 64 members; it may have none.
pub fn shapes_of_tables()
    ensures none { HasShape (an_entry 17 0 0 0 0 0) }
    ensures most { HasShape (an_entry 17 0 0 64 0 0) }
    ensures of_a_name { HasShape (record (an_entry 17 0 0 0 0 0) { name_length = 1 }) }
    ensures more { ¬ HasShape (an_entry 17 0 0 65 0 0) }
    ensures optional { ¬ HasShape (an_entry 17 1 0 1 0 0) }
    ensures strict { ¬ HasShape (an_entry 17 2 0 1 0 0) }
    ensures bounded { ¬ HasShape (an_entry 17 0 0 1 1 0) }
{}

/// A union may be optional and strict, and has members where it is strict, 65,535 at the most.
pub fn shapes_of_unions()
    ensures flexible { HasShape (an_entry 18 0 0 0 0 0) }
    ensures optional { HasShape (an_entry 18 1 0 0 0 0) }
    ensures strict { HasShape (an_entry 18 2 0 1 0 0) }
    ensures both { HasShape (an_entry 18 3 0 65535 0 0) }
    ensures of_a_name { HasShape (record (an_entry 18 0 0 0 0 0) { name_length = 1 }) }
    ensures none { ¬ HasShape (an_entry 18 2 0 0 0 0) }
    ensures more { ¬ HasShape (an_entry 18 0 0 65536 0 0) }
    ensures another_flag { ¬ HasShape (an_entry 18 4 0 1 0 0) }
    ensures of_a_subtype { ¬ HasShape (an_entry 18 0 0 1 0 6) }
{}

/// A table and a union have 16 bytes.
pub fn sizes()
    ensures of_a_table { let t = table_and_union 1 2 1 2 in
        HasSize (entry_figure t (header_of t) (entry_at t 1)) (entry_at t 1) }
    ensures of_a_union { let t = table_and_union 1 2 1 2 in
        HasSize (entry_figure t (header_of t) (entry_at t 2)) (entry_at t 2) }
    ensures shorter { let t = table_and_union 1 2 1 2 in
        ¬ HasSize (entry_figure t (header_of t) (entry_at t 1))
        (record (entry_at t 1) { size = 8 }) }
{}

/// The ordinals of a table rise from 1 on, and are at most 64.
pub fn ordinals_of_tables()
    ensures ends { let t = table_and_union 1 64 1 2 in IsSorted t (header_of t) (entry_at t 1) }
    ensures zero { let t = table_and_union 0 2 1 2 in ¬ IsSorted t (header_of t) (entry_at t 1) }
    ensures twice { let t = table_and_union 2 2 1 2 in ¬ IsSorted t (header_of t) (entry_at t 1) }
    ensures falling { let t = table_and_union 2 1 1 2 in ¬ IsSorted t (header_of t) (entry_at t 1) }
    ensures over { let t = table_and_union 1 65 1 2 in ¬ IsSorted t (header_of t) (entry_at t 1) }
{}

/// The ordinals of a union rise from 1 on, and may be over 64.
pub fn ordinals_of_unions()
    ensures over { let t = table_and_union 1 2 1 65 in IsSorted t (header_of t) (entry_at t 2) }
    ensures zero { let t = table_and_union 1 2 0 2 in ¬ IsSorted t (header_of t) (entry_at t 2) }
    ensures twice { let t = table_and_union 1 2 2 2 in ¬ IsSorted t (header_of t) (entry_at t 2) }
    ensures falling { let t = table_and_union 1 2 2 1 in ¬ IsSorted t (header_of t) (entry_at t 2) }
{}

/// A member of a table or union is found by its ordinal.
pub fn members()
    ensures of_a_table { find (members_of (table_and_union 3 7 1 2) 1) 7 ≡ Some (ty.named 0) }
    ensures of_a_union { find (members_of (table_and_union 1 2 3 7) 2) 3 ≡ Some (ty.named 0) }
    ensures none { find (members_of (table_and_union 3 7 1 2) 1) 4 ≡ None }
    ensures of_a_number { find (members_of (table_and_union 3 7 1 2) 0) 3 ≡ None }
{}

/// A table with a table and a union, whose ordinals need not follow one another.
pub fn tables_with_tables_and_unions()
    ensures well_formed { WellFormed (table_and_union 1 64 3 65) }
    ensures no_ordinals { ¬ WellFormed (table_and_union 1 1 3 65) }
    ensures no_table { ¬ WellFormed (table_and_union 1 65 3 65) }
{}
