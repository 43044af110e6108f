//! Worked facts: a table and what it is migrated to, and tables that it is not migrated to.
ghost use Rattle.std.specs.Prelude.{◌≡◌, [], ◌∷◌, ◌++◌, codes, take, pos};
ghost use Rattle.fidl_table_format.specs.Section.{entry_at};
ghost use Rattle.fidl_table_format.specs.Samples.{root_of_enum, range_bytes, one_two_four};
ghost use Rattle.fidl_table_format.specs.Samples.{one_two_and_four};
ghost use Rattle.fidl_migrate.specs.Migrated.{IsMigrated};
ghost use Rattle.fidl_migrate.specs.Ranges.{AreApart, numbers_in, ends, ranges_of};

use fidl_table_format::worked::ranges::tables_of_both_versions;

/// The enum with the values 1, 2 and 4 has the ranges from 1 to 2 and from 4 to 4. The last of the
/// table's 130 bytes is the last of the root's name.
pub fn migrated_tables()
    ensures joined { IsMigrated (one_two_four 1) (one_two_and_four 2 4) }
    ensures own { IsMigrated (one_two_and_four 2 4) (one_two_and_four 2 4) }
    ensures gap_joined { ¬ IsMigrated (one_two_four 1) (root_of_enum 2 1 (range_bytes 1 4)) }
    ensures last_dropped { ¬ IsMigrated (one_two_four 1) (root_of_enum 2 1 (range_bytes 1 2)) }
    ensures name_changed { ¬ IsMigrated (one_two_four 1)
        (take 129 (one_two_and_four 2 4) ++ codes "F") }
    ensures not_written { ¬ IsMigrated (one_two_four 1) (one_two_four 1) }
    ensures not_own { ¬ IsMigrated (one_two_and_four 2 4) (one_two_four 1) }
{
    tables_of_both_versions();
}

/// The numbers 1, 2 and 4 are those of two ranges with a number between them. Two ranges that touch
/// have the numbers of one.
pub fn lists_of_ranges()
    ensures apart { AreApart (ends 1 2 ∷ ends 4 4 ∷ []) }
    ensures touching { ¬ AreApart (ends 1 2 ∷ ends 3 4 ∷ []) }
    ensures falling { ¬ AreApart (ends 4 4 ∷ ends 1 2 ∷ []) }
    ensures ends_swapped { ¬ AreApart (ends 2 1 ∷ ends 4 4 ∷ []) }
    ensures with_a_gap { numbers_in (ends 1 2 ∷ ends 4 4 ∷ []) ≡ pos 1 ∷ pos 2 ∷ pos 4 ∷ [] }
    ensures joined { numbers_in (ends 1 2 ∷ ends 3 4 ∷ []) ≡ numbers_in (ends 1 4 ∷ []) }
    ensures of_a_table { ranges_of (one_two_and_four 2 4) (entry_at (one_two_and_four 2 4) 0)
        ≡ ends 1 2 ∷ ends 4 4 ∷ [] }
    ensures of_version_1 { ranges_of (one_two_four 1) (entry_at (one_two_four 1) 0)
        ≡ ends 1 1 ∷ ends 2 2 ∷ ends 4 4 ∷ [] }
{}
