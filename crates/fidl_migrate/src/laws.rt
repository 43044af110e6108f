//! Laws of lists of ranges: each is the contract of a function that does nothing.
ghost use Rattle.std.specs.Prelude.{◌≡◌, ℕ, ◌≤◌, List, length, All};
ghost use Rattle.fidl_table_format.specs.Section.{header_of, entry_at};
ghost use Rattle.fidl_migrate.specs.Kept.{numbers_of};
ghost use Rattle.fidl_migrate.specs.Ranges.{Range, IsInOrder, AreApart, numbers_in, ranges_of};
ghost use Rattle.fidl_migrate.specs.Ranges.{IsEnumOf};

/// Ranges with a number between each and the next are the only such list with their numbers, and no
/// list of ranges with these numbers is shorter.
pub fn ranges_apart_are_the_only_ones()
    ensures only { (ranges others : List Range) → AreApart ranges → AreApart others
        → numbers_in others ≡ numbers_in ranges → others ≡ ranges }
    ensures fewest { (ranges others : List Range) → AreApart ranges → All IsInOrder others
        → numbers_in others ≡ numbers_in ranges → length ranges ≤ length others }
{}

/// The values of an enum are the numbers in its ranges.
pub fn values_are_in_ranges()
    ensures { (bytes : List ℕ) (index : ℕ) → let e = entry_at bytes index in
        numbers_in (ranges_of bytes e) ≡ numbers_of bytes e }
{}

/// A table of version 2 has the only ranges with a number between each and the next that make up
/// the values of an enum, and the fewest of all tables.
pub fn enums_have_the_fewest_ranges()
    ensures apart { (bytes : List ℕ) (index : ℕ) → IsEnumOf bytes index
        → (header_of bytes).version ≡ 2 → AreApart (ranges_of bytes (entry_at bytes index)) }
    ensures fewest { (old new : List ℕ) (i j : ℕ) → IsEnumOf old i → IsEnumOf new j
        → (header_of new).version ≡ 2
        → numbers_of new (entry_at new j) ≡ numbers_of old (entry_at old i)
        → (entry_at new j).count ≤ (entry_at old i).count }
    ensures only { (old new : List ℕ) (i j : ℕ) → IsEnumOf old i → IsEnumOf new j
        → (header_of old).version ≡ 2 → (header_of new).version ≡ 2
        → numbers_of new (entry_at new j) ≡ numbers_of old (entry_at old i)
        → ranges_of new (entry_at new j) ≡ ranges_of old (entry_at old i) }
{}
