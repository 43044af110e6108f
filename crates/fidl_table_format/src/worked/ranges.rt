//! Worked facts of tables of version 2: ranges that keep the rules, and some that break one.
ghost use Rattle.std.specs.Prelude.{◌≡◌, List, [], ◌∷◌, ◌++◌, replicate, Some, ℤ, pos, negsuc};
ghost use Rattle.fidl_wire.specs.Term as ty;
ghost use Rattle.fidl_wire.specs.Term.{int8, uint32};
ghost use Rattle.fidl_table_format.specs.Section.{header_of, entry_at, range_at};
ghost use Rattle.fidl_table_format.specs.Terms.{declarations_of, values_from};
ghost use Rattle.fidl_table_format.specs.Entry.{IsSorted};
ghost use Rattle.fidl_table_format.specs.WellFormed.{WellFormed};
ghost use Rattle.fidl_table_format.specs.Samples.{header_of_version, enum_bytes, value_bytes, all_ones};
ghost use Rattle.fidl_table_format.specs.Samples.{range_bytes, two_ranges, one_two_and_four};
ghost use Rattle.fidl_table_format.specs.Samples.{one_two_four};

/// A record of version 2 states both ends, one of version 1 its number.
pub fn ends_of_ranges()
    ensures version_two { let t = one_two_and_four 2 4 in
        range_at t (header_of t) 0 ≡ record { lowest = 1; highest = 2 } }
    ensures version_one { let t = one_two_four 1 in
        range_at t (header_of t) 1 ≡ record { lowest = 2; highest = 2 } }
{}

/// Tables of both versions declare the same values.
pub fn numbers_of_ranges()
    ensures version_two { (declarations_of (one_two_and_four 2 4)).terms
        ≡ ty.enum uint32 (Some (pos 1 ∷ pos 2 ∷ pos 4 ∷ [])) ∷ [] }
    ensures version_one { (declarations_of (one_two_four 1)).terms
        ≡ ty.enum uint32 (Some (pos 1 ∷ pos 2 ∷ pos 4 ∷ [])) ∷ [] }
    ensures negative { let t = two_ranges 1 2 (all_ones ++ value_bytes 1) (range_bytes 3 3) in
        values_from t (header_of t) int8 0 2 ≡ negsuc 0 ∷ pos 0 ∷ pos 1 ∷ pos 3 ∷ [] }
{}

/// A table of version 2 is well formed, and so is the one of version 1 with the same values.
pub fn tables_of_both_versions()
    ensures two { WellFormed (one_two_and_four 2 4) }
    ensures one { WellFormed (one_two_four 1) }
{}

/// There is no version but 1 and 2, and neither is read as the other.
pub fn other_versions()
    ensures none { ¬ WellFormed (one_two_and_four 0 4) }
    ensures three { ¬ WellFormed (one_two_and_four 3 4) }
    ensures two_as_one { ¬ WellFormed (one_two_and_four 1 4) }
    ensures one_as_two { ¬ WellFormed (one_two_four 2) }
{}

/// Between two ranges there is a number.
pub fn ranges_are_apart()
    ensures apart { let t = two_ranges 1 6 (range_bytes 1 2) (range_bytes 4 4) in
        IsSorted t (header_of t) (entry_at t 0) }
    ensures touching { let t = two_ranges 1 6 (range_bytes 1 2) (range_bytes 3 4) in
        ¬ IsSorted t (header_of t) (entry_at t 0) }
    ensures overlapping { let t = two_ranges 1 6 (range_bytes 1 3) (range_bytes 3 4) in
        ¬ IsSorted t (header_of t) (entry_at t 0) }
    ensures falling { let t = two_ranges 1 6 (range_bytes 4 4) (range_bytes 1 2) in
        ¬ IsSorted t (header_of t) (entry_at t 0) }
    ensures ends_swapped { let t = two_ranges 1 6 (range_bytes 2 1) (range_bytes 4 4) in
        ¬ IsSorted t (header_of t) (entry_at t 0) }
    ensures touching_table { ¬ WellFormed (one_two_and_four 2 3) }
{}

/// Both ends of a range are of the underlying type, of which a range may have all numbers.
pub fn ends_fit()
    ensures signed { let t = two_ranges 1 2 ((128 ∷ replicate 7 255) ++ all_ones)
        (range_bytes 1 127) in
        IsSorted t (header_of t) (entry_at t 0) }
    ensures widest { let t = two_ranges 8 9 (range_bytes 0 0) (value_bytes 2 ++ all_ones) in
        IsSorted t (header_of t) (entry_at t 0) }
    ensures too_great { let t = two_ranges 1 6 (range_bytes 1 2) (range_bytes 4 256) in
        ¬ IsSorted t (header_of t) (entry_at t 0) }
    ensures too_small { let t = two_ranges 1 2 ((127 ∷ replicate 7 255) ++ all_ones)
        (range_bytes 1 1) in
        ¬ IsSorted t (header_of t) (entry_at t 0) }
{}

/// A flexible enum has no ranges.
pub fn a_range_of_a_flexible_enum()
    ensures { ¬ WellFormed (header_of_version 2 1 1 ++ enum_bytes 0 1 0 1 6 ++ range_bytes 1 1) }
{}
