//! Worked facts of whole tables: one that keeps all rules, and some that break one.
ghost use Rattle.std.specs.Prelude.{[], ◌∷◌, ◌++◌};
ghost use Rattle.fidl_table_format.specs.WellFormed.{WellFormed};
ghost use Rattle.fidl_table_format.specs.Samples.{value_bytes, three_enums};

/// Each value is of an enum, and nothing follows the last section.
pub fn enums_cover_the_values()
    ensures whole { WellFormed (three_enums 2 3) }
    ensures uncovered { ¬ WellFormed (three_enums 2 4 ++ value_bytes 9) }
    ensures surplus { ¬ WellFormed (three_enums 2 3 ++ 0 ∷ []) }
    ensures elsewhere { ¬ WellFormed (three_enums 0 3) }
{}
