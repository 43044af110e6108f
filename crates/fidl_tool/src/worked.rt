//! Worked facts: lines and names, computed by the definitions.
ghost use Rattle.std.specs.Prelude.{◌≡◌, ℕ, [], ◌∷◌, codes};
ghost use Rattle.fidl_named.specs.declared.place.Place.{Place};
ghost use Rattle.fidl_tool.specs.Compiling.{report_line, name_at};

/// The line of a refusal: file, line and column, then stage, number and name. A file's name with a
/// control character stands between quotes.
pub fn the_line_of_a_refusal()
    ensures plain { (place : Place) → report_line
        (record { file = codes "t.fidl"; line = 1; column = 17 })
        (record { stage = codes "types"; number = 2; name = codes "InlineCycle"; place = place })
        ≡ codes "t.fidl:1:17: types 2 InlineCycle\n" }
    ensures quoted { (place : Place) → report_line
        (record { file = codes "t\n.fidl"; line = 2; column = 3 })
        (record { stage = codes "lex"; number = 1; name = codes "NotUtf8"; place = place })
        ≡ codes "\"t\\n.fidl\":2:3: lex 1 NotUtf8\n" }
{}

/// Files have their names by their numbers, from 0 on.
pub fn names_of_files()
    ensures second { name_at ((codes "a", []) ∷ (codes "b", []) ∷ []) 1 ≡ codes "b" }
    ensures none { name_at ((codes "a", []) ∷ []) 1 ≡ [] }
{}
