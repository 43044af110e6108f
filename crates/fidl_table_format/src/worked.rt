//! Worked facts: what small tables declare, computed by the definitions.
ghost use Rattle.std.specs.Prelude.{◌≡◌, [], ◌∷◌, ◌++◌, replicate, codes, Some, ℕ, List, pos};
ghost use Rattle.std.specs.Prelude.{negsuc};
ghost use Rattle.fidl_wire.specs.Term as ty;
ghost use Rattle.fidl_wire.specs.Term.{Term, uint64, int64, int8};
ghost use Rattle.fidl_table_format.specs.Terms.{declarations_of};

pub mod below;
pub mod methods;
pub mod numbers;
pub mod ordinals;
pub mod ranges;
pub mod tables;
pub mod unknown;

/// A table of one strict enum with one value: underlying type uint64, and the greatest number of 64
/// bits.
pub fn the_greatest_value_of_a_strict_enum()
    ensures { let table : List ℕ = codes "FCT2" ++ 1 ∷ 0 ∷ 0 ∷ 0 ∷ 1 ∷ 0 ∷ 0 ∷ 0 ∷ 0 ∷ 0 ∷ 0 ∷ 0 ∷ 1
        ∷ replicate 23 0
        ++ 11 ∷ 2 ∷ 8 ∷ 0 ∷ 8 ∷ 0 ∷ 0 ∷ 0 ∷ 0 ∷ 0 ∷ 0 ∷ 0 ∷ 1 ∷ replicate 11 0 ++ 9 ∷ replicate 15 0
        ++ replicate 8 255 in
        (declarations_of table).terms ≡ ty.enum uint64 (Some (pos 18446744073709551615 ∷ [])) ∷ [] }
{}

/// The same bytes with underlying type int64: the number is -1.
pub fn a_negative_value_of_a_strict_enum()
    ensures { let table : List ℕ = codes "FCT2" ++ 1 ∷ 0 ∷ 0 ∷ 0 ∷ 1 ∷ 0 ∷ 0 ∷ 0 ∷ 0 ∷ 0 ∷ 0 ∷ 0 ∷ 1
        ∷ replicate 23 0
        ++ 11 ∷ 2 ∷ 8 ∷ 0 ∷ 8 ∷ 0 ∷ 0 ∷ 0 ∷ 0 ∷ 0 ∷ 0 ∷ 0 ∷ 1 ∷ replicate 11 0 ++ 5 ∷ replicate 15 0
        ++ replicate 8 255 in
        (declarations_of table).terms ≡ ty.enum int64 (Some (negsuc 0 ∷ [])) ∷ [] }
{}
