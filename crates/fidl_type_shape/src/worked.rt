//! Worked facts: what keeps to the limits and what does not, and what each refusal is true of.
ghost use Rattle.std.specs.Prelude.{◌≡◌, ◌≢◌, ◌<◌, ◌≤◌, ℕ, [], ◌∷◌, codes, pos, true, false};
ghost use Rattle.std.specs.Prelude.{IsTrue, None, Some, suc};
ghost use Rattle.fidl_wire.specs.Term.{no_fields, field, no_rows, row};
ghost use Rattle.fidl_wire.specs.Term as ty;
ghost use Rattle.fidl_wire.specs.Figure.{IsLaidOut, figure, offsets};
ghost use Rattle.fidl_type_shape.specs.Limits.{IsWithin, KeepLimits, TypeFits, parts};
ghost use Rattle.fidl_type_shape.specs.Limits.{member_count};
ghost use Rattle.fidl_type_shape.specs.declared.fault.Excess.TheVariants as Limits;
ghost use Rattle.fidl_type_shape.specs.Nesting.{Nested};
ghost use Rattle.fidl_type_shape.specs.Solutions.{is_settled, Solve};
ghost use Rattle.fidl_type_shape.specs.Faults.{IsTooNested, IsTooLarge, HasTooManyMembers};
ghost use Rattle.fidl_type_shape.specs.Faults.{HoldsExcess};
ghost use Rattle.fidl_type_shape.specs.Samples.{holding, bytes, arrays, struct_in, bools};
ghost use Rattle.fidl_type_shape.specs.Samples.{alone};

/// What stands in a vector, an array or a member stands in what is around it; a name is not
/// followed.
pub fn what_stands_in_a_term()
    ensures in_a_vector { parts (ty.vector false 2 (bytes 3))
        ≡ ty.vector false 2 (bytes 3) ∷ bytes 3 ∷ ty.number ty.uint8 ∷ [] }
    ensures in_a_struct { parts (ty.struct (field (codes "a") ty.bool
        (field (codes "b") (ty.named 0) no_fields))) ≡ ty.struct (field (codes "a") ty.bool
        (field (codes "b") (ty.named 0) no_fields)) ∷ ty.bool ∷ ty.named 0 ∷ [] }
    ensures in_a_table { parts (ty.table (row 1 (codes "a") (bytes 3) no_rows))
        ≡ ty.table (row 1 (codes "a") (bytes 3) no_rows) ∷ bytes 3 ∷ ty.number ty.uint8 ∷ [] }
    ensures in_a_union { parts (ty.union false true (row 1 (codes "a") ty.bool no_rows))
        ≡ ty.union false true (row 1 (codes "a") ty.bool no_rows) ∷ ty.bool ∷ [] }
    ensures in_a_box { parts (ty.box (ty.named 0)) ≡ ty.box (ty.named 0) ∷ ty.named 0 ∷ [] }
    ensures not_itself_alone { parts (holding ty.bool) ≢ holding ty.bool ∷ [] }
{}

/// A type has at most 65,535 bytes, and a nest of at most 32.
pub fn limits_of_figures()
    ensures last { IsWithin (figure 65535 8 32) }
    ensures too_large { ¬ (IsWithin (figure 65536 1 0)) }
    ensures too_nested { ¬ (IsWithin (figure 1 1 33)) }
{}

/// Members are counted of structs, tables, unions and strict enums.
pub fn counts_of_members()
    ensures of_a_struct { member_count (ty.struct (bools 2)) ≡ 2 }
    ensures of_a_table { member_count (ty.table (row 2 (codes "a") ty.bool no_rows)) ≡ 1 }
    ensures of_a_union { member_count (ty.union false true (row 2 (codes "a") ty.bool no_rows)) ≡ 1 }
    ensures of_a_strict_enum { member_count (ty.enum ty.uint8 (Some (pos 1 ∷ pos 4 ∷ []))) ≡ 2 }
    ensures of_a_flexible_enum { member_count (ty.enum ty.uint8 None) ≡ 0 }
    ensures other { member_count (ty.struct (bools 2)) ≢ 1 }
{}

/// `struct {a uint8; b uint32;}` has 8 bytes and alignment 4, with its members at 0 and 4; the
/// empty struct has one byte.
pub fn figures_of_structs()
    ensures padded { IsLaidOut (alone (ty.struct (field (codes "a") (ty.number ty.uint8)
        (field (codes "b") (ty.number ty.uint32) no_fields))) (figure 8 4 1)) }
    ensures at_places { offsets [] 0 (field (codes "a") (ty.number ty.uint8)
        (field (codes "b") (ty.number ty.uint32) no_fields)) ≡ 0 ∷ 4 ∷ [] }
    ensures empty { IsLaidOut (alone (ty.struct no_fields) (figure 1 1 1)) }
    ensures not_without_bytes { ¬ (IsLaidOut (alone (ty.struct no_fields) (figure 0 1 1))) }
    ensures of_an_array { IsLaidOut (alone (holding (ty.array (ty.number ty.uint16) 3))
        (figure 6 2 2)) }
{}

/// Limits hold of a definition and of all that stands in it.
pub fn limits_of_declarations()
    ensures kept { KeepLimits (alone (holding (bytes 65535)) (figure 65535 1 2)) }
    ensures large { ¬ (KeepLimits (alone (holding (bytes 65536)) (figure 65536 1 2))) }
    ensures large_in_a_vector { ¬ (KeepLimits (alone (holding (ty.vector false 1 (bytes 65536)))
        (figure 16 8 1))) }
    ensures deep { KeepLimits (alone (struct_in 31) (figure 1 1 32)) }
    ensures too_deep { ¬ (KeepLimits (alone (struct_in 32) (figure 1 1 33))) }
    ensures many { (n : ℕ) → 65535 < n → ¬ (KeepLimits (alone (ty.struct (bools n)) (figure n 1 1))) }
{}

/// A struct stands in another by its name, and an array counts. A box counts nothing.
pub fn structs_in_one_another()
    ensures by_a_name { Nested (ty.struct no_fields ∷ []) 2 (holding (ty.named 0)) }
    ensures through_an_array { Nested [] 2 (holding (bytes 3)) }
    ensures alone { ¬ (Nested [] 2 (ty.struct no_fields)) }
    ensures through_a_box { ¬ (Nested (ty.struct no_fields ∷ []) 2
        (holding (ty.box (ty.named 0)))) }
    ensures in_a_vector { ¬ (Nested [] 1 (ty.vector false 2 (ty.struct no_fields))) }
{}

/// From a struct that stands in itself, any number stand in one another.
pub fn a_struct_in_itself()
    ensures { (n : ℕ) → Nested (holding (ty.named 0) ∷ []) n (holding (ty.named 0)) }
{}

/// Figures of some definitions solve their equations, and have no others inline.
pub fn figures_of_some_definitions()
    ensures of_the_first { Solve (holding ty.bool ∷ holding (ty.named 1) ∷ [])
        (figure 1 1 1 ∷ figure 1 1 0 ∷ []) (true ∷ false ∷ []) }
    ensures other { ¬ (Solve (holding ty.bool ∷ holding (ty.named 1) ∷ [])
        (figure 2 1 1 ∷ figure 1 1 0 ∷ []) (true ∷ false ∷ [])) }
    ensures of_both { ¬ (Solve (holding ty.bool ∷ holding (ty.named 1) ∷ [])
        (figure 1 1 1 ∷ figure 1 1 0 ∷ []) []) }
    ensures inline { is_settled (true ∷ false ∷ []) (holding (ty.named 1)) ≡ false }
    ensures behind_a_box { is_settled (true ∷ false ∷ []) (holding (ty.box (ty.named 1))) ≡ true }
{}

/// 33 structs in one another are too many, and 32 are not; nor is a struct that has itself in a
/// box, nor one that names the culprit in a vector.
pub fn definitions_too_nested()
    ensures refused { IsTooNested (struct_in 32 ∷ []) 0 }
    ensures in_itself { IsTooNested (holding (ty.named 0) ∷ []) 0 }
    ensures last { ¬ (IsTooNested (struct_in 31 ∷ []) 0) }
    ensures in_a_box { ¬ (IsTooNested (holding (ty.box (ty.named 0)) ∷ []) 0) }
    ensures holder { ¬ (IsTooNested (holding (ty.vector false 2 (ty.named 1)) ∷ struct_in 32 ∷ [])
        0) }
    ensures held { IsTooNested (holding (ty.vector false 2 (ty.named 1)) ∷ struct_in 32 ∷ []) 1 }
{}

/// 65,536 bytes are too large, and 65,535 are not; nor is a struct that names the culprit in a
/// vector.
pub fn definitions_too_large()
    ensures refused { IsTooLarge (holding (bytes 65536) ∷ []) 0 }
    ensures in_a_table { IsTooLarge (ty.table (row 1 (codes "a") (bytes 65536) no_rows) ∷ []) 0 }
    ensures last { ¬ (IsTooLarge (holding (bytes 65535) ∷ []) 0) }
    ensures of_another { ¬ (IsTooLarge (ty.struct no_fields ∷ holding (bytes 65536) ∷ []) 0) }
    ensures holder { ¬ (IsTooLarge (holding (ty.vector false 2 (ty.named 1))
        ∷ holding (bytes 65536) ∷ []) 0) }
    ensures in_a_vector { IsTooLarge (holding (ty.vector false 2 (bytes 65536)) ∷ []) 0 }
{}

/// 65,536 members are too many, and 65,535 are not.
pub fn definitions_with_many_members()
    ensures refused { (n : ℕ) → 65535 < n → HasTooManyMembers (ty.struct (bools n) ∷ []) 0 }
    ensures last { (n : ℕ) → n ≤ 65535 → ¬ (HasTooManyMembers (ty.struct (bools n) ∷ []) 0) }
{}

/// A type alone holds what is past a limit where it is an array past it, or holds one, in a vector
/// too; a definition that it names is none of its own.
pub fn types_past_limits()
    ensures large { HoldsExcess [] (bytes 65536) Limits.Size }
    ensures last { TypeFits [] (bytes 65535) }
    ensures not_last { ¬ (HoldsExcess [] (bytes 65535) Limits.Size) }
    ensures in_a_vector { HoldsExcess [] (ty.vector false 2 (bytes 65536)) Limits.Size }
    ensures deep { HoldsExcess [] (arrays 33) Limits.Nest }
    ensures last_deep { TypeFits [] (arrays 32) }
    ensures not_last_deep { ¬ (HoldsExcess [] (arrays 32) Limits.Nest) }
    ensures of_a_name { ¬ (HoldsExcess (figure 65536 1 1 ∷ []) (ty.named 0) Limits.Size) }
{}
