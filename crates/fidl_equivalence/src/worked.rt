//! Worked facts: small types that are alike, and some that aren't.
ghost use Rattle.std.specs.Prelude.{◌≡◌, ℕ, pos, [], ◌∷◌, codes, true, false, Some, None};
ghost use Rattle.fidl_wire.specs.Term.{Term, no_fields, field, no_rows, row, uint8, int8};
ghost use Rattle.fidl_wire.specs.Term as ty;
ghost use Rattle.fidl_wire.specs.Figure.{Declarations, figure};
ghost use Rattle.fidl_equivalence.specs.Alike.{Alike, AlikeValues, AreAlike, IsNumbered};
ghost use Rattle.fidl_equivalence.specs.Samples.{Same, holding_itself};

/// Types are alike where each number and each name is the same, and the parts are related.
pub fn one_level()
    ensures numbers { Alike Same (ty.number uint8) (ty.number uint8) }
    ensures other_number { ¬ Alike Same (ty.number uint8) (ty.number int8) }
    ensures bounds { Alike Same (ty.vector false 3 ty.bool) (ty.vector false 3 ty.bool) }
    ensures other_bound { ¬ Alike Same (ty.vector false 3 ty.bool) (ty.vector false 4 ty.bool) }
    ensures optional { ¬ Alike Same (ty.string true 3) (ty.string false 3) }
    ensures other_part { ¬ Alike Same (ty.box (ty.named 0)) (ty.box (ty.named 1)) }
    ensures masks { ¬ Alike Same (ty.bits uint8 (Some 1)) (ty.bits uint8 None) }
    ensures rights { ¬ Alike Same (ty.handle false 4 1) (ty.handle false 4 2) }
    ensures another_kind { ¬ Alike Same (ty.box (ty.named 0)) (ty.named 0) }
{}

/// The values of enums are the same whatever their order.
pub fn values_of_enums()
    ensures turned { AlikeValues (Some (pos 1 ∷ pos 2 ∷ [])) (Some (pos 2 ∷ pos 1 ∷ [])) }
    ensures fewer { ¬ AlikeValues (Some (pos 1 ∷ pos 2 ∷ [])) (Some (pos 2 ∷ [])) }
    ensures strict { ¬ AlikeValues (Some []) None }
{}

/// Members have one name.
pub fn names_of_members()
    ensures same { Alike Same (ty.struct (field (codes "a") ty.bool no_fields))
        (ty.struct (field (codes "a") ty.bool no_fields)) }
    ensures other { ¬ Alike Same (ty.struct (field (codes "a") ty.bool no_fields))
        (ty.struct (field (codes "b") ty.bool no_fields)) }
    ensures fewer { ¬ Alike Same (ty.struct (field (codes "a") ty.bool no_fields))
        (ty.struct no_fields) }
    ensures of_ordinals { ¬ Alike Same (ty.table (row 1 (codes "a") ty.bool no_rows))
        (ty.table (row 1 (codes "b") ty.bool no_rows)) }
    ensures at_ordinals { ¬ Alike Same (ty.table (row 1 (codes "a") ty.bool no_rows))
        (ty.table (row 2 (codes "a") ty.bool no_rows)) }
{}

/// A struct that holds itself in a box is alike to itself, and to another that does, whatever their
/// numbers; it is not alike to a bool.
pub fn all_levels()
    ensures itself { AreAlike (holding_itself 0) (holding_itself 0) (ty.named 0) (ty.named 0) }
    ensures of_a_bool { ¬ AreAlike (holding_itself 0) (holding_itself 0) (ty.named 0) ty.bool }
    ensures numbered { IsNumbered (ty.bool ∷ ty.named 3 ∷ []) (ty.named 3) (ty.named 1) }
    ensures not_there { ¬ IsNumbered (ty.bool ∷ []) (ty.named 3) (ty.named 1) }
{}
