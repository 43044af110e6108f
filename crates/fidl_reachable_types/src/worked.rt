//! Worked facts: what small types hold, and what is reached from them.
ghost use Rattle.std.specs.Prelude.{◌≡◌, ◌≢◌, ℕ, [], ◌∷◌, codes, true, false};
ghost use Rattle.fidl_wire.specs.Term.{Term, no_rows, row};
ghost use Rattle.fidl_wire.specs.Term as ty;
ghost use Rattle.fidl_reachable_types.specs.Reached.{held, IsReached, IsJoined, parts_of, AreReached};
ghost use Rattle.fidl_reachable_types.specs.Faults.{AreTooMany};
ghost use Rattle.fidl_reachable_types.specs.Samples.{holding, holding_two};

/// Vectors, arrays and boxes hold one type, and a definition those of its members.
pub fn what_types_hold()
    ensures of_vectors { held [] (ty.vector false 2 ty.bool) ≡ ty.bool ∷ [] }
    ensures of_arrays { held [] (ty.array ty.bool 3) ≡ ty.bool ∷ [] }
    ensures of_boxes { held [] (ty.box (ty.named 1)) ≡ ty.named 1 ∷ [] }
    ensures of_structs { held (holding_two ty.bool (ty.named 0) ∷ []) (ty.named 0)
        ≡ ty.bool ∷ ty.named 0 ∷ [] }
    ensures of_unions { held (ty.union false true (row 1 (codes "a") (ty.string true 5) no_rows)
        ∷ []) (ty.named 0) ≡ ty.string true 5 ∷ [] }
    ensures of_strings { held (holding ty.bool ∷ []) (ty.string true 5) ≡ [] }
    ensures of_another { held (holding ty.bool ∷ holding (ty.named 0) ∷ []) (ty.named 1)
        ≢ ty.bool ∷ [] }
{}

/// A list is followed by the parts that it lacks, in their order, and each stands there once.
pub fn what_is_joined()
    ensures in_order { IsJoined [] (ty.named 0 ∷ ty.bool ∷ []) (ty.named 0 ∷ ty.bool ∷ []) }
    ensures once { IsJoined (ty.bool ∷ []) (ty.named 0 ∷ ty.bool ∷ ty.named 0 ∷ [])
        (ty.bool ∷ ty.named 0 ∷ []) }
    ensures other_order { IsJoined [] (ty.named 0 ∷ ty.bool ∷ []) (ty.bool ∷ ty.named 0 ∷ []) → ⊥ }
    ensures twice { IsJoined (ty.bool ∷ []) (ty.bool ∷ []) (ty.bool ∷ ty.bool ∷ []) → ⊥ }
    ensures none_left_out { IsJoined [] (ty.bool ∷ []) [] → ⊥ }
{}

/// The parts of a list are the roots in their order, then what each type holds, place by place.
pub fn parts_of_lists()
    ensures of_roots { parts_of [] (1 ∷ 0 ∷ []) [] ≡ ty.named 1 ∷ ty.named 0 ∷ [] }
    ensures of_types { parts_of (holding ty.bool ∷ []) (0 ∷ [])
        (ty.named 0 ∷ ty.vector false 2 (ty.named 0) ∷ [])
        ≡ ty.named 0 ∷ ty.bool ∷ ty.named 0 ∷ [] }
    ensures other { parts_of (holding ty.bool ∷ []) (0 ∷ []) (ty.named 0 ∷ [])
        ≢ ty.bool ∷ ty.named 0 ∷ [] }
{}

/// A struct reaches itself and its member, each once, and no other.
pub fn what_is_reached()
    ensures both { AreReached (holding ty.bool ∷ []) (0 ∷ []) (ty.named 0 ∷ ty.bool ∷ []) }
    ensures itself { AreReached (holding (ty.named 0) ∷ []) (0 ∷ []) (ty.named 0 ∷ []) }
    ensures one_alone { AreReached (holding ty.bool ∷ []) (0 ∷ []) (ty.named 0 ∷ []) → ⊥ }
    ensures twice { AreReached (holding ty.bool ∷ []) (0 ∷ []) (ty.named 0 ∷ ty.bool ∷ ty.bool ∷ [])
        → ⊥ }
    ensures member_first { AreReached (holding ty.bool ∷ []) (0 ∷ []) (ty.bool ∷ ty.named 0 ∷ [])
        → ⊥ }
    ensures without_roots { (t : Term) → IsReached (holding ty.bool ∷ []) [] t → ⊥ }
{}

/// A struct of a bool has two types, so more than one, and not more than two.
pub fn too_many_types()
    ensures past { AreTooMany (holding ty.bool ∷ []) (0 ∷ []) 1 }
    ensures within { AreTooMany (holding ty.bool ∷ []) (0 ∷ []) 2 → ⊥ }
{}
