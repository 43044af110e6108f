//! Worked messages at the limits of bytes and handles, and parts that stand in a message.
ghost use Rattle.std.specs.Prelude.{◌≡◌, ◌≤◌, ℕ, ◌%◌, [], ◌∷◌, replicate, false, pos};
ghost use Rattle.fidl_wire.specs.declared.handle.HandleInfo.{HandleInfo};
ghost use Rattle.fidl_wire.specs.Value.{handle, list, number, values_of};
ghost use Rattle.fidl_wire.specs.Term.{uint8};
ghost use Rattle.fidl_wire.specs.Term as ty;
ghost use Rattle.fidl_wire.specs.Figure.{no_declarations};
ghost use Rattle.fidl_wire.specs.Encoding.{zeros};
ghost use Rattle.fidl_wire.specs.Message.{Encodes};
ghost use Rattle.fidl_wire.specs.Standing.{Stands, Carries};

/// `array<zx.Handle, 64>`: 64 handles come beside a message.
pub fn sixty_four_handles()
    ensures { let h : HandleInfo = record { id = 7; object_type = 3; rights = 0 } in
        Encodes no_declarations (ty.array (ty.handle false 0 0x80000000) 64)
        (list (values_of (replicate 64 (handle h)))) (replicate 256 255) (replicate 64 h) }
{}

/// `array<uint8, n>` of zeros is a message of n bytes, up to 16,777,216 of them.
pub fn arrays_of_up_to_16777216_bytes()
    ensures { (n : ℕ) → n % 8 ≡ 0 → n ≤ 16777216 → Encodes no_declarations
        (ty.array (ty.number uint8) n) (list (values_of (replicate n (number (pos 0))))) (zeros n)
        [] }
{}

/// Bytes stand at their place, and nowhere past the end.
pub fn bytes_at_a_place()
    ensures at_the_start { Stands (1 ∷ 2 ∷ 3 ∷ []) 0 (1 ∷ 2 ∷ []) }
    ensures at_the_end { Stands (1 ∷ 2 ∷ 3 ∷ []) 1 (2 ∷ 3 ∷ []) }
    ensures others { ¬ (Stands (1 ∷ 2 ∷ 3 ∷ []) 0 (1 ∷ 3 ∷ [])) }
    ensures past_the_end { ¬ (Stands (1 ∷ 2 ∷ []) 1 (2 ∷ 0 ∷ [])) }
{}

/// Handles stand at their index, and nowhere past the end.
pub fn handles_at_an_index()
    ensures at_the_end { let h : HandleInfo = record { id = 1; object_type = 0; rights = 0 } in
        let i : HandleInfo = record { id = 2; object_type = 0; rights = 0 } in
        let j : HandleInfo = record { id = 3; object_type = 0; rights = 0 } in
        Carries (h ∷ i ∷ j ∷ []) 1 (i ∷ j ∷ []) }
    ensures others { let h : HandleInfo = record { id = 1; object_type = 0; rights = 0 } in
        let i : HandleInfo = record { id = 2; object_type = 0; rights = 0 } in
        ¬ (Carries (h ∷ i ∷ []) 0 (h ∷ h ∷ [])) }
    ensures past_the_end { let h : HandleInfo = record { id = 1; object_type = 0; rights = 0 } in
        ¬ (Carries (h ∷ []) 0 (h ∷ h ∷ [])) }
{}
