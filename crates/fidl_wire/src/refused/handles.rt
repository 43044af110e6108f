//! Refused: handles.
ghost use Rattle.std.specs.Prelude.{[], ◌∷◌, ◌++◌, replicate, true, false};
ghost use Rattle.fidl_wire.specs.declared.handle.HandleInfo.{HandleInfo};
ghost use Rattle.fidl_wire.specs.Value.{handle};
ghost use Rattle.fidl_wire.specs.Term as ty;
ghost use Rattle.fidl_wire.specs.Figure.{no_declarations};
ghost use Rattle.fidl_wire.specs.Encoding.{zeros};
ghost use Rattle.fidl_wire.specs.Typed.{Typed};
ghost use Rattle.fidl_wire.specs.Message.{IsEncoding};

/// A handle of type 5 where type 3 is wanted.
pub fn a_handle_of_another_type()
    ensures { let h : HandleInfo = record { id = 7; object_type = 5; rights = 0 } in
        ¬ (IsEncoding no_declarations (ty.handle false 3 0x80000000) (replicate 4 255 ++ zeros 4)
        (h ∷ [])) }
{}

/// Where rights 6 are required: a part of them, others, and none.
pub fn handles_with_too_few_rights()
    ensures a_part { let h : HandleInfo = record { id = 7; object_type = 3; rights = 2 } in
        ¬ (IsEncoding no_declarations (ty.handle false 3 6) (replicate 4 255 ++ zeros 4) (h ∷ [])) }
    ensures others { let h : HandleInfo = record { id = 7; object_type = 3; rights = 9 } in
        ¬ (IsEncoding no_declarations (ty.handle false 3 6) (replicate 4 255 ++ zeros 4) (h ∷ [])) }
    ensures no_rights { let h : HandleInfo = record { id = 7; object_type = 3; rights = 0 } in
        ¬ (IsEncoding no_declarations (ty.handle false 0 6) (replicate 4 255 ++ zeros 4) (h ∷ [])) }
{}

/// The right 0x80000000 beside another is required as any other right.
pub fn a_right_beside_whatever_came()
    ensures { let h : HandleInfo = record { id = 7; object_type = 3; rights = 1 } in
        ¬ (IsEncoding no_declarations (ty.handle false 3 0x80000001) (replicate 4 255 ++ zeros 4)
        (h ∷ [])) }
{}

/// A required handle that is absent, four bytes that are neither all ones nor zero, and no record.
pub fn handles_that_are_not_there()
    ensures absent { ¬ (IsEncoding no_declarations (ty.handle false 0 0x80000000) (zeros 8) []) }
    ensures another_marker { let h : HandleInfo = record { id = 7; object_type = 3; rights = 0 } in
        ¬ (IsEncoding no_declarations (ty.handle true 0 0x80000000)
        (254 ∷ replicate 3 255 ++ zeros 4) (h ∷ [])) }
    ensures no_record { ¬ (IsEncoding no_declarations (ty.handle true 0 0x80000000)
        (replicate 4 255 ++ zeros 4) []) }
{}

/// A record that no handle of the message uses: beside an absent handle, and beside a bool.
pub fn handles_left()
    ensures beside_an_absent_handle { let h : HandleInfo = record {
      id = 7;
      object_type = 3;
      rights = 0;
    } in
        ¬ (IsEncoding no_declarations (ty.handle true 0 0x80000000) (zeros 8) (h ∷ [])) }
    ensures beside_a_bool { let h : HandleInfo = record { id = 7; object_type = 3; rights = 0 } in
        ¬ (IsEncoding no_declarations ty.bool (1 ∷ zeros 7) (h ∷ [])) }
{}

/// Records whose numbers are not of 32 bits.
pub fn numbers_of_a_handle()
    ensures id { let h : HandleInfo = record { id = 4294967296; object_type = 0; rights = 0 } in
        ¬ (Typed no_declarations (ty.handle false 0 0x80000000) (handle h)) }
    ensures object_type { let h : HandleInfo = record {
      id = 0;
      object_type = 4294967296;
      rights = 0;
    } in
        ¬ (Typed no_declarations (ty.handle false 0 0x80000000) (handle h)) }
    ensures rights { let h : HandleInfo = record { id = 0; object_type = 0; rights = 4294967296 } in
        ¬ (Typed no_declarations (ty.handle false 0 0x80000000) (handle h)) }
{}
