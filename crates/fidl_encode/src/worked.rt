//! Worked facts: which refusals are true of small values, and which are not.
ghost use Rattle.std.specs.Prelude.{[], ◌∷◌, false, true, pos, codes, None, Some};
ghost use Rattle.fidl_wire.specs.Value.{absent, bool, fields, list, none, number, text, value, handle};
ghost use Rattle.fidl_wire.specs.Term.{field, no_fields, uint8, uint16};
ghost use Rattle.fidl_wire.specs.Term as ty;
ghost use Rattle.fidl_wire.specs.Figure.{no_declarations};
ghost use Rattle.fidl_encode.specs.Told.{IsTold};
ghost use Rattle.fidl_encode.specs.declared.fault.EncodeFault.TheVariants.{WrongShape, OverBound};
ghost use Rattle.fidl_encode.specs.declared.fault.EncodeFault.TheVariants.{NotUtf8, UnknownValue};
ghost use Rattle.fidl_encode.specs.declared.fault.EncodeFault.TheVariants.{WrongHandle, TooDeep};
ghost use Rattle.fidl_encode.specs.declared.fault.EncodeFault.TheVariants.{TooManyHandles};

/// A bool is no string, and an absent text is one where it may be.
pub fn shapes_of_strings()
    ensures a_bool { IsTold no_declarations (ty.string false 2) (bool true) WrongShape }
    ensures required { IsTold no_declarations (ty.string false 2) absent WrongShape }
    ensures optional { IsTold no_declarations (ty.string true 2) absent WrongShape → ⊥ }
{}

/// Three bytes are over a bound of two, and two are not; a bool is over none.
pub fn bounds_of_strings()
    ensures three { IsTold no_declarations (ty.string false 2) (text (codes "abc")) OverBound }
    ensures two { IsTold no_declarations (ty.string false 2) (text (codes "ab")) OverBound → ⊥ }
    ensures a_bool { IsTold no_declarations (ty.string false 2) (bool true) OverBound → ⊥ }
{}

/// A string in a vector may be over its bound, though the vector is within its own.
pub fn bounds_in_vectors()
    ensures inside { IsTold no_declarations (ty.vector false 2 (ty.string false 1))
        (list (value (text []) (value (text (codes "ab")) none))) OverBound }
    ensures itself { IsTold no_declarations (ty.vector false 1 (ty.string false 2))
        (list (value (text []) (value (text []) none))) OverBound }
    ensures neither { IsTold no_declarations (ty.vector false 2 (ty.string false 2))
        (list (value (text []) (value (text (codes "ab")) none))) OverBound → ⊥ }
{}

/// So may one in a struct, if it is the member of that bound.
pub fn bounds_in_structs()
    ensures second { IsTold no_declarations (ty.struct (field [] (ty.string false 2)
        (field [] (ty.string false 1) no_fields)))
        (fields (value (text (codes "a")) (value (text (codes "ab")) none))) OverBound }
    ensures first { IsTold no_declarations (ty.struct (field [] (ty.string false 2)
        (field [] (ty.string false 1) no_fields)))
        (fields (value (text (codes "ab")) (value (text (codes "a")) none))) OverBound → ⊥ }
{}

/// A number is unknown where it is in range and not listed; one out of range is of another shape.
pub fn numbers_of_strict_enums()
    ensures unlisted { IsTold no_declarations (ty.enum uint8 (Some (pos 1 ∷ pos 2 ∷ [])))
        (number (pos 3)) UnknownValue }
    ensures listed { IsTold no_declarations (ty.enum uint8 (Some (pos 1 ∷ pos 2 ∷ [])))
        (number (pos 2)) UnknownValue → ⊥ }
    ensures out_of_range { IsTold no_declarations (ty.enum uint8 (Some (pos 1 ∷ pos 2 ∷ [])))
        (number (pos 256)) UnknownValue → ⊥ }
    ensures flexible { IsTold no_declarations (ty.enum uint8 None) (number (pos 3)) UnknownValue
        → ⊥ }
{}

/// A bit outside the mask is unknown, and those in it are not.
pub fn numbers_of_strict_bits()
    ensures outside { IsTold no_declarations (ty.bits uint16 (Some 5)) (number (pos 2))
        UnknownValue }
    ensures inside { IsTold no_declarations (ty.bits uint16 (Some 5)) (number (pos 4)) UnknownValue
        → ⊥ }
{}

/// A handle of another object type is wrong, and so is one without a right; one with more is not.
pub fn handles_of_a_type()
    ensures another { IsTold no_declarations (ty.handle false 3 1)
        (handle (record { id = 9; object_type = 5; rights = 1 })) WrongHandle }
    ensures fewer { IsTold no_declarations (ty.handle false 3 3)
        (handle (record { id = 9; object_type = 3; rights = 1 })) WrongHandle }
    ensures more { IsTold no_declarations (ty.handle false 3 1)
        (handle (record { id = 9; object_type = 3; rights = 3 })) WrongHandle → ⊥ }
{}

/// A number is neither too deep nor one of too many handles.
pub fn limits_of_a_number()
    ensures deep { IsTold no_declarations (ty.number uint8) (number (pos 3)) TooDeep → ⊥ }
    ensures handles { IsTold no_declarations (ty.number uint8) (number (pos 3)) TooManyHandles
        → ⊥ }
    ensures utf8 { IsTold no_declarations (ty.number uint8) (number (pos 3)) NotUtf8 → ⊥ }
{}
