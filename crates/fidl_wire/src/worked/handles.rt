//! Worked messages of handles, each as a message of its own.
ghost use Rattle.std.specs.Prelude.{[], ◌∷◌, ◌++◌, replicate, true, false};
ghost use Rattle.fidl_wire.specs.declared.handle.HandleInfo.{HandleInfo};
ghost use Rattle.fidl_wire.specs.Value.{absent, handle, list, none, value};
ghost use Rattle.fidl_wire.specs.Term as ty;
ghost use Rattle.fidl_wire.specs.Figure.{no_declarations};
ghost use Rattle.fidl_wire.specs.Encoding.{zeros, present};
ghost use Rattle.fidl_wire.specs.Message.{Encodes};

/// A handle of any type with whatever rights is four bytes of ones, and its record beside the
/// message.
pub fn handles_of_any_type()
    ensures without_rights { let h : HandleInfo = record { id = 7; object_type = 3; rights = 0 } in
        Encodes no_declarations (ty.handle false 0 0x80000000) (handle h)
        (replicate 4 255 ++ zeros 4) (h ∷ []) }
    ensures of_the_greatest_numbers { let h : HandleInfo = record {
      id = 4294967295;
      object_type = 4294967295;
      rights = 4294967295;
    } in
        Encodes no_declarations (ty.handle false 0 0x80000000) (handle h)
        (replicate 4 255 ++ zeros 4) (h ∷ []) }
{}

/// A handle of the wanted type, and rights: those that are required, or more.
pub fn handles_of_a_type()
    ensures whatever_rights { let h : HandleInfo = record { id = 7; object_type = 3; rights = 0 } in
        Encodes no_declarations (ty.handle false 3 0x80000000) (handle h)
        (replicate 4 255 ++ zeros 4) (h ∷ []) }
    ensures just_the_rights { let h : HandleInfo = record { id = 7; object_type = 3; rights = 6 } in
        Encodes no_declarations (ty.handle false 3 6) (handle h) (replicate 4 255 ++ zeros 4)
        (h ∷ []) }
    ensures more_rights { let h : HandleInfo = record { id = 7; object_type = 3; rights = 15 } in
        Encodes no_declarations (ty.handle false 3 6) (handle h) (replicate 4 255 ++ zeros 4)
        (h ∷ []) }
    ensures rights_of_any_type { let h : HandleInfo = record { id = 7; object_type = 5; rights = 7 }
        in
        Encodes no_declarations (ty.handle false 0 6) (handle h) (replicate 4 255 ++ zeros 4)
        (h ∷ []) }
{}

/// An optional handle can be there, or absent, and then no record comes.
pub fn optional_handles()
    ensures there { let h : HandleInfo = record { id = 7; object_type = 3; rights = 0 } in
        Encodes no_declarations (ty.handle true 0 0x80000000) (handle h)
        (replicate 4 255 ++ zeros 4) (h ∷ []) }
    ensures not_there { Encodes no_declarations (ty.handle true 0 0x80000000) absent (zeros 8) [] }
{}

/// `vector<zx.Handle>`: the records stand in the order of the elements.
pub fn a_vector_of_handles()
    ensures { let h : HandleInfo = record { id = 1; object_type = 3; rights = 0 } in
        let i : HandleInfo = record { id = 2; object_type = 5; rights = 1 } in
        Encodes no_declarations (ty.vector false 2 (ty.handle false 0 0x80000000))
        (list (value (handle h) (value (handle i) none)))
        (2 ∷ zeros 7 ++ present ++ replicate 8 255) (h ∷ i ∷ []) }
{}
