//! Worked messages of strings, vectors and arrays, each as a message of its own.
ghost use Rattle.std.specs.Prelude.{◌≡◌, [], ◌∷◌, ◌++◌, codes, true, false, pos};
ghost use Rattle.fidl_wire.specs.Value.{absent, fields, list, none, number, text, value};
ghost use Rattle.fidl_wire.specs.Term.{no_fields, field, uint8, uint16, uint32};
ghost use Rattle.fidl_wire.specs.Term as ty;
ghost use Rattle.fidl_wire.specs.Figure.{Declarations, IsLaidOut, no_declarations, figure};
ghost use Rattle.fidl_wire.specs.Encoding.{zeros, present};
ghost use Rattle.fidl_wire.specs.Message.{Encodes};

/// A marker is eight bytes of ones, and padding is zeros.
pub fn markers_and_padding()
    ensures marker { present ≡ 255 ∷ 255 ∷ 255 ∷ 255 ∷ 255 ∷ 255 ∷ 255 ∷ 255 ∷ [] }
    ensures padding { zeros 3 ≡ 0 ∷ 0 ∷ 0 ∷ [] }
    ensures no_padding { zeros 0 ≡ [] }
{}

/// A text has its count and the marker in the holder's place, and stands out of line, padded to
/// whole eights.
pub fn strings()
    ensures at_its_bound { Encodes no_declarations (ty.string false 2) (text (codes "hi"))
        (2 ∷ zeros 7 ++ present ++ codes "hi" ++ zeros 6) [] }
    ensures empty { Encodes no_declarations (ty.string false 2) (text []) (zeros 8 ++ present) [] }
    ensures of_eight_bytes { Encodes no_declarations (ty.string false 9) (text (codes "12345678"))
        (8 ∷ zeros 7 ++ present ++ codes "12345678") [] }
    ensures of_nine_bytes { Encodes no_declarations (ty.string false 9) (text (codes "123456789"))
        (9 ∷ zeros 7 ++ present ++ codes "123456789" ++ zeros 7) [] }
{}

/// A bound counts bytes: the two bytes of `é` are within a bound of 2.
pub fn a_character_of_two_bytes()
    ensures { Encodes no_declarations (ty.string false 2) (text (0xc3 ∷ 0xa9 ∷ []))
        (2 ∷ zeros 7 ++ present ++ 0xc3 ∷ 0xa9 ∷ zeros 6) [] }
{}

/// An optional string can be there, or absent.
pub fn optional_strings()
    ensures there { Encodes no_declarations (ty.string true 2) (text (codes "hi"))
        (2 ∷ zeros 7 ++ present ++ codes "hi" ++ zeros 6) [] }
    ensures not_there { Encodes no_declarations (ty.string true 2) absent (zeros 16) [] }
{}

/// A vector counts elements, not bytes; they stand out of line, one behind the other.
pub fn vectors()
    ensures at_its_bound { Encodes no_declarations (ty.vector false 2 (ty.number uint8))
        (list (value (number (pos 1)) (value (number (pos 2)) none)))
        (2 ∷ zeros 7 ++ present ++ 1 ∷ 2 ∷ zeros 6) [] }
    ensures of_wider_elements { Encodes no_declarations (ty.vector false 2 (ty.number uint32))
        (list (value (number (pos 1)) (value (number (pos 2)) none)))
        (2 ∷ zeros 7 ++ present ++ 1 ∷ zeros 3 ++ 2 ∷ zeros 3) [] }
    ensures empty { Encodes no_declarations (ty.vector false 2 (ty.number uint8)) (list none)
        (zeros 8 ++ present) [] }
{}

/// An optional vector can be there, or absent.
pub fn optional_vectors()
    ensures there { Encodes no_declarations (ty.vector true 2 (ty.number uint8))
        (list (value (number (pos 1)) none)) (1 ∷ zeros 7 ++ present ++ 1 ∷ zeros 7) [] }
    ensures not_there { Encodes no_declarations (ty.vector true 2 (ty.number uint8)) absent
        (zeros 16) [] }
{}

/// `vector<string>`: the texts stand behind all elements, in their order.
pub fn a_vector_of_strings()
    ensures { Encodes no_declarations (ty.vector false 2 (ty.string false 9))
        (list (value (text (codes "a")) (value (text (codes "b")) none)))
        (2 ∷ zeros 7 ++ present ++ 1 ∷ zeros 7 ++ present ++ 1 ∷ zeros 7 ++ present ++ codes "a"
        ++ zeros 7 ++ codes "b" ++ zeros 7) [] }
{}

/// `vector<S>` with `S = struct {a uint16; b uint8;}` declared: each element has its padding.
pub fn a_vector_of_structs()
    ensures { let ds : Declarations = record {
      terms = ty.struct
          (field (codes "a") (ty.number uint16) (field (codes "b") (ty.number uint8) no_fields)) ∷ [];
      figures = figure 4 2 1 ∷ [];
    } in
        IsLaidOut ds × Encodes ds (ty.vector false 2 (ty.named 0))
        (list (value (fields (value (number (pos 1)) (value (number (pos 2)) none)))
        (value (fields (value (number (pos 3)) (value (number (pos 4)) none))) none)))
        (2 ∷ zeros 7 ++ present ++ 1 ∷ 0 ∷ 2 ∷ 0 ∷ 3 ∷ 0 ∷ 4 ∷ 0 ∷ []) [] }
{}

/// An array's elements stand in the place of the array.
pub fn arrays()
    ensures of_numbers { Encodes no_declarations (ty.array (ty.number uint16) 3)
        (list (value (number (pos 1)) (value (number (pos 2)) (value (number (pos 3)) none))))
        (1 ∷ 0 ∷ 2 ∷ 0 ∷ 3 ∷ 0 ∷ 0 ∷ 0 ∷ []) [] }
    ensures of_strings { Encodes no_declarations (ty.array (ty.string false 9) 2)
        (list (value (text (codes "a")) (value (text (codes "b")) none)))
        (1 ∷ zeros 7 ++ present ++ 1 ∷ zeros 7 ++ present ++ codes "a" ++ zeros 7 ++ codes "b"
        ++ zeros 7) [] }
{}

/// `struct {a array<uint8, 3>; b uint32;}`: the array has just its bytes, and the next member its
/// alignment.
pub fn an_array_in_a_struct()
    ensures { Encodes no_declarations (ty.struct
        (field (codes "a") (ty.array (ty.number uint8) 3)
        (field (codes "b") (ty.number uint32) no_fields)))
        (fields (value (list (value (number (pos 1))
        (value (number (pos 2)) (value (number (pos 3)) none)))) (value (number (pos 4)) none)))
        (1 ∷ 2 ∷ 3 ∷ 0 ∷ 4 ∷ 0 ∷ 0 ∷ 0 ∷ []) [] }
{}
