//! Refused: strings, vectors and arrays.
ghost use Rattle.std.specs.Prelude.{[], ◌∷◌, ◌++◌, true, false, pos};
ghost use Rattle.fidl_wire.specs.Value.{absent, list, none, number, value};
ghost use Rattle.fidl_wire.specs.Term.{uint8, uint64};
ghost use Rattle.fidl_wire.specs.Term as ty;
ghost use Rattle.fidl_wire.specs.Figure.{no_declarations};
ghost use Rattle.fidl_wire.specs.Encoding.{zeros, present};
ghost use Rattle.fidl_wire.specs.Typed.{Typed};
ghost use Rattle.fidl_wire.specs.Message.{IsEncoding};

/// `string:2` with the three bytes of one character, `€`.
pub fn a_character_over_the_bound()
    ensures { ¬ (IsEncoding no_declarations (ty.string false 2)
        (3 ∷ zeros 7 ++ present ++ 0xe2 ∷ 0x82 ∷ 0xac ∷ zeros 5) []) }
{}

/// A text that is not UTF-8.
pub fn a_text_that_is_not_utf8()
    ensures { ¬ (IsEncoding no_declarations (ty.string false 2)
        (2 ∷ zeros 7 ++ present ++ 0xc0 ∷ 0x80 ∷ zeros 6) []) }
{}

/// A required string or vector that is absent.
pub fn a_required_list_that_is_absent()
    ensures string { ¬ (IsEncoding no_declarations (ty.string false 2) (zeros 16) []) }
    ensures vector { ¬ (IsEncoding no_declarations (ty.vector false 2 (ty.number uint8)) (zeros 16)
        []) }
{}

/// An absent string or vector with a count of 1.
pub fn a_count_of_what_is_absent()
    ensures string { ¬ (IsEncoding no_declarations (ty.string true 2) (1 ∷ zeros 15) []) }
    ensures vector { ¬ (IsEncoding no_declarations (ty.vector true 2 (ty.number uint8))
        (1 ∷ zeros 15) []) }
{}

/// A marker that is neither all ones nor zero.
pub fn a_marker_that_is_neither()
    ensures string { ¬ (IsEncoding no_declarations (ty.string true 2) (zeros 8 ++ 1 ∷ zeros 7) []) }
    ensures vector { ¬ (IsEncoding no_declarations (ty.vector true 2 (ty.number uint8))
        (zeros 8 ++ 1 ∷ zeros 7) []) }
{}

/// `string:2` and `vector<uint8>:2` of one byte, with another byte in their padding.
pub fn padding_out_of_line()
    ensures string { ¬ (IsEncoding no_declarations (ty.string false 2)
        (1 ∷ zeros 7 ++ present ++ 97 ∷ 1 ∷ zeros 6) []) }
    ensures vector { ¬ (IsEncoding no_declarations (ty.vector false 2 (ty.number uint8))
        (1 ∷ zeros 7 ++ present ++ 97 ∷ 1 ∷ zeros 6) []) }
{}

/// A count and a marker without the text that they announce.
pub fn a_text_that_is_not_there()
    ensures { ¬ (IsEncoding no_declarations (ty.string false 2) (2 ∷ zeros 7 ++ present) []) }
{}

/// `vector<uint8>:2` with three elements.
pub fn a_vector_over_its_bound()
    ensures { ¬ (IsEncoding no_declarations (ty.vector false 2 (ty.number uint8))
        (3 ∷ zeros 7 ++ present ++ 1 ∷ 2 ∷ 3 ∷ zeros 5) []) }
{}

/// `vector<bool>` and `array<bool, 2>` with an element that is no bool.
pub fn an_element_that_is_refused()
    ensures vector { ¬ (IsEncoding no_declarations (ty.vector false 2 ty.bool)
        (2 ∷ zeros 7 ++ present ++ 1 ∷ 2 ∷ zeros 6) []) }
    ensures array { ¬ (IsEncoding no_declarations (ty.array ty.bool 2) (1 ∷ 2 ∷ zeros 6) []) }
{}

/// `array<uint64, 2>` in the bytes of one element, and arrays of 2 with another number of elements.
pub fn arrays_of_another_length()
    ensures message { ¬ (IsEncoding no_declarations (ty.array (ty.number uint64) 2) (1 ∷ zeros 7)
        []) }
    ensures too_few { ¬ (Typed no_declarations (ty.array (ty.number uint8) 2)
        (list (value (number (pos 1)) none))) }
    ensures too_many { ¬ (Typed no_declarations (ty.array (ty.number uint8) 2)
        (list (value (number (pos 1)) (value (number (pos 2)) (value (number (pos 3)) none))))) }
{}

/// An absent array.
pub fn an_array_that_is_absent()
    ensures { ¬ (Typed no_declarations (ty.array (ty.number uint8) 2) absent) }
{}
