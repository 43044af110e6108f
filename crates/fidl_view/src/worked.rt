//! Worked facts: the parts of small values, which the calls of a view answer, and what they don't
//! answer.
ghost use Rattle.std.specs.Prelude.{◌≡◌, ℤ, pos, negsuc, [], ◌∷◌, ◌++◌, replicate, true, false};
ghost use Rattle.std.specs.Prelude.{Some, None};
ghost use Rattle.fidl_wire.specs.declared.handle.HandleInfo.{HandleInfo};
ghost use Rattle.fidl_limits.specs.declared.limits.TheConstants.{SAME_RIGHTS};
ghost use Rattle.fidl_wire.specs.Value.{Value, absent, bool, number, text, list, fields};
ghost use Rattle.fidl_wire.specs.Value.{handle, none, value, table, union, known, unknown};
ghost use Rattle.fidl_wire.specs.Value.{member, empty};
ghost use Rattle.fidl_wire.specs.Term.{uint8, uint16, int8};
ghost use Rattle.fidl_wire.specs.Term as ty;
ghost use Rattle.fidl_wire.specs.Figure.{Declarations};
ghost use Rattle.fidl_wire.specs.Encoding.{zeros};
ghost use Rattle.fidl_decode_model.specs.Model.{Shown};
ghost use Rattle.fidl_view.specs.Parts.{absence_of, bool_of, unsigned_of, signed_of, octets};
ghost use Rattle.fidl_view.specs.Parts.{bytes_if, bytes_of, length_of, string_of, handle_of};
ghost use Rattle.fidl_view.specs.Parts.{granted_of};
ghost use Rattle.fidl_view.specs.Parts.{element_of, field_of, IsNoList, IsNoStruct};
ghost use Rattle.fidl_view.specs.Parts.{member_of, variant_of, known_of, unknown_of};
ghost use Rattle.fidl_view.specs.Views.{IsOnly, bytes_at};

/// Only what is absent is absent: no text of no bytes, no list without elements, and no zero.
pub fn absence()
    ensures absent { absence_of absent ≡ true }
    ensures text { absence_of (text []) ≡ false }
    ensures list { absence_of (list none) ≡ false }
    ensures zero { absence_of (number (pos 0)) ≡ false }
{}

/// A bool is one, and a number is none.
pub fn bools()
    ensures yes { bool_of (bool true) ≡ Some true }
    ensures no { bool_of (bool false) ≡ Some false }
    ensures one { bool_of (number (pos 1)) ≡ None }
{}

/// A number is answered by its type: one with a sign by `as_i64` alone, one without by `as_u64`
/// alone.
pub fn numbers()
    ensures unsigned { unsigned_of (ty.number uint8) (number (pos 3)) ≡ Some 3 }
    ensures signed { unsigned_of (ty.number int8) (number (pos 3)) ≡ None }
    ensures below_zero { signed_of (ty.number int8) (number (negsuc 0)) ≡ Some (negsuc 0) }
    ensures without_sign { signed_of (ty.number uint8) (number (pos 3)) ≡ None }
    ensures of_bits { unsigned_of (ty.bits uint16 None) (number (pos 3)) ≡ Some 3 }
{}

/// A list has as many elements as it has, a text as many bytes, and a table as many envelopes as it
/// counts; nothing else has a length.
pub fn lengths()
    ensures of_a_list { length_of (list (value (bool true) (value (bool true) none))) ≡ Some 2 }
    ensures of_a_text { length_of (text (65 ∷ [])) ≡ Some 1 }
    ensures of_a_table { length_of (table 3 empty) ≡ Some 3 }
    ensures of_an_absent_one { length_of absent ≡ None }
    ensures of_a_struct { length_of (fields (value (bool true) none)) ≡ None }
{}

/// The elements of a list are counted from 0.
pub fn elements_by_place()
    ensures first { element_of (list (value (bool true) (value (bool false) none))) 0
        ≡ Some (bool true) }
    ensures second { element_of (list (value (bool true) (value (bool false) none))) 1
        ≡ Some (bool false) }
    ensures past { element_of (list (value (bool true) (value (bool false) none))) 2 ≡ None }
    ensures of_a_struct { element_of (fields (value (bool true) none)) 0 ≡ None }
{}

/// So are the members of a struct.
pub fn members_by_place()
    ensures first { field_of (fields (value (bool true) (value (bool false) none))) 0
        ≡ Some (bool true) }
    ensures second { field_of (fields (value (bool true) (value (bool false) none))) 1
        ≡ Some (bool false) }
    ensures past { field_of (fields (value (bool true) (value (bool false) none))) 2 ≡ None }
    ensures of_a_list { field_of (list (value (bool true) none)) 0 ≡ None }
{}

/// The bytes of a list are those of its numbers, in their order, where these are of uint8.
pub fn bytes_of_lists()
    ensures in_order { bytes_if (ty.number uint8)
        (value (number (pos 1)) (value (number (pos 2)) none)) ≡ Some (1 ∷ 2 ∷ []) }
    ensures none_at_all { bytes_if (ty.number uint8) none ≡ Some [] }
    ensures with_a_sign { bytes_if (ty.number int8) (value (number (pos 1)) none) ≡ None }
    ensures of_two_bytes { bytes_if (ty.number uint16) (value (number (pos 1)) none) ≡ None }
{}

/// The bytes of a string are those of its text; one that is absent has none, and no number has.
pub fn bytes_of_strings()
    ensures in_order { (ds : Declarations) → bytes_of ds (ty.string false 2) (text (65 ∷ 66 ∷ []))
        ≡ Some (65 ∷ 66 ∷ []) }
    ensures empty { (ds : Declarations) → bytes_of ds (ty.string false 2) (text []) ≡ Some [] }
    ensures absent { (ds : Declarations) → bytes_of ds (ty.string true 2) absent ≡ None }
    ensures of_a_number { (ds : Declarations) → bytes_of ds (ty.number uint8) (number (pos 1))
        ≡ None }
{}

/// "hi" behind 16 bytes, read as bytes of the message: of a string they are those of the object
/// that the cell of its marker leads to, as many as the count says; of an array those in place.
pub fn bytes_that_stand()
    ensures of_a_string { let d : Shown = record {
      table = [];
      entry = 0;
      bytes = 2 ∷ zeros 7 ++ replicate 8 255 ++ 104 ∷ 105 ∷ zeros 6;
      handles = [];
      steps = 0;
      links = record { objects = 0 ∷ 16 ∷ []; records = [] };
    } in
        bytes_at d (ty.string false 2) 0 ≡ 104 ∷ 105 ∷ [] }
    ensures elsewhere { let d : Shown = record {
      table = [];
      entry = 0;
      bytes = 2 ∷ zeros 7 ++ replicate 8 255 ++ 104 ∷ 105 ∷ zeros 6;
      handles = [];
      steps = 0;
      links = record { objects = 0 ∷ 8 ∷ []; records = [] };
    } in
        bytes_at d (ty.string false 2) 0 ≡ 255 ∷ 255 ∷ [] }
    ensures of_an_array { let d : Shown = record {
      table = [];
      entry = 0;
      bytes = 2 ∷ zeros 7 ++ replicate 8 255 ++ 104 ∷ 105 ∷ zeros 6;
      handles = [];
      steps = 0;
      links = record { objects = 0 ∷ 16 ∷ []; records = [] };
    } in
        bytes_at d (ty.array (ty.number uint8) 3) 15 ≡ 255 ∷ 104 ∷ 105 ∷ [] }
{}

/// A text has its bytes, and a list of bytes is no text.
pub fn texts()
    ensures of_one_byte { string_of (text (65 ∷ [])) ≡ Some (65 ∷ []) }
    ensures absent { string_of absent ≡ None }
    ensures of_a_list { string_of (list (value (number (pos 65)) none)) ≡ None }
{}

/// A table's known member is found by its ordinal, and a union's at no ordinal; an unknown member
/// is no known one.
pub fn members_by_ordinal()
    ensures known { member_of (table 3 (member 2 (known (bool true)) empty)) 2 ≡ Some (bool true) }
    ensures absent { member_of (table 3 (member 2 (known (bool true)) empty)) 3 ≡ None }
    ensures zero { member_of (table 3 (member 2 (known (bool true)) empty)) 0 ≡ None }
    ensures unknown { member_of (table 3 (member 2 (unknown true [] []) empty)) 2 ≡ None }
    ensures of_a_union { member_of (union 2 (known (bool true))) 2 ≡ None }
{}

/// A union has its ordinal and its member, and nothing else has one.
pub fn variants()
    ensures known { variant_of (union 2 (known (bool true))) ≡ Some (2, known (bool true)) }
    ensures absent { variant_of absent ≡ None }
    ensures of_a_table { variant_of (table 2 (member 2 (known (bool true)) empty)) ≡ None }
    ensures value { known_of (known (bool true)) ≡ Some (bool true) }
    ensures no_value { known_of (unknown true [] []) ≡ None }
{}

/// An unknown member is that of a table or a union at its own ordinal, and no known member is one.
pub fn unknown_members()
    ensures of_a_table { unknown_of (table 2 (member 2 (unknown false [] []) empty)) 2
        ≡ Some (unknown false [] []) }
    ensures of_a_union { unknown_of (union 2 (unknown true [] [])) 2 ≡ Some (unknown true [] []) }
    ensures elsewhere { unknown_of (union 2 (unknown true [] [])) 1 ≡ None }
    ensures known { unknown_of (union 2 (known (bool true))) 2 ≡ None }
{}

/// A handle is granted the rights that its type requires, or those that came where it requires the
/// same.
pub fn rights()
    ensures required { (h : HandleInfo) → granted_of (ty.handle false 0 2) (handle h) ≡ Some 2 }
    ensures same { (h : HandleInfo) → granted_of (ty.handle false 0 SAME_RIGHTS) (handle h)
        ≡ Some h.rights }
    ensures absent { granted_of (ty.handle true 0 2) absent ≡ None }
    ensures record { (h : HandleInfo) → handle_of (handle h) ≡ Some h }
{}

/// A value that is absent, or of another kind, is no list and no struct.
pub fn other_values()
    ensures absent { IsNoList absent }
    ensures of_a_struct { IsNoList (fields none) }
    ensures of_a_list { ¬ IsNoList (list none) }
    ensures no_struct { IsNoStruct absent }
    ensures a_struct { ¬ IsNoStruct (fields none) }
{}

/// Of the statement to be absent one value is the only one; of the statement to be anything none
/// is.
pub fn only_values()
    ensures absent { IsOnly (λ v. v ≡ absent) absent }
    ensures anything { ¬ IsOnly (λ v. v ≡ v) absent }
{}
