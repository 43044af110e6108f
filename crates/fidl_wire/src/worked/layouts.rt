//! Worked messages of structs, boxes, tables and unions, each as a message of its own.
ghost use Rattle.std.specs.Prelude.{[], ◌∷◌, ◌++◌, codes, replicate, true, false, pos};
ghost use Rattle.fidl_wire.specs.declared.handle.HandleInfo.{HandleInfo};
ghost use Rattle.fidl_wire.specs.Value.{absent, bool, empty, fields, handle, known, list, member};
ghost use Rattle.fidl_wire.specs.Value.{none, number, table, text, union, unknown, value};
ghost use Rattle.fidl_wire.specs.Term.{Term, no_fields, field, no_rows, row, uint8, uint16, uint32};
ghost use Rattle.fidl_wire.specs.Term.{uint64};
ghost use Rattle.fidl_wire.specs.Term as ty;
ghost use Rattle.fidl_wire.specs.Figure.{no_declarations};
ghost use Rattle.fidl_wire.specs.Samples.{byte_struct, declared_bool, number_union};
ghost use Rattle.fidl_wire.specs.Encoding.{zeros, present};
ghost use Rattle.fidl_wire.specs.Message.{Encodes};

/// `struct {a uint64; b uint8;}`: zeros behind the last member, up to a size that its alignment
/// divides.
pub fn padding_behind_the_last_member()
    ensures { Encodes no_declarations (ty.struct
        (field (codes "a") (ty.number uint64) (field (codes "b") (ty.number uint8) no_fields)))
        (fields (value (number (pos 1)) (value (number (pos 2)) none))) (1 ∷ zeros 7 ++ 2 ∷ zeros 7)
        [] }
{}

/// `struct {a struct {x uint16; y uint8;}; b uint8;}`: a struct in a struct has its own padding.
pub fn a_struct_in_a_struct()
    ensures { Encodes no_declarations (ty.struct
        (field (codes "a") (ty.struct (field (codes "x") (ty.number uint16)
        (field (codes "y") (ty.number uint8) no_fields)))
        (field (codes "b") (ty.number uint8) no_fields)))
        (fields (value (fields (value (number (pos 1)) (value (number (pos 2)) none)))
        (value (number (pos 3)) none))) (1 ∷ 0 ∷ 2 ∷ 0 ∷ 3 ∷ zeros 3) [] }
{}

/// `struct {e struct {}; b uint8;}`: an empty struct takes a byte.
pub fn an_empty_struct_in_a_struct()
    ensures { Encodes no_declarations (ty.struct
        (field (codes "e") (ty.struct no_fields) (field (codes "b") (ty.number uint8) no_fields)))
        (fields (value (fields none) (value (number (pos 3)) none))) (0 ∷ 3 ∷ zeros 6) [] }
{}

/// A box is a marker in the holder's place, and its struct stands out of line; an absent one is
/// zeros.
pub fn boxes()
    ensures there { Encodes no_declarations (ty.box byte_struct)
        (fields (value (number (pos 5)) none)) (present ++ 5 ∷ zeros 7) [] }
    ensures not_there { Encodes no_declarations (ty.box byte_struct) absent (zeros 8) [] }
    ensures of_an_empty_struct { Encodes no_declarations (ty.box (ty.struct no_fields))
        (fields none) (present ++ zeros 8) [] }
{}

/// `table {1: a uint8; 3: c uint16;}`: zeros where there is no member, and a table without
/// envelopes.
pub fn tables()
    ensures with_a_gap { let t : Term = ty.table
        (row 1 (codes "a") (ty.number uint8) (row 3 (codes "c") (ty.number uint16) no_rows)) in
        Encodes no_declarations t (table 3
        (member 1 (known (number (pos 5))) (member 3 (known (number (pos 0x607))) empty)))
        (3 ∷ zeros 7 ++ present ++ 5 ∷ 0 ∷ 0 ∷ 0 ∷ 0 ∷ 0 ∷ 1 ∷ 0 ∷ zeros 8
        ++ 7 ∷ 6 ∷ 0 ∷ 0 ∷ 0 ∷ 0 ∷ 1 ∷ 0 ∷ []) [] }
    ensures without_envelopes { let t : Term = ty.table
        (row 1 (codes "a") (ty.number uint8) (row 3 (codes "c") (ty.number uint16) no_rows)) in
        Encodes no_declarations t (table 0 empty) (zeros 8 ++ present) [] }
{}

/// `table {1: s string; 2: n uint64;}`: an envelope counts the bytes of all that is below it, and
/// members stand out of line in order.
pub fn members_out_of_line()
    ensures { let t : Term = ty.table (row 1 (codes "s") (ty.string false 9)
        (row 2 (codes "n") (ty.number uint64) no_rows)) in
        Encodes no_declarations t (table 2
        (member 1 (known (text (codes "hi"))) (member 2 (known (number (pos 7))) empty)))
        (2 ∷ zeros 7 ++ present ++ 24 ∷ zeros 7 ++ 8 ∷ zeros 7 ++ 2 ∷ zeros 7 ++ present ++ codes
        "hi" ++ zeros 6 ++ 7 ∷ zeros 7) [] }
{}

/// `table {1: a array<uint8, 4>; 2: b array<uint8, 5>;}`: four bytes stand in the envelope, five
/// stand out of line.
pub fn members_of_four_and_five_bytes()
    ensures { let t : Term = ty.table (row 1 (codes "a") (ty.array (ty.number uint8) 4)
        (row 2 (codes "b") (ty.array (ty.number uint8) 5) no_rows)) in
        let one = number (pos 1) in
        let four = value one (value one (value one (value one none))) in
        Encodes no_declarations t (table 2
        (member 1 (known (list four)) (member 2 (known (list (value one four))) empty)))
        (2 ∷ zeros 7 ++ present ++ 1 ∷ 1 ∷ 1 ∷ 1 ∷ 0 ∷ 0 ∷ 1 ∷ 0 ∷ 8 ∷ zeros 7
        ++ 1 ∷ 1 ∷ 1 ∷ 1 ∷ 1 ∷ zeros 3) [] }
{}

/// `resource table {1: h zx.Handle; 2: v vector<zx.Handle>;}`: envelopes count the handles below
/// them.
pub fn handles_of_members()
    ensures { let any : Term = ty.handle false 0 0x80000000 in
        let t : Term = ty.table (row 1 (codes "h") any
        (row 2 (codes "v") (ty.vector false 2 any) no_rows)) in
        let h : HandleInfo = record { id = 1; object_type = 3; rights = 0 } in
        let i : HandleInfo = record { id = 2; object_type = 5; rights = 0 } in
        let j : HandleInfo = record { id = 3; object_type = 4; rights = 0 } in
        Encodes no_declarations t (table 2
        (member 1 (known (handle h)) (member 2
        (known (list (value (handle i) (value (handle j) none)))) empty)))
        (2 ∷ zeros 7 ++ present ++ replicate 4 255
        ++ 1 ∷ 0 ∷ 1 ∷ 0 ∷ 24 ∷ 0 ∷ 0 ∷ 0 ∷ 2 ∷ 0 ∷ 0 ∷ 0 ∷ 2 ∷ zeros 7 ++ present ++ replicate 8
        255) (h ∷ i ∷ j ∷ []) }
{}

/// `table {2: b uint8;}` with unknown members in their envelopes at ordinals 1 and 3, the second
/// with a handle.
pub fn unknown_members_in_their_envelopes()
    ensures { let t : Term = ty.table (row 2 (codes "b") (ty.number uint8) no_rows) in
        let h : HandleInfo = record { id = 9; object_type = 3; rights = 1 } in
        Encodes no_declarations t (table 3
        (member 1 (unknown true (1 ∷ 2 ∷ 3 ∷ 4 ∷ []) [])
        (member 3 (unknown true (5 ∷ 6 ∷ 7 ∷ 8 ∷ []) (h ∷ [])) empty)))
        (3 ∷ zeros 7 ++ present ++ 1 ∷ 2 ∷ 3 ∷ 4 ∷ 0 ∷ 0 ∷ 1 ∷ 0 ∷ zeros 8
        ++ 5 ∷ 6 ∷ 7 ∷ 8 ∷ 1 ∷ 0 ∷ 1 ∷ 0 ∷ []) (h ∷ []) }
{}

/// `strict union {1: n uint32; 2: s string;}` and its optional form: the ordinal, and the envelope.
pub fn unions()
    ensures in_its_envelope { let t : Term = ty.union false true
        (row 1 (codes "n") (ty.number uint32) (row 2 (codes "s") (ty.string false 9) no_rows)) in
        Encodes no_declarations t (union 1 (known (number (pos 7))))
        (1 ∷ zeros 7 ++ 7 ∷ 0 ∷ 0 ∷ 0 ∷ 0 ∷ 0 ∷ 1 ∷ 0 ∷ []) [] }
    ensures out_of_line { let t : Term = ty.union false true
        (row 1 (codes "n") (ty.number uint32) (row 2 (codes "s") (ty.string false 9) no_rows)) in
        Encodes no_declarations t (union 2 (known (text (codes "hi"))))
        (2 ∷ zeros 7 ++ 24 ∷ zeros 7 ++ 2 ∷ zeros 7 ++ present ++ codes "hi" ++ zeros 6) [] }
    ensures optional { let t : Term = ty.union true true
        (row 1 (codes "n") (ty.number uint32) no_rows) in
        Encodes no_declarations t (union 1 (known (number (pos 7))))
        (1 ∷ zeros 7 ++ 7 ∷ 0 ∷ 0 ∷ 0 ∷ 0 ∷ 0 ∷ 1 ∷ 0 ∷ []) [] }
    ensures optional_not_there { let t : Term = ty.union true true
        (row 1 (codes "n") (ty.number uint32) no_rows) in
        Encodes no_declarations t absent (zeros 16) [] }
{}

/// `flexible union {1: n uint32;}` with unknown members, at ordinals up to the greatest.
pub fn unknown_members_of_a_union()
    ensures in_its_envelope { Encodes no_declarations number_union
        (union 2 (unknown true (1 ∷ 2 ∷ 3 ∷ 4 ∷ []) []))
        (2 ∷ zeros 7 ++ 1 ∷ 2 ∷ 3 ∷ 4 ∷ 0 ∷ 0 ∷ 1 ∷ 0 ∷ []) [] }
    ensures out_of_line { Encodes no_declarations number_union
        (union 18446744073709551615 (unknown false (1 ∷ 2 ∷ 3 ∷ 4 ∷ 5 ∷ 6 ∷ 7 ∷ 255 ∷ []) []))
        (replicate 8 255 ++ 8 ∷ zeros 7 ++ 1 ∷ 2 ∷ 3 ∷ 4 ∷ 5 ∷ 6 ∷ 7 ∷ 255 ∷ []) [] }
{}

/// `type S = struct {b bool;};` in a struct, a box, an array, a table and a union, by its
/// declaration.
pub fn declared_types()
    ensures in_a_struct { Encodes declared_bool
        (ty.struct (field (codes "a") (ty.named 0) (field (codes "c") (ty.number uint8) no_fields)))
        (fields (value (fields (value (bool true) none)) (value (number (pos 5)) none)))
        (1 ∷ 5 ∷ zeros 6) [] }
    ensures in_a_box { Encodes declared_bool (ty.box (ty.named 0))
        (fields (value (bool true) none)) (present ++ 1 ∷ zeros 7) [] }
    ensures in_an_array { Encodes declared_bool (ty.array (ty.named 0) 1)
        (list (value (fields (value (bool true) none)) none)) (1 ∷ zeros 7) [] }
    ensures in_a_vector { Encodes declared_bool (ty.vector false 1 (ty.named 0))
        (list (value (fields (value (bool true) none)) none)) (1 ∷ zeros 7 ++ present ++ 1 ∷ zeros 7)
        [] }
    ensures in_a_table { Encodes declared_bool (ty.table (row 1 (codes "a") (ty.named 0) no_rows))
        (table 1 (member 1 (known (fields (value (bool true) none))) empty))
        (1 ∷ zeros 7 ++ present ++ 1 ∷ 0 ∷ 0 ∷ 0 ∷ 0 ∷ 0 ∷ 1 ∷ 0 ∷ []) [] }
    ensures in_a_union { Encodes declared_bool
        (ty.union false true (row 1 (codes "a") (ty.named 0) no_rows))
        (union 1 (known (fields (value (bool true) none))))
        (1 ∷ zeros 7 ++ 1 ∷ 0 ∷ 0 ∷ 0 ∷ 0 ∷ 0 ∷ 1 ∷ 0 ∷ []) [] }
    ensures by_itself { Encodes declared_bool (ty.named 0) (fields (value (bool true) none))
        (1 ∷ zeros 7) [] }
{}
