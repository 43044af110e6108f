//! Worked reading: which values can be read beside a message's links, computed by the definitions.
ghost use Rattle.std.specs.Prelude.{pos, [], ◌∷◌, true, false, codes};
ghost use Rattle.fidl_wire.specs.declared.handle.HandleInfo.{HandleInfo};
ghost use Rattle.fidl_wire.specs.Value.{Value, absent, bool, number, text, list, handle, fields};
ghost use Rattle.fidl_wire.specs.Value.{table, union, none, value, known, unknown, member, empty};
ghost use Rattle.fidl_wire.specs.Term.{Term, no_fields, field, no_rows, row, uint32, uint64};
ghost use Rattle.fidl_wire.specs.Term as ty;
ghost use Rattle.fidl_wire.specs.Figure.{no_declarations};
ghost use Rattle.fidl_decode_model.specs.Readable.{Readable};
ghost use Rattle.fidl_decode_model.specs.Samples.{links};

/// A uint64 at 8 can be read where links stand in front of it and behind, and not where one stands
/// over its first byte or its last.
pub fn a_number_and_links()
    ensures beside { Readable no_declarations (links (24 ∷ 0 ∷ 32 ∷ []) (0 ∷ 1 ∷ 0 ∷ 0 ∷ 1 ∷ []))
        (ty.number uint64) 8 (number (pos 7)) }
    ensures first { ¬ (Readable no_declarations (links (0 ∷ 32 ∷ []) []) (ty.number uint64) 8
        (number (pos 7))) }
    ensures last { ¬ (Readable no_declarations (links [] (0 ∷ 0 ∷ 0 ∷ 1 ∷ [])) (ty.number uint64) 8
        (number (pos 7))) }
{}

/// A bool at 3 can be read where a link stands at 4, and one at 4 cannot.
pub fn a_bool_and_links()
    ensures beside { Readable no_declarations (links [] (0 ∷ 1 ∷ [])) ty.bool 3 (bool true) }
    ensures linked { ¬ (Readable no_declarations (links [] (0 ∷ 1 ∷ [])) ty.bool 4 (bool true)) }
{}

/// A handle can be read where its record is linked, and an absent one where no link stands.
pub fn handles_and_links()
    ensures there { let h : HandleInfo = record { id = 1; object_type = 3; rights = 0 } in
        Readable no_declarations (links [] (0 ∷ 1 ∷ [])) (ty.handle true 0 0) 4 (handle h) }
    ensures unlinked { let h : HandleInfo = record { id = 1; object_type = 3; rights = 0 } in
        ¬ (Readable no_declarations (links [] (1 ∷ [])) (ty.handle true 0 0) 4 (handle h)) }
    ensures uneven { let h : HandleInfo = record { id = 1; object_type = 3; rights = 0 } in
        ¬ (Readable no_declarations (links [] (0 ∷ 1 ∷ [])) (ty.handle true 0 0) 5 (handle h)) }
    ensures none { Readable no_declarations (links [] (1 ∷ [])) (ty.handle true 0 0) 4 absent }
    ensures uneven_none { ¬ (Readable no_declarations (links [] []) (ty.handle true 0 0) 6 absent) }
    ensures linked { ¬ (Readable no_declarations (links [] (0 ∷ 1 ∷ [])) (ty.handle true 0 0) 4
        absent) }
{}

/// The text "abc" at 16 can be read where the marker at 8 is linked, and not where it is not, nor
/// where a link stands over the count or over the text.
pub fn a_text_and_links()
    ensures there { Readable no_declarations (links (0 ∷ 16 ∷ []) []) (ty.string false 3) 0
        (text (97 ∷ 98 ∷ 99 ∷ [])) }
    ensures unlinked { ¬ (Readable no_declarations (links [] []) (ty.string false 3) 0
        (text (97 ∷ 98 ∷ 99 ∷ []))) }
    ensures count { ¬ (Readable no_declarations (links (16 ∷ 16 ∷ []) []) (ty.string false 3) 0
        (text (97 ∷ 98 ∷ 99 ∷ []))) }
    ensures inside { ¬ (Readable no_declarations (links (0 ∷ 16 ∷ 24 ∷ []) []) (ty.string false 3) 0
        (text (97 ∷ 98 ∷ 99 ∷ []))) }
    ensures uneven { ¬ (Readable no_declarations (links (0 ∷ 18 ∷ []) []) (ty.string false 3) 0
        (text (97 ∷ 98 ∷ 99 ∷ []))) }
    ensures aside { ¬ (Readable no_declarations (links (0 ∷ 24 ∷ []) []) (ty.string false 3) 4
        (text (97 ∷ 98 ∷ 99 ∷ []))) }
{}

/// A vector of one uint64, which is at 16. It cannot be read where a link stands over the count,
/// nor over the element, nor where the marker is not linked.
pub fn a_vector_and_links()
    ensures there { Readable no_declarations (links (0 ∷ 16 ∷ []) [])
        (ty.vector false 9 (ty.number uint64)) 0 (list (value (number (pos 7)) none)) }
    ensures unlinked { ¬ (Readable no_declarations (links [] [])
        (ty.vector false 9 (ty.number uint64)) 0 (list (value (number (pos 7)) none))) }
    ensures count { ¬ (Readable no_declarations (links (16 ∷ 16 ∷ []) [])
        (ty.vector false 9 (ty.number uint64)) 0 (list (value (number (pos 7)) none))) }
    ensures element { ¬ (Readable no_declarations (links (0 ∷ 16 ∷ 24 ∷ []) [])
        (ty.vector false 9 (ty.number uint64)) 0 (list (value (number (pos 7)) none))) }
{}

/// Two elements in an array, of which the second cannot be read where a link stands over it.
pub fn an_array_and_links()
    ensures there { Readable no_declarations (links [] []) (ty.array (ty.number uint64) 2) 0
        (list (value (number (pos 7)) (value (number (pos 8)) none))) }
    ensures second { ¬ (Readable no_declarations (links (0 ∷ 16 ∷ []) [])
        (ty.array (ty.number uint64) 2) 0
        (list (value (number (pos 7)) (value (number (pos 8)) none)))) }
{}

/// A box of `struct {a uint32; b uint64;}`, which is at 8: `b` is at 16. A link can stand over the
/// padding behind `a`, and not over `b`.
pub fn a_box_and_links()
    ensures there { let p : Term =
        ty.struct
        (field (codes "a") (ty.number uint32) (field (codes "b") (ty.number uint64) no_fields)) in
        Readable no_declarations (links (8 ∷ []) (0 ∷ 0 ∷ 0 ∷ 1 ∷ [])) (ty.box p) 0
        (fields (value (number (pos 7)) (value (number (pos 8)) none))) }
    ensures unlinked { let p : Term =
        ty.struct
        (field (codes "a") (ty.number uint32) (field (codes "b") (ty.number uint64) no_fields)) in
        ¬ (Readable no_declarations (links [] []) (ty.box p) 0
        (fields (value (number (pos 7)) (value (number (pos 8)) none)))) }
    ensures second { let p : Term =
        ty.struct
        (field (codes "a") (ty.number uint32) (field (codes "b") (ty.number uint64) no_fields)) in
        ¬ (Readable no_declarations (links (8 ∷ 0 ∷ 24 ∷ []) []) (ty.box p) 0
        (fields (value (number (pos 7)) (value (number (pos 8)) none)))) }
{}

/// `table {2: n uint64;}` with 7 at 40. The envelopes are at 16, 24 and 32, and no member is in the
/// first and the last. Neither can be read where a link stands over it, nor can the table where a
/// link of the second is missing, or a link stands over the member.
pub fn a_table_and_links()
    ensures there { let t : Term = ty.table (row 2 (codes "n") (ty.number uint64) no_rows) in
        let v : Value = table 3 (member 2 (known (number (pos 7))) empty) in
        Readable no_declarations (links (0 ∷ 16 ∷ 0 ∷ 40 ∷ [])
        (0 ∷ 0 ∷ 0 ∷ 0 ∷ 0 ∷ 0 ∷ 0 ∷ 1 ∷ [])) t 0 v }
    ensures count { let t : Term = ty.table (row 2 (codes "n") (ty.number uint64) no_rows) in
        let v : Value = table 3 (member 2 (known (number (pos 7))) empty) in
        ¬ (Readable no_declarations (links (16 ∷ 16 ∷ 0 ∷ 40 ∷ [])
        (0 ∷ 0 ∷ 0 ∷ 0 ∷ 0 ∷ 0 ∷ 0 ∷ 1 ∷ [])) t 0 v) }
    ensures first { let t : Term = ty.table (row 2 (codes "n") (ty.number uint64) no_rows) in
        let v : Value = table 3 (member 2 (known (number (pos 7))) empty) in
        ¬ (Readable no_declarations (links (0 ∷ 16 ∷ 40 ∷ 40 ∷ [])
        (0 ∷ 0 ∷ 0 ∷ 0 ∷ 0 ∷ 0 ∷ 0 ∷ 1 ∷ [])) t 0 v) }
    ensures last { let t : Term = ty.table (row 2 (codes "n") (ty.number uint64) no_rows) in
        let v : Value = table 3 (member 2 (known (number (pos 7))) empty) in
        ¬ (Readable no_declarations (links (0 ∷ 16 ∷ 0 ∷ 40 ∷ 40 ∷ [])
        (0 ∷ 0 ∷ 0 ∷ 0 ∷ 0 ∷ 0 ∷ 0 ∷ 1 ∷ [])) t 0 v) }
    ensures object { let t : Term = ty.table (row 2 (codes "n") (ty.number uint64) no_rows) in
        let v : Value = table 3 (member 2 (known (number (pos 7))) empty) in
        ¬ (Readable no_declarations (links (0 ∷ 16 ∷ []) (0 ∷ 0 ∷ 0 ∷ 0 ∷ 0 ∷ 0 ∷ 0 ∷ 1 ∷ [])) t 0
        v) }
    ensures records { let t : Term = ty.table (row 2 (codes "n") (ty.number uint64) no_rows) in
        let v : Value = table 3 (member 2 (known (number (pos 7))) empty) in
        ¬ (Readable no_declarations (links (0 ∷ 16 ∷ 0 ∷ 40 ∷ []) []) t 0 v) }
    ensures inside { let t : Term = ty.table (row 2 (codes "n") (ty.number uint64) no_rows) in
        let v : Value = table 3 (member 2 (known (number (pos 7))) empty) in
        ¬ (Readable no_declarations (links (0 ∷ 16 ∷ 0 ∷ 40 ∷ 0 ∷ 48 ∷ [])
        (0 ∷ 0 ∷ 0 ∷ 0 ∷ 0 ∷ 0 ∷ 0 ∷ 1 ∷ [])) t 0 v) }
{}

/// A table without envelopes has a marker too, which is linked to where they would be.
pub fn an_empty_table_and_links()
    ensures there { Readable no_declarations (links (0 ∷ 16 ∷ []) []) (ty.table no_rows) 0
        (table 0 empty) }
    ensures unlinked { ¬ (Readable no_declarations (links [] []) (ty.table no_rows) 0
        (table 0 empty)) }
{}

/// An unknown member of a union in its envelope, at 8, whose first record has its link at 12. The
/// member cannot be read where a link stands over its bytes or over the ordinal.
pub fn a_union_and_links()
    ensures there { Readable no_declarations (links [] (0 ∷ 0 ∷ 0 ∷ 1 ∷ []))
        (ty.union false false no_rows) 0 (union 9 (unknown true (1 ∷ 2 ∷ 3 ∷ 4 ∷ []) [])) }
    ensures unlinked { ¬ (Readable no_declarations (links [] []) (ty.union false false no_rows) 0
        (union 9 (unknown true (1 ∷ 2 ∷ 3 ∷ 4 ∷ []) []))) }
    ensures ordinal { ¬ (Readable no_declarations (links [] (0 ∷ 1 ∷ 0 ∷ 1 ∷ []))
        (ty.union false false no_rows) 0 (union 9 (unknown true (1 ∷ 2 ∷ 3 ∷ 4 ∷ []) []))) }
    ensures bytes { ¬ (Readable no_declarations (links [] (0 ∷ 0 ∷ 1 ∷ 1 ∷ []))
        (ty.union false false no_rows) 0 (union 9 (unknown true (1 ∷ 2 ∷ 3 ∷ 4 ∷ []) []))) }
{}
