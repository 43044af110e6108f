//! Worked links: where a value lies that a message's links lead to, computed by the definitions.
ghost use Rattle.std.specs.Prelude.{pos, [], ◌∷◌, ◌++◌, true, false, codes, replicate};
ghost use Rattle.fidl_wire.specs.declared.handle.HandleInfo.{HandleInfo};
ghost use Rattle.fidl_wire.specs.Value.{Value, number, text, handle, fields, table, union};
ghost use Rattle.fidl_wire.specs.Value.{none, value, known, unknown, member, empty};
ghost use Rattle.fidl_wire.specs.Term.{Term, no_fields, field, no_rows, row, uint64};
ghost use Rattle.fidl_wire.specs.Term as ty;
ghost use Rattle.fidl_wire.specs.Figure.{no_declarations};
ghost use Rattle.fidl_wire.specs.Encoding.{zeros};
ghost use Rattle.fidl_decode_model.specs.Faults.{message_of};
ghost use Rattle.fidl_decode_model.specs.Links.{Linked};
ghost use Rattle.fidl_decode_model.specs.Placed.{Placed};

/// `struct {value string:3;}` with "abc" at 16: placed where the cell of its marker, at 8, says 16,
/// and not where it says 8.
pub fn a_text_lies_where_its_marker_leads()
    ensures there { let t : Term = ty.struct (field (codes "value") (ty.string false 3) no_fields)
        in
        let v : Value = fields (value (text (97 ∷ 98 ∷ 99 ∷ [])) none) in
        let bytes = 3 ∷ zeros 7 ++ replicate 8 255 ++ 97 ∷ 98 ∷ 99 ∷ zeros 5 in
        let l : Linked = record { objects = 0 ∷ 16 ∷ []; records = [] } in
        Placed no_declarations (message_of bytes []) l t 0 v }
    ensures elsewhere { let t : Term =
        ty.struct (field (codes "value") (ty.string false 3) no_fields) in
        let v : Value = fields (value (text (97 ∷ 98 ∷ 99 ∷ [])) none) in
        let bytes = 3 ∷ zeros 7 ++ replicate 8 255 ++ 97 ∷ 98 ∷ 99 ∷ zeros 5 in
        let l : Linked = record { objects = 0 ∷ 8 ∷ []; records = [] } in
        ¬ (Placed no_declarations (message_of bytes []) l t 0 v) }
{}

/// `resource struct {h zx.Handle;}` beside two records: its handle is the one of the record that is
/// linked, and not the other.
pub fn a_handle_is_that_of_its_record()
    ensures second { let t : Term = ty.struct (field (codes "h") (ty.handle false 0 0) no_fields) in
        let a : HandleInfo = record { id = 1; object_type = 3; rights = 0 } in
        let b : HandleInfo = record { id = 2; object_type = 3; rights = 0 } in
        let l : Linked = record { objects = []; records = 2 ∷ [] } in
        let m = message_of (replicate 4 255 ++ zeros 4) (a ∷ b ∷ []) in
        Placed no_declarations m l t 0 (fields (value (handle b) none)) }
    ensures first { let t : Term = ty.struct (field (codes "h") (ty.handle false 0 0) no_fields) in
        let a : HandleInfo = record { id = 1; object_type = 3; rights = 0 } in
        let b : HandleInfo = record { id = 2; object_type = 3; rights = 0 } in
        let l : Linked = record { objects = []; records = 2 ∷ [] } in
        let m = message_of (replicate 4 255 ++ zeros 4) (a ∷ b ∷ []) in
        ¬ (Placed no_declarations m l t 0 (fields (value (handle a) none))) }
{}

/// `table {1: n uint64;}` with 7, out of line: placed where the cell of its envelope, at 16, says
/// 24, and not where it says 16.
pub fn a_member_lies_where_its_envelope_leads()
    ensures there { let t : Term = ty.table (row 1 (codes "n") (ty.number uint64) no_rows) in
        let v : Value = table 1 (member 1 (known (number (pos 7))) empty) in
        let bytes = 1 ∷ zeros 7 ++ replicate 8 255 ++ 8 ∷ zeros 7 ++ 7 ∷ zeros 7 in
        let l : Linked = record { objects = 0 ∷ 16 ∷ 24 ∷ []; records = [] } in
        Placed no_declarations (message_of bytes []) l t 0 v }
    ensures elsewhere { let t : Term = ty.table (row 1 (codes "n") (ty.number uint64) no_rows) in
        let v : Value = table 1 (member 1 (known (number (pos 7))) empty) in
        let bytes = 1 ∷ zeros 7 ++ replicate 8 255 ++ 8 ∷ zeros 7 ++ 7 ∷ zeros 7 in
        let l : Linked = record { objects = 0 ∷ 16 ∷ 16 ∷ []; records = [] } in
        ¬ (Placed no_declarations (message_of bytes []) l t 0 v) }
{}

/// A flexible union with an unknown member in its envelope, beside two records: its handle is the
/// one of the record that the envelope links, and not the other.
pub fn an_unknown_member_has_its_own_handle()
    ensures second { let t : Term = ty.union false false no_rows in
        let a : HandleInfo = record { id = 1; object_type = 3; rights = 0 } in
        let b : HandleInfo = record { id = 2; object_type = 3; rights = 0 } in
        let l : Linked = record { objects = []; records = 0 ∷ 0 ∷ 0 ∷ 2 ∷ [] } in
        let bytes = 9 ∷ zeros 7 ++ 1 ∷ 2 ∷ 3 ∷ 4 ∷ 1 ∷ 0 ∷ 1 ∷ 0 ∷ [] in
        let v : Value = union 9 (unknown true (1 ∷ 2 ∷ 3 ∷ 4 ∷ []) (b ∷ [])) in
        Placed no_declarations (message_of bytes (a ∷ b ∷ [])) l t 0 v }
    ensures first { let t : Term = ty.union false false no_rows in
        let a : HandleInfo = record { id = 1; object_type = 3; rights = 0 } in
        let b : HandleInfo = record { id = 2; object_type = 3; rights = 0 } in
        let l : Linked = record { objects = []; records = 0 ∷ 0 ∷ 0 ∷ 2 ∷ [] } in
        let bytes = 9 ∷ zeros 7 ++ 1 ∷ 2 ∷ 3 ∷ 4 ∷ 1 ∷ 0 ∷ 1 ∷ 0 ∷ [] in
        let v : Value = union 9 (unknown true (1 ∷ 2 ∷ 3 ∷ 4 ∷ []) (a ∷ [])) in
        ¬ (Placed no_declarations (message_of bytes (a ∷ b ∷ [])) l t 0 v) }
{}
