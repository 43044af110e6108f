//! Worked messages: values of small types with their bytes, handles and written texts, computed by
//! the definitions.
ghost use Rattle.std.specs.Prelude.{◌≡◌, ℕ, [], ◌∷◌, ◌++◌, replicate, fold, codes, true, false};
ghost use Rattle.std.specs.Prelude.{pos};
ghost use Rattle.fidl_wire.specs.declared.handle.HandleInfo.{HandleInfo};
ghost use Rattle.fidl_wire.specs.Value.{Value, absent, number, text, fields, handle, table, union};
ghost use Rattle.fidl_wire.specs.Value.{none, value, known, unknown, empty, member};
ghost use Rattle.fidl_wire.specs.Term.{Term, no_fields, field, no_rows, row, uint8, uint32};
ghost use Rattle.fidl_wire.specs.Term as ty;
ghost use Rattle.fidl_wire.specs.Figure.{Declarations, IsLaidOut, no_declarations, figure};
ghost use Rattle.fidl_wire.specs.Encoding.{zeros, present};
ghost use Rattle.fidl_wire.specs.Depth.{Depth};
ghost use Rattle.fidl_wire.specs.Message.{Encodes};
ghost use Rattle.fidl_wire.specs.Text.{Text};

pub mod depths;
pub mod figures;
pub mod handles;
pub mod layouts;
pub mod limits;
pub mod lists;
pub mod markers;
pub mod scalars;
pub mod texts;

/// `struct {x uint32; y uint32;}`: numbers in little-endian order.
pub fn numbers_in_a_struct()
    ensures { let t : Term = ty.struct (field (codes "x") (ty.number uint32)
        (field (codes "y") (ty.number uint32) no_fields)) in
        let v : Value = fields (value (number (pos 1)) (value (number (pos 2)) none)) in
        Encodes no_declarations t v (1 ∷ 0 ∷ 0 ∷ 0 ∷ 2 ∷ 0 ∷ 0 ∷ 0 ∷ []) []
        × (Text no_declarations t v ≡ codes "{x: 1, y: 2}") }
{}

/// `struct {a uint8; b uint32;}`: zeros between members, each of which is aligned to its size.
pub fn padding_between_members()
    ensures { let t : Term = ty.struct (field (codes "a") (ty.number uint8)
        (field (codes "b") (ty.number uint32) no_fields)) in
        let v : Value = fields (value (number (pos 1)) (value (number (pos 2)) none)) in
        Encodes no_declarations t v (1 ∷ 0 ∷ 0 ∷ 0 ∷ 2 ∷ 0 ∷ 0 ∷ 0 ∷ []) []
        × (Text no_declarations t v ≡ codes "{a: 1, b: 2}") }
{}

/// `struct {}`: one zero byte, padded.
pub fn an_empty_struct()
    ensures { let t : Term = ty.struct no_fields in
        let v : Value = fields none in
        Encodes no_declarations t v (zeros 8) [] × (Text no_declarations t v ≡ codes "{}") }
{}

/// `struct {value string;}`: count and marker, and the text out of line.
pub fn a_present_string()
    ensures { let t : Term = ty.struct (field (codes "value") (ty.string false 4294967295)
        no_fields) in
        let v : Value = fields (value (text (codes "hi")) none) in
        Encodes no_declarations t v (2 ∷ zeros 7 ++ present ++ codes "hi" ++ zeros 6) []
        × (Text no_declarations t v ≡ codes "{value: \"hi\"}") }
{}

/// `struct {value string:optional;}`: an absent string is zeros.
pub fn an_absent_string()
    ensures { let t : Term = ty.struct (field (codes "value") (ty.string true 4294967295) no_fields)
        in
        let v : Value = fields (value absent none) in
        Encodes no_declarations t v (zeros 16) []
        × (Text no_declarations t v ≡ codes "{value: absent}") }
{}

/// `table {1: a uint8; 2: b string;}`: a member of one byte stands in its envelope.
pub fn a_member_in_its_envelope()
    ensures { let t : Term = ty.table (row 1 (codes "a") (ty.number uint8)
        (row 2 (codes "b") (ty.string false 4294967295) no_rows)) in
        let v : Value = table 1 (member 1 (known (number (pos 5))) empty) in
        Encodes no_declarations t v (1 ∷ zeros 7 ++ present ++ 5 ∷ 0 ∷ 0 ∷ 0 ∷ 0 ∷ 0 ∷ 1 ∷ 0 ∷ [])
        [] × (Text no_declarations t v ≡ codes "table(1) {a: 5}") }
{}

/// The same table with an absent envelope at its end, which belongs to the value.
pub fn an_absent_end_of_a_table()
    ensures { let t : Term = ty.table (row 1 (codes "a") (ty.number uint8)
        (row 2 (codes "b") (ty.string false 4294967295) no_rows)) in
        let v : Value = table 2 (member 1 (known (number (pos 5))) empty) in
        Encodes no_declarations t v (2 ∷ zeros 7 ++ present ++ 5 ∷ 0 ∷ 0 ∷ 0 ∷ 0 ∷ 0 ∷ 1 ∷ 0 ∷ zeros
        8) [] × (Text no_declarations t v ≡ codes "table(2) {a: 5}") }
{}

/// The same table with an unknown member out of line at ordinal 5, and its handle.
pub fn an_unknown_member()
    ensures { let t : Term = ty.table (row 1 (codes "a") (ty.number uint8)
        (row 2 (codes "b") (ty.string false 4294967295) no_rows)) in
        let h : HandleInfo = record { id = 9; object_type = 3; rights = 1 } in
        let raw = 0x11 ∷ 0x22 ∷ 0x33 ∷ 0x44 ∷ 0x55 ∷ 0x66 ∷ 0x77 ∷ 0x88 ∷ [] in
        let v : Value = table 5 (member 5 (unknown false raw (h ∷ [])) empty) in
        Encodes no_declarations t v (5 ∷ zeros 7 ++ present ++ zeros 32
        ++ 8 ∷ 0 ∷ 0 ∷ 0 ∷ 1 ∷ 0 ∷ 0 ∷ 0 ∷ raw) (h ∷ [])
        × (Text no_declarations t v ≡
        codes "table(5) {5: unknown out 1122334455667788 [handle(9, 3, 1)]}") }
{}

/// `struct {u U;}` with `U = union {1: n uint32;}`: a member of four bytes stands in its envelope.
pub fn a_union()
    ensures { let t : Term = ty.struct (field (codes "u")
        (ty.union false false (row 1 (codes "n") (ty.number uint32) no_rows)) no_fields) in
        let v : Value = fields (value (union 1 (known (number (pos 7)))) none) in
        Encodes no_declarations t v (1 ∷ zeros 7 ++ 7 ∷ 0 ∷ 0 ∷ 0 ∷ 0 ∷ 0 ∷ 1 ∷ 0 ∷ []) []
        × (Text no_declarations t v ≡ codes "{u: union(n: 7)}") }
{}

/// `struct {u U:optional;}`: an absent union is zeros.
pub fn an_absent_union()
    ensures { let t : Term = ty.struct (field (codes "u")
        (ty.union true false (row 1 (codes "n") (ty.number uint32) no_rows)) no_fields) in
        let v : Value = fields (value absent none) in
        Encodes no_declarations t v (zeros 16) [] × (Text no_declarations t v ≡ codes "{u: absent}") }
{}

/// `type Node = struct {next box<Node>;};` with 32 present boxes behind one another: the greatest
/// depth.
pub fn boxes_of_depth_32()
    ensures { let ds : Declarations = record {
      terms = ty.struct
          (field (codes "next") (ty.box (ty.named 0)) no_fields) ∷ [];
      figures = figure 8 8 1 ∷ [];
    }
        in
        let v : Value = fold {A = ℕ} (λ v _. fields (value v none)) (fields (value absent none))
        (replicate 32 0) in
        IsLaidOut ds × Encodes ds (ty.named 0) v (replicate 256 255 ++ zeros 8) []
        × (Depth ds (ty.named 0) v ≡ 32) }
{}

/// With 33 present boxes the depth is one too many.
pub fn boxes_of_depth_33()
    ensures { let ds : Declarations = record {
      terms = ty.struct
          (field (codes "next") (ty.box (ty.named 0)) no_fields) ∷ [];
      figures = figure 8 8 1 ∷ [];
    }
        in
        let v : Value = fold {A = ℕ} (λ v _. fields (value v none)) (fields (value absent none))
        (replicate 33 0) in
        Depth ds (ty.named 0) v ≡ 33 }
{}

/// `A = resource struct {h zx.Handle:VMO;}` in `resource struct {a box<A>; h zx.Handle:EVENT;}`:
/// the handle behind the
/// first member comes before that of the second.
pub fn handles_depth_first()
    ensures { let ds : Declarations = record {
      terms = ty.struct (field (codes "h") (ty.handle false 3 0x80000000) no_fields)
          ∷ ty.struct (field (codes "a") (ty.box (ty.named 0))
          (field (codes "h") (ty.handle false 5 0x80000000) no_fields)) ∷ [];
      figures = figure 4 4 1 ∷ figure 16 8 1 ∷ [];
    } in
        let vmo : HandleInfo = record { id = 1; object_type = 3; rights = 0 } in
        let event : HandleInfo = record { id = 2; object_type = 5; rights = 0 } in
        let v : Value = fields (value (fields (value (handle vmo) none))
        (value (handle event) none)) in
        IsLaidOut ds
        × Encodes ds (ty.named 1) v (present ++ replicate 4 255 ++ zeros 4 ++ replicate 4 255
        ++ zeros 4) (vmo ∷ event ∷ [])
        × (Text ds (ty.named 1) v ≡ codes "{a: {h: handle(1, 3, 0)}, h: handle(2, 5, 0)}") }
{}

/// `table {1: a uint8; 2: b string;}`: its envelopes count one, a member out of line one more, and
/// its text a third; an
/// unknown member out of line counts one; a table without envelopes still counts one.
pub fn depths_of_a_table()
    ensures { let t : Term = ty.table (row 1 (codes "a") (ty.number uint8)
        (row 2 (codes "b") (ty.string false 4294967295) no_rows)) in
        (Depth no_declarations t (table 2 (member 2 (known (text (codes "hi"))) empty)) ≡ 3)
        × (Depth no_declarations t (table 3 (member 3 (unknown false (zeros 8) []) empty)) ≡ 2)
        × (Depth no_declarations t (table 1 (member 1 (known (number (pos 5))) empty)) ≡ 1)
        × (Depth no_declarations t (table 0 empty) ≡ 1) }
{}
