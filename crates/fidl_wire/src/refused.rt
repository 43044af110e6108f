//! Worked refusals: bytes and handles that no value of a type has as its message.
ghost use Rattle.std.specs.Prelude.{[], ◌∷◌, ◌++◌, replicate, codes, false};
ghost use Rattle.fidl_wire.specs.declared.handle.HandleInfo.{HandleInfo};
ghost use Rattle.fidl_wire.specs.Term.{Term, no_fields, field, no_rows, row, uint8, uint32};
ghost use Rattle.fidl_wire.specs.Term as ty;
ghost use Rattle.fidl_wire.specs.Figure.{Declarations, no_declarations, figure};
ghost use Rattle.fidl_wire.specs.Encoding.{zeros, present};
ghost use Rattle.fidl_wire.specs.Message.{IsEncoding};

pub mod handles;
pub mod layouts;
pub mod limits;
pub mod lists;
pub mod scalars;

/// `struct {a uint8; b uint32;}`: a byte between the members that isn't zero.
pub fn padding_that_is_not_zero()
    ensures { let t : Term = ty.struct (field (codes "a") (ty.number uint8)
        (field (codes "b") (ty.number uint32) no_fields)) in
        ¬ (IsEncoding no_declarations t (1 ∷ 0 ∷ 1 ∷ 0 ∷ 2 ∷ 0 ∷ 0 ∷ 0 ∷ []) []) }
{}

/// `struct {}`: its byte isn't zero.
pub fn an_empty_struct_that_is_not_zero()
    ensures { ¬ (IsEncoding no_declarations (ty.struct no_fields) (1 ∷ zeros 7) []) }
{}

/// `struct {x uint32; y uint32;}`: eight bytes too many.
pub fn bytes_left()
    ensures { let t : Term = ty.struct (field (codes "x") (ty.number uint32)
        (field (codes "y") (ty.number uint32) no_fields)) in
        ¬ (IsEncoding no_declarations t (1 ∷ 0 ∷ 0 ∷ 0 ∷ 2 ∷ 0 ∷ 0 ∷ 0 ∷ zeros 8) []) }
{}

/// `struct {value string:2;}`: a text of three bytes.
pub fn a_text_over_its_bound()
    ensures { let t : Term = ty.struct (field (codes "value") (ty.string false 2) no_fields) in
        ¬ (IsEncoding no_declarations t (3 ∷ zeros 7 ++ present ++ codes "abc" ++ zeros 5) []) }
{}

/// `struct {u U;}` with `U = union {1: n uint32;}`: a member of four bytes out of line.
pub fn a_small_member_out_of_line()
    ensures { let t : Term = ty.struct (field (codes "u")
        (ty.union false false (row 1 (codes "n") (ty.number uint32) no_rows)) no_fields) in
        ¬ (IsEncoding no_declarations t (1 ∷ zeros 7 ++ 8 ∷ zeros 7
        ++ 7 ∷ 0 ∷ 0 ∷ 0 ∷ 0 ∷ 0 ∷ 1 ∷ 0 ∷ []) []) }
{}

/// `struct {u U;}` with `U = union {1: s string;}`: the envelope counts 16 bytes where 24 stand
/// behind it.
pub fn an_envelope_with_a_wrong_count()
    ensures { let t : Term = ty.struct (field (codes "u")
        (ty.union false false (row 1 (codes "s") (ty.string false 4294967295) no_rows)) no_fields)
        in
        ¬ (IsEncoding no_declarations t (1 ∷ zeros 7 ++ 16 ∷ zeros 7 ++ 2 ∷ zeros 7 ++ present
        ++ codes "hi" ++ zeros 6) []) }
{}

/// `struct {u U;}`: a required union that is absent.
pub fn a_required_union_that_is_absent()
    ensures { let t : Term = ty.struct (field (codes "u")
        (ty.union false false (row 1 (codes "n") (ty.number uint32) no_rows)) no_fields) in
        ¬ (IsEncoding no_declarations t (zeros 16) []) }
{}

/// `type Node = struct {next box<Node>;};` with 33 present boxes behind one another.
pub fn thirty_three_boxes()
    ensures { let ds : Declarations = record {
      terms = ty.struct
          (field (codes "next") (ty.box (ty.named 0)) no_fields) ∷ [];
      figures = figure 8 8 1 ∷ [];
    }
        in
        ¬ (IsEncoding ds (ty.named 0) (replicate 264 255 ++ zeros 8) []) }
{}

/// `A = resource struct {h zx.Handle:VMO;}` in `resource struct {a box<A>; h zx.Handle:EVENT;}`: no
/// handle came.
pub fn a_handle_too_few()
    ensures { let ds : Declarations = record {
      terms = ty.struct (field (codes "h") (ty.handle false 3 0x80000000) no_fields)
          ∷ ty.struct (field (codes "a") (ty.box (ty.named 0))
          (field (codes "h") (ty.handle false 5 0x80000000) no_fields)) ∷ [];
      figures = figure 4 4 1 ∷ figure 16 8 1 ∷ [];
    } in
        ¬ (IsEncoding ds (ty.named 1) (present ++ replicate 4 255 ++ zeros 4 ++ replicate 4 255
        ++ zeros 4) []) }
{}

/// The same with the two handles swapped.
pub fn handles_in_another_order()
    ensures { let ds : Declarations = record {
      terms = ty.struct (field (codes "h") (ty.handle false 3 0x80000000) no_fields)
          ∷ ty.struct (field (codes "a") (ty.box (ty.named 0))
          (field (codes "h") (ty.handle false 5 0x80000000) no_fields)) ∷ [];
      figures = figure 4 4 1 ∷ figure 16 8 1 ∷ [];
    } in
        let vmo : HandleInfo = record { id = 1; object_type = 3; rights = 0 } in
        let event : HandleInfo = record { id = 2; object_type = 5; rights = 0 } in
        ¬ (IsEncoding ds (ty.named 1) (present ++ replicate 4 255 ++ zeros 4 ++ replicate 4 255
        ++ zeros 4) (event ∷ vmo ∷ [])) }
{}
