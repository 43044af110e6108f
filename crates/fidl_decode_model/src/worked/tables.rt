//! Worked refusals of tables, computed by the definitions.
ghost use Rattle.std.specs.Prelude.{[], ◌∷◌, ◌++◌, codes, replicate};
ghost use Rattle.fidl_wire.specs.declared.handle.HandleInfo.{HandleInfo};
ghost use Rattle.fidl_wire.specs.Term.{Term, no_rows, row, uint8, uint64};
ghost use Rattle.fidl_wire.specs.Term as ty;
ghost use Rattle.fidl_wire.specs.Figure.{no_declarations};
ghost use Rattle.fidl_wire.specs.Encoding.{zeros};
ghost use Rattle.fidl_decode_model.specs.Faults.{IsTold};
ghost use Rattle.fidl_decode_model.specs.declared.fault.DecodeFault.TheVariants as fault;

/// A table of zeros: AbsentRequired, and not where its marker says that it is there; BadMarker
/// where that says neither.
pub fn an_absent_table()
    ensures absent { let t : Term = ty.table (row 1 (codes "a") (ty.number uint8) no_rows) in
        IsTold no_declarations t (zeros 16) [] (fault.AbsentRequired 0) }
    ensures present { let t : Term = ty.table (row 1 (codes "a") (ty.number uint8) no_rows) in
        let bytes = zeros 8 ++ replicate 8 255 in
        ¬ (IsTold no_declarations t bytes [] (fault.AbsentRequired 0)) }
    ensures neither { let t : Term = ty.table (row 1 (codes "a") (ty.number uint8) no_rows) in
        IsTold no_declarations t (zeros 8 ++ 1 ∷ zeros 7) [] (fault.BadMarker 8) }
{}

/// A table with two envelopes in eight bytes: BadCount, and not with one.
pub fn envelopes_that_do_not_fit()
    ensures two { let t : Term = ty.table (row 1 (codes "a") (ty.number uint8) no_rows) in
        let bytes = 2 ∷ zeros 7 ++ replicate 8 255 ++ zeros 8 in
        IsTold no_declarations t bytes [] (fault.BadCount 0) }
    ensures one { let t : Term = ty.table (row 1 (codes "a") (ty.number uint8) no_rows) in
        let bytes = 1 ∷ zeros 7 ++ replicate 8 255 ++ zeros 8 in
        ¬ (IsTold no_declarations t bytes [] (fault.BadCount 0)) }
{}

/// `table {1: a uint8; 2: n uint64;}` with eight bytes of `n` in its envelope, behind zeros and
/// behind `a`: BadEnvelope there, and not at the zeros.
pub fn the_second_envelope()
    ensures behind_zeros { let t : Term =
        ty.table
        (row 1 (codes "a") (ty.number uint8) (row 2 (codes "n") (ty.number uint64) no_rows)) in
        let bytes = 2 ∷ zeros 7 ++ replicate 8 255 ++ zeros 8 ++ 7 ∷ zeros 5 ++ 1 ∷ 0 ∷ [] in
        IsTold no_declarations t bytes [] (fault.BadEnvelope 24) }
    ensures behind_a { let t : Term =
        ty.table
        (row 1 (codes "a") (ty.number uint8) (row 2 (codes "n") (ty.number uint64) no_rows)) in
        let five = 5 ∷ zeros 5 ++ 1 ∷ 0 ∷ [] in
        let bytes = 2 ∷ zeros 7 ++ replicate 8 255 ++ five ++ 7 ∷ zeros 5 ++ 1 ∷ 0 ∷ [] in
        IsTold no_declarations t bytes [] (fault.BadEnvelope 24) }
    ensures zeros { let t : Term =
        ty.table
        (row 1 (codes "a") (ty.number uint8) (row 2 (codes "n") (ty.number uint64) no_rows)) in
        let bytes = 2 ∷ zeros 7 ++ replicate 8 255 ++ zeros 8 ++ 7 ∷ zeros 5 ++ 1 ∷ 0 ∷ [] in
        ¬ (IsTold no_declarations t bytes [] (fault.BadEnvelope 16)) }
{}

/// An unknown member of four bytes out of line: BadEnvelope; of eight, with a handle:
/// HandleMissing without a record, and not with one.
pub fn an_unknown_member_of_a_table()
    ensures four { let t : Term = ty.table (row 2 (codes "a") (ty.number uint8) no_rows) in
        let bytes = 1 ∷ zeros 7 ++ replicate 8 255 ++ 4 ∷ zeros 3 ++ 1 ∷ zeros 3 ++ zeros 8 in
        IsTold no_declarations t bytes [] (fault.BadEnvelope 16) }
    ensures missing { let t : Term = ty.table (row 2 (codes "a") (ty.number uint8) no_rows) in
        let bytes = 1 ∷ zeros 7 ++ replicate 8 255 ++ 8 ∷ zeros 3 ++ 1 ∷ zeros 3 ++ zeros 8 in
        IsTold no_declarations t bytes [] (fault.HandleMissing 16) }
    ensures there { let t : Term = ty.table (row 2 (codes "a") (ty.number uint8) no_rows) in
        let bytes = 1 ∷ zeros 7 ++ replicate 8 255 ++ 8 ∷ zeros 3 ++ 1 ∷ zeros 3 ++ zeros 8 in
        let h : HandleInfo = record { id = 9; object_type = 3; rights = 1 } in
        ¬ (IsTold no_declarations t bytes (h ∷ []) (fault.HandleMissing 16)) }
{}

/// `table {1: b bool;}` with 2 in its envelope: BadBool there, and not with 1; and of
/// `array<bool, 8>` out of line at the element that is 2.
pub fn a_bool_in_a_table()
    ensures two { let t : Term = ty.table (row 1 (codes "b") ty.bool no_rows) in
        let bytes = 1 ∷ zeros 7 ++ replicate 8 255 ++ 2 ∷ zeros 5 ++ 1 ∷ 0 ∷ [] in
        IsTold no_declarations t bytes [] (fault.BadBool 16) }
    ensures one { let t : Term = ty.table (row 1 (codes "b") ty.bool no_rows) in
        let bytes = 1 ∷ zeros 7 ++ replicate 8 255 ++ 1 ∷ zeros 5 ++ 1 ∷ 0 ∷ [] in
        ¬ (IsTold no_declarations t bytes [] (fault.BadBool 16)) }
    ensures out { let t : Term = ty.table (row 1 (codes "v") (ty.array ty.bool 8) no_rows) in
        let bytes = 1 ∷ zeros 7 ++ replicate 8 255 ++ 8 ∷ zeros 7 ++ 1 ∷ 2 ∷ zeros 6 in
        IsTold no_declarations t bytes [] (fault.BadBool 25) }
{}
