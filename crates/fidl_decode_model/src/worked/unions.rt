//! Worked refusals of unions, computed by the definitions.
ghost use Rattle.std.specs.Prelude.{[], ◌∷◌, ◌++◌, true, false, codes};
ghost use Rattle.fidl_wire.specs.declared.handle.HandleInfo.{HandleInfo};
ghost use Rattle.fidl_wire.specs.Term.{Term, no_rows, row, uint8, uint32, uint64};
ghost use Rattle.fidl_wire.specs.Term as ty;
ghost use Rattle.fidl_wire.specs.Figure.{no_declarations};
ghost use Rattle.fidl_wire.specs.Encoding.{zeros};
ghost use Rattle.fidl_decode_model.specs.Faults.{IsTold};
ghost use Rattle.fidl_decode_model.specs.declared.fault.DecodeFault.TheVariants as fault;

/// `union {1: n uint32;}` of zeros: AbsentRequired, and not where it is optional.
pub fn an_absent_union()
    ensures required { let t : Term =
        ty.union false false (row 1 (codes "n") (ty.number uint32) no_rows) in
        IsTold no_declarations t (zeros 16) [] (fault.AbsentRequired 0) }
    ensures optional { let t : Term =
        ty.union true false (row 1 (codes "n") (ty.number uint32) no_rows) in
        ¬ (IsTold no_declarations t (zeros 16) [] (fault.AbsentRequired 0)) }
{}

/// The same with ordinal 0 and an envelope with 5 in it: BadEnvelope, optional or not, and not
/// AbsentRequired; zeros are no BadEnvelope.
pub fn an_envelope_without_an_ordinal()
    ensures optional { let t : Term =
        ty.union true false (row 1 (codes "n") (ty.number uint32) no_rows) in
        let bytes = zeros 8 ++ 5 ∷ zeros 5 ++ 1 ∷ 0 ∷ [] in
        IsTold no_declarations t bytes [] (fault.BadEnvelope 8) }
    ensures required { let t : Term =
        ty.union false false (row 1 (codes "n") (ty.number uint32) no_rows) in
        let bytes = zeros 8 ++ 5 ∷ zeros 5 ++ 1 ∷ 0 ∷ [] in
        IsTold no_declarations t bytes [] (fault.BadEnvelope 8) }
    ensures present { let t : Term =
        ty.union false false (row 1 (codes "n") (ty.number uint32) no_rows) in
        let bytes = zeros 8 ++ 5 ∷ zeros 5 ++ 1 ∷ 0 ∷ [] in
        ¬ (IsTold no_declarations t bytes [] (fault.AbsentRequired 0)) }
    ensures absent { let t : Term =
        ty.union true false (row 1 (codes "n") (ty.number uint32) no_rows) in
        ¬ (IsTold no_declarations t (zeros 16) [] (fault.BadEnvelope 8)) }
{}

/// Ordinal 2 of `strict union {1: n uint32;}`: UnknownOrdinal, and not in a flexible one, nor for
/// ordinal 1.
pub fn an_ordinal_of_no_member()
    ensures strict { let t : Term =
        ty.union false true (row 1 (codes "n") (ty.number uint32) no_rows) in
        let bytes = 2 ∷ zeros 7 ++ 7 ∷ zeros 5 ++ 1 ∷ 0 ∷ [] in
        IsTold no_declarations t bytes [] (fault.UnknownOrdinal 0) }
    ensures flexible { let t : Term =
        ty.union false false (row 1 (codes "n") (ty.number uint32) no_rows) in
        let bytes = 2 ∷ zeros 7 ++ 7 ∷ zeros 5 ++ 1 ∷ 0 ∷ [] in
        ¬ (IsTold no_declarations t bytes [] (fault.UnknownOrdinal 0)) }
    ensures known { let t : Term =
        ty.union false true (row 1 (codes "n") (ty.number uint32) no_rows) in
        let bytes = 1 ∷ zeros 7 ++ 7 ∷ zeros 5 ++ 1 ∷ 0 ∷ [] in
        ¬ (IsTold no_declarations t bytes [] (fault.UnknownOrdinal 0)) }
{}

/// `union {1: n uint32;}` with its member out of line, or without one: BadEnvelope, and not with
/// the member in its envelope.
pub fn a_member_that_is_elsewhere()
    ensures out { let t : Term =
        ty.union false false (row 1 (codes "n") (ty.number uint32) no_rows) in
        let bytes = 1 ∷ zeros 7 ++ 8 ∷ zeros 7 ++ 7 ∷ zeros 7 in
        IsTold no_declarations t bytes [] (fault.BadEnvelope 8) }
    ensures none { let t : Term =
        ty.union false false (row 1 (codes "n") (ty.number uint32) no_rows) in
        IsTold no_declarations t (1 ∷ zeros 15) [] (fault.BadEnvelope 8) }
    ensures inline { let t : Term =
        ty.union false false (row 1 (codes "n") (ty.number uint32) no_rows) in
        let bytes = 1 ∷ zeros 7 ++ 7 ∷ zeros 5 ++ 1 ∷ 0 ∷ [] in
        ¬ (IsTold no_declarations t bytes [] (fault.BadEnvelope 8)) }
{}

/// A number with a handle in the counts of its envelope, or with 16 bytes below it: WrongCounts,
/// and not without the handle, nor with 8 bytes.
pub fn counts_of_what_is_not_there()
    ensures handle { let t : Term =
        ty.union false false (row 1 (codes "n") (ty.number uint32) no_rows) in
        let bytes = 1 ∷ zeros 7 ++ 7 ∷ zeros 3 ++ 1 ∷ 0 ∷ 1 ∷ 0 ∷ [] in
        IsTold no_declarations t bytes [] (fault.WrongCounts 8) }
    ensures none { let t : Term =
        ty.union false false (row 1 (codes "n") (ty.number uint32) no_rows) in
        let bytes = 1 ∷ zeros 7 ++ 7 ∷ zeros 5 ++ 1 ∷ 0 ∷ [] in
        ¬ (IsTold no_declarations t bytes [] (fault.WrongCounts 8)) }
    ensures sixteen { let t : Term =
        ty.union false false (row 1 (codes "n") (ty.number uint64) no_rows) in
        let bytes = 1 ∷ zeros 7 ++ 16 ∷ zeros 7 ++ 7 ∷ zeros 15 in
        IsTold no_declarations t bytes [] (fault.WrongCounts 8) }
    ensures eight { let t : Term =
        ty.union false false (row 1 (codes "n") (ty.number uint64) no_rows) in
        let bytes = 1 ∷ zeros 7 ++ 8 ∷ zeros 7 ++ 7 ∷ zeros 15 in
        ¬ (IsTold no_declarations t bytes [] (fault.WrongCounts 8)) }
{}

/// A bool of 2 in an envelope that counts 65 handles: WrongCounts, and not with 64.
pub fn handles_that_no_message_has()
    ensures over { let t : Term = ty.union false false (row 1 (codes "b") ty.bool no_rows) in
        let bytes = 1 ∷ zeros 7 ++ 2 ∷ zeros 3 ++ 65 ∷ 0 ∷ 1 ∷ 0 ∷ [] in
        IsTold no_declarations t bytes [] (fault.WrongCounts 8) }
    ensures most { let t : Term = ty.union false false (row 1 (codes "b") ty.bool no_rows) in
        let bytes = 1 ∷ zeros 7 ++ 2 ∷ zeros 3 ++ 64 ∷ 0 ∷ 1 ∷ 0 ∷ [] in
        ¬ (IsTold no_declarations t bytes [] (fault.WrongCounts 8)) }
{}

/// An unknown member with a handle: HandleMissing at its envelope, and not beside a record.
pub fn an_unknown_member_without_its_handle()
    ensures missing { let t : Term =
        ty.union false false (row 1 (codes "n") (ty.number uint32) no_rows) in
        let bytes = 9 ∷ zeros 7 ++ 7 ∷ zeros 3 ++ 1 ∷ 0 ∷ 1 ∷ 0 ∷ [] in
        IsTold no_declarations t bytes [] (fault.HandleMissing 8) }
    ensures there { let t : Term =
        ty.union false false (row 1 (codes "n") (ty.number uint32) no_rows) in
        let bytes = 9 ∷ zeros 7 ++ 7 ∷ zeros 3 ++ 1 ∷ 0 ∷ 1 ∷ 0 ∷ [] in
        let h : HandleInfo = record { id = 1; object_type = 3; rights = 0 } in
        ¬ (IsTold no_declarations t bytes (h ∷ []) (fault.HandleMissing 8)) }
{}

/// An unknown member of eight bytes out of line: Truncated where they begin, and not where they
/// are there.
pub fn an_unknown_member_that_is_cut_off()
    ensures cut { let t : Term =
        ty.union false false (row 1 (codes "n") (ty.number uint32) no_rows) in
        let bytes = 9 ∷ zeros 7 ++ 8 ∷ zeros 7 in
        IsTold no_declarations t bytes [] (fault.Truncated 16) }
    ensures whole { let t : Term =
        ty.union false false (row 1 (codes "n") (ty.number uint32) no_rows) in
        let bytes = 9 ∷ zeros 7 ++ 8 ∷ zeros 15 in
        ¬ (IsTold no_declarations t bytes [] (fault.Truncated 16)) }
{}

/// `union {1: n uint8;}` with two bytes behind the number that are not zero: Padding at the first,
/// and not at the second, nor at the zero before them.
pub fn padding_in_an_envelope()
    ensures first { let t : Term =
        ty.union false false (row 1 (codes "n") (ty.number uint8) no_rows) in
        let bytes = 1 ∷ zeros 7 ++ 5 ∷ 0 ∷ 3 ∷ 3 ∷ 0 ∷ 0 ∷ 1 ∷ 0 ∷ [] in
        IsTold no_declarations t bytes [] (fault.Padding 10) }
    ensures second { let t : Term =
        ty.union false false (row 1 (codes "n") (ty.number uint8) no_rows) in
        let bytes = 1 ∷ zeros 7 ++ 5 ∷ 0 ∷ 3 ∷ 3 ∷ 0 ∷ 0 ∷ 1 ∷ 0 ∷ [] in
        ¬ (IsTold no_declarations t bytes [] (fault.Padding 11)) }
    ensures zero { let t : Term =
        ty.union false false (row 1 (codes "n") (ty.number uint8) no_rows) in
        let bytes = 1 ∷ zeros 7 ++ 5 ∷ 0 ∷ 3 ∷ 3 ∷ 0 ∷ 0 ∷ 1 ∷ 0 ∷ [] in
        ¬ (IsTold no_declarations t bytes [] (fault.Padding 9)) }
{}
