//! Worked envelopes: rules that an envelope breaks by its numbers, and some that it does not,
//! computed by the definitions.
ghost use Rattle.std.specs.Prelude.{[], ◌∷◌, ◌++◌, Some, None};
ghost use Rattle.fidl_wire.specs.Term.{uint8, uint32, uint64};
ghost use Rattle.fidl_wire.specs.Term as ty;
ghost use Rattle.fidl_wire.specs.Figure.{no_declarations};
ghost use Rattle.fidl_wire.specs.Encoding.{zeros};
ghost use Rattle.fidl_decode_model.specs.Faults.{message_of};
ghost use Rattle.fidl_decode_model.specs.Envelopes.{BreaksEnvelope};
ghost use Rattle.fidl_decode_model.specs.declared.fault.DecodeFault.TheVariants as fault;

/// Eight bytes out of line: BadEnvelope for a member of four bytes, and not for one of eight.
pub fn four_bytes_out_of_line()
    ensures four { let m = message_of (8 ∷ zeros 7) [] in
        BreaksEnvelope no_declarations m 0 (Some (ty.number uint32)) 0 8 0 (fault.BadEnvelope 0) }
    ensures eight { let m = message_of (8 ∷ zeros 7) [] in
        let t = ty.number uint64 in
        ¬ (BreaksEnvelope no_declarations m 0 (Some t) 0 8 0 (fault.BadEnvelope 0)) }
{}

/// An unknown member: BadEnvelope for four bytes out of line, and not for eight.
pub fn a_byte_count_that_is_no_multiple_of_8()
    ensures four { let m = message_of (4 ∷ zeros 7) [] in
        BreaksEnvelope no_declarations m 0 None 0 8 0 (fault.BadEnvelope 0) }
    ensures eight { let m = message_of (8 ∷ zeros 7) [] in
        ¬ (BreaksEnvelope no_declarations m 0 None 0 8 0 (fault.BadEnvelope 0)) }
{}

/// Flags of 2: BadEnvelope; a handle of an unknown member without a record: HandleMissing.
pub fn flags_and_handles()
    ensures flags { let m = message_of (zeros 6 ++ 2 ∷ 0 ∷ []) [] in
        BreaksEnvelope no_declarations m 0 None 0 8 0 (fault.BadEnvelope 0) }
    ensures missing { let m = message_of (zeros 4 ++ 1 ∷ 0 ∷ 1 ∷ 0 ∷ []) [] in
        BreaksEnvelope no_declarations m 0 None 0 8 0 (fault.HandleMissing 0) }
{}

/// Eight bytes out of line behind 32 objects: TooDeep, and not behind 31, nor in the envelope.
pub fn an_envelope_that_lies_too_deep()
    ensures deep { let m = message_of (8 ∷ zeros 15) [] in
        BreaksEnvelope no_declarations m 32 (Some (ty.number uint64)) 0 8 0 (fault.TooDeep 0) }
    ensures less { let m = message_of (8 ∷ zeros 15) [] in
        ¬ (BreaksEnvelope no_declarations m 31 (Some (ty.number uint64)) 0 8 0 (fault.TooDeep 0)) }
    ensures inline { let m = message_of (8 ∷ zeros 5 ++ 1 ∷ 0 ∷ []) [] in
        ¬ (BreaksEnvelope no_declarations m 32 (Some (ty.number uint32)) 0 8 0 (fault.TooDeep 0)) }
{}

/// A known member of twelve bytes out of line: Truncated where eight are left, and not where
/// sixteen are.
pub fn a_known_member_that_is_cut_off()
    ensures cut { let m = message_of (16 ∷ zeros 15) [] in
        let t = ty.array (ty.number uint8) 12 in
        BreaksEnvelope no_declarations m 0 (Some t) 0 8 0 (fault.Truncated 8) }
    ensures whole { let m = message_of (16 ∷ zeros 23) [] in
        let t = ty.array (ty.number uint8) 12 in
        ¬ (BreaksEnvelope no_declarations m 0 (Some t) 0 8 0 (fault.Truncated 8)) }
{}

/// A count of 65 handles, or of 16,777,224 bytes out of line: WrongCounts for a known member, and
/// not 64, nor 16,777,216, nor a number of 16,777,224 in its envelope.
pub fn counts_that_no_message_has()
    ensures handles { let m = message_of (zeros 4 ++ 65 ∷ 0 ∷ 1 ∷ 0 ∷ []) [] in
        let t = ty.number uint32 in
        BreaksEnvelope no_declarations m 0 (Some t) 0 8 0 (fault.WrongCounts 0) }
    ensures fewer { let m = message_of (zeros 4 ++ 64 ∷ 0 ∷ 1 ∷ 0 ∷ []) [] in
        let t = ty.number uint32 in
        ¬ (BreaksEnvelope no_declarations m 0 (Some t) 0 8 0 (fault.WrongCounts 0)) }
    ensures bytes { let m = message_of (8 ∷ 0 ∷ 0 ∷ 1 ∷ zeros 4) [] in
        let t = ty.number uint64 in
        BreaksEnvelope no_declarations m 0 (Some t) 0 8 0 (fault.WrongCounts 0) }
    ensures less { let m = message_of (0 ∷ 0 ∷ 0 ∷ 1 ∷ zeros 4) [] in
        let t = ty.number uint64 in
        ¬ (BreaksEnvelope no_declarations m 0 (Some t) 0 8 0 (fault.WrongCounts 0)) }
    ensures inline { let m = message_of (8 ∷ 0 ∷ 0 ∷ 1 ∷ zeros 2 ++ 1 ∷ 0 ∷ []) [] in
        let t = ty.number uint32 in
        ¬ (BreaksEnvelope no_declarations m 0 (Some t) 0 8 0 (fault.WrongCounts 0)) }
{}
