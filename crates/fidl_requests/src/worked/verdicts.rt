//! Worked facts of what frames ask, and some that are refused.
ghost use Rattle.std.specs.Prelude.{◌≡◌, [], ◌∷◌, true, false};
ghost use Rattle.fidl_requests.specs.Verdict.{IsCalledRight, IsBody, IsVerdict, unknown_verdict};
ghost use Rattle.fidl_requests.specs.Verdict.{call_verdict};
ghost use Rattle.fidl_requests.specs.Samples.{one_protocol, protocol_of, a_frame};
ghost use Rattle.fidl_requests.specs.declared.ended.Ended.TheVariants.{StrictUnknown, BadMessage};
ghost use Rattle.fidl_requests.specs.declared.verdict.Verdict.TheVariants.{Silence, Unknown, Call};
ghost use Rattle.fidl_requests.specs.declared.verdict.Verdict.TheVariants.{End};

/// A two-way method is called with a transaction id that is not 0, a one-way one with 0.
pub fn transaction_ids_of_calls()
    ensures two_way { IsCalledRight true 7 }
    ensures two_way_zero { ¬ (IsCalledRight true 0) }
    ensures one_way { IsCalledRight false 0 }
    ensures one_way_seven { ¬ (IsCalledRight false 7) }
{}

/// A strict call of an unknown ordinal ends the service, whatever the openness.
pub fn strict_calls_of_an_unknown_ordinal()
    ensures closed { unknown_verdict 0 (record { txid = 0; flexible = false; ordinal = 9 })
        ≡ End StrictUnknown }
    ensures open { unknown_verdict 2 (record { txid = 0; flexible = false; ordinal = 9 })
        ≡ End StrictUnknown }
    ensures open_two_way { unknown_verdict 2 (record { txid = 7; flexible = false; ordinal = 9 })
        ≡ End StrictUnknown }
{}

/// A flexible one-way call of an unknown ordinal is skipped, except by a closed protocol.
pub fn flexible_one_way_calls_of_an_unknown_ordinal()
    ensures closed { unknown_verdict 0 (record { txid = 0; flexible = true; ordinal = 9 })
        ≡ End StrictUnknown }
    ensures ajar { unknown_verdict 1 (record { txid = 0; flexible = true; ordinal = 9 })
        ≡ Silence }
    ensures open { unknown_verdict 2 (record { txid = 0; flexible = true; ordinal = 9 })
        ≡ Silence }
{}

/// A flexible two-way call of an unknown ordinal is answered by an open protocol alone.
pub fn flexible_two_way_calls_of_an_unknown_ordinal()
    ensures closed { unknown_verdict 0 (record { txid = 7; flexible = true; ordinal = 9 })
        ≡ End StrictUnknown }
    ensures ajar { unknown_verdict 1 (record { txid = 7; flexible = true; ordinal = 9 })
        ≡ End StrictUnknown }
    ensures open { unknown_verdict 2 (record { txid = 7; flexible = true; ordinal = 9 })
        ≡ Unknown 7 9 }
{}

/// A call of a two-way method wants its reply, and that of a one-way one nothing.
pub fn calls_of_methods()
    ensures two_way { call_verdict (one_protocol 0) 2
        (record { txid = 7; flexible = false; ordinal = 3 }) ≡ Call 7 3 }
    ensures one_way { call_verdict (one_protocol 0) 0
        (record { txid = 0; flexible = false; ordinal = 1 }) ≡ Silence }
{}

/// The body of a request without a payload is empty.
pub fn bodies_of_requests()
    ensures nothing { IsBody (one_protocol 0) 0 (a_frame 1 0 0 1 []) }
    ensures a_byte { ¬ (IsBody (one_protocol 0) 0 (a_frame 1 0 0 1 (5 ∷ []))) }
    ensures of_an_event { ¬ (IsBody (one_protocol 0) 1 (a_frame 1 0 0 2 [])) }
{}

/// A message with magic number 2 has no header, whatever its ordinal: BadMessage, and not
/// StrictUnknown.
pub fn a_frame_without_a_header()
    ensures bad { IsVerdict (protocol_of 0) (a_frame 2 0 0 9 []) (End BadMessage) }
    ensures no_other { ¬ (IsVerdict (protocol_of 0) (a_frame 2 0 0 9 []) (End StrictUnknown)) }
{}

/// A frame of the event 2 asks what one of an unknown ordinal asks; its body is not read.
pub fn a_frame_of_an_event()
    ensures answered { IsVerdict (protocol_of 2) (a_frame 1 7 128 2 (5 ∷ [])) (Unknown 7 2) }
    ensures strict { IsVerdict (protocol_of 2) (a_frame 1 7 0 2 (5 ∷ [])) (End StrictUnknown) }
    ensures no_call { ¬ (IsVerdict (protocol_of 2) (a_frame 1 7 128 2 (5 ∷ [])) (Call 7 2)) }
{}

/// A one-way method with a transaction id, and a two-way one without.
pub fn frames_with_a_wrong_transaction_id()
    ensures one_way { IsVerdict (protocol_of 2) (a_frame 1 7 128 1 []) (End BadMessage) }
    ensures two_way { IsVerdict (protocol_of 2) (a_frame 1 0 128 3 []) (End BadMessage) }
    ensures not_silence { ¬ (IsVerdict (protocol_of 2) (a_frame 1 7 128 1 []) Silence) }
{}

/// A byte behind the header of a request without a payload.
pub fn a_frame_with_another_body()
    ensures bad { IsVerdict (protocol_of 0) (a_frame 1 7 0 3 (5 ∷ [])) (End BadMessage) }
    ensures no_call { ¬ (IsVerdict (protocol_of 0) (a_frame 1 7 0 3 (5 ∷ [])) (Call 7 3)) }
{}

/// A call of a two-way method wants the next reply, and one of a one-way method nothing. The
/// flexible bit is not compared.
pub fn frames_of_calls()
    ensures two_way { IsVerdict (protocol_of 0) (a_frame 1 7 0 3 []) (Call 7 3) }
    ensures flexible { IsVerdict (protocol_of 0) (a_frame 1 7 128 3 []) (Call 7 3) }
    ensures one_way { IsVerdict (protocol_of 0) (a_frame 1 0 0 1 []) Silence }
    ensures not_bad { ¬ (IsVerdict (protocol_of 0) (a_frame 1 7 0 3 []) (End BadMessage)) }
{}
