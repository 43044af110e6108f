//! Worked replies and outputs.
ghost use Rattle.std.specs.Prelude.{◌≡◌, ◌≢◌, [], ◌∷◌, true, false, replicate};
ghost use Rattle.fidl_verify.specs.Lookups.{TableProtocol};
ghost use Rattle.fidl_requests.specs.declared.ended.Ended.TheVariants as ended;
ghost use Rattle.fidl_requests.specs.declared.verdict.Verdict.TheVariants as verdict;
ghost use Rattle.fidl_script.specs.Script.{Script};
ghost use Rattle.fidl_serve.specs.Output.{IsOutput};
ghost use Rattle.fidl_serve.specs.Replying.{frame_of, unknown_method_body, answer_of, script_after};
ghost use Rattle.fidl_serve.specs.Replying.{reply, silence, end};
ghost use Rattle.fidl_serve.specs.Samples.{one_byte, two_methods, second_called};
ghost use Rattle.fidl_serve.specs.Served.{IsCutReply};

/// The frame of the reply to an unknown method, of transaction 7.
pub fn a_reply_to_an_unknown_method()
    ensures { frame_of (record { txid = 7; flexible = true; ordinal = 0x6acf018fbf1678ba })
        unknown_method_body
        ≡ 32 ∷ 0 ∷ 0 ∷ 0 ∷ 0 ∷ 0 ∷ 0 ∷ 0 ∷ 7 ∷ 0 ∷ 0 ∷ 0 ∷ 2 ∷ 0 ∷ 128 ∷ 1
        ∷ 186 ∷ 120 ∷ 22 ∷ 191 ∷ 143 ∷ 1 ∷ 207 ∷ 106
        ∷ 3 ∷ 0 ∷ 0 ∷ 0 ∷ 0 ∷ 0 ∷ 0 ∷ 0 ∷ 254 ∷ 255 ∷ 255 ∷ 255 ∷ 0 ∷ 0 ∷ 1 ∷ 0 ∷ [] }
{}

/// The handles of a reply follow its body.
pub fn a_reply_with_a_handle()
    ensures { frame_of (record { txid = 1; flexible = false; ordinal = 2 }) (record {
      bytes = 9 ∷ [];
      handles = record { id = 3; object_type = 4; rights = 5 } ∷ [];
    }) ≡ 17 ∷ 0 ∷ 0 ∷ 0 ∷ 1 ∷ 0 ∷ 0 ∷ 0 ∷ 1 ∷ 0 ∷ 0 ∷ 0 ∷ 2 ∷ 0 ∷ 0 ∷ 1
        ∷ 2 ∷ 0 ∷ 0 ∷ 0 ∷ 0 ∷ 0 ∷ 0 ∷ 0 ∷ 9 ∷ 3 ∷ 0 ∷ 0 ∷ 0 ∷ 4 ∷ 0 ∷ 0 ∷ 0 ∷ 5 ∷ 0 ∷ 0 ∷ 0 ∷ [] }
{}

/// A call gets the next reply of its own method, with that method's flexible bit.
pub fn a_call_gets_the_next_reply()
    ensures strict { answer_of two_methods (verdict.Call 7 1)
        ≡ reply (frame_of (record { txid = 7; flexible = false; ordinal = 1 }) (one_byte 10)) }
    ensures flexible { answer_of two_methods (verdict.Call 7 2)
        ≡ reply (frame_of (record { txid = 7; flexible = true; ordinal = 2 }) (one_byte 20)) }
{}

/// A one-way call gets nothing, and an end is one.
pub fn other_frames_get_no_reply()
    ensures silence { answer_of two_methods verdict.Silence ≡ silence }
    ensures end { answer_of two_methods (verdict.End ended.BadMessage) ≡ end ended.BadMessage }
    ensures left { script_after two_methods verdict.Silence ≡ two_methods }
{}

/// A call takes a reply of its own method.
pub fn a_call_takes_a_reply()
    ensures { script_after two_methods (verdict.Call 7 2) ≡ second_called }
{}

/// The last reply of a method stays.
pub fn the_last_reply_stays()
    ensures first { script_after two_methods (verdict.Call 7 1) ≡ two_methods }
    ensures second { script_after second_called (verdict.Call 7 2) ≡ second_called }
{}

/// A call of an unknown method takes none.
pub fn an_unknown_method_takes_no_reply()
    ensures { script_after two_methods (verdict.Unknown 7 2) ≡ two_methods }
{}

/// No input is the end of it.
pub fn no_input_ends_between_frames()
    ensures { (p : TableProtocol) → (script : Script) → IsOutput p script []
        (record { replies = []; end = ended.EndOfInput; is_open = true }) }
{}

/// Four bytes are the beginning of a frame.
pub fn four_bytes_are_a_bad_frame()
    ensures { (p : TableProtocol) → (script : Script) → IsOutput p script (16 ∷ 0 ∷ 0 ∷ 0 ∷ [])
        (record { replies = []; end = ended.BadFrame; is_open = true }) }
{}

/// They are no end between frames.
pub fn four_bytes_are_no_end_of_input()
    ensures { (p : TableProtocol) → (script : Script) → ¬ (IsOutput p script (16 ∷ 0 ∷ 0 ∷ 0 ∷ [])
        (record { replies = []; end = ended.EndOfInput; is_open = true })) }
{}

/// A message of no bytes has no header. What follows it is not read.
pub fn an_empty_message_is_the_end()
    ensures { (p : TableProtocol) → (script : Script) → IsOutput p script (replicate 9 0)
        (record { replies = []; end = ended.BadMessage; is_open = false }) }
{}

/// A reply was written, and half of the next one.
pub fn half_a_reply_is_cut()
    ensures { IsCutReply ((1 ∷ 2 ∷ []) ∷ (3 ∷ 4 ∷ []) ∷ []) (1 ∷ 2 ∷ 3 ∷ []) 1 }
{}

/// A reply that is written whole is counted.
pub fn a_whole_reply_is_counted()
    ensures { ¬ (IsCutReply ((1 ∷ 2 ∷ []) ∷ []) (1 ∷ 2 ∷ []) 0) }
{}
