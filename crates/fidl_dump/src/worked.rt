//! Worked lines and refusals.
ghost use Rattle.std.specs.Prelude.{◌≡◌, ℕ, List, [], ◌∷◌, ◌++◌, replicate, codes, None, Some};
ghost use Rattle.fidl_frames.specs.Frames.{frames_of};
ghost use Rattle.fidl_header.specs.declared.fault.HeaderFault.TheVariants as header;
ghost use Rattle.fidl_decode_model.specs.declared.fault.DecodeFault.TheVariants as decode;
ghost use Rattle.fidl_verify.specs.Lookups.{TableProtocol};
ghost use Rattle.fidl_requests.specs.Samples.{protocol_of, a_frame};
ghost use Rattle.fidl_dump.specs.declared.direction.Direction.{Direction};
ghost use Rattle.fidl_dump.specs.declared.direction.Direction.TheVariants.{Requests, Responses};
ghost use Rattle.fidl_dump.specs.declared.fault.FrameFault.TheVariants as fault;
ghost use Rattle.fidl_dump.specs.Lines.{IsLine, AreLines};
ghost use Rattle.fidl_dump.specs.Faults.{IsFrameFault, IsFaultAt, stage_of, number_of, name_of};
ghost use Rattle.fidl_dump.specs.Faults.{place_of};
ghost use Rattle.fidl_dump.specs.Samples.{an_unknown_frame, four_bytes, value_protocol};

/// The line of a message of an unknown ordinal, whose digits begin with the highest byte.
pub fn an_unknown_ordinal()
    ensures line { AreLines (protocol_of 2) Requests (frames_of an_unknown_frame).frames
        (codes "7 6acf018fbf1678ba unknown\n") }
    ensures turned { ¬ (IsLine (protocol_of 2) Requests an_unknown_frame
        (codes "7 ba7816bf8f01cf6a unknown\n")) }
    ensures no_feed { ¬ (IsLine (protocol_of 2) Requests an_unknown_frame
        (codes "7 6acf018fbf1678ba unknown")) }
{}

/// The event 2 is a message of the responses alone, the one-way method 1 of the requests alone, and
/// the two-way method 3 of both.
pub fn messages_of_a_direction()
    ensures event { IsLine (protocol_of 0) Responses (a_frame 1 0 0 2 [])
        (codes "0 0000000000000002 p\n") }
    ensures no_request { IsLine (protocol_of 0) Requests (a_frame 1 0 0 2 [])
        (codes "0 0000000000000002 unknown\n") }
    ensures one_way { IsLine (protocol_of 0) Requests (a_frame 1 0 0 1 [])
        (codes "0 0000000000000001 p\n") }
    ensures no_response { IsLine (protocol_of 0) Responses (a_frame 1 0 0 1 [])
        (codes "0 0000000000000001 unknown\n") }
    ensures two_way { IsLine (protocol_of 0) Requests (a_frame 1 7 0 3 [])
        (codes "7 0000000000000003 p\n") }
    ensures reply { IsLine (protocol_of 0) Responses (a_frame 1 7 0 3 [])
        (codes "7 0000000000000003 p\n") }
    ensures other { ¬ (IsLine (protocol_of 0) Requests (a_frame 1 0 0 2 [])
        (codes "0 0000000000000002 p\n")) }
{}

/// The body of a message of an unknown ordinal is not read.
pub fn an_unknown_ordinal_with_a_body()
    ensures { IsLine (protocol_of 0) Requests (a_frame 1 7 0 9 (5 ∷ []))
        (codes "7 0000000000000009 unknown\n") }
{}

/// A body where the method's message carries nothing.
pub fn a_body_that_is_not_carried()
    ensures refused { IsFrameFault (protocol_of 0) Requests (a_frame 1 7 0 3 (5 ∷ []))
        fault.BadMessage }
    ensures no_line { (line : List ℕ)
        → ¬ (IsLine (protocol_of 0) Requests (a_frame 1 7 0 3 (5 ∷ [])) line) }
{}

/// A message with magic number 2 has no header.
pub fn a_message_without_a_header()
    ensures { IsFrameFault (protocol_of 0) Requests (a_frame 2 7 0 3 [])
        (fault.Header header.BadMagic) }
{}

/// The text of the value that a message carries follows the method's name.
pub fn a_value_that_is_carried()
    ensures { IsLine value_protocol Requests (a_frame 1 0 0 1 (replicate 8 0))
        (codes "0 0000000000000001 p {}\n") }
{}

/// Eight bytes are left behind a value of eight: the offset counts from the body's first byte.
pub fn a_body_with_bytes_left()
    ensures { IsFrameFault value_protocol Requests (a_frame 1 0 0 1 (replicate 16 0))
        (fault.Body (decode.BytesLeft 8)) }
{}

/// Nothing has no line and no refusal.
pub fn nothing_is_printed_of_nothing()
    ensures lines { (p : TableProtocol) → (d : Direction) → AreLines p d (frames_of []).frames [] }
    ensures no_frame { (p : TableProtocol) → (d : Direction)
        → ¬ (IsFaultAt p d [] 1 fault.BadFrame) }
{}

/// Four bytes are no whole frame, and the first.
pub fn four_bytes_are_a_bad_frame()
    ensures first { (p : TableProtocol) → (d : Direction)
        → IsFaultAt p d four_bytes 1 fault.BadFrame }
    ensures not_0 { (p : TableProtocol) → (d : Direction)
        → ¬ (IsFaultAt p d four_bytes 0 fault.BadFrame) }
{}

/// Behind a whole frame they are the second.
pub fn the_second_frame_is_bad()
    ensures second { (p : TableProtocol) → (d : Direction)
        → IsFaultAt p d (an_unknown_frame ++ four_bytes) 2 fault.BadFrame }
    ensures not_first { (p : TableProtocol) → (d : Direction)
        → ¬ (IsFaultAt p d (an_unknown_frame ++ four_bytes) 1 fault.BadFrame) }
{}

/// The stage, number, name and place of refusals.
pub fn words_of_refusals()
    ensures header { stage_of (fault.Header header.BadMagic) ≡ codes "header" }
    ensures decode { stage_of (fault.Body (decode.Padding 2)) ≡ codes "decode" }
    ensures number { number_of (fault.Body (decode.Padding 2)) ≡ 4 }
    ensures place { place_of (fault.Body (decode.Padding 2)) ≡ Some 2 }
    ensures ended { stage_of fault.BadMessage ≡ codes "ended" }
    ensures message { number_of fault.BadMessage ≡ 3 }
    ensures frame { number_of fault.BadFrame ≡ 4 }
    ensures name { name_of fault.BadFrame ≡ codes "BadFrame" }
    ensures no_place { place_of fault.BadFrame ≡ None }
{}
