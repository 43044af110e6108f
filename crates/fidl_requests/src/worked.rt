//! Worked facts of frames and methods, and some that are refused.
ghost use Rattle.std.specs.Prelude.{◌≡◌, ◌≤◌, ℕ, [], ◌∷◌, ◌++◌, replicate, true, false};
ghost use Rattle.fidl_verify.specs.declared.method.Payload.TheVariants as payload;
ghost use Rattle.fidl_verify.specs.Lookups.{IsProtocolOfTable};
ghost use Rattle.fidl_requests.specs.Frame.{message_of, handles_of};
ghost use Rattle.fidl_requests.specs.Carried.{IsCarried};
ghost use Rattle.fidl_requests.specs.Methods.{IsRequested, IsUnrequested, IsEvent, is_two_way};
ghost use Rattle.fidl_requests.specs.Samples.{one_protocol, protocol_of, one_bool, a_handle_frame};

pub mod verdicts;

/// The message of a frame follows its counts, and the handles follow the message.
pub fn parts_of_a_frame()
    ensures message { message_of a_handle_frame ≡ 9 ∷ [] }
    ensures handles { handles_of a_handle_frame
        ≡ record { id = 4; object_type = 5; rights = 6 }
        ∷ record { id = 7; object_type = 8; rights = 265 } ∷ [] }
{}

/// A method has no message, an empty one, or the encodings of a type.
pub fn what_a_method_carries()
    ensures missing { ¬ (IsCarried one_bool payload.Missing [] []) }
    ensures nothing { IsCarried one_bool payload.Empty [] [] }
    ensures a_byte { ¬ (IsCarried one_bool payload.Empty (0 ∷ []) []) }
    ensures a_handle { ¬ (IsCarried one_bool payload.Empty []
        (record { id = 4; object_type = 5; rights = 6 } ∷ [])) }
    ensures a_value { IsCarried one_bool (payload.Entry 0) (1 ∷ replicate 7 0) [] }
    ensures no_value { ¬ (IsCarried one_bool (payload.Entry 0) (2 ∷ replicate 7 0) []) }
{}

/// The table of the examples is well formed at each openness.
pub fn the_protocol_of_the_examples()
    ensures { (openness : ℕ) → openness ≤ 2 → IsProtocolOfTable (protocol_of openness) }
{}

/// The methods 1 and 3 have a request, and the event 2 has none; the number of method 3 is 2.
pub fn methods_with_a_request()
    ensures first { IsRequested (protocol_of 0) 1 0 }
    ensures third { IsRequested (protocol_of 0) 3 2 }
    ensures event { ¬ (IsRequested (protocol_of 0) 2 1) }
    ensures of_another { ¬ (IsRequested (protocol_of 0) 3 0) }
{}

/// The event 2 and the ordinal 4 of no method are not requested; method 1 is.
pub fn ordinals_without_a_request()
    ensures event { IsUnrequested (protocol_of 0) 2 }
    ensures none { IsUnrequested (protocol_of 0) 4 }
    ensures one_way { ¬ (IsUnrequested (protocol_of 0) 1) }
    ensures no_event { ¬ (IsEvent (protocol_of 0) 3) }
{}

/// Method 1 is one-way, and method 3 two-way.
pub fn ways_of_methods()
    ensures one_way { is_two_way (one_protocol 0) 0 ≡ false }
    ensures two_way { is_two_way (one_protocol 0) 2 ≡ true }
{}
