//! Worked facts: words that hold links, and what came in their place, computed by the definitions.
#![tactic(auto, unfolding(crate::specs::Links::written, crate::specs::Links::came_byte, crate::specs::Words::word))]

ghost use Rattle.std.specs.Prelude.{◌≡◌, ◌+◌, ◌-◌, ◌^◌, [], ◌∷◌, ◌++◌, replicate};
ghost use Rattle.fidl_wire.specs.Encoding.{zeros, present};
ghost use Rattle.fidl_links.specs.Bits.{bit};
ghost use Rattle.fidl_links.specs.Coding.{came_word, object_cell, out_of_line, inline, IsSound};
ghost use Rattle.fidl_links.specs.Marks.{marker_bit, envelope_bit, handle_bit};
ghost use Rattle.fidl_links.specs.Links.{written, places, IsFree, IsFreeWord, AreSound};
ghost use Rattle.fidl_links.specs.Samples.{marks, seen};
ghost use Rattle.fidl_links.specs.Words.{AreOctets, word, words_of, Put};

/// Of the byte 5 the bits 0 and 2 are set. Behind the last byte no bit is.
pub fn bits_of_bytes()
    ensures set { bit (5 ∷ []) 0 2 ≡ 1 }
    ensures clear { bit (5 ∷ []) 0 1 ≡ 0 }
    ensures second { bit (0 ∷ 1 ∷ []) 1 0 ≡ 1 }
    ensures behind { bit (1 ∷ []) 1 0 ≡ 0 }
{}

/// The second word holds a marker's link where its byte is 1, an envelope's where it is 2, and a
/// handle's in its lower half where it is 4 and in its upper half where it is 8. None of these is
/// set with the others.
pub fn marks_of_a_word()
    ensures marker { marker_bit (0 ∷ 1 ∷ []) 1 ≡ 1 }
    ensures no_marker { marker_bit (1 ∷ 14 ∷ []) 1 ≡ 0 }
    ensures envelope { envelope_bit (0 ∷ 2 ∷ []) 1 ≡ 1 }
    ensures no_envelope { envelope_bit (2 ∷ 13 ∷ []) 1 ≡ 0 }
    ensures lower { handle_bit (0 ∷ 4 ∷ []) 2 ≡ 1 }
    ensures no_lower { handle_bit (12 ∷ 11 ∷ []) 2 ≡ 0 }
    ensures upper { handle_bit (0 ∷ 8 ∷ []) 3 ≡ 1 }
    ensures no_upper { handle_bit (12 ∷ 7 ∷ []) 3 ≡ 0 }
{}

/// Of fifteen bytes eight are a whole word. The lowest byte of a word comes first. A byte is below
/// 256.
pub fn words_of_a_message()
    ensures whole { words_of (zeros 15) ≡ 1 }
    ensures number { word (1 ∷ 2 ∷ zeros 6) 0 ≡ 513 }
    ensures octet { AreOctets (255 ∷ []) }
    ensures too_wide { ¬ (AreOctets (256 ∷ [])) }
{}

/// The first of two words is written. It is not, where it stays as it was, nor where the other is
/// written too.
pub fn words_that_are_written()
    ensures first { Put (zeros 16) (16 ∷ zeros 15) 0 16 }
    ensures none { ¬ (Put (zeros 16) (zeros 16) 0 16) }
    ensures both { ¬ (Put (zeros 16) (16 ∷ zeros 7 ++ 1 ∷ zeros 7) 0 16) }
{}

/// The link of a marker is the place of its object, here 16, and ones came. A word that holds no
/// link is what came.
pub fn a_marker()
    ensures came { came_word 1 0 0 0 16 ≡ 2 ^ 64 - 1 }
    ensures object { object_cell 1 0 16 ≡ 16 }
    ensures message { written (16 ∷ zeros 7 ++ 7 ∷ zeros 7) (marks 1 0 0)
        ≡ seen (present ++ 7 ∷ zeros 7) (16 ∷ 0 ∷ []) (zeros 4) }
{}

/// An envelope of eight bytes out of line whose object begins at place 56: 7 in its lowest 24 bits,
/// and 1 in the next. With a handle below it, which has the record 3, bit 48 is 1 and 3 stands from
/// bit 55 on.
pub fn an_envelope_out_of_line()
    ensures word { out_of_line 56 8 0 0 ≡ 7 + 2 ^ 24 }
    ensures none { written (7 ∷ 0 ∷ 0 ∷ 1 ∷ zeros 4) (marks 0 1 0)
        ≡ seen (8 ∷ zeros 7) (56 ∷ []) (0 ∷ 1 ∷ []) }
    ensures handle { written (7 ∷ 0 ∷ 0 ∷ 1 ∷ 0 ∷ 0 ∷ 129 ∷ 1 ∷ []) (marks 0 1 0)
        ≡ seen (8 ∷ 0 ∷ 0 ∷ 0 ∷ 1 ∷ 0 ∷ 0 ∷ 0 ∷ []) (56 ∷ []) (0 ∷ 4 ∷ []) }
{}

/// An envelope in which its member stands keeps the member. Its top bit is 1. Where the member is
/// a handle, the lower half holds the link of this handle.
pub fn an_envelope_with_its_member()
    ensures word { inline 9 0 0 ≡ 9 + 2 ^ 63 }
    ensures number { written (9 ∷ zeros 6 ++ 128 ∷ []) (marks 0 1 0)
        ≡ seen (9 ∷ 0 ∷ 0 ∷ 0 ∷ 0 ∷ 0 ∷ 1 ∷ 0 ∷ []) (0 ∷ []) (0 ∷ 1 ∷ []) }
    ensures handle { written (4 ∷ zeros 5 ++ 129 ∷ 129 ∷ []) (marks 0 1 1)
        ≡ seen (replicate 4 255 ++ 1 ∷ 0 ∷ 1 ∷ 0 ∷ []) (0 ∷ []) (4 ∷ 4 ∷ []) }
{}

/// A handle's link is one more than its record, in the half where the handle came. The other half
/// is what came.
pub fn handles_in_halves()
    ensures lower { written (4 ∷ 0 ∷ 0 ∷ 0 ∷ 9 ∷ 0 ∷ 0 ∷ 0 ∷ []) (marks 0 0 1)
        ≡ seen (replicate 4 255 ++ 9 ∷ 0 ∷ 0 ∷ 0 ∷ []) (0 ∷ []) (4 ∷ 0 ∷ []) }
    ensures upper { written (9 ∷ 0 ∷ 0 ∷ 0 ∷ 4 ∷ 0 ∷ 0 ∷ 0 ∷ []) (marks 0 0 2)
        ≡ seen (9 ∷ 0 ∷ 0 ∷ 0 ∷ replicate 4 255) (0 ∷ []) (0 ∷ 4 ∷ []) }
{}

/// Behind the last whole word bytes are what came.
pub fn bytes_behind_the_last_word()
    ensures { written (16 ∷ zeros 7 ++ 5 ∷ []) (marks 1 0 0)
        ≡ seen (present ++ 5 ∷ []) (16 ∷ []) (0 ∷ 0 ∷ []) }
{}

/// A marked word holds a link: the place of an object that is not 0, nor past the longest message;
/// or one more than a record. A word that is not marked can be any.
pub fn words_that_hold_links()
    ensures marker { AreSound (16 ∷ zeros 7) (marks 1 0 0) }
    ensures no_object { ¬ (AreSound (zeros 8) (marks 1 0 0)) }
    ensures too_far { ¬ (IsSound 1 0 0 0 (2 ^ 24 + 1)) }
    ensures no_member { ¬ (AreSound (zeros 8) (marks 0 1 0)) }
    ensures no_record { ¬ (AreSound (zeros 8) (marks 0 0 1)) }
    ensures none { AreSound (zeros 8) (marks 0 0 0) }
{}

/// Over a marker's link no byte is free. Over a handle's link four bytes are not, and their word is
/// not.
pub fn free_bytes()
    ensures marker { ¬ (IsFree (seen (present ++ zeros 8) (16 ∷ 0 ∷ []) (zeros 4)) 7) }
    ensures behind { IsFreeWord (seen (present ++ zeros 8) (16 ∷ 0 ∷ []) (zeros 4)) 8 }
    ensures before { IsFree (seen present (0 ∷ []) (0 ∷ 4 ∷ [])) 3 }
    ensures handle { ¬ (IsFree (seen present (0 ∷ []) (0 ∷ 4 ∷ [])) 4) }
    ensures word { ¬ (IsFreeWord (seen present (0 ∷ []) (0 ∷ 4 ∷ [])) 0) }
{}

/// A marker's link is one place, and an envelope's is one, whether its member lies out of line or in
/// it. A handle in the first half of an envelope is one more. Two handles are two.
#[tactic(auto, unfolding(crate::specs::Links::places))]
pub fn places_of_a_word()
    ensures marker { places (seen present (16 ∷ []) (0 ∷ 0 ∷ [])) ≡ 1 }
    ensures out_of_line { places (seen (zeros 8) (56 ∷ []) (0 ∷ 4 ∷ [])) ≡ 1 }
    ensures member { places (seen (zeros 8) (0 ∷ []) (0 ∷ 1 ∷ [])) ≡ 1 }
    ensures handle_in_envelope { places (seen (zeros 8) (0 ∷ []) (4 ∷ 4 ∷ [])) ≡ 2 }
    ensures lower { places (seen (zeros 8) (0 ∷ []) (4 ∷ 0 ∷ [])) ≡ 1 }
    ensures upper { places (seen (zeros 8) (0 ∷ []) (0 ∷ 4 ∷ [])) ≡ 1 }
    ensures free { places (seen (zeros 8) (0 ∷ []) (0 ∷ 0 ∷ [])) ≡ 0 }
    ensures words { places (seen (zeros 16) (16 ∷ 0 ∷ []) (0 ∷ 0 ∷ 4 ∷ 5 ∷ [])) ≡ 3 }
    ensures not_two { ¬ (places (seen (zeros 8) (56 ∷ []) (0 ∷ 4 ∷ [])) ≡ 2) }
{}
