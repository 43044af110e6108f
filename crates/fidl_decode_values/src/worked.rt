//! Worked facts: what a decoder can read next, and what is passed over, computed by the
//! definitions.
ghost use Rattle.std.specs.Prelude.{◌∷◌, []};
ghost use Rattle.fidl_wire.specs.Encoding.{zeros};
ghost use Rattle.fidl_table_format.specs.Samples.{number_and_vector};
ghost use Rattle.fidl_decode_model.specs.Faults.{message_of};
ghost use Rattle.fidl_decode_model.specs.Samples.{unlinked, linked_at_8, envelope_at};
ghost use Rattle.fidl_decode_values.specs.Body.{IsFreeOf, IsPassing};
ghost use Rattle.fidl_decode_values.specs.Ready.{PlaceReady, ValueReady, FrameReady, IsApart};
ghost use Rattle.fidl_decode_values.specs.Ready.{AreClear, StackReady};
ghost use Rattle.fidl_decode_values.specs.declared.body.Passing.TheVariants.{Inside, Below};

/// Eight bytes at 0 can be read, at multiples of 8. They cannot at 8, where a link stands, nor
/// behind the objects that came, nor at an odd place.
pub fn places_that_can_be_read()
    ensures front { PlaceReady (message_of (zeros 24) []) (linked_at_8 16) 0 8 8 }
    ensures linked { ¬ (PlaceReady (message_of (zeros 24) []) (linked_at_8 16) 8 8 8) }
    ensures later { ¬ (PlaceReady (message_of (zeros 24) []) (unlinked 16) 16 8 8) }
    ensures uneven { ¬ (PlaceReady (message_of (zeros 24) []) (unlinked 16) 4 8 8) }
{}

/// A uint8 can be read at any byte that came, and a vector at multiples of 8 alone.
pub fn values_that_can_be_read()
    ensures byte { ValueReady (number_and_vector 0) (message_of (zeros 24) []) (unlinked 16) 0 3 }
    ensures later { ¬ (ValueReady (number_and_vector 0) (message_of (zeros 24) []) (unlinked 16)
        0 16) }
    ensures vector { ValueReady (number_and_vector 0) (message_of (zeros 24) []) (unlinked 16) 1 0 }
    ensures uneven { ¬ (ValueReady (number_and_vector 0) (message_of (zeros 24) []) (unlinked 16)
        1 4) }
{}

/// An envelope can be read where no link stands and no other frame reads.
pub fn frames_that_can_be_read()
    ensures clear { FrameReady [] (message_of (zeros 24) []) (unlinked 16) (envelope_at 8 0) }
    ensures linked { ¬ (FrameReady [] (message_of (zeros 24) []) (linked_at_8 16)
        (envelope_at 8 0)) }
    ensures apart { IsApart (envelope_at 0 0) (envelope_at 8 0 ∷ []) }
    ensures shared { ¬ (IsApart (envelope_at 8 0) (envelope_at 0 0 ∷ envelope_at 8 0 ∷ [])) }
{}

/// Two envelopes behind one another can be read, and one of them twice cannot.
pub fn stacks_that_can_be_read()
    ensures both { AreClear [] (unlinked 16) (envelope_at 0 0 ∷ envelope_at 8 0 ∷ []) }
    ensures twice { ¬ (AreClear [] (unlinked 16) (envelope_at 8 0 ∷ envelope_at 8 0 ∷ [])) }
    ensures linked { ¬ (AreClear [] (linked_at_8 16) (envelope_at 0 0 ∷ envelope_at 8 0 ∷ [])) }
    ensures stack { StackReady [] (message_of (zeros 24) []) (unlinked 16) (envelope_at 8 0 ∷ []) }
    ensures ahead { ¬ (StackReady [] (message_of (zeros 24) []) (linked_at_8 8) []) }
{}

/// A uint8 has one byte, of which any is a value: no number of four or eight is passed over so.
pub fn numbers_that_are_passed()
    ensures byte { IsFreeOf (number_and_vector 0) 0 1 }
    ensures longer { ¬ (IsFreeOf (number_and_vector 0) 0 4) }
    ensures vector { ¬ (IsFreeOf (number_and_vector 0) 1 16) }
    ensures inside { ¬ (IsPassing (number_and_vector 0) 0 Inside) }
    ensures below { ¬ (IsPassing (number_and_vector 0) 0 Below) }
{}
