//! Worked frontiers: at which bytes links stand, and what can still be read, computed by the
//! definitions.
ghost use Rattle.std.specs.Prelude.{[], ◌∷◌, Some, None};
ghost use Rattle.fidl_wire.specs.Term.{uint64};
ghost use Rattle.fidl_wire.specs.Term as ty;
ghost use Rattle.fidl_wire.specs.Figure.{no_declarations};
ghost use Rattle.fidl_wire.specs.Encoding.{zeros};
ghost use Rattle.fidl_decode_model.specs.Faults.{message_of};
ghost use Rattle.fidl_decode_model.specs.Frontier.{IsFree, AreFree, IsOutside, Stays, IsAhead};
ghost use Rattle.fidl_decode_model.specs.Frontier.{IsEven, RowsEven, CanRead, IsClear, IsIn};
ghost use Rattle.fidl_decode_model.specs.Frontier.{AreApart, Moves};
ghost use Rattle.fidl_decode_model.specs.Samples.{unlinked, linked_at_8, envelope_at};
ghost use Rattle.fidl_decode_model.specs.Samples.{numbers, number_at};

/// The marker at 8 is linked. No link stands at the byte before it, and one at its first byte and
/// at its last.
pub fn a_linked_marker()
    ensures before { IsFree (linked_at_8 16) 7 }
    ensures first { ¬ (IsFree (linked_at_8 16) 8) }
    ensures last { ¬ (IsFree (linked_at_8 16) 15) }
    ensures behind { IsFree (linked_at_8 16) 16 }
{}

/// So the first eight bytes are free, and the first nine are not.
pub fn the_bytes_before_it()
    ensures eight { AreFree (linked_at_8 16) 0 8 }
    ensures nine { ¬ (AreFree (linked_at_8 16) 0 9) }
{}

/// Eight bytes at 8 are all among those up to 16, and not all among those up to 12.
pub fn cells_and_ranges()
    ensures all { ¬ (IsOutside 8 8 8 16) }
    ensures some { IsOutside 8 8 0 12 }
{}

/// Linking the marker at 8 changes its own cell, and no other.
pub fn cells_that_stay()
    ensures own { Stays 8 16 16 16 (unlinked 16) (linked_at_8 16) }
    ensures other { ¬ (Stays 0 8 16 16 (unlinked 16) (linked_at_8 16)) }
{}

/// The next object can begin at 16, behind that marker. It cannot at 12, nor at the marker.
pub fn where_the_next_object_begins()
    ensures behind { IsAhead (message_of (zeros 24) []) (linked_at_8 16) }
    ensures uneven { ¬ (IsAhead (message_of (zeros 24) []) (linked_at_8 12)) }
    ensures linked { ¬ (IsAhead (message_of (zeros 24) []) (linked_at_8 8)) }
{}

/// A uint64 stands at a multiple of 8, as a member of a struct too.
pub fn places_of_a_number()
    ensures even { IsEven no_declarations (ty.number uint64) 16 }
    ensures uneven { ¬ (IsEven no_declarations (ty.number uint64) 12) }
    ensures member { RowsEven numbers 8 (number_at 0 ∷ number_at 8 ∷ []) }
    ensures other { ¬ (RowsEven numbers 8 (number_at 0 ∷ number_at 4 ∷ [])) }
{}

/// Bytes can be read before the next object, where no link stands.
pub fn bytes_that_can_be_read()
    ensures front { CanRead (linked_at_8 16) 0 8 }
    ensures linked { ¬ (CanRead (linked_at_8 16) 0 16) }
    ensures later { ¬ (CanRead (unlinked 16) 8 16) }
{}

/// An envelope can be read at a multiple of 8, where no link stands, before the next object.
pub fn frames_that_are_clear()
    ensures clear { IsClear [] (unlinked 16) (envelope_at 8 0) }
    ensures linked { ¬ (IsClear [] (linked_at_8 16) (envelope_at 8 0)) }
    ensures later { ¬ (IsClear [] (unlinked 8) (envelope_at 8 0)) }
    ensures uneven { ¬ (IsClear [] (unlinked 16) (envelope_at 4 0)) }
{}

/// The envelope at 8 lies in the first sixteen bytes, or in the objects from 8 up to 16, and not in
/// the first twelve. It shares bytes with itself, and none with the envelope at 0.
pub fn frames_and_ranges()
    ensures part { IsIn 0 16 16 16 (envelope_at 8 0) }
    ensures object { IsIn 0 8 8 16 (envelope_at 8 0) }
    ensures outside { ¬ (IsIn 0 12 12 12 (envelope_at 8 0)) }
    ensures apart { AreApart (envelope_at 0 0) (envelope_at 8 0) }
    ensures itself { ¬ (AreApart (envelope_at 8 0) (envelope_at 8 0)) }
{}

/// Where the first eight bytes are read, no link is left behind them, nor a frame elsewhere.
pub fn what_is_read_and_left()
    ensures nothing { Moves [] (message_of (zeros 16) []) 0 8 (unlinked 16) (unlinked 16) None
        None }
    ensures linked { ¬ (Moves [] (message_of (zeros 16) []) 0 8 (unlinked 16) (linked_at_8 16) None
        None) }
    ensures elsewhere { ¬ (Moves [] (message_of (zeros 16) []) 0 8 (unlinked 16) (unlinked 16)
        (Some (envelope_at 8 0)) None) }
{}
