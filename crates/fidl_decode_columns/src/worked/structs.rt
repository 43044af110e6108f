//! Worked facts: structs without members, whose bytes are to be zeros.
ghost use Rattle.std.specs.Prelude.{◌≡◌, ◌∷◌, []};
ghost use Rattle.fidl_decode_model.specs.declared.frame.Remaining.TheVariants.{Rows};
ghost use Rattle.fidl_decode_model.specs.declared.fault.DecodeFault.TheVariants as faults;
ghost use Rattle.fidl_decode_model.specs.Faults.{message_of};
ghost use Rattle.fidl_decode_columns.specs.Samples.{empty_structs};
ghost use Rattle.fidl_decode_columns.specs.Columns.{struct_at, StructsFine, IsReadTo, IsRead};
ghost use Rattle.fidl_decode_columns.specs.Columns.{IsBroken};

/// Structs of four bytes from 3 on, at the depth 7: the struct 2 begins at 11.
pub fn the_frame_of_a_struct()
    ensures { struct_at (empty_structs 4 3 3 7) 2
        ≡ record {
          left = Rows 0 0;
          base = 11;
          done = 0;
          size = 4;
          nest = 1;
          depth = 7;
          in_envelope = 0;
        } }
{}

/// Two structs of one byte fit two bytes, and no three do. None at all are refused, and so is a
/// depth past the limit.
pub fn structs_that_fit()
    ensures two { StructsFine [] (0 ∷ 0 ∷ []) (empty_structs 1 2 0 0) }
    ensures three { ¬ (StructsFine [] (0 ∷ 0 ∷ []) (empty_structs 1 3 0 0)) }
    ensures none { ¬ (StructsFine [] (0 ∷ 0 ∷ []) (empty_structs 1 0 0 0)) }
    ensures deep { ¬ (StructsFine [] (0 ∷ 0 ∷ []) (empty_structs 1 2 0 99)) }
{}

/// No byte of a struct is read yet. A byte that is not zero is not passed.
pub fn how_far_a_struct_is_read()
    ensures begun { IsReadTo [] (message_of (0 ∷ 5 ∷ []) []) (empty_structs 1 2 0 0) 0 0 1 }
    ensures passed { ¬ (IsReadTo [] (message_of (0 ∷ 5 ∷ []) []) (empty_structs 1 2 0 0) 0 1 1) }
    ensures past { ¬ (IsReadTo [] (message_of (0 ∷ 5 ∷ []) []) (empty_structs 1 2 0 0) 0 2 0) }
{}

/// A struct is read to its end where its byte is zero, and not where it is 5.
pub fn a_struct_that_is_read()
    ensures zero { IsRead [] (message_of (0 ∷ 5 ∷ []) []) (empty_structs 1 2 0 0) 0 }
    ensures five { ¬ (IsRead [] (message_of (0 ∷ 5 ∷ []) []) (empty_structs 1 2 0 0) 1) }
{}

/// The struct whose byte is 5 breaks a rule, by that byte. The one before it does not.
pub fn a_struct_that_is_broken()
    ensures five { IsBroken [] (message_of (0 ∷ 5 ∷ []) []) (empty_structs 1 2 0 0) 1
        (faults.Padding 1) }
    ensures zero { ¬ (IsBroken [] (message_of (0 ∷ 5 ∷ []) []) (empty_structs 1 2 0 0) 0
        (faults.Padding 0)) }
    ensures other { ¬ (IsBroken [] (message_of (0 ∷ 5 ∷ []) []) (empty_structs 1 2 0 0) 1
        (faults.Padding 0)) }
{}
