//! Worked facts: the first of which something does not hold.
ghost use Rattle.std.specs.Prelude.{◌≡◌, ℕ, ◌<◌, Some, None};
ghost use Rattle.fidl_decode_model.specs.declared.fault.DecodeFault.{DecodeFault};
ghost use Rattle.fidl_decode_model.specs.declared.fault.DecodeFault.TheVariants as faults;
ghost use Rattle.fidl_decode_columns.specs.Samples.{bool_wrong};
ghost use Rattle.fidl_decode_columns.specs.Columns.{IsFirstNot, IsFirstWrong, right_before};
ghost use Rattle.fidl_decode_columns.specs.Columns.{first_of, Narrows};

/// Of three numbers 2 is the first that is not below 2. Of two each is.
pub fn the_first_that_does_not_hold()
    ensures found { IsFirstNot (λ k. k < 2) 3 2 }
    ensures none { IsFirstNot (λ k. k < 2) 2 2 }
    ensures earlier { ¬ (IsFirstNot (λ k. k < 2) 3 1) }
    ensures later { ¬ (IsFirstNot (λ k. k < 2) 4 3) }
    ensures past { ¬ (IsFirstNot (λ k. k < 2) 1 2) }
{}

/// Structs are right below 2, and the bool of each is at its number: of three the struct 2 is the
/// first that is wrong, by that bool, and of two none is.
pub fn the_first_that_is_wrong()
    ensures found { IsFirstWrong (λ k. k < 2) (λ k fault. fault ≡ faults.BadBool k) 3
        (Some (bool_wrong 2 2)) }
    ensures none { IsFirstWrong (λ k. k < 2) (λ k fault. fault ≡ faults.BadBool k) 2 None }
    ensures passed { ¬ (IsFirstWrong (λ k. k < 2) (λ k fault. fault ≡ faults.BadBool k) 3 None) }
    ensures past { ¬ (IsFirstWrong (λ k. k < 2) (λ k fault. fault ≡ faults.BadBool k) 2
        (Some (bool_wrong 2 2))) }
    ensures later { ¬ (IsFirstWrong (λ k. k < 2) (λ k fault. fault ≡ faults.BadBool k) 4
        (Some (bool_wrong 3 3))) }
    ensures elsewhere { ¬ (IsFirstWrong (λ k. k < 2) (λ k fault. fault ≡ faults.BadBool k) 3
        (Some (bool_wrong 2 1))) }
{}

/// Before the struct 2 there are two, and where none is wrong all five.
pub fn structs_before_the_first_that_is_wrong()
    ensures none { right_before 5 None ≡ 5 }
    ensures third { right_before 5 (Some (bool_wrong 2 2)) ≡ 2 }
{}

/// What is found takes the place of what was known.
pub fn the_first_of_two()
    ensures nothing { first_of (Some (bool_wrong 5 5)) None ≡ Some (bool_wrong 5 5) }
    ensures found { first_of (Some (bool_wrong 5 5)) (Some (bool_wrong 2 2))
        ≡ Some (bool_wrong 2 2) }
    ensures first { first_of None (Some (bool_wrong 2 2)) ≡ Some (bool_wrong 2 2) }
{}

/// Of nine structs the struct 5 was known to be wrong. A part that is right below 2 makes the
/// struct 2 the first. One that is right below 7 leaves it at 5.
pub fn a_struct_that_is_found_earlier()
    ensures earlier { Narrows (λ k. k < 2) (λ k fault. fault ≡ faults.BadBool k) 9
        (Some (bool_wrong 5 5)) (Some (bool_wrong 2 2)) }
    ensures none { Narrows (λ k. k < 7) (λ k fault. fault ≡ faults.BadBool k) 9
        (Some (bool_wrong 5 5)) (Some (bool_wrong 5 5)) }
    ensures passed { ¬ (Narrows (λ k. k < 2) (λ k fault. fault ≡ faults.BadBool k) 9
        (Some (bool_wrong 5 5)) (Some (bool_wrong 5 5))) }
    ensures forgotten { ¬ (Narrows (λ k. k < 7) (λ k fault. fault ≡ faults.BadBool k) 9
        (Some (bool_wrong 5 5)) None) }
{}
