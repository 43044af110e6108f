//! Worked facts: numbers that are values and some that are not, and which struct is the first that
//! is wrong, computed by the definitions.
ghost use Rattle.std.specs.Prelude.{◌≡◌, ℕ, ◌<◌, [], ◌∷◌, ◌++◌, true, false, replicate};
ghost use Rattle.fidl_wire.specs.Term.{int8, uint8};
ghost use Rattle.fidl_wire.specs.Encoding.{zeros};
ghost use Rattle.fidl_table_format.specs.declared.kind.EntryKind.TheVariants as kinds;
ghost use Rattle.fidl_table_format.specs.Samples.{an_entry, number_and_vector, three_enums};
ghost use Rattle.fidl_table_format.specs.Section.{entry_at};
ghost use Rattle.fidl_decode_columns.specs.Samples.{column_at, window_of, box_and_number};
ghost use Rattle.fidl_decode_columns.specs.Columns.{has_numbers, IsNumericAt, AreNumbers, IsGoodAt};
ghost use Rattle.fidl_links.specs.Samples.{seen};
ghost use Rattle.fidl_decode_columns.specs.Columns.{HasNoSign, AreValues, place_of, HasRoom};
ghost use Rattle.fidl_decode_columns.specs.Columns.{bits_at, IsWindow};

pub mod first;
pub mod structs;

/// Values of bools, bits, enums and integers are numbers; texts and structs are none.
pub fn kinds_of_numbers()
    ensures flag { has_numbers kinds.Bool ≡ true }
    ensures mask { has_numbers kinds.Bits ≡ true }
    ensures value { has_numbers kinds.Enum ≡ true }
    ensures integer { has_numbers kinds.Int64 ≡ true }
    ensures text { has_numbers kinds.String ≡ false }
    ensures holder { has_numbers kinds.Struct ≡ false }
{}

/// A table of a uint8 and a vector: the first is of numbers, and the second is not. Nor is an entry
/// of no kind.
pub fn entries_of_numbers()
    ensures number { IsNumericAt (number_and_vector 0) 0 }
    ensures vector { ¬ (IsNumericAt (number_and_vector 0) 1) }
    ensures unknown { ¬ (IsNumericAt [] 0) }
{}

/// A row of a box, and behind it one of a number.
pub fn rows_of_numbers()
    ensures second { AreNumbers box_and_number 1 1 }
    ensures first { ¬ (AreNumbers box_and_number 0 1) }
    ensures none { AreNumbers box_and_number 0 0 }
{}

/// A bool is 0 or 1. Bits of the mask 5 can be 4, and 2 only where they are not strict. An enum of
/// int8 with the values -1 and 1 can be -1, and not 2. A uint8 can be any number.
pub fn numbers_that_are_values()
    ensures flag { IsGoodAt [] (2 ∷ 1 ∷ []) (an_entry 1 0 0 0 0 0) kinds.Bool 1 }
    ensures no_flag { ¬ (IsGoodAt [] (2 ∷ 1 ∷ []) (an_entry 1 0 0 0 0 0) kinds.Bool 0) }
    ensures mask { IsGoodAt [] (2 ∷ 4 ∷ []) (an_entry 10 2 0 0 5 6) kinds.Bits 1 }
    ensures no_mask { ¬ (IsGoodAt [] (2 ∷ 4 ∷ []) (an_entry 10 2 0 0 5 6) kinds.Bits 0) }
    ensures flexible { IsGoodAt [] (2 ∷ 4 ∷ []) (an_entry 10 0 0 0 5 6) kinds.Bits 0 }
    ensures value { let t = three_enums 2 3 in
        IsGoodAt t (255 ∷ 2 ∷ []) (entry_at t 0) kinds.Enum 0 }
    ensures no_value { let t = three_enums 2 3 in
        ¬ (IsGoodAt t (255 ∷ 2 ∷ []) (entry_at t 0) kinds.Enum 1) }
    ensures integer { IsGoodAt [] (2 ∷ []) (an_entry 6 0 0 0 0 0) kinds.Uint8 0 }
{}

/// All bits set are -1 as int8.
pub fn types_without_a_sign()
    ensures unsigned { HasNoSign uint8 }
    ensures signed { ¬ (HasNoSign int8) }
{}

/// Of the enum with the value 7, the number 7 can be noted, and 0 cannot. What is false notes
/// nothing.
pub fn numbers_that_are_noted()
    ensures seven { AreValues (three_enums 2 3) 2 (replicate 7 false ++ true ∷ []) }
    ensures zero { ¬ (AreValues (three_enums 2 3) 2 (true ∷ [])) }
    ensures nothing { AreValues (three_enums 2 3) 2 (false ∷ []) }
{}

/// Structs of eight bytes from 3 on, and a member two bytes behind the start of each.
pub fn places_of_a_member()
    ensures first { place_of (column_at 3 2) 0 ≡ 5 }
    ensures third { place_of (column_at 3 2) 2 ≡ 21 }
{}

/// Sixteen bytes in which no link stands have two structs of eight bytes, and no third; nor have
/// they two behind the first byte. Behind four bytes of a struct there are four more, and not five.
/// Over a link nothing can be read.
pub fn members_that_have_room()
    ensures two { HasRoom (seen (zeros 16) (zeros 2) (zeros 4)) (column_at 0 4) 4 2 }
    ensures three { ¬ (HasRoom (seen (zeros 16) (zeros 2) (zeros 4)) (column_at 0 4) 4 3) }
    ensures later { ¬ (HasRoom (seen (zeros 16) (zeros 2) (zeros 4)) (column_at 1 4) 4 2) }
    ensures wider { ¬ (HasRoom (seen (zeros 16) (zeros 2) (zeros 4)) (column_at 0 4) 5 2) }
    ensures object { ¬ (HasRoom (seen (zeros 16) (0 ∷ 8 ∷ []) (zeros 4)) (column_at 0 4) 4 2) }
    ensures record { let m = seen (zeros 16) (zeros 2) (0 ∷ 0 ∷ 0 ∷ 1 ∷ []) in
        ¬ (HasRoom m (column_at 0 4) 4 2) }
    ensures before { HasRoom (seen (zeros 16) (0 ∷ 8 ∷ []) (zeros 4)) (column_at 0 4) 4 1 }
{}

/// Bytes stand for a number, the lowest first; none stand for 0.
pub fn bytes_as_a_number()
    ensures two { bits_at (9 ∷ 2 ∷ 1 ∷ []) 1 2 ≡ 258 }
    ensures none { bits_at (9 ∷ []) 0 0 ≡ 0 }
{}

/// Of two structs of one byte, 1 and 2, the bits 3 are seen. They are not seen where only those of
/// the first are gathered, but by who looks at no more than the first. What stands behind the
/// structs is not gathered.
pub fn bits_that_are_seen()
    ensures both { IsWindow (1 ∷ 2 ∷ 4 ∷ []) 0 1 (window_of 0 3 2) }
    ensures missed { ¬ (IsWindow (1 ∷ 2 ∷ 4 ∷ []) 0 1 (window_of 0 1 2)) }
    ensures first { IsWindow (1 ∷ 2 ∷ 4 ∷ []) 0 1 (window_of 0 1 1) }
{}
