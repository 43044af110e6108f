//! Worked facts of bits and enums: entries and tables that keep the rules, and some that break one.
ghost use Rattle.std.specs.Prelude.{◌≡◌, ◌∷◌, ◌++◌, replicate};
ghost use Rattle.fidl_table_format.specs.Section.{header_of, entry_at};
ghost use Rattle.fidl_table_format.specs.Uses.{uses_values};
ghost use Rattle.fidl_table_format.specs.Entry.{HasShape, HasChildren, Follows, values_before, IsSorted};
ghost use Rattle.fidl_table_format.specs.Samples.{an_entry, value_bytes, all_ones, two_values};
ghost use Rattle.fidl_table_format.specs.Samples.{three_enums};

/// Strict bits have a mask that fits their underlying type.
pub fn strict_bits()
    ensures none { HasShape (an_entry 10 2 0 0 0 6) }
    ensures greatest { HasShape (an_entry 10 2 0 0 255 6) }
    ensures widest { HasShape (an_entry 10 2 0 0 18446744073709551615 9) }
    ensures over { ¬ HasShape (an_entry 10 2 0 0 256 6) }
{}

/// Flexible bits have no mask.
pub fn flexible_bits()
    ensures none { HasShape (an_entry 10 0 0 0 0 6) }
    ensures one { ¬ HasShape (an_entry 10 0 0 0 1 6) }
{}

/// The underlying type of bits is a number without a sign.
pub fn the_type_of_bits()
    ensures signed { ¬ HasShape (an_entry 10 2 0 0 1 2) }
    ensures of_bool { ¬ HasShape (an_entry 10 2 0 0 1 1) }
    ensures of_bits { ¬ HasShape (an_entry 10 2 0 0 1 10) }
    ensures of_no_kind { ¬ HasShape (an_entry 10 2 0 0 1 262) }
{}

/// A strict enum has values, 65,535 at the most.
pub fn strict_enums()
    ensures one { HasShape (an_entry 11 2 0 1 0 2) }
    ensures most { HasShape (an_entry 11 2 0 65535 0 9) }
    ensures none { ¬ HasShape (an_entry 11 2 0 0 0 2) }
    ensures more { ¬ HasShape (an_entry 11 2 0 65536 0 9) }
{}

/// A flexible enum has no values, and still a first one.
pub fn flexible_enums()
    ensures none { HasShape (an_entry 11 0 7 0 0 9) }
    ensures one { ¬ HasShape (an_entry 11 0 7 1 0 9) }
{}

/// The underlying type of an enum is a number.
pub fn the_type_of_an_enum()
    ensures of_bool { ¬ HasShape (an_entry 11 2 0 1 0 1) }
    ensures of_bits { ¬ HasShape (an_entry 11 2 0 1 0 10) }
    ensures of_no_kind { ¬ HasShape (an_entry 11 2 0 1 0 0) }
{}

/// Bits and enums can be strict and not optional, and a number neither.
pub fn flags()
    ensures optional_bits { ¬ HasShape (an_entry 10 1 0 0 0 6) }
    ensures optional_enum { ¬ HasShape (an_entry 11 3 0 1 0 2) }
    ensures strict_number { ¬ HasShape (an_entry 6 2 0 0 0 0) }
{}

/// Bits and enums have a name; numbers have none.
pub fn names()
    ensures of_bits { HasShape (record (an_entry 10 0 0 0 0 6) { name_length = 1 }) }
    ensures of_an_enum { HasShape (record (an_entry 11 0 0 0 0 6) { name_length = 1 }) }
    ensures of_a_number { ¬ HasShape (record (an_entry 6 0 0 0 0 0) { name_length = 1 }) }
{}

/// The numbers of a strict enum rise in the order of its underlying type: all ones are -1 in int64,
/// and the greatest in uint64.
pub fn values_rise()
    ensures signed { let t = two_values 8 5 all_ones (value_bytes 1) in
        IsSorted t (header_of t) (entry_at t 0) }
    ensures unsigned { let t = two_values 8 9 (value_bytes 1) all_ones in
        IsSorted t (header_of t) (entry_at t 0) }
    ensures falling { let t = two_values 8 5 (value_bytes 1) all_ones in
        ¬ IsSorted t (header_of t) (entry_at t 0) }
    ensures falling_unsigned { let t = two_values 8 9 all_ones (value_bytes 1) in
        ¬ IsSorted t (header_of t) (entry_at t 0) }
    ensures twice { let t = two_values 8 9 all_ones all_ones in
        ¬ IsSorted t (header_of t) (entry_at t 0) }
{}

/// The numbers of a strict enum fit its underlying type.
pub fn values_fit()
    ensures ends { let t = two_values 1 2 (128 ∷ replicate 7 255) (value_bytes 127) in
        IsSorted t (header_of t) (entry_at t 0) }
    ensures too_great { let t = two_values 1 2 (value_bytes 127) (value_bytes 128) in
        ¬ IsSorted t (header_of t) (entry_at t 0) }
    ensures too_small { let t = two_values 1 2 (127 ∷ replicate 7 255) (value_bytes 1) in
        ¬ IsSorted t (header_of t) (entry_at t 0) }
    ensures too_wide { let t = two_values 1 6 (value_bytes 1) (0 ∷ 1 ∷ replicate 6 0) in
        ¬ IsSorted t (header_of t) (entry_at t 0) }
{}

/// The values of enums follow one another, and a flexible enum has a place among them.
pub fn values_follow()
    ensures before_none { values_before (three_enums 2 3) 0 ≡ 0 }
    ensures before_the_second { values_before (three_enums 2 3) 1 ≡ 2 }
    ensures before_the_third { values_before (three_enums 2 3) 2 ≡ 2 }
    ensures all { values_before (three_enums 2 3) 3 ≡ 3 }
    ensures flexible { let t = three_enums 2 3 in
        Follows uses_values (values_before t 1) (entry_at t 1) }
    ensures flexible_elsewhere { let t = three_enums 0 3 in
        ¬ Follows uses_values (values_before t 1) (entry_at t 1) }
{}

/// An enum's values lie in their section.
pub fn values_lie_in_their_section()
    ensures within { let t = three_enums 2 3 in HasChildren t (header_of t) (entry_at t 2) }
    ensures past { let t = three_enums 2 2 in ¬ HasChildren t (header_of t) (entry_at t 2) }
{}
