//! Worked facts: the lines of records, computed by the definitions.
ghost use Rattle.std.specs.Prelude.{◌≡◌, ◌++◌, codes};
ghost use Rattle.fidl_table_format.specs.Section.{header_of};
ghost use Rattle.fidl_table_format.specs.Samples.{one_two_four, one_two_and_four};
ghost use Rattle.fidl_text.specs.Listing.{table_text, row_line, value_line, kind_word};
ghost use Rattle.fidl_text.specs.Listing.{openness_word};
ghost use Rattle.fidl_text.specs.Words.{ordinal_word, payload_word, name_word};
ghost use Rattle.fidl_text.specs.Samples.{point};

/// The lines of `examples/point.fct`.
pub fn the_point_is_listed()
    ensures { table_text point ≡ codes "entry 0 struct 0 size 8 align 4 nest 1 first 0 count 2"
        ++ codes " bound 0 subtype 0 rights 0 Point\n"
        ++ codes "entry 1 uint32 0 size 4 align 4 nest 0 first 0 count 0"
        ++ codes " bound 0 subtype 0 rights 0 -\n"
        ++ codes "row 0 0 1 x\n" ++ codes "row 1 4 1 y\n" ++ codes "root Point 0\n" }
{}

/// The line of a row has its name, and its key before its entry.
pub fn rows_have_names()
    ensures is { row_line point (header_of point) 1 ≡ codes "row 1 4 1 y\n" }
    ensures unnamed { ¬ (row_line point (header_of point) 1 ≡ codes "row 1 4 1 -\n") }
    ensures turned { ¬ (row_line point (header_of point) 1 ≡ codes "row 1 1 4 y\n") }
{}

/// The line of a record of values has one number, and in version 2 both ends.
pub fn values_have_their_ends()
    ensures one { let t = one_two_four 1 in value_line t (header_of t) 1 ≡ codes "value 1 2\n" }
    ensures two { let t = one_two_and_four 2 4 in
        value_line t (header_of t) 0 ≡ codes "value 0 1 2\n" }
    ensures alone { let t = one_two_and_four 2 4 in
        value_line t (header_of t) 1 ≡ codes "value 1 4 4\n" }
{}

/// Words of the other records.
pub fn words_of_records()
    ensures kind { kind_word 19 ≡ codes "handle" }
    ensures openness { openness_word 1 ≡ codes "ajar" }
    ensures ordinal { ordinal_word 81985529216486895 ≡ codes "0123456789abcdef" }
    ensures payload { payload_word 4294967295 ≡ codes "-" }
    ensures entry { payload_word 0 ≡ codes "0" }
    ensures unnamed { name_word (codes "") ≡ codes "-" }
{}
