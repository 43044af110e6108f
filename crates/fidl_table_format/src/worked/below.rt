//! Worked facts of vectors and boxes: entries and tables that keep the rules, and some that break
//! one.
ghost use Rattle.fidl_table_format.specs.Section.{header_of, entry_at};
ghost use Rattle.fidl_table_format.specs.Entry.{HasShape, HasChildren, HasSize, entry_figure};
ghost use Rattle.fidl_table_format.specs.WellFormed.{WellFormed};
ghost use Rattle.fidl_table_format.specs.Samples.{an_entry, number_and_vector, number_and_box};
ghost use Rattle.fidl_table_format.specs.Samples.{struct_and_box};

/// A vector may be optional, and its bound has 32 bits; it uses nothing else but its elements'
/// entry.
pub fn vectors()
    ensures plain { HasShape (an_entry 13 0 3 0 5 0) }
    ensures optional { HasShape (an_entry 13 1 3 0 4294967295 0) }
    ensures strict { ¬ HasShape (an_entry 13 2 3 0 5 0) }
    ensures wide { ¬ HasShape (an_entry 13 0 3 0 4294967296 0) }
    ensures counted { ¬ HasShape (an_entry 13 0 3 1 5 0) }
    ensures of_a_subtype { ¬ HasShape (an_entry 13 0 3 0 5 6) }
    ensures of_a_name { ¬ HasShape (record (an_entry 13 0 3 0 5 0) { name_length = 1 }) }
{}

/// A box has no flag, no bound and no name; it uses only its content's entry.
pub fn boxes()
    ensures plain { HasShape (an_entry 15 0 3 0 0 0) }
    ensures optional { ¬ HasShape (an_entry 15 1 3 0 0 0) }
    ensures counted { ¬ HasShape (an_entry 15 0 3 1 0 0) }
    ensures bounded { ¬ HasShape (an_entry 15 0 3 0 1 0) }
    ensures of_a_name { ¬ HasShape (record (an_entry 15 0 3 0 0 0) { name_length = 1 }) }
{}

/// A vector's elements have an entry, which may be that of the vector itself.
pub fn elements_are_entries()
    ensures of_numbers { let t = number_and_vector 0 in HasChildren t (header_of t) (entry_at t 1) }
    ensures of_vectors { let t = number_and_vector 1 in HasChildren t (header_of t) (entry_at t 1) }
    ensures past { let t = number_and_vector 2 in ¬ HasChildren t (header_of t) (entry_at t 1) }
{}

/// What stands in a box is a struct.
pub fn contents_are_structs()
    ensures of_a_struct { let t = struct_and_box 0 0 in HasChildren t (header_of t) (entry_at t 1) }
    ensures of_a_box { let t = struct_and_box 0 1 in ¬ HasChildren t (header_of t) (entry_at t 1) }
    ensures of_a_number { let t = number_and_box 0 in ¬ HasChildren t (header_of t) (entry_at t 1) }
    ensures past { let t = number_and_box 2 in ¬ HasChildren t (header_of t) (entry_at t 1) }
{}

/// A vector has 16 bytes, and a box 8.
pub fn sizes()
    ensures of_a_vector { let t = number_and_vector 0 in
        HasSize (entry_figure t (header_of t) (entry_at t 1)) (entry_at t 1) }
    ensures of_a_box { let t = struct_and_box 0 0 in
        HasSize (entry_figure t (header_of t) (entry_at t 1)) (entry_at t 1) }
    ensures shorter { let t = number_and_vector 0 in
        ¬ HasSize (entry_figure t (header_of t) (entry_at t 1)) (record (entry_at t 1) { size = 8 }) }
    ensures longer { let t = struct_and_box 0 0 in
        ¬ HasSize (entry_figure t (header_of t) (entry_at t 1)) (record (entry_at t 1) { size = 16 }) }
{}

/// A struct may hold itself in a box, and a vector vectors of its own type.
pub fn tables_with_vectors_and_boxes()
    ensures vector { WellFormed (number_and_vector 0) }
    ensures of_itself { WellFormed (number_and_vector 1) }
    ensures a_box { WellFormed (struct_and_box 0 0) }
    ensures no_entry { ¬ WellFormed (number_and_vector 2) }
    ensures no_struct { ¬ WellFormed (struct_and_box 0 1) }
    ensures no_offset { ¬ WellFormed (struct_and_box 8 0) }
{}
