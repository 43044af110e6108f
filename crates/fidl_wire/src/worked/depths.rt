//! The depth of values of each kind.
ghost use Rattle.std.specs.Prelude.{◌≡◌, [], codes, true, false, pos};
ghost use Rattle.fidl_wire.specs.declared.handle.HandleInfo.{HandleInfo};
ghost use Rattle.fidl_wire.specs.Value.{absent, bool, empty, fields, handle, known, list, member};
ghost use Rattle.fidl_wire.specs.Value.{none, number, table, text, union, unknown, value};
ghost use Rattle.fidl_wire.specs.Term.{no_fields, field, no_rows, row, uint8, uint32, uint64};
ghost use Rattle.fidl_wire.specs.Term as ty;
ghost use Rattle.fidl_wire.specs.Figure.{no_declarations};
ghost use Rattle.fidl_wire.specs.Samples.{byte_struct, declared_text, number_union};
ghost use Rattle.fidl_wire.specs.Encoding.{zeros};
ghost use Rattle.fidl_wire.specs.Depth.{Depth};

/// Bools, numbers, handles and all that is absent count nothing.
pub fn depths_of_leaves()
    ensures of_a_bool { Depth no_declarations ty.bool (bool true) ≡ 0 }
    ensures of_a_number { Depth no_declarations (ty.number uint64) (number (pos 1)) ≡ 0 }
    ensures of_a_handle { let h : HandleInfo = record { id = 7; object_type = 3; rights = 0 } in
        Depth no_declarations (ty.handle false 0 0x80000000) (handle h) ≡ 0 }
    ensures of_an_absent_string { Depth no_declarations (ty.string true 2) absent ≡ 0 }
    ensures of_an_absent_vector { Depth no_declarations (ty.vector true 2 ty.bool) absent ≡ 0 }
    ensures of_an_absent_box { Depth no_declarations (ty.box (ty.struct no_fields)) absent ≡ 0 }
{}

/// A string counts one, an empty one too.
pub fn depths_of_strings()
    ensures full { Depth no_declarations (ty.string false 2) (text (codes "hi")) ≡ 1 }
    ensures empty { Depth no_declarations (ty.string false 2) (text []) ≡ 1 }
{}

/// A vector counts one more than the deepest of its elements, an empty one too.
pub fn depths_of_vectors()
    ensures empty { Depth no_declarations (ty.vector false 2 (ty.string false 2)) (list none) ≡ 1 }
    ensures of_numbers { Depth no_declarations (ty.vector false 2 (ty.number uint8))
        (list (value (number (pos 1)) none)) ≡ 1 }
    ensures of_strings { Depth no_declarations (ty.vector false 2 (ty.string false 2))
        (list (value (text []) none)) ≡ 2 }
    ensures deepest_first { Depth no_declarations
        (ty.vector false 2 (ty.vector false 2 (ty.string false 2)))
        (list (value (list (value (text []) none)) (value (list none) none))) ≡ 3 }
    ensures deepest_last { Depth no_declarations
        (ty.vector false 2 (ty.vector false 2 (ty.string false 2)))
        (list (value (list none) (value (list (value (text []) none)) none))) ≡ 3 }
{}

/// An array counts what the deepest of its elements counts.
pub fn depths_of_arrays()
    ensures of_numbers { Depth no_declarations (ty.array (ty.number uint8) 1)
        (list (value (number (pos 1)) none)) ≡ 0 }
    ensures of_strings { Depth no_declarations (ty.array (ty.string false 2) 1)
        (list (value (text []) none)) ≡ 1 }
{}

/// A struct counts what the deepest of its members counts.
pub fn depths_of_structs()
    ensures empty { Depth no_declarations (ty.struct no_fields) (fields none) ≡ 0 }
    ensures of_a_number { Depth no_declarations byte_struct (fields (value (number (pos 1)) none))
        ≡ 0 }
    ensures deepest_first { Depth no_declarations
        (ty.struct (field (codes "s") (ty.string false 2)
        (field (codes "a") (ty.number uint8) no_fields)))
        (fields (value (text []) (value (number (pos 1)) none))) ≡ 1 }
    ensures deepest_last { Depth no_declarations
        (ty.struct (field (codes "a") (ty.number uint8)
        (field (codes "s") (ty.string false 2) no_fields)))
        (fields (value (number (pos 1)) (value (text []) none))) ≡ 1 }
{}

/// A box counts one more than its struct.
pub fn depths_of_boxes()
    ensures empty { Depth no_declarations (ty.box (ty.struct no_fields)) (fields none) ≡ 1 }
    ensures of_a_string { Depth no_declarations
        (ty.box (ty.struct (field (codes "s") (ty.string false 2) no_fields)))
        (fields (value (text []) none)) ≡ 2 }
{}

/// A table's envelopes count one, a member in its envelope nothing more, and a member out of line
/// one more than its value.
pub fn depths_of_tables()
    ensures without_envelopes { Depth no_declarations (ty.table no_rows) (table 0 empty) ≡ 1 }
    ensures in_the_envelope { Depth no_declarations
        (ty.table (row 1 (codes "n") (ty.number uint32) no_rows))
        (table 1 (member 1 (known (number (pos 1))) empty)) ≡ 1 }
    ensures out_of_line { Depth no_declarations
        (ty.table (row 1 (codes "n") (ty.number uint64) no_rows))
        (table 1 (member 1 (known (number (pos 1))) empty)) ≡ 2 }
    ensures of_a_string { Depth no_declarations
        (ty.table (row 1 (codes "s") (ty.string false 2) no_rows))
        (table 1 (member 1 (known (text [])) empty)) ≡ 3 }
    ensures unknown_in_the_envelope { Depth no_declarations (ty.table no_rows)
        (table 1 (member 1 (unknown true (zeros 4) []) empty)) ≡ 1 }
    ensures unknown_out_of_line { Depth no_declarations (ty.table no_rows)
        (table 1 (member 1 (unknown false (zeros 8) []) empty)) ≡ 2 }
    ensures deepest_first { Depth no_declarations (ty.table no_rows)
        (table 2 (member 1 (unknown false (zeros 8) [])
        (member 2 (unknown true (zeros 4) []) empty))) ≡ 2 }
    ensures deepest_last { Depth no_declarations (ty.table no_rows)
        (table 2 (member 1 (unknown true (zeros 4) [])
        (member 2 (unknown false (zeros 8) []) empty))) ≡ 2 }
{}

/// A union itself counts nothing: its member counts as a table's does.
pub fn depths_of_unions()
    ensures in_the_envelope { Depth no_declarations number_union (union 1 (known (number (pos 1))))
        ≡ 0 }
    ensures out_of_line { Depth no_declarations
        (ty.union false false (row 1 (codes "n") (ty.number uint64) no_rows))
        (union 1 (known (number (pos 1)))) ≡ 1 }
    ensures of_a_string { Depth no_declarations
        (ty.union false false (row 1 (codes "s") (ty.string false 2) no_rows))
        (union 1 (known (text []))) ≡ 2 }
    ensures unknown_in_the_envelope { Depth no_declarations (ty.union false false no_rows)
        (union 1 (unknown true (zeros 4) [])) ≡ 0 }
    ensures unknown_out_of_line { Depth no_declarations (ty.union false false no_rows)
        (union 1 (unknown false (zeros 8) [])) ≡ 1 }
    ensures not_there { Depth no_declarations (ty.union true false no_rows) absent ≡ 0 }
{}

/// `type S = struct {s string:2;};` in each kind, by its declaration.
pub fn depths_of_declared_types()
    ensures in_a_vector { Depth declared_text (ty.vector false 2 (ty.named 0))
        (list (value (fields (value (text []) none)) none)) ≡ 2 }
    ensures in_an_array { Depth declared_text (ty.array (ty.named 0) 1)
        (list (value (fields (value (text []) none)) none)) ≡ 1 }
    ensures in_a_struct { Depth declared_text (ty.struct (field (codes "a") (ty.named 0) no_fields))
        (fields (value (fields (value (text []) none)) none)) ≡ 1 }
    ensures in_a_table { Depth declared_text (ty.table (row 1 (codes "a") (ty.named 0) no_rows))
        (table 1 (member 1 (known (fields (value (text []) none))) empty)) ≡ 3 }
    ensures in_a_union { Depth declared_text
        (ty.union false false (row 1 (codes "a") (ty.named 0) no_rows))
        (union 1 (known (fields (value (text []) none)))) ≡ 2 }
    ensures in_a_box { Depth declared_text (ty.box (ty.named 0)) (fields (value (text []) none))
        ≡ 2 }
    ensures by_itself { Depth declared_text (ty.named 0) (fields (value (text []) none)) ≡ 1 }
{}
