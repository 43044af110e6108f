//! Worked facts: the work of values of each kind.
ghost use Rattle.std.specs.Prelude.{◌≡◌, [], codes, true, false, pos};
ghost use Rattle.fidl_wire.specs.declared.handle.HandleInfo.{HandleInfo};
ghost use Rattle.fidl_wire.specs.Value.{absent, bool, empty, fields, handle, known, list, member};
ghost use Rattle.fidl_wire.specs.Value.{none, number, table, text, union, unknown, value};
ghost use Rattle.fidl_wire.specs.Encoding.{zeros};
ghost use Rattle.fidl_decode_model.specs.Work.{Work};

/// Numbers count nothing; a bool, a handle and what is absent count one each.
pub fn works_of_leaves()
    ensures of_a_number { Work (number (pos 1)) ≡ 0 }
    ensures of_a_bool { Work (bool true) ≡ 1 }
    ensures of_a_handle { let h : HandleInfo = record { id = 7; object_type = 3; rights = 0 } in
        Work (handle h) ≡ 1 }
    ensures of_the_absent { Work absent ≡ 1 }
{}

/// A text counts its bytes and one, an empty one too.
pub fn works_of_texts()
    ensures full { Work (text (codes "hi")) ≡ 3 }
    ensures empty { Work (text []) ≡ 1 }
{}

/// A list or a struct counts one more than what it holds.
pub fn works_of_lists()
    ensures of_nothing { Work (list none) ≡ 1 }
    ensures of_numbers { Work (list (value (number (pos 1)) (value (number (pos 2)) none))) ≡ 1 }
    ensures of_texts { Work (list (value (text (codes "hi")) (value (text []) none))) ≡ 5 }
    ensures of_structs { Work (fields (value (fields (value (bool true) none))
        (value (number (pos 1)) (value absent none)))) ≡ 4 }
{}

/// A table or a union counts one more than its members; an unknown member counts one, whatever it has.
pub fn works_of_members()
    ensures empty { Work (table 3 empty) ≡ 1 }
    ensures of_a_table { Work (table 3 (member 1 (known (number (pos 1)))
        (member 3 (known (text (codes "hi"))) empty))) ≡ 4 }
    ensures of_a_number { Work (union 1 (known (number (pos 1)))) ≡ 1 }
    ensures of_a_bool { Work (union 1 (known (bool true))) ≡ 2 }
    ensures of_the_unknown { Work (union 9 (unknown false (zeros 16) [])) ≡ 2 }
{}
