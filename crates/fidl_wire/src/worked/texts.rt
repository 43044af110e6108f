//! The written text of values of each kind.
ghost use Rattle.std.specs.Prelude.{◌≡◌, [], ◌∷◌, codes, true, false, pos, negsuc, None};
ghost use Rattle.fidl_wire.specs.declared.handle.HandleInfo.{HandleInfo};
ghost use Rattle.fidl_wire.specs.Value.{absent, bool, empty, fields, handle, known, list, member};
ghost use Rattle.fidl_wire.specs.Value.{none, number, table, text, union, unknown, value};
ghost use Rattle.fidl_wire.specs.Term.{no_fields, field, no_rows, row, int64, uint8, uint32};
ghost use Rattle.fidl_wire.specs.Term.{uint64};
ghost use Rattle.fidl_wire.specs.Term as ty;
ghost use Rattle.fidl_wire.specs.Figure.{no_declarations};
ghost use Rattle.fidl_wire.specs.Samples.{declared_bool};
ghost use Rattle.fidl_wire.specs.Text.{Text};

/// Bools are words.
pub fn texts_of_bools()
    ensures yes { Text no_declarations ty.bool (bool true) ≡ codes "true" }
    ensures no { Text no_declarations ty.bool (bool false) ≡ codes "false" }
{}

/// Numbers, bits and enums are decimal, with `-` before negative ones.
pub fn texts_of_numbers()
    ensures zero { Text no_declarations (ty.number uint8) (number (pos 0)) ≡ codes "0" }
    ensures great { Text no_declarations (ty.number uint64) (number (pos 18446744073709551615))
        ≡ codes "18446744073709551615" }
    ensures negative { Text no_declarations (ty.number int64) (number (negsuc 0)) ≡ codes "-1" }
    ensures least { Text no_declarations (ty.number int64) (number (negsuc 9223372036854775807))
        ≡ codes "-9223372036854775808" }
    ensures bits { Text no_declarations (ty.bits uint8 None) (number (pos 10)) ≡ codes "10" }
    ensures enum_number { Text no_declarations (ty.enum uint8 None) (number (pos 255))
        ≡ codes "255" }
{}

/// What is absent is a word.
pub fn texts_of_what_is_absent()
    ensures string { Text no_declarations (ty.string true 2) absent ≡ codes "absent" }
    ensures vector { Text no_declarations (ty.vector true 2 ty.bool) absent ≡ codes "absent" }
    ensures in_a_box { Text no_declarations (ty.box (ty.struct no_fields)) absent ≡ codes "absent" }
    ensures in_a_union { Text no_declarations (ty.union true false no_rows) absent
        ≡ codes "absent" }
    ensures handle { Text no_declarations (ty.handle true 0 0x80000000) absent ≡ codes "absent" }
{}

/// A handle is its number, type and rights.
pub fn texts_of_handles()
    ensures { let h : HandleInfo = record { id = 10; object_type = 3; rights = 4294967295 } in
        Text no_declarations (ty.handle false 0 0x80000000) (handle h) ≡ codes
        "handle(10, 3, 4294967295)" }
{}

/// A string stands between quotes, and an empty one too.
pub fn texts_of_strings()
    ensures plain { Text no_declarations (ty.string false 9) (text (codes "hi ~'/")) ≡ codes
        "\"hi ~'/\"" }
    ensures empty { Text no_declarations (ty.string false 9) (text []) ≡ codes "\"\"" }
    ensures not_ascii { Text no_declarations (ty.string false 9) (text (0xc3 ∷ 0xa9 ∷ []))
        ≡ 34 ∷ 0xc3 ∷ 0xa9 ∷ 34 ∷ [] }
{}

/// Quotes, backslashes, and line feed, carriage return and tab are escaped by a letter.
pub fn escapes_of_one_letter()
    ensures quote { Text no_declarations (ty.string false 9) (text (codes "a\"b")) ≡ codes
        "\"a\\\"b\"" }
    ensures backslash { Text no_declarations (ty.string false 9) (text (codes "a\\b")) ≡ codes
        "\"a\\\\b\"" }
    ensures line_feed { Text no_declarations (ty.string false 9) (text (97 ∷ 10 ∷ 98 ∷ [])) ≡ codes
        "\"a\\nb\"" }
    ensures carriage_return { Text no_declarations (ty.string false 9) (text (97 ∷ 13 ∷ 98 ∷ []))
        ≡ codes "\"a\\rb\"" }
    ensures tab { Text no_declarations (ty.string false 9) (text (97 ∷ 9 ∷ 98 ∷ [])) ≡ codes
        "\"a\\tb\"" }
{}

/// Other control characters are escaped by their number, without leading zeros: below 16, below 32,
/// and 127.
pub fn escapes_by_number()
    ensures of_0 { Text no_declarations (ty.string false 9) (text (0 ∷ [])) ≡ codes "\"\\u{0}\"" }
    ensures of_15 { Text no_declarations (ty.string false 9) (text (15 ∷ [])) ≡ codes "\"\\u{f}\"" }
    ensures of_16 { Text no_declarations (ty.string false 9) (text (16 ∷ []))
        ≡ codes "\"\\u{10}\"" }
    ensures of_31 { Text no_declarations (ty.string false 9) (text (31 ∷ []))
        ≡ codes "\"\\u{1f}\"" }
    ensures of_127 { Text no_declarations (ty.string false 9) (text (127 ∷ [])) ≡ codes
        "\"\\u{7f}\"" }
    ensures none_of_32 { Text no_declarations (ty.string false 9) (text (32 ∷ [])) ≡ codes "\" \"" }
    ensures none_of_126 { Text no_declarations (ty.string false 9) (text (126 ∷ []))
        ≡ codes "\"~\"" }
{}

/// Elements stand between square brackets, with a comma and a blank between.
pub fn texts_of_lists()
    ensures empty { Text no_declarations (ty.vector false 2 ty.bool) (list none) ≡ codes "[]" }
    ensures vector { Text no_declarations (ty.vector false 2 ty.bool)
        (list (value (bool true) (value (bool false) none))) ≡ codes "[true, false]" }
    ensures array { Text no_declarations (ty.array ty.bool 3)
        (list (value (bool true) (value (bool false) (value (bool true) none)))) ≡ codes
        "[true, false, true]" }
    ensures of_declared { Text declared_bool (ty.vector false 2 (ty.named 0))
        (list (value (fields (value (bool true) none)) none)) ≡ codes "[{b: true}]" }
{}

/// Members of a struct, in a box too, stand behind their names between braces.
pub fn texts_of_structs()
    ensures empty { Text no_declarations (ty.struct no_fields) (fields none) ≡ codes "{}" }
    ensures of_two { Text no_declarations
        (ty.struct (field (codes "a") ty.bool (field (codes "bc") ty.bool no_fields)))
        (fields (value (bool true) (value (bool false) none))) ≡ codes "{a: true, bc: false}" }
    ensures in_a_box { Text no_declarations
        (ty.box (ty.struct (field (codes "a") ty.bool no_fields))) (fields (value (bool true) none))
        ≡ codes "{a: true}" }
    ensures of_declared { Text declared_bool (ty.struct (field (codes "a") (ty.named 0) no_fields))
        (fields (value (fields (value (bool true) none)) none)) ≡ codes "{a: {b: true}}" }
{}

/// A table is its count and its present members, each behind its name.
pub fn texts_of_tables()
    ensures empty { Text no_declarations (ty.table no_rows) (table 0 empty) ≡ codes "table(0) {}" }
    ensures of_two { Text no_declarations
        (ty.table (row 1 (codes "a") ty.bool (row 3 (codes "c") ty.bool no_rows)))
        (table 12 (member 1 (known (bool true)) (member 3 (known (bool false)) empty))) ≡ codes
        "table(12) {a: true, c: false}" }
{}

/// A union is its member behind its name.
pub fn texts_of_unions()
    ensures { Text no_declarations (ty.union false false
        (row 1 (codes "a") ty.bool (row 2 (codes "b") ty.bool no_rows)))
        (union 2 (known (bool true))) ≡ codes "union(b: true)" }
{}

/// `type S = struct {b bool;};` in a table, a union and a box, and by itself, by its declaration.
pub fn texts_of_declared_types()
    ensures in_a_table { Text declared_bool (ty.table (row 1 (codes "a") (ty.named 0) no_rows))
        (table 1 (member 1 (known (fields (value (bool true) none))) empty))
        ≡ codes "table(1) {a: {b: true}}" }
    ensures in_a_union { Text declared_bool
        (ty.union false false (row 1 (codes "a") (ty.named 0) no_rows))
        (union 1 (known (fields (value (bool true) none)))) ≡ codes "union(a: {b: true})" }
    ensures in_a_box { Text declared_bool (ty.box (ty.named 0)) (fields (value (bool true) none))
        ≡ codes "{b: true}" }
    ensures by_itself { Text declared_bool (ty.named 0) (fields (value (bool true) none))
        ≡ codes "{b: true}" }
{}

/// Unknown members stand behind their ordinals: where they stand, their raw bytes in lower-case
/// hex, and their handles.
pub fn texts_of_unknown_members()
    ensures in_a_union { Text no_declarations
        (ty.union false false (row 1 (codes "a") (ty.number uint32) no_rows))
        (union 10 (unknown true (0 ∷ 0x1f ∷ 0xa9 ∷ 0xff ∷ []) [])) ≡ codes
        "union(10: unknown in 001fa9ff [])" }
    ensures with_handles { let h : HandleInfo = record { id = 1; object_type = 2; rights = 3 } in
        let i : HandleInfo = record { id = 4; object_type = 5; rights = 6 } in
        Text no_declarations (ty.table (row 2 (codes "b") ty.bool no_rows))
        (table 2 (member 1 (unknown false (1 ∷ 2 ∷ 3 ∷ 4 ∷ 5 ∷ 6 ∷ 7 ∷ 8 ∷ []) (h ∷ i ∷ []))
        (member 2 (known (bool true)) empty))) ≡ codes
        "table(2) {1: unknown out 0102030405060708 [handle(1, 2, 3), handle(4, 5, 6)], b: true}" }
{}
