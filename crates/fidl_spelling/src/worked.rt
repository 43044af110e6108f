//! Worked spellings: words, and the values that they spell.
ghost use Rattle.std.specs.Prelude.{[], ◌∷◌, codes, false, true, pos, negsuc, None};
ghost use Rattle.fidl_wire.specs.declared.handle.HandleInfo.{HandleInfo};
ghost use Rattle.fidl_wire.specs.Figure.{no_declarations};
ghost use Rattle.fidl_wire.specs.Term.{no_fields, field, no_rows, row, int64, uint8, uint32};
ghost use Rattle.fidl_wire.specs.Term as ty;
ghost use Rattle.fidl_wire.specs.Value.{absent, bool, empty, fields, handle, known, list, member};
ghost use Rattle.fidl_wire.specs.Value.{none, number, table, text, union, unknown, value};
ghost use Rattle.fidl_spelling.specs.Spells.{SpellsBy};

/// A bool is a word.
pub fn spellings_of_bools()
    ensures { SpellsBy no_declarations ty.bool (codes "true" ∷ []) (bool true) }
{}

/// Numbers are decimal, with leading zeros or without, and `-0` is 0.
pub fn spellings_of_numbers()
    ensures plain { SpellsBy no_declarations (ty.number uint8) (codes "12" ∷ []) (number (pos 12)) }
    ensures zeros { SpellsBy no_declarations (ty.number uint8) (codes "0012" ∷ [])
        (number (pos 12)) }
    ensures minus_zero { SpellsBy no_declarations (ty.number uint8) (codes "-0" ∷ [])
        (number (pos 0)) }
    ensures negative { SpellsBy no_declarations (ty.enum int64 None) (codes "-007" ∷ [])
        (number (negsuc 6)) }
{}

/// What is absent is a word, also where it is required.
pub fn spellings_of_what_is_absent()
    ensures string { SpellsBy no_declarations (ty.string false 2) (codes "absent" ∷ []) absent }
    ensures in_a_box { SpellsBy no_declarations (ty.box (ty.struct no_fields))
        (codes "absent" ∷ []) absent }
{}

/// A struct's members stand behind their names.
pub fn spellings_of_structs()
    ensures empty { SpellsBy no_declarations (ty.struct no_fields) (codes "{" ∷ codes "}" ∷ [])
        (fields none) }
    ensures of_two { SpellsBy no_declarations
        (ty.struct (field (codes "a") ty.bool (field (codes "bc") ty.bool no_fields)))
        (codes "{" ∷ codes "a" ∷ codes ":" ∷ codes "true" ∷ codes "," ∷ codes "bc" ∷ codes ":"
        ∷ codes "false" ∷ codes "}" ∷ [])
        (fields (value (bool true) (value (bool false) none))) }
{}

/// Two of a table's members bear one name, which means the first, and an unknown one has its raw bytes in
/// hex digits of either case.
pub fn spellings_of_tables()
    ensures { let h : HandleInfo = record { id = 9; object_type = 3; rights = 1 } in
        SpellsBy no_declarations
        (ty.table (row 1 (codes "a") ty.bool (row 2 (codes "a") (ty.number uint8) no_rows)))
        (codes "table" ∷ codes "(" ∷ codes "5" ∷ codes ")" ∷ codes "{" ∷ codes "a" ∷ codes ":"
        ∷ codes "true" ∷ codes "," ∷ codes "05" ∷ codes ":" ∷ codes "unknown" ∷ codes "in"
        ∷ codes "0aFf0000" ∷ codes "[" ∷ codes "handle" ∷ codes "(" ∷ codes "9" ∷ codes ","
        ∷ codes "3" ∷ codes "," ∷ codes "1" ∷ codes ")" ∷ codes "]" ∷ codes "}" ∷ [])
        (table 5 (member 1 (known (bool true))
        (member 5 (unknown true (10 ∷ 255 ∷ 0 ∷ 0 ∷ []) (h ∷ [])) empty))) }
{}

/// A union is its member between parentheses.
pub fn spellings_of_unions()
    ensures { SpellsBy no_declarations
        (ty.union false false (row 1 (codes "n") (ty.number uint32) no_rows))
        (codes "union" ∷ codes "(" ∷ codes "n" ∷ codes ":" ∷ codes "7" ∷ codes ")" ∷ [])
        (union 1 (known (number (pos 7)))) }
{}

/// A text stands between quotes, with escapes.
pub fn spellings_of_strings()
    ensures { SpellsBy no_declarations (ty.string false 9) (codes "\"a\\n\\u{00e9}\"" ∷ [])
        (text (97 ∷ 10 ∷ 0xc3 ∷ 0xa9 ∷ [])) }
{}

/// A vector and an array are their elements between brackets.
pub fn spellings_of_lists()
    ensures empty { SpellsBy no_declarations (ty.vector false 9 ty.bool)
        (codes "[" ∷ codes "]" ∷ []) (list none) }
    ensures of_two { SpellsBy no_declarations (ty.vector false 9 ty.bool)
        (codes "[" ∷ codes "true" ∷ codes "," ∷ codes "false" ∷ codes "]" ∷ [])
        (list (value (bool true) (value (bool false) none))) }
    ensures array { SpellsBy no_declarations (ty.array (ty.number uint8) 1)
        (codes "[" ∷ codes "007" ∷ codes "]" ∷ []) (list (value (number (pos 7)) none)) }
{}

/// A present box is its struct's members.
pub fn spellings_of_boxes()
    ensures { SpellsBy no_declarations
        (ty.box (ty.struct (field (codes "a") ty.bool no_fields)))
        (codes "{" ∷ codes "a" ∷ codes ":" ∷ codes "true" ∷ codes "}" ∷ [])
        (fields (value (bool true) none)) }
{}

/// A handle is its three numbers.
pub fn spellings_of_handles()
    ensures { let h : HandleInfo = record { id = 9; object_type = 3; rights = 1 } in
        SpellsBy no_declarations (ty.handle false 0 0x80000000)
        (codes "handle" ∷ codes "(" ∷ codes "9" ∷ codes "," ∷ codes "03" ∷ codes "," ∷ codes "1"
        ∷ codes ")" ∷ []) (handle h) }
{}
