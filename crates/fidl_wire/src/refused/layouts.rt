//! Refused: structs, boxes, tables and unions.
ghost use Rattle.std.specs.Prelude.{[], ◌∷◌, ◌++◌, codes, true, false, pos};
ghost use Rattle.fidl_wire.specs.declared.handle.HandleInfo.{HandleInfo};
ghost use Rattle.fidl_wire.specs.Value.{absent, empty, fields, known, list, member, none, number};
ghost use Rattle.fidl_wire.specs.Value.{table, union, unknown, value};
ghost use Rattle.fidl_wire.specs.Term.{Term, no_fields, field, no_rows, row, uint8, uint32, uint64};
ghost use Rattle.fidl_wire.specs.Term as ty;
ghost use Rattle.fidl_wire.specs.Figure.{no_declarations};
ghost use Rattle.fidl_wire.specs.Samples.{byte_struct, byte_table, number_union};
ghost use Rattle.fidl_wire.specs.Encoding.{zeros, present};
ghost use Rattle.fidl_wire.specs.Typed.{Typed};
ghost use Rattle.fidl_wire.specs.Message.{IsEncoding};

/// `struct {a uint8; b bool;}` with another number of members, with a member of another type, and
/// absent.
pub fn structs_of_other_members()
    ensures too_few { ¬ (Typed no_declarations
        (ty.struct (field (codes "a") (ty.number uint8) (field (codes "b") ty.bool no_fields)))
        (fields (value (number (pos 1)) none))) }
    ensures too_many { ¬ (Typed no_declarations byte_struct
        (fields (value (number (pos 1)) (value (number (pos 1)) none)))) }
    ensures another { ¬ (Typed no_declarations
        (ty.struct (field (codes "a") (ty.number uint8) (field (codes "b") ty.bool no_fields)))
        (fields (value (number (pos 1)) (value (number (pos 1)) none)))) }
    ensures not_there { ¬ (Typed no_declarations byte_struct absent) }
{}

/// `struct {a uint64; b uint8;}`: a byte behind the last member that is not zero.
pub fn padding_behind_the_last_member()
    ensures { ¬ (IsEncoding no_declarations
        (ty.struct (field (codes "a") (ty.number uint64)
        (field (codes "b") (ty.number uint8) no_fields))) (1 ∷ zeros 7 ++ 2 ∷ zeros 6 ++ 1 ∷ []) []) }
{}

/// `box<S>` with `S = struct {a uint8;}`: a marker that is neither all ones nor zero, a struct that
/// is not there, and one behind an absent marker.
pub fn boxes()
    ensures another_marker { ¬ (IsEncoding no_declarations (ty.box byte_struct) (1 ∷ zeros 7) []) }
    ensures nothing_there { ¬ (IsEncoding no_declarations (ty.box byte_struct) present []) }
    ensures behind_an_absent_marker { ¬ (IsEncoding no_declarations (ty.box byte_struct)
        (zeros 8 ++ 5 ∷ zeros 7) []) }
{}

/// A box has a struct in it: of its members, and of no other type.
pub fn boxes_of_other_values()
    ensures too_few { ¬ (Typed no_declarations (ty.box byte_struct) (fields none)) }
    ensures no_struct { ¬ (Typed no_declarations (ty.box (ty.number uint8)) (fields none)) }
{}

/// A table is never absent.
pub fn a_table_that_is_absent()
    ensures message { ¬ (IsEncoding no_declarations byte_table (zeros 16) []) }
    ensures value { ¬ (Typed no_declarations byte_table absent) }
{}

/// `table {1: a uint8;}`: ordinals that do not rise from 1 up to the count, and a count that is no
/// number of 64 bits.
pub fn ordinals_out_of_order()
    ensures from_zero { ¬ (Typed no_declarations byte_table
        (table 1 (member 0 (unknown true (zeros 4) []) empty))) }
    ensures twice { ¬ (Typed no_declarations byte_table
        (table 2 (member 1 (known (number (pos 5))) (member 1 (known (number (pos 5))) empty)))) }
    ensures falling { ¬ (Typed no_declarations byte_table
        (table 2 (member 2 (unknown true (zeros 4) []) (member 1 (known (number (pos 5))) empty)))) }
    ensures past_the_count { ¬ (Typed no_declarations byte_table
        (table 0 (member 1 (known (number (pos 5))) empty))) }
    ensures great_count { ¬ (Typed no_declarations byte_table (table 18446744073709551616 empty)) }
{}

/// `table {1: a uint8;}`: a known member at an ordinal that the layout does not have, an unknown
/// one at one that it has, and one of another type.
pub fn members_that_the_layout_does_not_have()
    ensures known { ¬ (Typed no_declarations byte_table
        (table 2 (member 2 (known (number (pos 5))) empty))) }
    ensures unknown { ¬ (Typed no_declarations byte_table
        (table 1 (member 1 (unknown true (zeros 4) []) empty))) }
    ensures another { ¬ (Typed no_declarations byte_table
        (table 1 (member 1 (known (number (pos 256))) empty))) }
{}

/// Unknown members in the envelope have four bytes, those out of line whole eights, at least one.
pub fn unknown_members_of_another_length()
    ensures three_inline { ¬ (Typed no_declarations (ty.table no_rows)
        (table 1 (member 1 (unknown true (zeros 3) []) empty))) }
    ensures five_inline { ¬ (Typed no_declarations (ty.table no_rows)
        (table 1 (member 1 (unknown true (zeros 5) []) empty))) }
    ensures none_out_of_line { ¬ (Typed no_declarations (ty.table no_rows)
        (table 1 (member 1 (unknown false [] []) empty))) }
    ensures twelve_out_of_line { ¬ (Typed no_declarations (ty.table no_rows)
        (table 1 (member 1 (unknown false (zeros 12) []) empty))) }
{}

/// Raw bytes are numbers below 256, and handles have numbers of 32 bits.
pub fn unknown_members_of_other_parts()
    ensures byte { ¬ (Typed no_declarations (ty.table no_rows)
        (table 1 (member 1 (unknown true (0 ∷ 0 ∷ 0 ∷ 256 ∷ []) []) empty))) }
    ensures handle { let h : HandleInfo = record { id = 4294967296; object_type = 0; rights = 0 } in
        ¬ (Typed no_declarations (ty.table no_rows)
        (table 1 (member 1 (unknown true (zeros 4) (h ∷ [])) empty))) }
{}

/// An unknown member out of line whose handle did not come, in `table {}` and in
/// `union {1: n uint32;}`.
pub fn unknown_members_without_their_handle()
    ensures in_a_table { ¬ (IsEncoding no_declarations (ty.table no_rows)
        (1 ∷ zeros 7 ++ present ++ 8 ∷ 0 ∷ 0 ∷ 0 ∷ 1 ∷ 0 ∷ 0 ∷ 0 ∷ 1 ∷ zeros 7) []) }
    ensures in_a_union { ¬ (IsEncoding no_declarations number_union
        (5 ∷ zeros 7 ++ 8 ∷ 0 ∷ 0 ∷ 0 ∷ 1 ∷ 0 ∷ 0 ∷ 0 ∷ 1 ∷ zeros 7) []) }
{}

/// An unknown member whose envelope counts four bytes out of line, in `table {}` and in
/// `union {1: n uint32;}`.
pub fn unknown_members_of_four_bytes_out_of_line()
    ensures in_a_table { ¬ (IsEncoding no_declarations (ty.table no_rows)
        (1 ∷ zeros 7 ++ present ++ 4 ∷ zeros 7 ++ 1 ∷ zeros 7) []) }
    ensures in_a_union { ¬ (IsEncoding no_declarations number_union
        (5 ∷ zeros 7 ++ 4 ∷ zeros 7 ++ 1 ∷ zeros 7) []) }
{}

/// `union {1: n uint32;}`: an envelope with other flags, with a handle too many, and none at all.
pub fn envelopes_of_a_union()
    ensures other_flags { ¬ (IsEncoding no_declarations number_union
        (1 ∷ zeros 7 ++ 7 ∷ 0 ∷ 0 ∷ 0 ∷ 0 ∷ 0 ∷ 3 ∷ 0 ∷ []) []) }
    ensures handle_count { let h : HandleInfo = record { id = 9; object_type = 3; rights = 1 } in
        ¬ (IsEncoding no_declarations number_union
        (1 ∷ zeros 7 ++ 7 ∷ 0 ∷ 0 ∷ 0 ∷ 1 ∷ 0 ∷ 1 ∷ 0 ∷ []) (h ∷ [])) }
    ensures nothing_there { ¬ (IsEncoding no_declarations number_union (1 ∷ zeros 15) []) }
{}

/// `union {1: a uint8; 2: b uint64;}`: a byte in its envelope with another byte behind it, and
/// eight bytes in an envelope of four.
pub fn members_in_their_envelopes()
    ensures padding { let t : Term = ty.union false false
        (row 1 (codes "a") (ty.number uint8) (row 2 (codes "b") (ty.number uint64) no_rows)) in
        ¬ (IsEncoding no_declarations t (1 ∷ zeros 7 ++ 7 ∷ 1 ∷ 0 ∷ 0 ∷ 0 ∷ 0 ∷ 1 ∷ 0 ∷ []) []) }
    ensures eight_bytes { let t : Term = ty.union false false
        (row 1 (codes "a") (ty.number uint8) (row 2 (codes "b") (ty.number uint64) no_rows)) in
        ¬ (IsEncoding no_declarations t (2 ∷ zeros 7 ++ 7 ∷ 0 ∷ 0 ∷ 0 ∷ 0 ∷ 0 ∷ 1 ∷ 0 ∷ []) []) }
{}

/// `strict union {1: n uint32;}`: unknown members, in the envelope and out of line.
pub fn unknown_members_of_a_strict_union()
    ensures in_the_envelope { let t : Term = ty.union false true
        (row 1 (codes "n") (ty.number uint32) no_rows) in
        ¬ (IsEncoding no_declarations t (2 ∷ zeros 7 ++ 1 ∷ 2 ∷ 3 ∷ 4 ∷ 0 ∷ 0 ∷ 1 ∷ 0 ∷ []) []) }
    ensures out_of_line { let t : Term = ty.union false true
        (row 1 (codes "n") (ty.number uint32) no_rows) in
        ¬ (IsEncoding no_declarations t (2 ∷ zeros 7 ++ 8 ∷ zeros 7 ++ 1 ∷ zeros 7) []) }
{}

/// A union's ordinal is from 1 to 2^64 - 1: `union {1: n uint32;}:optional` with ordinal 0 and an
/// envelope, and values with others.
pub fn ordinals_of_a_union()
    ensures zero_with_an_envelope { let t : Term = ty.union true false
        (row 1 (codes "n") (ty.number uint32) no_rows) in
        ¬ (IsEncoding no_declarations t (zeros 8 ++ 5 ∷ 0 ∷ 0 ∷ 0 ∷ 0 ∷ 0 ∷ 1 ∷ 0 ∷ []) []) }
    ensures zero { ¬ (Typed no_declarations number_union (union 0 (unknown true (zeros 4) []))) }
    ensures too_great { ¬ (Typed no_declarations number_union
        (union 18446744073709551616 (unknown true (zeros 4) []))) }
{}

/// Values of one kind where another is wanted.
pub fn values_of_other_kinds()
    ensures for_a_bool { ¬ (Typed no_declarations ty.bool (number (pos 1))) }
    ensures for_a_struct { ¬ (Typed no_declarations (ty.struct no_fields) (list none)) }
    ensures for_a_vector { ¬ (Typed no_declarations (ty.vector false 2 ty.bool) (fields none)) }
    ensures for_a_table { ¬ (Typed no_declarations
        (ty.table (row 1 (codes "n") (ty.number uint32) no_rows))
        (union 1 (known (number (pos 1))))) }
    ensures for_a_union { ¬ (Typed no_declarations number_union
        (table 1 (member 1 (known (number (pos 1))) empty))) }
{}
