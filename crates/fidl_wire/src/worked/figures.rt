//! Size, alignment and nest of each kind, and what terms and ordinals stand for.
ghost use Rattle.std.specs.Prelude.{◌≡◌, [], ◌∷◌, codes, false, pos, Some, None};
ghost use Rattle.fidl_wire.specs.Value.{Value};
ghost use Rattle.fidl_wire.specs.Term.{find, no_fields, field, no_rows, row, resolve, int8, int16};
ghost use Rattle.fidl_wire.specs.Term.{int32, int64, uint8, uint16, uint32, uint64, IsBounded};
ghost use Rattle.fidl_wire.specs.Term.{IsNoName};
ghost use Rattle.fidl_wire.specs.Term as ty;
ghost use Rattle.fidl_wire.specs.Figure.{Declarations, IsLaidOut, figure, figure_of};
ghost use Rattle.fidl_wire.specs.Figure.{no_declarations, offsets};
ghost use Rattle.fidl_wire.specs.Typed.{Typed};

/// Bools and numbers have the size and alignment of their width.
pub fn figures_of_numbers()
    ensures of_bool { figure_of [] ty.bool ≡ figure 1 1 0 }
    ensures of_8_bits { (figure_of [] (ty.number int8) ≡ figure 1 1 0)
        × (figure_of [] (ty.number uint8) ≡ figure 1 1 0) }
    ensures of_16_bits { (figure_of [] (ty.number int16) ≡ figure 2 2 0)
        × (figure_of [] (ty.number uint16) ≡ figure 2 2 0) }
    ensures of_32_bits { (figure_of [] (ty.number int32) ≡ figure 4 4 0)
        × (figure_of [] (ty.number uint32) ≡ figure 4 4 0) }
    ensures of_64_bits { (figure_of [] (ty.number int64) ≡ figure 8 8 0)
        × (figure_of [] (ty.number uint64) ≡ figure 8 8 0) }
{}

/// Bits and enums have those of their number.
pub fn figures_of_bits_and_enums()
    ensures of_bits { figure_of [] (ty.bits uint16 (Some 5)) ≡ figure 2 2 0 }
    ensures of_enums { figure_of [] (ty.enum int64 (Some (pos 1 ∷ []))) ≡ figure 8 8 0 }
{}

/// Handles have 4 bytes, boxes 8, and strings, vectors, tables and unions 16, whatever they hold.
pub fn figures_of_what_points_out_of_line()
    ensures of_a_handle { figure_of [] (ty.handle false 0 0x80000000) ≡ figure 4 4 0 }
    ensures of_a_box { figure_of [] (ty.box (ty.struct no_fields)) ≡ figure 8 8 0 }
    ensures of_a_string { figure_of [] (ty.string false 2) ≡ figure 16 8 0 }
    ensures of_a_vector { figure_of [] (ty.vector false 2 ty.bool) ≡ figure 16 8 0 }
    ensures of_a_table { figure_of [] (ty.table no_rows) ≡ figure 16 8 0 }
    ensures of_a_union { figure_of [] (ty.union false false no_rows) ≡ figure 16 8 0 }
{}

/// An array has its count times the size of an element, its alignment, and one nest more.
pub fn figures_of_arrays()
    ensures of_numbers { figure_of [] (ty.array (ty.number uint16) 5) ≡ figure 10 2 1 }
    ensures of_arrays { figure_of [] (ty.array (ty.array (ty.number uint16) 5) 3) ≡ figure 30 2 2 }
{}

/// A struct is aligned as the most aligned member, has a multiple of that as its size, at least a
/// byte, and one nest more than its members.
pub fn figures_of_structs()
    ensures empty { figure_of [] (ty.struct no_fields) ≡ figure 1 1 1 }
    ensures most_aligned_first { figure_of []
        (ty.struct (field (codes "a") (ty.number uint32)
        (field (codes "b") (ty.number uint8) no_fields))) ≡ figure 8 4 1 }
    ensures most_aligned_last { figure_of []
        (ty.struct (field (codes "a") (ty.number uint8)
        (field (codes "b") (ty.number uint32) no_fields))) ≡ figure 8 4 1 }
    ensures padding_between { figure_of []
        (ty.struct (field (codes "a") (ty.number uint8) (field (codes "b") (ty.number uint16)
        (field (codes "c") (ty.number uint8) no_fields)))) ≡ figure 6 2 1 }
    ensures deepest_first { figure_of []
        (ty.struct (field (codes "a") (ty.array ty.bool 3) (field (codes "b") ty.bool no_fields)))
        ≡ figure 4 1 2 }
    ensures deepest_last { figure_of [] (ty.struct
        (field (codes "a") ty.bool (field (codes "b")
        (ty.struct (field (codes "c") (ty.array ty.bool 3) no_fields)) no_fields))) ≡ figure 4 1 3 }
{}

/// Each member of a struct stands at the next place of its alignment.
pub fn offsets_of_members()
    ensures { offsets [] 0 (field (codes "a") (ty.number uint8)
        (field (codes "b") (ty.number uint32)
        (field (codes "c") (ty.number uint16) (field (codes "d") (ty.number uint64) no_fields))))
        ≡ 0 ∷ 4 ∷ 8 ∷ 16 ∷ [] }
{}

/// A name has the figure of its declaration.
pub fn figures_of_names()
    ensures of_the_first { figure_of (figure 4 2 1 ∷ figure 8 8 2 ∷ []) (ty.named 0)
        ≡ figure 4 2 1 }
    ensures of_the_second { figure_of (figure 4 2 1 ∷ figure 8 8 2 ∷ []) (ty.named 1)
        ≡ figure 8 8 2 }
    ensures of_nothing { figure_of (figure 4 2 1 ∷ []) (ty.named 1) ≡ figure 1 1 0 }
{}

/// The figures of declarations are those of their terms, and no others.
pub fn declarations_that_are_laid_out()
    ensures right { let ds : Declarations = record {
      terms = ty.struct
          (field (codes "a") (ty.named 1) no_fields) ∷ ty.number uint16 ∷ [];
      figures = figure 2 2
          1 ∷ figure 2 2 0 ∷ [];
    } in
        IsLaidOut ds }
    ensures another_size { let ds : Declarations = record {
      terms = ty.number uint16 ∷ [];
      figures = figure 4 2 0 ∷ [];
    } in
        ¬ (IsLaidOut ds) }
    ensures one_too_many { let ds : Declarations = record {
      terms = [];
      figures = figure 2 2 0 ∷ [];
    } in
        ¬ (IsLaidOut ds) }
{}

/// A name stands for its declaration, and any other term for itself.
pub fn what_terms_stand_for()
    ensures first { resolve (ty.bool ∷ ty.number uint8 ∷ []) (ty.named 0) ≡ ty.bool }
    ensures second { resolve (ty.bool ∷ ty.number uint8 ∷ []) (ty.named 1) ≡ ty.number uint8 }
    ensures itself { resolve (ty.bool ∷ []) (ty.number uint8) ≡ ty.number uint8 }
{}

/// The number of no declaration stands for a type without values.
pub fn a_name_of_nothing()
    ensures { (v : Value) → ¬ (Typed no_declarations (ty.named 0) v) }
{}

/// The type at an ordinal: of several rows with one ordinal the first counts.
pub fn types_at_ordinals()
    ensures first { find (row 1 (codes "a") ty.bool (row 2 (codes "b") (ty.number uint8) no_rows)) 1
        ≡ Some ty.bool }
    ensures second { find (row 1 (codes "a") ty.bool (row 2 (codes "b") (ty.number uint8) no_rows))
        2 ≡ Some (ty.number uint8) }
    ensures first_of_two { find (row 1 (codes "a") ty.bool
        (row 1 (codes "b") (ty.number uint8) no_rows)) 1 ≡ Some ty.bool }
    ensures no_type { find (row 1 (codes "a") ty.bool (row 3 (codes "b") (ty.number uint8) no_rows))
        2 ≡ None }
{}

/// Declarations are no names, and all else can be one.
pub fn terms_that_are_no_names()
    ensures name { ¬ (IsNoName (ty.named 0)) }
    ensures no_name { IsNoName (ty.vector false 2 (ty.named 0)) }
{}

/// Bounds are numbers of 32 bits, at any depth of a term.
pub fn bounds()
    ensures of_a_string { IsBounded (ty.string false 4294967295)
        × ¬ (IsBounded (ty.string false 4294967296)) }
    ensures of_a_vector { IsBounded (ty.vector false 4294967295 ty.bool)
        × ¬ (IsBounded (ty.vector false 4294967296 ty.bool)) }
    ensures in_a_vector { ¬ (IsBounded (ty.vector false 2 (ty.string false 4294967296))) }
    ensures in_an_array { ¬ (IsBounded (ty.array (ty.string false 4294967296) 2)) }
    ensures in_a_box { ¬ (IsBounded (ty.box (ty.string false 4294967296))) }
    ensures in_a_struct { ¬ (IsBounded (ty.struct
        (field (codes "a") ty.bool (field (codes "b") (ty.string false 4294967296) no_fields)))) }
    ensures in_a_table { ¬ (IsBounded (ty.table
        (row 1 (codes "a") ty.bool (row 2 (codes "b") (ty.string false 4294967296) no_rows)))) }
    ensures in_a_union { ¬ (IsBounded (ty.union false false
        (row 1 (codes "a") ty.bool (row 2 (codes "b") (ty.string false 4294967296) no_rows)))) }
    ensures of_others { IsBounded (ty.struct
        (field (codes "a") (ty.named 7) (field (codes "b") (ty.number uint64) no_fields))) }
{}
