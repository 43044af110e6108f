//! Worked facts: the terms that small types and definitions stand for, and some that they do not.
ghost use Rattle.std.specs.Prelude.{◌≡◌, ◌≢◌, ℕ, ℤ, List, [], ◌∷◌, true, false, Some, None};
ghost use Rattle.std.specs.Global.{Vec, Box as Boxed};
ghost use Rattle.fidl_wire.specs.Term as ty;
ghost use Rattle.fidl_ir.specs.declared.term.«Type».{«Type»};
ghost use Rattle.fidl_ir.specs.declared.term.Field.{Field};
ghost use Rattle.fidl_ir.specs.declared.term.Row.{Row};
ghost use Rattle.fidl_ir.specs.declared.term.NumberKind.TheVariants as Kinds;
ghost use Rattle.fidl_ir.specs.declared.term.Definition.{Definition};
ghost use Rattle.fidl_ir.specs.declared.term.Definition.TheVariants as Definitions;
ghost use Rattle.fidl_ir.specs.Examples.{a_bool, a_number, a_handle, a_text, a_vector, an_array};
ghost use Rattle.fidl_ir.specs.Examples.{a_box, a_name};
ghost use Rattle.fidl_ir.specs.Terms.{number_kind_view, term_view, fields_view, rows_view};
ghost use Rattle.fidl_ir.specs.Terms.{definition_view, definitions_view};
ghost use Rattle.fidl_ir.specs.Members.{member_types};
ghost use Rattle.fidl_wire.specs.Term.{Term};

/// Each kind of numbers is the one of its name.
pub fn kinds_of_numbers()
    ensures signed { (number_kind_view Kinds.Int8 ≡ ty.int8) × (number_kind_view Kinds.Int16 ≡ ty.int16)
        × (number_kind_view Kinds.Int32 ≡ ty.int32) × (number_kind_view Kinds.Int64 ≡ ty.int64) }
    ensures unsigned { (number_kind_view Kinds.Uint8 ≡ ty.uint8) × (number_kind_view Kinds.Uint16 ≡ ty.uint16)
        × (number_kind_view Kinds.Uint32 ≡ ty.uint32) × (number_kind_view Kinds.Uint64 ≡ ty.uint64) }
    ensures other { number_kind_view Kinds.Uint8 ≢ ty.int8 }
{}

/// Bools, numbers, handles and strings stand for such types, each of its numbers in its place.
pub fn plain_types()
    ensures of_bools { term_view a_bool ≡ ty.bool }
    ensures of_numbers { term_view (a_number Kinds.Int16) ≡ ty.number ty.int16 }
    ensures of_handles { term_view (a_handle true 4 2) ≡ ty.handle true 4 2 }
    ensures other_handles { term_view (a_handle true 4 2) ≢ ty.handle true 2 4 }
    ensures of_strings { term_view (a_text true 7) ≡ ty.string true 7 }
    ensures other_strings { term_view (a_text true 7) ≢ ty.string false 7 }
{}

/// Vectors and arrays have the term of their element.
pub fn types_of_lists()
    ensures of_vectors { (element : Boxed «Type») → term_view (a_vector true 7 element)
        ≡ ty.vector true 7 (term_view element.value) }
    ensures of_arrays { (element : Boxed «Type») → term_view (an_array element 3)
        ≡ ty.array (term_view element.value) 3 }
    ensures other_arrays { (element : Boxed «Type») → term_view (an_array element 3)
        ≢ ty.array (term_view element.value) 4 }
{}

/// A name stands for the definition of its number, and a box for a box of it.
pub fn names_and_boxes()
    ensures of_names { term_view (a_name 2) ≡ ty.named 2 }
    ensures of_boxes { term_view (a_box 2) ≡ ty.box (ty.named 2) }
    ensures other_boxes { term_view (a_box 2) ≢ ty.named 2 }
{}

/// The members of structs, tables and unions stand in their order.
pub fn members_in_order()
    ensures of_structs { (f g : Field) → fields_view (f ∷ g ∷ [])
        ≡ ty.field f.name.items (term_view f.of)
        (ty.field g.name.items (term_view g.of) ty.no_fields) }
    ensures of_tables { (r s : Row) → rows_view (r ∷ s ∷ [])
        ≡ ty.row r.ordinal r.name.items (term_view r.of)
        (ty.row s.ordinal s.name.items (term_view s.of) ty.no_rows) }
    ensures other { (f : Field) → fields_view (f ∷ []) ≢ ty.no_fields }
{}

/// Bits and enums have their mask and their values only where they are strict.
pub fn definitions_of_numbers()
    ensures flexible_bits { definition_view (Definitions.Bits Kinds.Uint8 None)
        ≡ ty.bits ty.uint8 None }
    ensures strict_bits { definition_view (Definitions.Bits Kinds.Uint8 (Some 5))
        ≡ ty.bits ty.uint8 (Some 5) }
    ensures flexible_enum { definition_view (Definitions.Enum Kinds.Int32 None)
        ≡ ty.enum ty.int32 None }
    ensures strict_enum { (values : Vec ℤ) → definition_view (Definitions.Enum Kinds.Int32
        (Some values)) ≡ ty.enum ty.int32 (Some values.items) }
    ensures other_enum { (values : Vec ℤ) → definition_view (Definitions.Enum Kinds.Int32
        (Some values)) ≢ ty.enum ty.int32 None }
{}

/// Structs, tables and unions have their members. A union says whether it may be absent, and
/// whether it is strict.
pub fn definitions_of_members()
    ensures of_structs { (fields : Vec Field) → definition_view (Definitions.Struct fields)
        ≡ ty.struct (fields_view fields.items) }
    ensures of_tables { (rows : Vec Row) → definition_view (Definitions.Table rows)
        ≡ ty.table (rows_view rows.items) }
    ensures of_unions { (rows : Vec Row) → definition_view (Definitions.Union true false rows)
        ≡ ty.union true false (rows_view rows.items) }
    ensures other_unions { (rows : Vec Row) → definition_view (Definitions.Union true false rows)
        ≢ ty.union false true (rows_view rows.items) }
{}

/// Definitions keep their order.
pub fn definitions_in_order()
    ensures { (d e : Definition) → definitions_view (d ∷ e ∷ [])
        ≡ definition_view d ∷ definition_view e ∷ [] }
{}

/// The types of a definition's members, in order; bits and enums have none.
pub fn types_of_members()
    ensures of_structs { (t u : Term) (first second : List ℕ) → member_types
        (ty.struct (ty.field first t (ty.field second u ty.no_fields))) ≡ t ∷ u ∷ [] }
    ensures of_tables { (t : Term) (first : List ℕ) → member_types
        (ty.table (ty.row 3 first t ty.no_rows)) ≡ t ∷ [] }
    ensures of_unions { (t : Term) (first : List ℕ) → member_types
        (ty.union true false (ty.row 3 first t ty.no_rows)) ≡ t ∷ [] }
    ensures of_bits { member_types (ty.bits ty.uint8 None) ≡ [] }
    ensures other { (t : Term) (first : List ℕ) → member_types
        (ty.table (ty.row 3 first t ty.no_rows)) ≢ [] }
{}
