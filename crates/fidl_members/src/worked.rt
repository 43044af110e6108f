//! Worked facts: what types are read as, what stands at a place, and the rows of a small table.
ghost use Rattle.std.specs.Prelude.{◌≡◌, pos, negsuc, [], ◌∷◌, true, false, Some, None, codes};
ghost use Rattle.fidl_wire.specs.Value.{bool, number};
ghost use Rattle.fidl_wire.specs.Term.{int8, int16, uint8, uint16};
ghost use Rattle.fidl_wire.specs.Term as ty;
ghost use Rattle.fidl_table_format.specs.declared.kind.EntryKind.TheVariants as kinds;
ghost use Rattle.fidl_members.specs.Entries.{owner, entry_named, row_name, IsRowOf, HasNoRow};
ghost use Rattle.fidl_members.specs.Entries.{entry_at_row, HasField, HasMember, HasContent};
ghost use Rattle.fidl_members.specs.Entries.{IsFirstRowOf};
ghost use Rattle.fidl_table_format.specs.Samples.{an_entry};
ghost use Rattle.fidl_decode_model.specs.Model.{Shown};
ghost use Rattle.fidl_view.specs.Elements.{part};
ghost use Rattle.fidl_view.specs.Fields.{parts_of_rows};
ghost use Rattle.fidl_members.specs.Samples.{id_and_on, id_and_id, a_table, a_union};
ghost use Rattle.fidl_members.specs.Scalars.{number_kind, scalar_of, scalar_as, scalar_size};
ghost use Rattle.fidl_members.specs.Scalars.{value_standing, type_in};

/// Bools and numbers are read as they are, bits and enums as their numbers, and strings not at all.
pub fn types_that_are_read()
    ensures flag { scalar_of ty.bool ≡ Some kinds.Bool }
    ensures number { scalar_of (ty.number int16) ≡ Some kinds.Int16 }
    ensures mask { scalar_of (ty.bits uint8 (Some 3)) ≡ Some kinds.Uint8 }
    ensures value { scalar_of (ty.enum uint16 None) ≡ Some kinds.Uint16 }
    ensures text { scalar_of (ty.string false 4) ≡ None }
    ensures own { number_kind int8 ≡ kinds.Int8 }
{}

/// Of the kinds, bits and enums are read as their underlying kind alone.
pub fn kinds_that_are_read()
    ensures flag { scalar_as kinds.Bool ≡ Some kinds.Bool }
    ensures number { scalar_as kinds.Uint32 ≡ Some kinds.Uint32 }
    ensures mask { scalar_as kinds.Bits ≡ None }
    ensures value { scalar_as kinds.Enum ≡ None }
    ensures text { scalar_as kinds.String ≡ None }
{}

/// A bool has one byte, and a number those of its kind.
pub fn sizes_of_scalars()
    ensures flag { scalar_size kinds.Bool ≡ 1 }
    ensures byte { scalar_size kinds.Int8 ≡ 1 }
    ensures short { scalar_size kinds.Uint16 ≡ 2 }
    ensures long { scalar_size kinds.Int64 ≡ 8 }
{}

/// The same bytes as a bool, as a number with a sign and as one without.
pub fn values_at_places()
    ensures yes { value_standing kinds.Bool (0 ∷ 1 ∷ []) 1 ≡ bool true }
    ensures no { value_standing kinds.Bool (0 ∷ 1 ∷ []) 0 ≡ bool false }
    ensures signed { value_standing kinds.Int8 (255 ∷ 1 ∷ []) 0 ≡ number (negsuc 0) }
    ensures unsigned { value_standing kinds.Uint8 (255 ∷ 1 ∷ []) 0 ≡ number (pos 255) }
    ensures wide { value_standing kinds.Uint16 (255 ∷ 1 ∷ []) 0 ≡ number (pos 511) }
{}

/// A type that is named has an entry, and one that is written out has none.
pub fn entries_of_types()
    ensures named { entry_named (Some (ty.named 3)) ≡ Some 3 }
    ensures written { entry_named (Some ty.bool) ≡ None }
    ensures absent { entry_named None ≡ None }
    ensures number { type_in id_and_on 1 ≡ ty.number uint8 }
    ensures apart { ¬ (owner id_and_on 0 ≡ owner id_and_on 1) }
    ensures elsewhere { ¬ (owner id_and_on 0 ≡ owner [] 0) }
{}

/// A struct of two members, by their names.
pub fn rows_by_names()
    ensures second { row_name id_and_on 1 ≡ codes "on" }
    ensures found { IsRowOf id_and_on 0 (codes "on") 1 }
    ensures other { ¬ (IsRowOf id_and_on 0 (codes "on") 0) }
    ensures past { ¬ (IsRowOf id_and_on 0 (codes "on") 2) }
    ensures none { HasNoRow id_and_on 0 (codes "of") }
    ensures some { ¬ (HasNoRow id_and_on 0 (codes "id")) }
{}

/// The same struct's members by their places, and the first of a name.
pub fn members_by_places()
    ensures typed { entry_at_row id_and_on 0 1 ≡ 1 }
    ensures second { HasField id_and_on 0 1 }
    ensures past { ¬ (HasField id_and_on 0 2) }
    ensures number { ¬ (HasField id_and_on 1 0) }
    ensures table { ¬ (HasField a_table 0 0) }
    ensures first { IsFirstRowOf id_and_on 0 (codes "id") 0 }
    ensures other { ¬ (IsFirstRowOf id_and_on 0 (codes "id") 1) }
    ensures again { ¬ (IsFirstRowOf id_and_id 0 (codes "id") 1) }
    ensures unnamed { ¬ (IsFirstRowOf id_and_on 0 (codes "of") 0) }
    ensures member { ¬ (HasMember id_and_on 0 0 1) }
    ensures known { HasMember a_table 0 1 1 }
    ensures later { ¬ (HasMember a_table 0 2 1) }
    ensures union { ¬ (HasMember a_union 0 1 1) }
{}

/// A vector, an array and a box have content. A number, a text and a struct have none.
pub fn entries_with_content()
    ensures vector { HasContent (an_entry 13 0 0 0 5 0) }
    ensures array { HasContent (an_entry 14 0 0 3 0 0) }
    ensures boxed { HasContent (an_entry 15 0 0 0 0 0) }
    ensures number { ¬ (HasContent (an_entry 6 0 0 0 0 0)) }
    ensures text { ¬ (HasContent (an_entry 12 0 0 0 5 0)) }
    ensures members { ¬ (HasContent (an_entry 16 0 0 2 0 0)) }
{}

/// The members of the struct, one by one: each of its row's entry, at its place, and no more.
pub fn members_one_by_one()
    ensures both { let d : Shown = record {
      table = id_and_on;
      entry = 0;
      bytes = [];
      handles = [];
      steps = 0;
      links = record { objects = []; records = [] };
    } in parts_of_rows d 0 16 2 ≡ part d 1 16 ∷ part d 1 17 ∷ [] }
    ensures second { let d : Shown = record {
      table = id_and_on;
      entry = 0;
      bytes = [];
      handles = [];
      steps = 0;
      links = record { objects = []; records = [] };
    } in parts_of_rows d 1 16 1 ≡ part d 1 17 ∷ [] }
    ensures none { (d : Shown) → parts_of_rows d 0 16 0 ≡ [] }
{}
