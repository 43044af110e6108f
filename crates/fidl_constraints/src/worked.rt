//! Worked facts: what the definitions say of small constraints, and what they don't.
ghost use Rattle.std.specs.Prelude.{◌≡◌, ◌≢◌, ℕ, pos, List, [], ◌∷◌, Option, None, Some};
ghost use Rattle.std.specs.Prelude.{true, false, slice_get};
ghost use Rattle.fidl_span.specs.declared.words.Span.{Span};
ghost use Rattle.fidl_tree.specs.Syntax.{Value, TypeUse, Members, struct_layout, union_layout};
ghost use Rattle.fidl_tree.specs.Syntax.{Arguments};
ghost use Rattle.fidl_tree.specs.declared.file.File.{File};
ghost use Rattle.fidl_named.specs.declared.place.DeclarationId.{DeclarationId};
ghost use Rattle.fidl_named.specs.declared.meaning.Predeclared.TheVariants as Words;
ghost use Rattle.fidl_named.specs.Constraints.{is_optional};
ghost use Rattle.fidl_consts.specs.declared.const_type.NumberKind.TheVariants.{Uint32};
ghost use Rattle.fidl_consts.specs.declared.const_type.ConstType.TheVariants as Types;
ghost use Rattle.fidl_consts.specs.PlainValues.{a_number};
ghost use Rattle.fidl_consts.specs.Values.{ValueIs};
ghost use Rattle.fidl_constraints.specs.Behind.{word_head, layout_head, handle_head, Core};
ghost use Rattle.fidl_constraints.specs.AliasExamples.{plain_word};
ghost use Rattle.fidl_constraints.specs.declared.parts.PartKind.TheVariants as Kinds;
ghost use Rattle.fidl_constraints.specs.declared.parts.Part.{Part};
ghost use Rattle.fidl_constraints.specs.Items.{items_from};
ghost use Rattle.fidl_constraints.specs.Parts.{GivenOnce, optional_in, protocol_in, bound_in};
ghost use Rattle.fidl_constraints.specs.Parts.{subtype_in, rights_in};
ghost use Rattle.fidl_constraints.specs.Gives.{may_be_absent, property_kind, ordinary_kind, IsAmount};
ghost use Rattle.fidl_constraints.specs.Gives.{Gives, IsGathered};
ghost use Rattle.fidl_constraints.specs.Examples.{item_of, part};

/// In `<optional, 4>` the number is the first that isn't the word, and the last constraint.
pub fn words_have_no_rank()
    ensures seen { (f : File) (v w : Value) → is_optional f v ≡ true → is_optional f w ≡ false
        → items_from (Some f) 7 0 (v ∷ w ∷ [])
        ≡ item_of 7 v true 0 false ∷ item_of 7 w false 0 true ∷ [] }
    ensures other { (f : File) (v w : Value) → is_optional f v ≡ true → is_optional f w ≡ false
        → items_from (Some f) 7 0 (v ∷ w ∷ [])
        ≢ item_of 7 v true 0 false ∷ item_of 7 w false 1 true ∷ [] }
{}

/// A bound and the word `optional` are given once each, two bounds are not.
pub fn parts_are_given_once()
    ensures once { GivenOnce (part Kinds.Bound 4 ∷ part Kinds.Optional 0 ∷ []) }
    ensures twice { GivenOnce (part Kinds.Bound 4 ∷ part Kinds.Bound 8 ∷ []) → ⊥ }
{}

/// What is given holds, and its default where nothing is.
pub fn parts_with_their_defaults()
    ensures bound { bound_in (part Kinds.Optional 0 ∷ part Kinds.Bound 7 ∷ []) ≡ 7 }
    ensures no_bound { bound_in (part Kinds.Optional 0 ∷ []) ≡ 4294967295 }
    ensures subtype { subtype_in (part Kinds.Subtype 4 ∷ part Kinds.Rights 2 ∷ []) ≡ 4 }
    ensures no_subtype { subtype_in (part Kinds.Rights 2 ∷ []) ≡ 0 }
    ensures rights { rights_in (part Kinds.Subtype 4 ∷ part Kinds.Rights 2 ∷ []) ≡ 2 }
    ensures no_rights { rights_in (part Kinds.Subtype 4 ∷ []) ≡ 2147483648 }
    ensures word { (optional_in (part Kinds.Bound 7 ∷ part Kinds.Optional 0 ∷ []) ≡ true)
        × (optional_in (part Kinds.Bound 7 ∷ []) ≡ false) }
    ensures protocol { (protocol_in (part Kinds.Protocol 0 ∷ []) ≡ true)
        × (protocol_in (part Kinds.Optional 0 ∷ []) ≡ false) }
{}

/// Strings and unions may be absent, structs and bools may not, and a handle is absent by the last
/// constraint of a list alone.
pub fn types_that_may_be_absent()
    ensures strings { may_be_absent (plain_word Words.String) false ≡ true }
    ensures unions { (k : Span) (ms : Members)
        → may_be_absent (layout_head (union_layout false false k ms)) false ≡ true }
    ensures structs { (k : Span) (ms : Members)
        → may_be_absent (layout_head (struct_layout false k ms)) true ≡ false }
    ensures bools { may_be_absent (plain_word Words.Bool) true ≡ false }
    ensures handles { (p : DeclarationId) → (may_be_absent (handle_head p) true ≡ true)
        × (may_be_absent (handle_head p) false ≡ false) }
{}

/// Constraints of a vector are bounds, of an end protocols, of a handle its subtype and then its
/// rights; an array has none.
pub fn kinds_of_constraints()
    ensures vectors { (arguments : Arguments)
        → ordinary_kind (word_head Words.Vector arguments) 3 ≡ Some Kinds.Bound }
    ensures ends { ordinary_kind (plain_word Words.ServerEnd) 0 ≡ Some Kinds.Protocol }
    ensures handles { (p : DeclarationId) → (ordinary_kind (handle_head p) 0 ≡ Some Kinds.Subtype)
        × (ordinary_kind (handle_head p) 1 ≡ Some Kinds.Rights) }
    ensures third { property_kind 2 ≡ None }
    ensures arrays { (arguments : Arguments)
        → ordinary_kind (word_head Words.Array arguments) 0 ≡ None }
    ensures other { (p : DeclarationId) → ordinary_kind (handle_head p) 0 ≢ Some Kinds.Rights }
{}

/// A constraint that is 5 gives the bound 5 and no other; a bool takes none.
pub fn bounds_are_their_values()
    ensures gives { (files : List File) (f : File) (v : Value) → slice_get files 0 ≡ Some f
        → ValueIs files f (Types.Number Uint32) v (a_number (pos 5))
        → Gives files (plain_word Words.String) (item_of 0 v false 0 true) (part Kinds.Bound 5) }
    ensures other { (files : List File) (f : File) (v : Value) → slice_get files 0 ≡ Some f
        → ValueIs files f (Types.Number Uint32) v (a_number (pos 5))
        → Gives files (plain_word Words.String) (item_of 0 v false 0 true) (part Kinds.Bound 6)
        → ⊥ }
    ensures no_bool { (files : List File) (v : Value) (p : Part)
        → Gives files (plain_word Words.Bool) (item_of 0 v false 0 true) p → ⊥ }
{}

/// The word `optional` and a protocol have the number 0 and no other.
pub fn words_have_no_number()
    ensures word { (files : List File) (v : Value) → IsAmount files (plain_word Words.String)
        (item_of 0 v true 0 true) Kinds.Optional 0 }
    ensures other_word { (files : List File) (v : Value)
        → IsAmount files (plain_word Words.String) (item_of 0 v true 0 true) Kinds.Optional 1 → ⊥ }
    ensures other_protocol { (files : List File) (v : Value)
        → IsAmount files (plain_word Words.ClientEnd) (item_of 0 v false 0 true) Kinds.Protocol 1
        → ⊥ }
{}

/// Nothing gathers two bounds.
pub fn bounds_are_gathered_once()
    ensures { (files : List File) (n : ℕ) (t : TypeUse) (core : Core) → IsGathered files n t core
        (part Kinds.Bound 4 ∷ part Kinds.Bound 4 ∷ []) → ⊥ }
{}
