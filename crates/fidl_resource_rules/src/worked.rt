//! Worked facts: what the definitions say of small resource definitions, and what they don't.
ghost use Rattle.std.specs.Prelude.{◌≡◌, ◌≢◌, ℕ, List, [], codes, false};
ghost use Rattle.fidl_span.specs.declared.words.Span.{Span};
ghost use Rattle.fidl_tree.specs.Syntax.{Path, TypeUse, layout_type, values_layout, struct_layout};
ghost use Rattle.fidl_tree.specs.Syntax.{Members, ValueMember, bits_kind, enum_kind};
ghost use Rattle.fidl_tree.specs.Syntax.{no_underlying, underlying_type};
ghost use Rattle.fidl_tree.specs.Views.{type_view};
ghost use Rattle.fidl_tree.specs.declared.file.File.{File};
ghost use Rattle.fidl_tree.specs.declared.declaration.ResourceDefinition.{ResourceDefinition};
ghost use Rattle.fidl_named.specs.declared.meaning.Predeclared.TheVariants as Words;
ghost use Rattle.fidl_named.specs.declared.meaning.Meaning.TheVariants as Meanings;
ghost use Rattle.fidl_consts.specs.Refusals.{type_span};
ghost use Rattle.fidl_constraints.specs.Behind.{MeansType};
ghost use Rattle.fidl_constraints.specs.AliasExamples.{named_with};
ghost use Rattle.fidl_resource_rules.specs.Kinds.{IsUint32, LayoutSuits, AreOfUint32, RightsSuit};
ghost use Rattle.fidl_resource_rules.specs.Kinds.{TypeSuits};
ghost use Rattle.fidl_resource_rules.specs.Resources.{HasSubtype, ResourceHolds, ResourceBreaks};

/// The name `uint32` is uint32, and `uint64` is not.
pub fn numbers_of_32_bits()
    ensures uint32 { (files : List File) (n : ℕ) (path : Path)
        → MeansType files n path (Meanings.Predeclared Words.Uint32)
        → IsUint32 files n (named_with path []) }
    ensures uint64 { (files : List File) (n : ℕ) (path : Path)
        → MeansType files n path (Meanings.Predeclared Words.Uint64)
        → IsUint32 files n (named_with path []) → ⊥ }
{}

/// An enum is of uint32 where it says nothing else, and is no bits; a struct is neither.
pub fn enums_of_uint32()
    ensures unwritten { (files : List File) (n : ℕ) (k : Span) (ms : List ValueMember)
        → LayoutSuits files n enum_kind (values_layout enum_kind false k no_underlying ms) }
    ensures written { (files : List File) (n : ℕ) (k : Span) (ms : List ValueMember) (t : TypeUse)
        → (IsUint32 files n t → ⊥)
        → LayoutSuits files n enum_kind (values_layout enum_kind false k (underlying_type t) ms)
        → ⊥ }
    ensures no_bits { (files : List File) (n : ℕ) (k : Span) (ms : List ValueMember)
        → LayoutSuits files n bits_kind (values_layout enum_kind false k no_underlying ms) → ⊥ }
    ensures no_struct { (files : List File) (n : ℕ) (k : Span) (ms : Members)
        → LayoutSuits files n enum_kind (struct_layout false k ms) → ⊥ }
{}

/// A subtype is an enum and no number; rights may be a number; no property has another name.
pub fn subtypes_and_rights()
    ensures subtype { (files : List File) (n : ℕ) (k : Span) (ms : List ValueMember)
        → TypeSuits files n (codes "subtype")
        (layout_type [] (values_layout enum_kind false k no_underlying ms) []) }
    ensures no_number { (files : List File) (n : ℕ) (path : Path)
        → MeansType files n path (Meanings.Predeclared Words.Uint32)
        → TypeSuits files n (codes "subtype") (named_with path []) → ⊥ }
    ensures rights { (files : List File) (n : ℕ) (t : TypeUse) → IsUint32 files n t
        → TypeSuits files n (codes "rights") t }
    ensures bits { (files : List File) (n : ℕ) (t : TypeUse) → AreOfUint32 files n bits_kind t
        → RightsSuit files n t }
    ensures another { (files : List File) (n : ℕ) (t : TypeUse)
        → TypeSuits files n (codes "flavour") t → ⊥ }
{}

/// A resource definition without properties is reported at its name; of uint32 nowhere else.
pub fn a_subtype_is_required()
    ensures lacks { (f : File) → HasSubtype f [] → ⊥ }
    ensures refused { (files : List File) (n : ℕ) (f : File) (d : ResourceDefinition)
        → d.properties.members.items ≡ [] → ResourceHolds files n f d → ⊥ }
    ensures there { (files : List File) (n : ℕ) (f : File) (d : ResourceDefinition)
        → d.properties.members.items ≡ [] → ResourceBreaks files n f d d.name }
    ensures elsewhere { (files : List File) (n : ℕ) (f : File) (d : ResourceDefinition) (s : Span)
        → d.properties.members.items ≡ [] → IsUint32 files n (type_view d.constructor)
        → s ≢ d.name → ResourceBreaks files n f d s → ⊥ }
{}

/// One that is not of uint32 is reported at its type.
pub fn other_definitions_are_reported()
    ensures { (files : List File) (n : ℕ) (f : File) (d : ResourceDefinition)
        → (IsUint32 files n (type_view d.constructor) → ⊥)
        → ResourceBreaks files n f d (type_span (type_view d.constructor)) }
{}
