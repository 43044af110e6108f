//! Worked facts: which forms are roots, how many members are written, and what refusals say.
ghost use Rattle.std.specs.Prelude.{◌≡◌, ℕ, List, [], ◌∷◌, length, true, false, None, Some};
ghost use Rattle.std.specs.List.{Contains};
ghost use Rattle.fidl_span.specs.declared.words.Span.{Span};
ghost use Rattle.fidl_tree.specs.Syntax.{Layout, Members, ValueMember, bits_kind, no_underlying};
ghost use Rattle.fidl_tree.specs.Syntax.{Attribute, Path, TypeUse};
ghost use Rattle.fidl_tree.specs.Syntax.{Response, values_layout, struct_layout};
ghost use Rattle.fidl_tree.specs.declared.file.File.{File};
ghost use Rattle.fidl_named.specs.declared.place.Place.{Place};
ghost use Rattle.fidl_declarations.specs.declared.step.Step.{Step};
ghost use Rattle.fidl_declarations.specs.Forms.{Form, layout_form, result_form};
ghost use Rattle.fidl_declarations.specs.Sites.{type_site, aliased_type, service_type};
ghost use Rattle.fidl_declarations.specs.Sites.{second_argument, attributes_site};
ghost use Rattle.fidl_consts.specs.Refusals.{type_span};
ghost use Rattle.fidl_lower_types.specs.Terms.{TermIs};
ghost use Rattle.fidl_lower_layouts.specs.Definitions.{DefinitionsAre};
ghost use Rattle.fidl_type_shape.specs.declared.fault.Excess.{Excess};
ghost use Rattle.fidl_type_shape.specs.declared.fault.Excess.TheVariants as Limits;
ghost use Rattle.fidl_type_shape.specs.Samples.{bytes, arrays};
ghost use Rattle.fidl_layout.specs.declared.fault.LayoutFault.TheVariants as Faults;
ghost use Rattle.fidl_layout.specs.Roots.{IsRoot, AreRoots};
ghost use Rattle.fidl_layout.specs.Written.{written_values, ValuesFit, HasTooManyValues};
ghost use Rattle.fidl_layout.specs.Laid.{AreLaidOut};
ghost use Rattle.fidl_layout.specs.Faults.{UseExceeds, IsTrueOfLayout};
ghost use Rattle.fidl_layout.specs.Uses.{written_type, StandsIn, UseFits, SiteFits, UsesFit};

/// A form is no root where it stands for a union that may be absent or for a result, where its path
/// has more than a name, or where no type is declared.
pub fn what_is_no_root()
    ensures optional { (files : List File) (form : Form) (l : Layout)
        → form.kind ≡ layout_form true l → IsRoot files form → ⊥ }
    ensures result { (files : List File) (form : Form) (strict : _) (r : Response)
        → form.kind ≡ result_form strict r → IsRoot files form → ⊥ }
    ensures inner { (files : List File) (form : Form) (s t : Step) (path : List Step)
        → form.path ≡ s ∷ t ∷ path → IsRoot files form → ⊥ }
    ensures nowhere { (form : Form) → IsRoot [] form → ⊥ }
{}

/// No files have no roots.
pub fn roots_of_no_files()
    ensures none { AreRoots [] [] }
    ensures one { (i : ℕ) → AreRoots [] (i ∷ []) → ⊥ }
{}

/// Each member of bits and enums counts, and none of a struct; 65,535 fit, and one more doesn't.
pub fn how_many_are_written()
    ensures of_bits { (kw : Span) (m n : ValueMember) → written_values (layout_form false
        (values_layout bits_kind false kw no_underlying (m ∷ n ∷ []))) ≡ 2 }
    ensures of_structs { (is_resource : _) (kw : Span) (ms : Members) → written_values
        (layout_form false (struct_layout is_resource kw ms)) ≡ 0 }
    ensures fit { ValuesFit [] }
    ensures last { (form : Form) (kw : Span) (ms : List ValueMember) → length ms ≡ 65535
        → form.kind ≡ layout_form false (values_layout bits_kind false kw no_underlying ms)
        → ValuesFit (form ∷ []) }
    ensures past { (form : Form) (kw : Span) (ms : List ValueMember) → length ms ≡ 65536
        → form.kind ≡ layout_form false (values_layout bits_kind false kw no_underlying ms)
        → HasTooManyValues (form ∷ []) 0 }
    ensures not_past { (form : Form) (kw : Span) (ms : List ValueMember) → length ms ≡ 65535
        → form.kind ≡ layout_form false (values_layout bits_kind false kw no_underlying ms)
        → HasTooManyValues (form ∷ []) 0 → ⊥ }
    ensures none { (i : ℕ) → HasTooManyValues [] i → ⊥ }
{}

/// A type is written at its site, also where only an alias writes it; behind another argument stands
/// a count.
pub fn types_at_sites()
    ensures of_aliases { (t : TypeUse) → written_type (type_site aliased_type t) ≡ Some t }
    ensures of_services { (t : TypeUse) → written_type (type_site service_type t) ≡ Some t }
    ensures counts { (head : Path) (t : TypeUse)
        → written_type (type_site (second_argument head) t) ≡ None }
    ensures others { (marks : List Attribute) → written_type (attributes_site marks) ≡ None }
{}

/// An array of 65,535 bytes fits, and one of 65,536 doesn't, though only an alias writes it; 32
/// arrays in one another fit, and 33 don't.
pub fn arrays_in_aliases()
    ensures last { (files : List File) (number : ℕ) (t : TypeUse)
        → TermIs files number t (bytes 65535) → UseFits files [] number t }
    ensures past { (files : List File) (number : ℕ) (t : TypeUse)
        → StandsIn files number (type_site aliased_type t) → TermIs files number t (bytes 65536)
        → UsesFit files [] → ⊥ }
    ensures past_count { (files : List File) (number : ℕ) (head : Path) (t : TypeUse)
        → SiteFits files [] number (type_site (second_argument head) t) }
    ensures large { (files : List File) (place : Place) (t : TypeUse) → DefinitionsAre files []
        → StandsIn files place.file (type_site aliased_type t) → place.span ≡ type_span t
        → TermIs files place.file t (bytes 65536) → UseExceeds files Limits.Size place }
    ensures deep { (files : List File) (place : Place) (t : TypeUse) → DefinitionsAre files []
        → StandsIn files place.file (type_site aliased_type t) → place.span ≡ type_span t
        → TermIs files place.file t (arrays 33) → UseExceeds files Limits.Nest place }
    ensures last_deep { (files : List File) (number : ℕ) (t : TypeUse)
        → TermIs files number t (arrays 32) → UseFits files [] number t }
    ensures none { (excess : Excess) (place : Place) → UseExceeds [] excess place → ⊥ }
{}

/// No files are laid out, and nothing but lack of memory is said of them.
pub fn no_files()
    ensures laid_out { AreLaidOut [] (record { terms = []; figures = [] }) }
    ensures too_many { (place : Place) → IsTrueOfLayout [] (Faults.TooManyTypes place) → ⊥ }
    ensures large { (place : Place) → IsTrueOfLayout [] (Faults.TooLarge place) → ⊥ }
    ensures nested { (place : Place) → IsTrueOfLayout [] (Faults.TooNested place) → ⊥ }
    ensures members { (place : Place) → IsTrueOfLayout [] (Faults.TooManyMembers place) → ⊥ }
    ensures memory { IsTrueOfLayout [] Faults.Memory }
{}
