//! Worked facts: what the definitions say of small types, and what they don't.
ghost use Rattle.std.specs.Prelude.{◌≡◌, ◌≢◌, ℕ, List, [], ◌∷◌, Option, None, Some};
ghost use Rattle.std.specs.Prelude.{true, false, slice_get};
ghost use Rattle.fidl_span.specs.declared.words.Span.{Span};
ghost use Rattle.fidl_tree.specs.Syntax.{Path, Value, TypeUse, named_type, layout_type};
ghost use Rattle.fidl_tree.specs.Syntax.{Arguments, no_arguments, next_argument, Argument};
ghost use Rattle.fidl_tree.specs.Syntax.{type_argument, Layout, Members, struct_layout};
ghost use Rattle.fidl_tree.specs.Syntax.{table_layout};
ghost use Rattle.fidl_tree.specs.declared.file.File.{File};
ghost use Rattle.fidl_named.specs.declared.place.DeclarationId.{DeclarationId};
ghost use Rattle.fidl_named.specs.declared.meaning.Predeclared.TheVariants as Words;
ghost use Rattle.fidl_named.specs.declared.meaning.Meaning.TheVariants as Meanings;
ghost use Rattle.fidl_named.specs.Paths.{path_place};
ghost use Rattle.fidl_constraints.specs.Behind.{MeansType, RefersTo, follows, word_head};
ghost use Rattle.fidl_constraints.specs.AliasExamples.{named_with, plain_word};
ghost use Rattle.fidl_constraints.specs.declared.parts.PartKind.TheVariants as Kinds;
ghost use Rattle.fidl_constraints.specs.Examples.{part};
ghost use Rattle.fidl_declarations.specs.Sites.{Role, any_type, aliased_type, bare_type, present_type};
ghost use Rattle.fidl_declarations.specs.Sites.{service_type, second_argument, type_site};
ghost use Rattle.fidl_type_rules.specs.Words.{is_float, IsLeftOut, ArgumentsSuit, ComesToStruct};
ghost use Rattle.fidl_type_rules.specs.Words.{IsBoxOf, BoxesOther};
ghost use Rattle.fidl_type_rules.specs.Made.{first_type, IsMadeOf, HasTerm};
ghost use Rattle.fidl_type_rules.specs.Places.{WantsType, is_complete, is_bare, role_suits};
ghost use Rattle.fidl_type_rules.specs.Places.{presence_suits};
ghost use Rattle.fidl_type_rules.specs.Uses.{UseHolds, SiteHolds, UseBreaks, SiteBreaks};
ghost use Rattle.fidl_type_rules.specs.Uses.{constraint_rule, box_rule, member_rule, profile_rule};

/// `float32` and `float64` are left out, and no other; a type is left out by its own name.
pub fn floats_are_left_out()
    ensures floats { (is_float Words.Float32 ≡ true) × (is_float Words.Float64 ≡ true) }
    ensures whole { is_float Words.Uint64 ≡ false }
    ensures by_name { (files : List File) (n : ℕ) (path : Path) (cs : List Value)
        → MeansType files n path (Meanings.Predeclared Words.Float32)
        → IsLeftOut files n (named_with path cs) }
    ensures by_another { (files : List File) (n : ℕ) (path : Path) (cs : List Value)
        → MeansType files n path (Meanings.Predeclared Words.Uint64)
        → IsLeftOut files n (named_with path cs) → ⊥ }
    ensures layout { (files : List File) (n : ℕ) (l : Layout) (cs : List Value)
        → IsLeftOut files n (layout_type [] l cs) → ⊥ }
{}

/// Arguments stand behind predeclared names, and behind no declared one.
pub fn arguments_of_names()
    ensures word { (files : List File) (n : ℕ) (path : Path) (given : Arguments)
        → MeansType files n path (Meanings.Predeclared Words.Vector)
        → ArgumentsSuit files n (named_type path given []) }
    ensures without { (files : List File) (n : ℕ) (path : Path) (cs : List Value)
        → ArgumentsSuit files n (named_type path no_arguments cs) }
    ensures declared { (files : List File) (n : ℕ) (path : Path) (p : DeclarationId)
        (a : Argument) (rest : Arguments) → MeansType files n path (Meanings.Declared p)
        → ArgumentsSuit files n (named_type path (next_argument a rest) []) → ⊥ }
{}

/// A type is made of its first argument, and of the type of the alias that it names.
pub fn what_types_are_made_of()
    ensures first { (t : TypeUse) (rest : Arguments)
        → first_type (next_argument (type_argument t) rest) ≡ Some t }
    ensures none { first_type no_arguments ≡ None }
    ensures argument { (files : List File) (n : ℕ) (path : Path) (t : TypeUse) (rest : Arguments)
        → IsMadeOf files n (named_type path (next_argument (type_argument t) rest) []) n t }
    ensures alias { (files : List File) (n of : ℕ) (path : Path) (u : TypeUse)
        → RefersTo files n (named_with path []) (follows of u)
        → IsMadeOf files n (named_with path []) of u }
    ensures layout { (files : List File) (n of : ℕ) (l : Layout) (u : TypeUse)
        → IsMadeOf files n (layout_type [] l []) of u → ⊥ }
{}

/// A use of an alias whose type has no term isn't reported as wrongly written, nor is a type with
/// such an argument: what it is made of is.
pub fn what_is_made_of_wrong_types()
    ensures alias { (files : List File) (n of : ℕ) (role : Role) (path : Path) (u : TypeUse)
        (s : Span) → RefersTo files n (named_with path []) (follows of u)
        → (HasTerm files of u → ⊥)
        → UseBreaks files n role (named_with path []) constraint_rule s → ⊥ }
    ensures argument { (files : List File) (n : ℕ) (role : Role) (path : Path) (u : TypeUse)
        (s : Span) → (HasTerm files n u → ⊥)
        → UseBreaks files n role (named_type path (next_argument (type_argument u) no_arguments)
        []) constraint_rule s → ⊥ }
{}

/// A box is of its only argument; a struct is one, and a table is none.
pub fn boxes_are_of_structs()
    ensures boxed { (files : List File) (n : ℕ) (path : Path) (t : TypeUse)
        → MeansType files n path (Meanings.Predeclared Words.Box)
        → IsBoxOf files n (named_type path (next_argument (type_argument t) no_arguments) []) t }
    ensures of_two { (files : List File) (n : ℕ) (path : Path) (a b : Argument) (t : TypeUse)
        → IsBoxOf files n (named_type path (next_argument a (next_argument b no_arguments)) []) t
        → ⊥ }
    ensures of_struct { (files : List File) (n : ℕ) (k : Span) (ms : Members)
        → ComesToStruct files n (layout_type [] (struct_layout false k ms) []) }
    ensures of_table { (files : List File) (n : ℕ) (k : Span) (ms : Members)
        → ComesToStruct files n (layout_type [] (table_layout false k ms) []) → ⊥ }
{}

/// An end has a protocol, but an alias may leave it open.
pub fn ends_have_a_protocol()
    ensures given { is_complete (plain_word Words.ClientEnd) (part Kinds.Protocol 0 ∷ []) ≡ true }
    ensures without { is_complete (plain_word Words.ServerEnd) [] ≡ false }
    ensures other { is_complete (plain_word Words.String) [] ≡ true }
    ensures aliased { (t : TypeUse) → role_suits aliased_type t (plain_word Words.ClientEnd) []
        ≡ true }
    ensures used { (t : TypeUse) → role_suits any_type t (plain_word Words.ClientEnd) [] ≡ false }
{}

/// An underlying type has neither arguments nor constraints.
pub fn underlying_types_are_bare()
    ensures bare { (path : Path) → is_bare (named_type path no_arguments []) ≡ true }
    ensures constrained { (path : Path) (v : Value)
        → is_bare (named_type path no_arguments (v ∷ [])) ≡ false }
    ensures with_argument { (path : Path) (a : Argument)
        → is_bare (named_type path (next_argument a no_arguments) []) ≡ false }
    ensures suits { (path : Path)
        → role_suits bare_type (named_with path []) (plain_word Words.Uint8) [] ≡ true }
    ensures other { (path : Path) (v : Value)
        → role_suits bare_type (named_with path (v ∷ [])) (plain_word Words.Uint8) [] ≡ false }
{}

/// A member of a service is the client end of a protocol, and never absent.
pub fn members_of_services_are_client_ends()
    ensures client { (t : TypeUse) → role_suits service_type t (plain_word Words.ClientEnd)
        (part Kinds.Protocol 0 ∷ []) ≡ true }
    ensures absent { (t : TypeUse) → role_suits service_type t (plain_word Words.ClientEnd)
        (part Kinds.Protocol 0 ∷ part Kinds.Optional 0 ∷ []) ≡ false }
    ensures without { (t : TypeUse)
        → role_suits service_type t (plain_word Words.ClientEnd) [] ≡ false }
    ensures server { (t : TypeUse) → role_suits service_type t (plain_word Words.ServerEnd)
        (part Kinds.Protocol 0 ∷ []) ≡ false }
{}

/// A member of a table is neither optional nor a box; one of a struct may be.
pub fn members_of_tables_are_present()
    ensures string { presence_suits present_type (plain_word Words.String) [] ≡ true }
    ensures optional { presence_suits present_type (plain_word Words.String)
        (part Kinds.Optional 0 ∷ []) ≡ false }
    ensures boxed { (given : Arguments)
        → presence_suits present_type (word_head Words.Box given) [] ≡ false }
    ensures elsewhere { (given : Arguments) → (presence_suits any_type (plain_word Words.String)
        (part Kinds.Optional 0 ∷ []) ≡ true)
        × (presence_suits any_type (word_head Words.Box given) [] ≡ true) }
{}

/// The second argument of `array` is not judged as a type, that of another type is.
pub fn counts_are_no_types()
    ensures array { (files : List File) (n : ℕ) (path : Path) (t : TypeUse)
        → MeansType files n path (Meanings.Predeclared Words.Array)
        → SiteHolds files n (type_site (second_argument path) t) }
    ensures other { (files : List File) (n : ℕ) (path : Path)
        → MeansType files n path (Meanings.Predeclared Words.Vector)
        → WantsType files n (second_argument path) }
{}

/// A bool without constraints is proper, one with a constraint and a float are not.
pub fn bools_are_proper()
    ensures bool { (files : List File) (n : ℕ) (path : Path)
        → MeansType files n path (Meanings.Predeclared Words.Bool)
        → UseHolds files n present_type (named_with path []) }
    ensures constrained { (files : List File) (n : ℕ) (path : Path) (v : Value)
        → MeansType files n path (Meanings.Predeclared Words.Bool)
        → UseHolds files n any_type (named_with path (v ∷ [])) → ⊥ }
    ensures float { (files : List File) (n : ℕ) (path : Path)
        → MeansType files n path (Meanings.Predeclared Words.Float64)
        → UseHolds files n any_type (named_with path []) → ⊥ }
{}

/// An end without a protocol is proper as what an alias stands for, and nowhere else.
pub fn open_ends_are_proper_in_aliases()
    ensures aliased { (files : List File) (n : ℕ) (path : Path)
        → MeansType files n path (Meanings.Predeclared Words.ClientEnd)
        → UseHolds files n aliased_type (named_with path []) }
    ensures used { (files : List File) (n : ℕ) (path : Path)
        → MeansType files n path (Meanings.Predeclared Words.ClientEnd)
        → UseHolds files n any_type (named_with path []) → ⊥ }
{}

/// A float is reported at its name as left out, and neither elsewhere nor as wrongly written.
pub fn floats_are_reported_at_their_names()
    ensures there { (files : List File) (n : ℕ) (role : Role) (path : Path)
        → MeansType files n path (Meanings.Predeclared Words.Float32)
        → UseBreaks files n role (named_with path []) profile_rule (path_place path) }
    ensures elsewhere { (files : List File) (n : ℕ) (role : Role) (path : Path) (s : Span)
        → s ≢ path_place path → UseBreaks files n role (named_with path []) profile_rule s → ⊥ }
    ensures otherwise { (files : List File) (n : ℕ) (role : Role) (path : Path) (s : Span)
        → MeansType files n path (Meanings.Predeclared Words.Float32)
        → UseBreaks files n role (named_with path []) constraint_rule s → ⊥ }
{}

/// A box of a table is reported at the table's keyword, and not as wrongly written.
pub fn boxes_are_reported_at_what_they_hold()
    ensures there { (files : List File) (n : ℕ) (role : Role) (path : Path) (k : Span)
        (ms : Members) → MeansType files n path (Meanings.Predeclared Words.Box)
        → UseBreaks files n role (named_type path (next_argument (type_argument
        (layout_type [] (table_layout false k ms) [])) no_arguments) []) box_rule k }
    ensures otherwise { (files : List File) (n : ℕ) (role : Role) (path : Path) (k s : Span)
        (ms : Members) → MeansType files n path (Meanings.Predeclared Words.Box)
        → UseBreaks files n role (named_type path (next_argument (type_argument
        (layout_type [] (table_layout false k ms) [])) no_arguments) []) constraint_rule s → ⊥ }
{}

/// A box in a table is reported as a member that may be absent; none in a struct is, nor a count.
pub fn optional_members_are_reported()
    ensures member { (files : List File) (n : ℕ) (path : Path) (t : TypeUse)
        → MeansType files n path (Meanings.Predeclared Words.Box)
        → UseBreaks files n present_type (named_type path (next_argument (type_argument t)
        no_arguments) []) member_rule (path_place path) }
    ensures other { (files : List File) (n : ℕ) (t : TypeUse) (s : Span)
        → UseBreaks files n any_type t member_rule s → ⊥ }
    ensures count { (files : List File) (n : ℕ) (path : Path) (t : TypeUse) (s : Span)
        → MeansType files n path (Meanings.Predeclared Words.Array)
        → SiteBreaks files n (type_site (second_argument path) t) member_rule s → ⊥ }
{}
