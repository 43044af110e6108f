//! Worked facts: what the definitions say of small methods, and what they don't.
ghost use Rattle.std.specs.Prelude.{◌≡◌, ◌≢◌, ℕ, Bool, true, false, List, [], ◌∷◌, Option, Some};
ghost use Rattle.std.specs.Prelude.{None, codes};
ghost use Rattle.fidl_span.specs.declared.words.Span.{Span};
ghost use Rattle.fidl_tree.specs.Leaf.{text_at};
ghost use Rattle.fidl_tree.specs.Syntax.{Attribute, File, Openness, open_protocol, ajar_protocol};
ghost use Rattle.fidl_tree.specs.Syntax.{closed_protocol, Path, TypeUse, Response, ProtocolMember};
ghost use Rattle.fidl_tree.specs.Syntax.{compose_member, method_member, event_member};
ghost use Rattle.fidl_declarations.specs.declared.step.Step.TheVariants as Steps;
ghost use Rattle.fidl_declarations.specs.Forms.{name_by_path};
ghost use Rattle.fidl_method_rules.specs.Texts.{IsIdentifier, IsFullName, MaySelect};
ghost use Rattle.fidl_method_rules.specs.Selectors.{selectors, Gives, SelectorsBreak};
ghost use Rattle.fidl_method_rules.specs.Methods.{Method, method_of, MayStand, named_in, Selects};
ghost use Rattle.fidl_method_rules.specs.Methods.{OrdinalIs};
ghost use Rattle.fidl_method_rules.specs.Rules.{MethodHolds, MemberHolds, MethodBreaks, strict_rule};
ghost use Rattle.fidl_method_rules.specs.Rules.{ordinal_rule, Rule, ProtocolHolds, ProtocolBreaks};
ghost use Rattle.fidl_method_rules.specs.Rules.{IsReportIn};
ghost use Rattle.fidl_method_rules.specs.MethodViews.{AreMethods, IsEntryOf, IsEntry};
ghost use Rattle.fidl_method_rules.specs.declared.fault.MethodFault.TheVariants as Faults;
ghost use Rattle.fidl_method_rules.specs.declared.methods.OwnMethod.{OwnMethod};
ghost use Rattle.fidl_named.specs.declared.place.Place.{Place};

/// A flexible method stands in an open protocol, in an ajar one where it is no two-way method, and
/// in no closed one.
pub fn where_methods_stand()
    ensures open { (m : Method) → MayStand open_protocol m }
    ensures ajar_strict { (m : Method) → m.is_strict ≡ true → MayStand ajar_protocol m }
    ensures ajar_one_way { (m : Method) → m.is_two_way ≡ false → MayStand ajar_protocol m }
    ensures no_ajar { (m : Method) → m.is_two_way ≡ true → m.is_strict ≡ false
        → MayStand ajar_protocol m → ⊥ }
    ensures closed_strict { (m : Method) → m.is_strict ≡ true → MayStand closed_protocol m }
    ensures no_closed { (m : Method) → m.is_strict ≡ false → MayStand closed_protocol m → ⊥ }
{}

/// A method with a response is two-way; an event and one without are not; a composition is none.
pub fn methods_of_members()
    ensures two_way { (own : List Attribute) (strict : Bool) (name : Span) (t : Option TypeUse)
        (r : Response) → method_of (method_member own strict name t (Some r)) ≡ Some record {
          attributes = own;
          name = name;
          is_strict = strict;
          is_two_way = true;
        } }
    ensures one_way { (own : List Attribute) (strict : Bool) (name : Span) (t : Option TypeUse)
        → method_of (method_member own strict name t None) ≡ Some record {
          attributes = own;
          name = name;
          is_strict = strict;
          is_two_way = false;
        } }
    ensures event { (own : List Attribute) (strict : Bool) (name : Span) (t : Option TypeUse)
        → method_of (event_member own strict name t) ≡ Some record {
          attributes = own;
          name = name;
          is_strict = strict;
          is_two_way = false;
        } }
    ensures composition { (own : List Attribute) (path : Path) (f : File) (openness : Openness)
        (protocol : Span) → MemberHolds f openness protocol (compose_member own path) }
{}

/// `Get_2` is an identifier; a text with `_` at its end, a digit at its head, or a byte that is no
/// word byte is not, nor is the empty text.
pub fn identifiers_by_themselves()
    ensures word { IsIdentifier (codes "Get_2") }
    ensures no_end { IsIdentifier (codes "Get_") → ⊥ }
    ensures no_head { IsIdentifier (codes "2Get") → ⊥ }
    ensures no_blank { IsIdentifier (codes "G t") → ⊥ }
    ensures no_empty { IsIdentifier [] → ⊥ }
{}

/// A full name has one slash, and behind it one dot.
pub fn full_names()
    ensures whole { IsFullName (codes "a.b/P.M") }
    ensures no_slash { IsFullName (codes "abc") → ⊥ }
    ensures two_slashes { IsFullName (codes "a/b/P.M") → ⊥ }
    ensures no_method { IsFullName (codes "a/P") → ⊥ }
    ensures no_selection { MaySelect (codes "P.M") → ⊥ }
{}

/// The method `M` of the protocol `P` in the library `lib` has the full name `lib/P.M`, and what is
/// called `x` there is `lib/P.x`.
pub fn names_of_methods()
    ensures name { (f : File) (l p m : Span) → f.library ≡ l ∷ []
        → text_at f.source l ≡ codes "lib" → text_at f.source p ≡ codes "P"
        → text_at f.source m ≡ codes "M"
        → name_by_path f (Steps.Name p ∷ Steps.Name m ∷ []) ≡ codes "lib/P.M" }
    ensures other { (f : File) (l p : Span) → f.library ≡ l ∷ []
        → text_at f.source l ≡ codes "lib" → text_at f.source p ≡ codes "P"
        → named_in f p (codes "x") ≡ codes "lib/P.x" }
{}

/// An attribute called `selector` is a selector, and one called `doc` is none; a second selector is
/// wrong, at its own name and not at the first.
pub fn selectors_among_attributes()
    ensures selector { (src : List ℕ) (a : Attribute) → text_at src a.name ≡ codes "selector"
        → selectors src (a ∷ []) ≡ a ∷ [] }
    ensures other { (src : List ℕ) (a : Attribute) → text_at src a.name ≡ codes "doc"
        → selectors src (a ∷ []) ≡ [] }
    ensures second { (src : List ℕ) (a b : Attribute) → selectors src (a ∷ b ∷ []) ≡ a ∷ b ∷ []
        → SelectorsBreak src (a ∷ b ∷ []) b.name }
    ensures not_the_first { (src : List ℕ) (a b : Attribute)
        → selectors src (a ∷ b ∷ []) ≡ a ∷ b ∷ [] → a.name ≢ b.name
        → SelectorsBreak src (a ∷ b ∷ []) a.name → ⊥ }
    ensures no_argument { (src : List ℕ) (a : Attribute) (text : List ℕ) → a.arguments ≡ []
        → Gives src a text → ⊥ }
{}

/// An identifier takes the place of the method's name alone, and a full name that of all the text.
pub fn what_selectors_select()
    ensures name { (f : File) (p : Span) (text : List ℕ) → IsIdentifier text
        → Selects f p text (named_in f p text) }
    ensures whole { (f : File) (p : Span) (text : List ℕ) → IsFullName text
        → Selects f p text text }
    ensures no_more { (f : File) (p : Span) (given text : List ℕ) → IsFullName given
        → text ≢ given → Selects f p given text → ⊥ }
{}

/// A method whose ordinal is 0 does not hold, and is reported at its name.
pub fn ordinals_are_not_zero()
    ensures refused { (f : File) (openness : Openness) (p : Span) (m : Method)
        → OrdinalIs f p m 0 → MethodHolds f openness p m → ⊥ }
    ensures there { (f : File) (openness : Openness) (p : Span) (m : Method)
        → OrdinalIs f p m 0 → MethodBreaks f openness p m ordinal_rule m.name }
    ensures elsewhere { (f : File) (openness : Openness) (p : Span) (m : Method) (s : Span)
        → s ≢ m.name → MethodBreaks f openness p m ordinal_rule s → ⊥ }
    ensures not_strict { (f : File) (openness : Openness) (p : Span) (m : Method) (s : Span)
        → s ≢ m.name → MethodBreaks f openness p m strict_rule s → ⊥ }
{}

/// No members have no entries, a composition has none, and a method has one.
pub fn entries_of_members()
    ensures none { (f : File) (p : Span) → AreMethods f p [] [] }
    ensures not_left_out { (f : File) (p : Span) (member : ProtocolMember) (m : Method)
        → method_of member ≡ Some m → AreMethods f p (member ∷ []) [] → ⊥ }
{}

/// A protocol without methods keeps the rules of methods. A closed one with a flexible method breaks
/// one, which is reported at the method's name in its own file.
pub fn protocols_and_their_methods()
    ensures none { (f : File) (openness : Openness) (p : Span) → ProtocolHolds f openness p [] }
    ensures composition { (f : File) (openness : Openness) (p : Span) (own : List Attribute)
        (path : Path) → ProtocolHolds f openness p (compose_member own path ∷ []) }
    ensures refused { (f : File) (p : Span) (member : ProtocolMember) (m : Method)
        → method_of member ≡ Some m → m.is_strict ≡ false
        → ProtocolHolds f closed_protocol p (member ∷ []) → ⊥ }
    ensures there { (f : File) (p : Span) (member : ProtocolMember) (m : Method)
        → method_of member ≡ Some m → m.is_strict ≡ false
        → ProtocolBreaks f closed_protocol p (member ∷ []) strict_rule m.name }
    ensures nothing { (f : File) (openness : Openness) (p : Span) (rule : Rule) (s : Span)
        → ProtocolBreaks f openness p [] rule s → ⊥ }
    ensures other_file { (f : File) (openness : Openness) (p : Span) (ms : List ProtocolMember)
        (place : Place) → place.file ≡ 1
        → IsReportIn 0 (ProtocolBreaks f openness p ms) (Faults.NotStrict place) → ⊥ }
{}

/// An entry says what a method of the protocol is; a composition has none, and nothing stands past
/// the last member.
pub fn what_entries_say()
    ensures composition { (f : File) (p : Span) (own : List Attribute) (path : Path)
        (entry : OwnMethod) → IsEntryOf f p (compose_member own path) entry → ⊥ }
    ensures own { (f : File) (p : Span) (member : ProtocolMember) (m : Method) (entry : OwnMethod)
        → method_of member ≡ Some m → entry.name ≡ m.name → entry.is_strict ≡ m.is_strict
        → OrdinalIs f p m entry.ordinal → IsEntryOf f p member entry }
    ensures other_name { (f : File) (p : Span) (member : ProtocolMember) (m : Method)
        (entry : OwnMethod) → method_of member ≡ Some m → entry.name ≢ m.name
        → IsEntryOf f p member entry → ⊥ }
    ensures past { (f : File) (p : Span) (entry : OwnMethod) → IsEntry f p [] entry → ⊥ }
{}
