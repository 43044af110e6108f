//! Worked facts: what the definitions say of small sets of protocols, and what they don't.
ghost use Rattle.std.specs.Prelude.{◌≡◌, ◌≢◌, ℕ, List, [], ◌∷◌};
ghost use Rattle.fidl_span.specs.declared.words.Span.{Span};
ghost use Rattle.fidl_tree.specs.Syntax.{Path, Attribute, ProtocolMember, Openness, TypeUse};
ghost use Rattle.fidl_tree.specs.Syntax.{compose_member, protocol_body, alias_body};
ghost use Rattle.fidl_tree.specs.Syntax.{open_protocol, ajar_protocol, closed_protocol};
ghost use Rattle.fidl_tree.specs.Views.{declared_name, declared_view};
ghost use Rattle.fidl_tree.specs.declared.file.File.{File};
ghost use Rattle.fidl_tree.specs.declared.declaration.Declaration.{Declaration};
ghost use Rattle.fidl_named.specs.declared.place.Place.{Place};
ghost use Rattle.fidl_named.specs.declared.place.DeclarationId.{DeclarationId};
ghost use Rattle.fidl_named.specs.Constraints.{IsDeclarationAt};
ghost use Rattle.fidl_cycles.specs.Cycles.{Leads};
ghost use Rattle.fidl_named.specs.Paths.{path_place};
ghost use Rattle.fidl_composition.specs.Protocols.{IsProtocolAt, HasOpenness, IsProtocol};
ghost use Rattle.fidl_composition.specs.Protocols.{IsBefore, AreProtocols};
ghost use Rattle.fidl_composition.specs.Compositions.{MeansProtocol, ComposesAt, Composes};
ghost use Rattle.fidl_composition.specs.Compositions.{Reaches, MayCompose, ComposesHold, BreaksAt};
ghost use Rattle.fidl_composition.specs.Compositions.{ComposesFrom, IsFirstOfCycle, IsWay};
ghost use Rattle.fidl_composition.specs.Compositions.{ProtocolHolds};
ghost use Rattle.fidl_composition.specs.Numbers.{AreCompositions, ReachesByNumber};
ghost use Rattle.fidl_composition.specs.Numbers.{IsComposedNumber, ComposesByNumber};
ghost use Rattle.fidl_composition.specs.Tables.{at};

/// A protocol may compose those that are no more open than itself, and no others.
pub fn who_may_compose_whom()
    ensures open_open { MayCompose open_protocol open_protocol }
    ensures open_ajar { MayCompose open_protocol ajar_protocol }
    ensures open_closed { MayCompose open_protocol closed_protocol }
    ensures ajar_open { MayCompose ajar_protocol open_protocol → ⊥ }
    ensures ajar_ajar { MayCompose ajar_protocol ajar_protocol }
    ensures ajar_closed { MayCompose ajar_protocol closed_protocol }
    ensures closed_open { MayCompose closed_protocol open_protocol → ⊥ }
    ensures closed_ajar { MayCompose closed_protocol ajar_protocol → ⊥ }
    ensures closed_closed { MayCompose closed_protocol closed_protocol }
{}

/// The last declaration of a file stands before the first of the next; none stands before itself.
pub fn the_order_of_declarations()
    ensures files { IsBefore (at 0 5) (at 1 0) }
    ensures within { IsBefore (at 1 2) (at 1 3) }
    ensures later_file { IsBefore (at 1 0) (at 0 5) → ⊥ }
    ensures itself { (p : DeclarationId) → IsBefore p p → ⊥ }
{}

/// A declared protocol is one, of its openness, and an alias is none; its name is its own.
pub fn what_is_a_protocol()
    ensures protocol { (files : List File) (p : DeclarationId) (f : File) (d : Declaration)
        (o : Openness) (ms : List ProtocolMember) → IsDeclarationAt files p f d
        → declared_view d.body ≡ protocol_body o ms → HasOpenness files p o }
    ensures other { (files : List File) (p : DeclarationId) (f : File) (d : Declaration)
        (ms : List ProtocolMember) → IsDeclarationAt files p f d
        → declared_view d.body ≡ protocol_body open_protocol ms
        → HasOpenness files p closed_protocol → ⊥ }
    ensures no_alias { (files : List File) (p : DeclarationId) (f : File) (d : Declaration)
        (t : TypeUse) → IsDeclarationAt files p f d → declared_view d.body ≡ alias_body t
        → IsProtocol files p → ⊥ }
    ensures name { (files : List File) (p : DeclarationId) (f : File) (d : Declaration)
        (g : File) (o : Openness) (n : Span) (ms : List ProtocolMember)
        → IsDeclarationAt files p f d → IsProtocolAt files p g o n ms
        → n ≡ declared_name d.body }
{}

/// A list of all protocols leaves none out, has nothing else, and has each once and in order.
pub fn lists_of_protocols()
    ensures none { AreProtocols [] [] }
    ensures left_out { (files : List File) (p : DeclarationId) → IsProtocol files p
        → AreProtocols files [] → ⊥ }
    ensures no_protocol { (files : List File) (p : DeclarationId) → (IsProtocol files p → ⊥)
        → AreProtocols files (p ∷ []) → ⊥ }
    ensures out_of_order { (files : List File) (p q : DeclarationId) → IsBefore p q
        → AreProtocols files (q ∷ p ∷ []) → ⊥ }
    ensures twice { (files : List File) (p : DeclarationId)
        → AreProtocols files (p ∷ p ∷ []) → ⊥ }
{}

/// A protocol composes what the path of a composition means, there and nowhere else; one without
/// members composes none.
pub fn what_protocols_compose()
    ensures composed { (files : List File) (p : DeclarationId) (f : File) (o : Openness) (n : Span)
        (a : List Attribute) (path : Path) (q : DeclarationId)
        → IsProtocolAt files p f o n (compose_member a path ∷ [])
        → MeansProtocol files p.file path q → ComposesAt files p (path_place path) q }
    ensures elsewhere { (files : List File) (p : DeclarationId) (f : File) (o : Openness) (n : Span)
        (a : List Attribute) (path : Path) (q : DeclarationId) (s : Span)
        → IsProtocolAt files p f o n (compose_member a path ∷ [])
        → s ≢ path_place path → ComposesAt files p s q → ⊥ }
    ensures without { (files : List File) (p : DeclarationId) (f : File) (o : Openness) (n : Span)
        (q : DeclarationId) → IsProtocolAt files p f o n [] → Composes files p q → ⊥ }
    ensures another { (files : List File) (number : ℕ) (path : Path) (p q : DeclarationId) → p ≢ q
        → MeansProtocol files number path p → MeansProtocol files number path q → ⊥ }
{}

/// A protocol reaches itself, what it composes, and what that composes; one that composes none
/// reaches no other.
pub fn what_protocols_reach()
    ensures itself { (files : List File) (p : DeclarationId) → Reaches files p p }
    ensures composed { (files : List File) (p q : DeclarationId) → Composes files p q
        → Reaches files p q }
    ensures through { (files : List File) (p q r : DeclarationId) → Composes files p q
        → Composes files q r → Reaches files p r }
    ensures no_other { (files : List File) (p q : DeclarationId)
        → ((r : DeclarationId) → Composes files p r → ⊥) → p ≢ q → Reaches files p q → ⊥ }
{}

/// Files without declarations keep the rules; a closed protocol that composes an ajar one does not,
/// nor does one that composes itself.
pub fn which_compositions_hold()
    ensures none { ComposesHold [] }
    ensures too_open { (files : List File) (p q : DeclarationId) → Composes files p q
        → HasOpenness files p closed_protocol → HasOpenness files q ajar_protocol
        → ComposesHold files → ⊥ }
    ensures itself { (files : List File) (p : DeclarationId) → Composes files p p
        → ComposesHold files → ⊥ }
{}

/// A closed protocol that composes an ajar one is reported at the path, in its own file; closed
/// protocols alone are not reported.
pub fn where_openness_is_reported()
    ensures there { (files : List File) (p q : DeclarationId) (s : Span) → ComposesAt files p s q
        → HasOpenness files p closed_protocol → HasOpenness files q ajar_protocol
        → BreaksAt files (record { file = p.file; span = s }) }
    ensures elsewhere { (files : List File) (place : Place) → ((p q : DeclarationId)
        → place.file ≡ p.file → ComposesAt files p place.span q → ⊥) → BreaksAt files place → ⊥ }
    ensures closed { (files : List File) (place : Place) → ((p : DeclarationId) (o : Openness)
        → HasOpenness files p o → o ≡ closed_protocol) → BreaksAt files place → ⊥ }
{}

/// A protocol that composes itself is reported at its name; of two that compose each other the
/// first is, and the second is not.
pub fn where_cycles_are_reported()
    ensures itself { (files : List File) (p : DeclarationId) (f : File) (o : Openness) (n : Span)
        (ms : List ProtocolMember) → IsProtocolAt files p f o n ms → Composes files p p
        → IsFirstOfCycle files (record { file = p.file; span = n }) }
    ensures first { (files : List File) (p q : DeclarationId) (f : File) (o : Openness) (n : Span)
        (ms : List ProtocolMember) → IsProtocolAt files p f o n ms → IsBefore p q
        → Composes files p q → Composes files q p
        → IsFirstOfCycle files (record { file = p.file; span = n }) }
    ensures second { (files : List File) (p q : DeclarationId) → IsBefore p q
        → ((r : DeclarationId) → Composes files q r → r ≡ p)
        → Leads (ComposesFrom files q) q q → ⊥ }
    ensures none { (files : List File) (place : Place)
        → ((p q : DeclarationId) → Composes files p q → ⊥) → IsFirstOfCycle files place → ⊥ }
{}

/// A graph has an edge where a protocol composes another, and nowhere else; a protocol reaches
/// itself by its number, and none past the last.
pub fn protocols_by_their_numbers()
    ensures none { AreCompositions [] ([], []) }
    ensures lacks { (files : List File) (p : DeclarationId) → Composes files p p
        → AreCompositions files (p ∷ [], [] ∷ []) → ⊥ }
    ensures too_many { (files : List File) (p : DeclarationId) → (Composes files p p → ⊥)
        → AreCompositions files (p ∷ [], (0 ∷ []) ∷ []) → ⊥ }
    ensures itself { (files : List File) (p : DeclarationId)
        → ReachesByNumber files (p ∷ []) 0 0 }
    ensures past { (files : List File) (p : DeclarationId)
        → ReachesByNumber files (p ∷ []) 0 1 → ⊥ }
{}

/// A way from a protocol to another is the path of one of its own compositions, in its own file, from
/// whose protocol the other is reached.
pub fn ways_to_protocols()
    ensures there { (files : List File) (p q r : DeclarationId) (s : Span) → ComposesAt files p s q
        → Reaches files q r → IsWay files p r (record { file = p.file; span = s }) }
    ensures composed { (files : List File) (p q : DeclarationId) (s : Span)
        → ComposesAt files p s q → IsWay files p q (record { file = p.file; span = s }) }
    ensures elsewhere { (files : List File) (p q : DeclarationId) (place : Place)
        → ((r : DeclarationId) → ComposesAt files p place.span r → ⊥) → IsWay files p q place → ⊥ }
    ensures other_file { (files : List File) (p q : DeclarationId) (place : Place)
        → place.file ≢ p.file → IsWay files p q place → ⊥ }
    ensures not_reached { (files : List File) (p q : DeclarationId) (place : Place)
        → ((r : DeclarationId) → Composes files p r → Reaches files r q → ⊥)
        → IsWay files p q place → ⊥ }
{}

/// A protocol that composes another composes its number, and none past the last.
pub fn numbers_of_composed_protocols()
    ensures composed { (files : List File) (p q : DeclarationId) → Composes files p q
        → IsComposedNumber files (q ∷ []) p 0 }
    ensures other { (files : List File) (p q : DeclarationId) → (Composes files p q → ⊥)
        → IsComposedNumber files (q ∷ []) p 0 → ⊥ }
    ensures past { (files : List File) (p : DeclarationId) → IsComposedNumber files [] p 0 → ⊥ }
    ensures both { (files : List File) (p q : DeclarationId) → Composes files p q
        → ComposesByNumber files (p ∷ q ∷ []) 0 1 }
    ensures neither { (files : List File) (p q : DeclarationId) → (Composes files p q → ⊥)
        → ComposesByNumber files (p ∷ q ∷ []) 0 1 → ⊥ }
{}

/// A protocol that composes none may do so; a closed one may not compose an ajar one.
pub fn what_one_protocol_owes()
    ensures none { (files : List File) (p : DeclarationId)
        → ((q : DeclarationId) → Composes files p q → ⊥) → ProtocolHolds files p }
    ensures too_open { (files : List File) (p q : DeclarationId) → Composes files p q
        → HasOpenness files p closed_protocol → HasOpenness files q ajar_protocol
        → ProtocolHolds files p → ⊥ }
{}
