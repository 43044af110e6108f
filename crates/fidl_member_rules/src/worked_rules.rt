//! Worked facts of the rules of layouts: small layouts and attributes that keep them, and some that
//! do not.
ghost use Rattle.std.specs.Prelude.{◌≡◌, ◌≢◌, ◌++◌, ◌∷◌, [], ℕ, List, None, Some, true, false};
ghost use Rattle.std.specs.Prelude.{codes};
ghost use Rattle.fidl_span.specs.declared.words.Span.{Span};
ghost use Rattle.fidl_tree.specs.Leaf.{text_at};
ghost use Rattle.fidl_tree.specs.Syntax.{TypeUse, Attribute, bitwise_or, string_operand};
ghost use Rattle.fidl_tree.specs.Syntax.{no_operands, union_layout, table_layout, values_layout};
ghost use Rattle.fidl_tree.specs.Syntax.{bits_kind, enum_kind, Underlying, Members, no_members};
ghost use Rattle.fidl_tree.specs.Syntax.{next_member, ordinal_member, reserved_member, File};
ghost use Rattle.fidl_tree.specs.Syntax.{protocol_body, open_protocol, service_body};
ghost use Rattle.fidl_member_rules.specs.Ordinals.{layout_ordinals, last_ordinal, IsOrdinal};
ghost use Rattle.fidl_member_rules.specs.Ordinals.{OrdinalsHold, IsOutside, IsRepeated};
ghost use Rattle.fidl_member_rules.specs.Strict.{IsEmptyStrict};
ghost use Rattle.fidl_member_rules.specs.Profile.{IsAvailable, NamesChannel, transport_attributes};
ghost use Rattle.fidl_member_rules.specs.Rules.{Rule, FileBreaks, BreaksAt, SiteHolds};
ghost use Rattle.fidl_member_rules.specs.Rules.{TransportHolds};
ghost use Rattle.fidl_declarations.specs.declared.step.Step.{Step};
ghost use Rattle.fidl_declarations.specs.Sites.{layout_site, attributes_site};

/// `union {1: reserved; 2: a t;}` has two ordinals.
pub fn reserved_ordinals_count()
    ensures seen { (k one two a : Span) (t : TypeUse) → layout_ordinals (union_layout false false k
        (next_member (reserved_member [] one) (next_member (ordinal_member [] two a t)
        no_members))) ≡ one ∷ two ∷ [] }
    ensures other { (k one two a : Span) (t : TypeUse) → layout_ordinals (union_layout false false k
        (next_member (reserved_member [] one) (next_member (ordinal_member [] two a t)
        no_members))) ≢ two ∷ [] }
{}

/// A table has ordinals from 1 to 64, and a union from 1 to 4,294,967,295.
pub fn ordinals_of_tables_and_unions()
    ensures table { (k : Span) (ms : Members) → IsOrdinal (last_ordinal (table_layout false k ms))
        64 }
    ensures union { (k : Span) (ms : Members)
        → IsOrdinal (last_ordinal (union_layout false false k ms)) 4294967295 }
    ensures zero { (k : Span) (ms : Members)
        → IsOrdinal (last_ordinal (table_layout false k ms)) 0 → ⊥ }
    ensures past { (k : Span) (ms : Members)
        → IsOrdinal (last_ordinal (table_layout false k ms)) 65 → ⊥ }
    ensures far { (k : Span) (ms : Members)
        → IsOrdinal (last_ordinal (union_layout false false k ms)) 4294967296 → ⊥ }
{}

/// `1` and `0x2` may stand together. After `1`, `0b1` is refused, and `0x2` is not.
pub fn ordinals_differ()
    ensures kept { (src : List ℕ) (one two : Span) → text_at src one ≡ codes "1"
        → text_at src two ≡ codes "0x2" → OrdinalsHold src 64 (one ∷ two ∷ []) }
    ensures repeated { (src : List ℕ) (one again : Span) → text_at src one ≡ codes "1"
        → text_at src again ≡ codes "0b1" → IsRepeated src (one ∷ again ∷ []) again }
    ensures other { (src : List ℕ) (one two : Span) → text_at src one ≡ codes "1"
        → text_at src two ≡ codes "0x2" → IsRepeated src (one ∷ two ∷ []) two → ⊥ }
{}

/// `0` is refused, and `1` is not.
pub fn ordinals_begin_at_one()
    ensures refused { (src : List ℕ) (zero : Span) → text_at src zero ≡ codes "0"
        → IsOutside src 64 (zero ∷ []) zero }
    ensures other { (src : List ℕ) (one : Span) → text_at src one ≡ codes "1"
        → IsOutside src 64 (one ∷ []) one → ⊥ }
{}

/// A strict enum without members is refused, and so is a strict union of reserved ordinals alone;
/// strict bits, a flexible union and one with a member are not.
pub fn strict_layouts_without_members()
    ensures an_enum { (k : Span) (u : Underlying)
        → IsEmptyStrict (values_layout enum_kind true k u []) }
    ensures reserved { (k one : Span) → IsEmptyStrict (union_layout true false k
        (next_member (reserved_member [] one) no_members)) }
    ensures bits { (k : Span) (u : Underlying)
        → IsEmptyStrict (values_layout bits_kind true k u []) → ⊥ }
    ensures flexible { (k : Span) → IsEmptyStrict (union_layout false false k no_members) → ⊥ }
    ensures member { (k one a : Span) (t : TypeUse) → IsEmptyStrict (union_layout true false k
        (next_member (ordinal_member [] one a t) no_members)) → ⊥ }
{}

/// `@available` gives versions, and `@doc` does not.
pub fn attributes_that_give_versions()
    ensures seen { (src : List ℕ) (n : Span) → text_at src n ≡ codes "available"
        → IsAvailable src (record { name = n; arguments = [] }) }
    ensures other { (src : List ℕ) (n : Span) → text_at src n ≡ codes "doc"
        → IsAvailable src (record { name = n; arguments = [] }) → ⊥ }
{}

/// A site with `@available` does not keep the rules, and one without attributes does; nor does a
/// union that repeats an ordinal.
pub fn sites_that_keep_the_rules()
    ensures versions { (src : List ℕ) (n : Span) → text_at src n ≡ codes "available"
        → SiteHolds src (attributes_site (record { name = n; arguments = [] } ∷ [])) → ⊥ }
    ensures none { (src : List ℕ) → SiteHolds src (attributes_site []) }
    ensures repeated { (src : List ℕ) (path : List Step) (k one again a : Span) (t : TypeUse)
        → text_at src one ≡ codes "1" → text_at src again ≡ codes "1"
        → SiteHolds src (layout_site path (union_layout false false k
        (next_member (ordinal_member [] one a t) (next_member (reserved_member [] again)
        no_members)))) → ⊥ }
{}

/// A protocol with another transport than channels does not keep the rules, and a service does.
pub fn transports_that_keep_the_rules()
    ensures other { (src : List ℕ) (n name : Span) → text_at src n ≡ codes "transport"
        → TransportHolds src (record {
          attributes = record { name = n; arguments = [] } ∷ [];
          name = name;
          body = protocol_body open_protocol [];
        }) → ⊥ }
    ensures service { (src : List ℕ) (a : Attribute) (name : Span) → TransportHolds src (record {
      attributes = a ∷ [];
      name = name;
      body = service_body no_members;
    }) }
{}

/// `("Channel")` is the transport by channels; `("Socket")`, `(x="Channel")` and `()` are not.
pub fn transports_by_channels()
    ensures seen { (src : List ℕ) (s : Span) → text_at src s ≡ 34 ∷ codes "Channel" ++ 34 ∷ []
        → NamesChannel src (record {
          name = None;
          value = bitwise_or (string_operand s)
              no_operands;
        } ∷ []) }
    ensures socket { (src : List ℕ) (s : Span) → text_at src s ≡ 34 ∷ codes "Socket" ++ 34 ∷ []
        → NamesChannel src (record {
          name = None;
          value = bitwise_or (string_operand s)
              no_operands;
        } ∷ []) → ⊥ }
    ensures named { (src : List ℕ) (x s : Span)
        → NamesChannel src (record {
          name = Some x;
          value = bitwise_or (string_operand s)
              no_operands;
        } ∷ []) → ⊥ }
    ensures none { (src : List ℕ) → NamesChannel src [] → ⊥ }
{}

/// A transport is judged on protocols, and nowhere else.
pub fn transports_are_of_protocols()
    ensures protocol { (a : Attribute) (n : Span) → transport_attributes (record {
      attributes = a ∷ [];
      name = n;
      body = protocol_body open_protocol [];
    }) ≡ a ∷ [] }
    ensures service { (a : Attribute) (n : Span) → transport_attributes (record {
      attributes = a ∷ [];
      name = n;
      body = service_body no_members;
    }) ≡ [] }
    ensures other { (a : Attribute) (n : Span) → transport_attributes (record {
      attributes = a ∷ [];
      name = n;
      body = protocol_body open_protocol [];
    }) ≢ [] }
{}

/// A place leads to the file of its number: the second of two has the number 1.
pub fn places_lead_to_files()
    ensures second { (f g : File) (rule : Rule) (s : Span) → FileBreaks g rule s
        → BreaksAt (f ∷ g ∷ []) rule (record { file = 1; span = s }) }
    ensures past { (f : File) (rule : Rule) (s : Span)
        → BreaksAt (f ∷ []) rule (record { file = 1; span = s }) → ⊥ }
{}
