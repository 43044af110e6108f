//! Worked facts: what the rules say of small lists of numbers, and what they don't.
ghost use Rattle.std.specs.Prelude.{◌≡◌, ◌∷◌, [], ℕ, ℤ, pos, neg_ℤ, List, true};
ghost use Rattle.fidl_span.specs.declared.words.Span.{Span};
ghost use Rattle.fidl_tree.specs.Syntax.{ValueMember, Underlying, Members, bits_kind, enum_kind};
ghost use Rattle.fidl_tree.specs.Syntax.{values_layout, struct_layout};
ghost use Rattle.fidl_tree.specs.declared.file.File.{File};
ghost use Rattle.fidl_consts.specs.declared.const_type.NumberKind.TheVariants as Kinds;
ghost use Rattle.fidl_member_rules.specs.Numbers.{HasNumber, NumbersAre, IsPowerOfTwo};
ghost use Rattle.fidl_member_rules.specs.ValueRules.{duplicate_rule, power_rule, NumbersHold, MembersAre};
ghost use Rattle.fidl_member_rules.specs.ValueRules.{LayoutHolds, NumberBreaks, MemberBreaks};
ghost use Rattle.fidl_member_rules.specs.ValueRules.{LayoutBreaks};

/// 1 and 8 are powers of two; 0, 3 and -1 are none.
pub fn powers_of_two()
    ensures one { IsPowerOfTwo (pos 1) }
    ensures eight { IsPowerOfTwo (pos 8) }
    ensures zero { IsPowerOfTwo (pos 0) → ⊥ }
    ensures three { IsPowerOfTwo (pos 3) → ⊥ }
    ensures minus { IsPowerOfTwo (neg_ℤ (pos 1)) → ⊥ }
{}

/// Bits of 4 and 1 keep the rules, and those of 4 and 3 or of 4 and 4 don't; an enum of 4 and 3
/// does, and one of 4 and 4 doesn't.
pub fn numbers_that_hold()
    ensures bits { NumbersHold bits_kind (pos 4 ∷ pos 1 ∷ []) }
    ensures no_power { NumbersHold bits_kind (pos 4 ∷ pos 3 ∷ []) → ⊥ }
    ensures twice { NumbersHold bits_kind (pos 4 ∷ pos 4 ∷ []) → ⊥ }
    ensures enums { NumbersHold enum_kind (pos 4 ∷ pos 3 ∷ []) }
    ensures enum_twice { NumbersHold enum_kind (pos 4 ∷ pos 4 ∷ []) → ⊥ }
{}

/// The later one of two equal numbers breaks a rule, the first doesn't; 3 does of bits, and not of
/// enums.
pub fn numbers_that_break()
    ensures later { NumberBreaks enum_kind (pos 4 ∷ pos 4 ∷ []) 1 (pos 4) duplicate_rule }
    ensures first { NumberBreaks enum_kind (pos 4 ∷ pos 4 ∷ []) 0 (pos 4) duplicate_rule → ⊥ }
    ensures bits { NumberBreaks bits_kind (pos 3 ∷ []) 0 (pos 3) power_rule }
    ensures power { NumberBreaks bits_kind (pos 4 ∷ []) 0 (pos 4) power_rule → ⊥ }
    ensures enums { NumberBreaks enum_kind (pos 3 ∷ []) 0 (pos 3) power_rule → ⊥ }
{}

/// A member breaks a rule at its own name alone.
pub fn members_break_at_their_names()
    ensures name { (m : ValueMember) → MemberBreaks bits_kind (m ∷ []) (pos 3 ∷ []) power_rule
        m.name }
    ensures other { (m : ValueMember) (span : Span) → (m.name ≡ span → ⊥)
        → MemberBreaks bits_kind (m ∷ []) (pos 3 ∷ []) power_rule span → ⊥ }
{}

/// Members have a number each, in their order.
pub fn numbers_of_members()
    ensures two { (files : List File) (f : File) (m n : ValueMember)
        → HasNumber files f Kinds.Uint8 m (pos 4) → HasNumber files f Kinds.Uint8 n (pos 1)
        → NumbersAre files f Kinds.Uint8 (m ∷ n ∷ []) (pos 4 ∷ pos 1 ∷ []) }
    ensures too_few { (files : List File) (f : File) (m n : ValueMember)
        → NumbersAre files f Kinds.Uint8 (m ∷ n ∷ []) (pos 4 ∷ []) → ⊥ }
{}

/// Bits of 4 and 4 don't keep the rules, whatever they are of; a struct keeps and never breaks
/// them.
pub fn layouts_that_hold()
    ensures bits { (files : List File) (f : File) (k : Span) (u : Underlying) (m n : ValueMember)
        → MembersAre files f bits_kind u (m ∷ n ∷ []) (pos 4 ∷ pos 4 ∷ [])
        → LayoutHolds files f (values_layout bits_kind true k u (m ∷ n ∷ [])) → ⊥ }
    ensures broken { (files : List File) (f : File) (k : Span) (u : Underlying) (m n : ValueMember)
        → MembersAre files f bits_kind u (m ∷ n ∷ []) (pos 4 ∷ pos 4 ∷ [])
        → LayoutBreaks files f (values_layout bits_kind true k u (m ∷ n ∷ [])) duplicate_rule
        n.name }
    ensures structs { (files : List File) (f : File) (k : Span) (ms : Members)
        → LayoutHolds files f (struct_layout true k ms) }
    ensures no_struct { (files : List File) (f : File) (k s : Span) (ms : Members)
        → LayoutBreaks files f (struct_layout true k ms) power_rule s → ⊥ }
{}
