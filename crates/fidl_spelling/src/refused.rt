//! Words that spell no value, or not this one.
ghost use Rattle.std.specs.Prelude.{[], ◌∷◌, codes, false};
ghost use Rattle.fidl_wire.specs.Figure.{no_declarations};
ghost use Rattle.fidl_wire.specs.Term.{no_fields, uint8};
ghost use Rattle.fidl_wire.specs.Term as ty;
ghost use Rattle.fidl_wire.specs.Value.{Value, absent};
ghost use Rattle.fidl_spelling.specs.Spells.{SpellsBy};

/// Bools are words in lower case.
pub fn bools_in_capitals()
    ensures { (v : Value) → ¬ (SpellsBy no_declarations ty.bool (codes "True" ∷ []) v) }
{}

/// A number past its type, and one with a plus.
pub fn numbers_that_are_none()
    ensures too_great { (v : Value) → ¬ (SpellsBy no_declarations (ty.number uint8)
        (codes "256" ∷ []) v) }
    ensures plus { (v : Value) → ¬ (SpellsBy no_declarations (ty.number uint8)
        (codes "+" ∷ codes "5" ∷ []) v) }
{}

/// What can't be absent.
pub fn absent_numbers()
    ensures { ¬ (SpellsBy no_declarations (ty.number uint8) (codes "absent" ∷ []) absent) }
{}

/// Words behind the value.
pub fn words_too_many()
    ensures { (v : Value) → ¬ (SpellsBy no_declarations ty.bool
        (codes "true" ∷ codes "true" ∷ []) v) }
{}

/// A member of a struct that has none.
pub fn members_too_many()
    ensures { (v : Value) → ¬ (SpellsBy no_declarations (ty.struct no_fields)
        (codes "{" ∷ codes "a" ∷ codes "}" ∷ []) v) }
{}

/// A vector whose brackets are those of a struct.
pub fn vectors_in_braces()
    ensures { (v : Value) → ¬ (SpellsBy no_declarations (ty.vector false 9 ty.bool)
        (codes "{" ∷ codes "}" ∷ []) v) }
{}
