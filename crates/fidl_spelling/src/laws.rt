//! Laws of the notation.
ghost use Rattle.std.specs.Prelude.{◌≡◌, ◌≤◌, ℕ, List};
ghost use Rattle.fidl_limits.specs.declared.limits.TheConstants.{MAX_DEPTH};
ghost use Rattle.fidl_wire.specs.Figure.{Declarations, IsLaidOut};
ghost use Rattle.fidl_wire.specs.Term.{Term};
ghost use Rattle.fidl_wire.specs.Value.{Value};
ghost use Rattle.fidl_wire.specs.Typed.{Typed};
ghost use Rattle.fidl_wire.specs.Text.{Text};
ghost use Rattle.fidl_wire.specs.Depth.{Depth};
ghost use Rattle.fidl_spelling.specs.Words.{Words, AreWords};
ghost use Rattle.fidl_spelling.specs.Spells.{Spells, SpellsWithin};
ghost use Rattle.fidl_spelling.specs.Readable.{IsReadable, AreReadable, IsNamed, AreNamed};
ghost use Rattle.fidl_spelling.specs.Nested.{IsNested, AreNested};

/// A value's text spells the value, where members can be told by their names.
pub fn texts_spell_words()
    ensures { (ds : Declarations) → AreReadable ds → (t : Term) → IsReadable t → (v : Value)
        → Typed ds t v → Spells ds t (Text ds t v) v }
{}

/// A text is cut into words in at most one way.
pub fn words_are_unique()
    ensures { (text : List ℕ) (ws vs : Words) → AreWords text ws → AreWords text vs → ws ≡ vs }
{}

/// A text spells at most one value of a type, where names are words.
pub fn texts_spell_one_value()
    ensures { (ds : Declarations) → AreNamed ds → (t : Term) → IsNamed t → (v w : Value)
        (source : List ℕ) → Spells ds t source v → Spells ds t source w → v ≡ w }
{}

/// A text that spells a value of its type, of a depth within the limit, has few brackets open at
/// once.
pub fn texts_open_few_brackets()
    ensures { (ds : Declarations) → IsLaidOut ds → AreNamed ds → AreNested ds → (t : Term)
        → IsNamed t → IsNested ds.figures t → (v : Value) → Typed ds t v → Depth ds t v ≤ MAX_DEPTH
        → (source : List ℕ) → Spells ds t source v → SpellsWithin ds t source v }
{}
