//! Laws of the definitions: each is the contract of a function that does nothing.
ghost use Rattle.std.specs.Prelude.{◌≡◌, ℕ, List, length, map, slice_get, Some};
ghost use Rattle.fidl_wire.specs.declared.handle.HandleInfo.{HandleInfo};
ghost use Rattle.fidl_wire.specs.Value.{Value};
ghost use Rattle.fidl_wire.specs.Term.{Term, named};
ghost use Rattle.fidl_wire.specs.Figure.{Declarations, figure_of, IsLaidOut};
ghost use Rattle.fidl_wire.specs.Message.{Encodes};
ghost use Rattle.fidl_equivalence.specs.Alike.{AreAlike, AreNumbered, IsOne};

/// Types of two declarations that are alike all the way down have the same values, and each value
/// the same encoding, depth and text.
pub fn alike_types_are_one()
    ensures { (ds es : Declarations) → IsLaidOut ds → IsLaidOut es → (t u : Term)
        → AreAlike ds es t u → (v : Value) → IsOne ds es t u v }
{}

/// Where a list numbers types so that each is alike, one level deep, to the declaration of its
/// number, each type is alike to its number all the way down; and figures that are copied from the
/// list's types are those of the numbered declarations.
pub fn numbered_types_are_alike()
    ensures alike { (ds es : Declarations) (types : List Term) → AreNumbered ds es types
        → (number : ℕ) (t : Term) → slice_get types number ≡ Some t
        → AreAlike ds es t (named number) }
    ensures laid_out { (ds es : Declarations) (types : List Term) → IsLaidOut ds
        → AreNumbered ds es types → length es.terms ≡ length types
        → es.figures ≡ map (figure_of ds.figures) types → IsLaidOut es }
{}

/// Of types that are one the same messages encode the same values.
pub fn one_type_has_the_same_messages()
    ensures { (ds es : Declarations) (t u : Term) (v : Value) → IsOne ds es t u v
        → (bytes : List ℕ) (handles : List HandleInfo) → Encodes ds t v bytes handles
        → Encodes es u v bytes handles }
{}
