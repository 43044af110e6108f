//! Worked facts: what aliases come to as long as they add no constraints.
ghost use Rattle.std.specs.Prelude.{◌≡◌, ◌≢◌, List, []};
ghost use Rattle.fidl_tree.specs.Views.{type_view};
ghost use Rattle.fidl_tree.specs.declared.file.File.{File};
ghost use Rattle.fidl_named.specs.declared.meaning.Meaning.{Meaning as Given};
ghost use Rattle.fidl_named.specs.declared.meaning.Meaning.TheVariants as Meanings;
ghost use Rattle.fidl_named.specs.declared.meaning.Predeclared.{Predeclared as Word};
ghost use Rattle.fidl_named.specs.Aliases.{Follows, constraints_of, PassesOn, PassesTo};

/// An alias without constraints comes to the declaration that it names, if that is no such alias.
/// One with constraints comes to itself, and to nothing else. No alias passes on a predeclared
/// name.
pub fn aliases_without_constraints_are_passed()
    ensures passed { (files : List File) (m next : Given) → PassesOn files m next
        → ((n : Given) → PassesOn files next n → ⊥) → PassesTo files m next }
    ensures constrained { (files : List File) (m next : Given) (h : Follows files m next)
        → constraints_of (type_view h.alias.constructor) ≢ [] → PassesTo files m m }
    ensures other { (files : List File) (m next end : Given) (h : Follows files m next)
        → constraints_of (type_view h.alias.constructor) ≢ [] → PassesTo files m end → end ≡ m }
    ensures predeclared { (files : List File) (m : Given) (w : Word)
        → PassesOn files m (Meanings.Predeclared w) → ⊥ }
{}
