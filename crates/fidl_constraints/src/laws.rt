//! Laws of the definitions: the contracts of functions that do nothing.
ghost use Rattle.std.specs.Prelude.{◌≡◌, ℕ, List};
ghost use Rattle.fidl_tree.specs.Syntax.{TypeUse};
ghost use Rattle.fidl_tree.specs.declared.file.File.{File};
ghost use Rattle.fidl_constraints.specs.Behind.{Core};
ghost use Rattle.fidl_constraints.specs.declared.parts.Part.{Part};
ghost use Rattle.fidl_constraints.specs.Gives.{IsGathered};

/// What a type is behind its aliases, and what its constraints give, is just one thing.
pub fn what_constraints_give_is_one()
    ensures { (files : List File) (number : ℕ) (t : TypeUse) (c d : Core) (ps qs : List Part)
        → IsGathered files number t c ps → IsGathered files number t d qs
        → (c ≡ d) × (ps ≡ qs) }
{}
