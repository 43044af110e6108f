//! Laws of the definitions: the contracts of functions that do nothing.
ghost use Rattle.std.specs.Prelude.{◌≡◌, ℕ, List};
ghost use Rattle.fidl_tree.specs.Syntax.{TypeUse};
ghost use Rattle.fidl_tree.specs.declared.file.File.{File};
ghost use Rattle.fidl_constraints.specs.Behind.{Core, Behind};

/// A type is just one thing behind its aliases.
pub fn what_a_type_is_behind_its_aliases_is_one()
    ensures { (files : List File) (number : ℕ) (t : TypeUse) (one other : Core)
        → Behind files number t one → Behind files number t other → one ≡ other }
{}
