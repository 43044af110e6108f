//! Laws of the definitions: the contracts of functions that do nothing.
ghost use Rattle.std.specs.Prelude.{◌≡◌, ℕ, List};
ghost use Rattle.fidl_tree.specs.Syntax.{TypeUse};
ghost use Rattle.fidl_tree.specs.declared.file.File.{File};
ghost use Rattle.fidl_wire.specs.Term.{Term};
ghost use Rattle.fidl_lower_types.specs.Terms.{TermIs};

/// A type has at most one term.
pub fn the_term_of_a_type_is_one()
    ensures { (files : List File) (number : ℕ) (t : TypeUse) (one other : Term)
        → TermIs files number t one → TermIs files number t other → one ≡ other }
{}
