//! Laws of the definitions: the contracts of functions that do nothing.
ghost use Rattle.std.specs.Prelude.{◌≡◌, ◌∷◌, []};
ghost use Rattle.fidl_tree.specs.Views.{declared_name, file_view};
ghost use Rattle.fidl_tree.specs.declared.file.File.{File};
ghost use Rattle.fidl_tree.specs.declared.declaration.Declaration.{Declaration};
ghost use Rattle.fidl_named.specs.Names.{full_name};
ghost use Rattle.fidl_declarations.specs.declared.step.Step.TheVariants as Steps;
ghost use Rattle.fidl_declarations.specs.Forms.{name_by_path};

/// The full name by path of a declaration is the one that it is declared under.
pub fn declarations_keep_their_full_names()
    ensures { (f : File) (d : Declaration)
        → name_by_path (file_view f) (Steps.Name (declared_name d.body) ∷ []) ≡ full_name f d }
{}
