//! Laws of the definitions: the contracts of functions that do nothing.
ghost use Rattle.std.specs.Prelude.{◌≡◌, List};
ghost use Rattle.fidl_tree.specs.declared.file.File.{File};
ghost use Rattle.fidl_declarations.specs.Forms.{Form};
ghost use Rattle.fidl_wire.specs.Term.{Term};
ghost use Rattle.fidl_lower_layouts.specs.Definitions.{DefinitionIs, DefinitionsAre};

/// A form has at most one definition.
pub fn the_definition_of_a_form_is_one()
    ensures { (files : List File) (form : Form) (one other : Term) → DefinitionIs files form one
        → DefinitionIs files form other → one ≡ other }
{}

/// Files have at most one list of definitions.
pub fn the_definitions_of_files_are_one()
    ensures { (files : List File) (one other : List Term) → DefinitionsAre files one
        → DefinitionsAre files other → one ≡ other }
{}
