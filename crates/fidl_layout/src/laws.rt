//! Laws of the definitions: the contracts of functions that do nothing.
ghost use Rattle.std.specs.Prelude.{◌≢◌, List};
ghost use Rattle.fidl_tree.specs.declared.file.File.{File};
ghost use Rattle.fidl_wire.specs.Figure.{Figure, Declarations};
ghost use Rattle.fidl_ir.specs.declared.term.Definition.{Definition};
ghost use Rattle.fidl_ir.specs.Terms.{definitions_view};
ghost use Rattle.fidl_layout.specs.declared.fault.LayoutFault.{LayoutFault};
ghost use Rattle.fidl_layout.specs.declared.fault.LayoutFault.TheVariants.{Memory};
ghost use Rattle.fidl_layout.specs.Faults.{IsTrueOfLayout};
ghost use Rattle.fidl_layout.specs.Laid.{AreLaidOut};

/// Files of which a refusal is true aren't laid out within the limits, so they are accepted or
/// refused, and never rightly both. Memory that ran out says nothing of the files.
pub fn refused_files_are_not_laid_out()
    ensures { (files : List File) (fault : LayoutFault) (definitions : List Definition)
        (figures : List Figure) → fault ≢ Memory → IsTrueOfLayout files fault
        → let ds : Declarations = record {
          terms = definitions_view definitions;
          figures = figures;
        } in
        AreLaidOut files ds → ⊥ }
{}
