//! Laws of the definitions: the contracts of functions that do nothing.
ghost use Rattle.std.specs.Prelude.{◌≢◌, List};
ghost use Rattle.fidl_tree.specs.declared.file.File.{File};
ghost use Rattle.fidl_ir.specs.declared.term.Definition.{Definition};
ghost use Rattle.fidl_ir.specs.Terms.{definitions_view};
ghost use Rattle.fidl_wire.specs.Figure.{Figure};
ghost use Rattle.fidl_compile.specs.declared.fault.CompileFault.{CompileFault};
ghost use Rattle.fidl_compile.specs.declared.fault.CompileFault.TheVariants as Faults;
ghost use Rattle.fidl_compile.specs.Sources.{AreAccepted};
ghost use Rattle.fidl_compile.specs.Stages.{FilesRefused};

use fidl_const::refused_files_do_not_evaluate;
use fidl_layout::refused_files_are_not_laid_out;
use fidl_names::refused_files_do_not_resolve;
use fidl_protocol::refused_protocols_break_a_rule;
use fidl_types::refused_types_break_a_rule;

/// Files of which a refusal is true don't keep all rules of the language, so files are accepted or
/// refused, and never rightly both. Memory that ran out says nothing of the files.
pub fn refused_files_break_a_rule()
    ensures { (files : List File) (fault : CompileFault) (definitions : List Definition)
        (figures : List Figure) → fault ≢ Faults.Memory → FilesRefused files fault
        → AreAccepted files (record {
          terms = definitions_view definitions;
          figures = figures;
        }) → ⊥ }
{
    refused_files_do_not_resolve();
    refused_files_do_not_evaluate();
    refused_types_break_a_rule();
    refused_files_are_not_laid_out();
    refused_protocols_break_a_rule();
}
