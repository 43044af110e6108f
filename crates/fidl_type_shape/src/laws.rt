//! Laws of the definitions: the contracts of functions that do nothing.
ghost use Rattle.std.specs.Prelude.{◌≢◌, List};
ghost use Rattle.fidl_wire.specs.Figure.{Figure, Declarations, IsLaidOut};
ghost use Rattle.fidl_ir.specs.declared.term.Definition.{Definition};
ghost use Rattle.fidl_ir.specs.Terms.{definitions_view};
ghost use Rattle.fidl_type_shape.specs.declared.fault.FigureFault.{FigureFault};
ghost use Rattle.fidl_type_shape.specs.declared.fault.FigureFault.TheVariants.{Memory};
ghost use Rattle.fidl_type_shape.specs.Faults.{IsTrueOf};
ghost use Rattle.fidl_type_shape.specs.Limits.{KeepLimits};

/// Definitions of which a refusal is true have no figures within the limits, so they are accepted
/// or refused, and never rightly both. Memory that ran out says nothing of them.
pub fn refused_definitions_have_no_figures()
    ensures { (definitions : List Definition) (figures : List Figure) (fault : FigureFault)
        → fault ≢ Memory → IsTrueOf (definitions_view definitions) fault
        → let ds : Declarations = record {
          terms = definitions_view
              definitions;
          figures = figures;
        } in
        IsLaidOut ds → KeepLimits ds → ⊥ }
{}
