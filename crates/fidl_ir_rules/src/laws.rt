//! Laws of the definitions: the contracts of functions that do nothing.
ghost use Rattle.std.specs.Prelude.{◌≢◌, List};
ghost use Rattle.fidl_wire.specs.Term.{Term};
ghost use Rattle.fidl_ir_rules.specs.declared.fault.DefinitionFault.{DefinitionFault};
ghost use Rattle.fidl_ir_rules.specs.declared.fault.DefinitionFault.TheVariants.{Memory};
ghost use Rattle.fidl_ir_rules.specs.declared.mark.Mark.{Mark};
ghost use Rattle.fidl_ir_rules.specs.Faults.{IsTrueOf, RulesHold};

/// Definitions of which a refusal is true don't keep both rules, so they are accepted or refused,
/// and never rightly both. Memory that ran out says nothing of them.
pub fn refused_definitions_break_a_rule()
    ensures { (terms : List Term) (marks : List Mark) (fault : DefinitionFault) → fault ≢ Memory
        → IsTrueOf terms marks fault → RulesHold terms marks → ⊥ }
{}
