//! Laws of the definitions: the contracts of functions that do nothing.
ghost use Rattle.std.specs.Prelude.{◌≢◌, List};
ghost use Rattle.fidl_tree.specs.Syntax.{File as PlainFile};
ghost use Rattle.fidl_member_rules.specs.declared.fault.RuleFault.{RuleFault};
ghost use Rattle.fidl_member_rules.specs.declared.fault.RuleFault.TheVariants as Faults;
ghost use Rattle.fidl_member_rules.specs.Rules.{RulesHold, IsTrueOfRules};

/// Files of which a refusal is true don't keep the rules, so files are accepted or refused, and
/// never rightly both. Memory that ran out says nothing of the files.
pub fn refused_files_break_a_rule()
    ensures { (files : List PlainFile) (fault : RuleFault) → fault ≢ Faults.Memory
        → IsTrueOfRules files fault → RulesHold files → ⊥ }
{}
