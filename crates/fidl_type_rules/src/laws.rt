//! Laws of the definitions: the contracts of functions that do nothing.
ghost use Rattle.std.specs.Prelude.{◌≢◌, List};
ghost use Rattle.fidl_tree.specs.declared.file.File.{File};
ghost use Rattle.fidl_type_rules.specs.declared.fault.UseFault.{UseFault};
ghost use Rattle.fidl_type_rules.specs.declared.fault.UseFault.TheVariants as Faults;
ghost use Rattle.fidl_type_rules.specs.Uses.{UsesHold, IsTrueOfUses};

/// Files of which a refusal is true have a type that breaks a rule, so files are accepted or
/// refused, and never rightly both. Memory that ran out says nothing of the files.
pub fn refused_uses_break_a_rule()
    ensures { (files : List File) (fault : UseFault) → fault ≢ Faults.Memory
        → IsTrueOfUses files fault → UsesHold files → ⊥ }
{}
