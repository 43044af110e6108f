//! Laws of the definitions: the contracts of functions that do nothing.
ghost use Rattle.std.specs.Prelude.{◌≢◌, List};
ghost use Rattle.fidl_tree.specs.declared.file.File.{File};
ghost use Rattle.fidl_member_rules.specs.declared.value_fault.ValuesFault.{ValuesFault};
ghost use Rattle.fidl_member_rules.specs.declared.value_fault.ValuesFault.TheVariants as Faults;
ghost use Rattle.fidl_member_rules.specs.ValueRules.{ValuesHold, IsTrueOfValues};

/// Files of which a refusal is true don't keep the rules. Memory that ran out says nothing of the
/// files.
pub fn refused_values_break_a_rule()
    ensures { (files : List File) (fault : ValuesFault) → fault ≢ Faults.Memory
        → IsTrueOfValues files fault → ValuesHold files → ⊥ }
{}
