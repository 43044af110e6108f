//! Laws of the definitions: the contracts of functions that do nothing.
ghost use Rattle.std.specs.Prelude.{◌≢◌, List};
ghost use Rattle.fidl_tree.specs.declared.file.File.{File};
ghost use Rattle.fidl_resource_rules.specs.declared.fault.ResourceFault.{ResourceFault};
ghost use Rattle.fidl_resource_rules.specs.declared.fault.ResourceFault.TheVariants as Faults;
ghost use Rattle.fidl_resource_rules.specs.Resources.{ResourcesHold, IsTrueOfResources};

/// Files of which a refusal is true have a resource definition that isn't proper, so files are
/// accepted or refused, and never rightly both. Memory that ran out says nothing of the files.
pub fn refused_resources_break_a_rule()
    ensures { (files : List File) (fault : ResourceFault) → fault ≢ Faults.Memory
        → IsTrueOfResources files fault → ResourcesHold files → ⊥ }
{}
