//! Laws of the definitions: the contracts of functions that do nothing.
ghost use Rattle.std.specs.Prelude.{◌≢◌, List};
ghost use Rattle.fidl_tree.specs.declared.file.File.{File};
ghost use Rattle.fidl_named.specs.declared.fault.NameFault.{NameFault};
ghost use Rattle.fidl_named.specs.declared.fault.NameFault.TheVariants as Faults;
ghost use Rattle.fidl_names.specs.Resolved.{Resolves, IsTrueOfResolving};

/// Files of which a refusal is true don't resolve, so files are accepted or refused, and never
/// rightly both. Memory that ran out says nothing of the files.
pub fn refused_files_do_not_resolve()
    ensures { (files : List File) (fault : NameFault) → fault ≢ Faults.Memory
        → IsTrueOfResolving files fault → Resolves files → ⊥ }
{}
