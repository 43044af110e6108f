//! Laws of the definitions: the contracts of functions that do nothing.
ghost use Rattle.std.specs.Prelude.{◌≡◌, ◌≢◌, List};
ghost use Rattle.fidl_tree.specs.declared.file.File.{File};
ghost use Rattle.fidl_named.specs.declared.place.DeclarationId.{DeclarationId};
ghost use Rattle.fidl_composition.specs.declared.fault.ComposeFault.{ComposeFault};
ghost use Rattle.fidl_composition.specs.declared.fault.ComposeFault.TheVariants as Faults;
ghost use Rattle.fidl_composition.specs.Protocols.{AreProtocols};
ghost use Rattle.fidl_composition.specs.Compositions.{ComposesHold, IsTrueOfCompositions};

/// Files of which a refusal is true break one of the rules of compositions, so files are accepted
/// or refused, and never rightly both. Memory that ran out says nothing of the files.
pub fn refused_compositions_break_a_rule()
    ensures { (files : List File) (fault : ComposeFault) → fault ≢ Faults.Memory
        → IsTrueOfCompositions files fault → ComposesHold files → ⊥ }
{}

/// The protocols of files in the order of the sources are one list, so the number of a protocol is
/// one.
pub fn the_protocols_of_files_are_one()
    ensures { (files : List File) (one other : List DeclarationId)
        → AreProtocols files one → AreProtocols files other → one ≡ other }
{}
