//! Laws of the definitions: the contracts of functions that do nothing.
ghost use Rattle.std.specs.Prelude.{◌≢◌, List};
ghost use Rattle.fidl_tree.specs.declared.file.File.{File};
ghost use Rattle.fidl_wire.specs.Figure.{Figure, Declarations};
ghost use Rattle.fidl_ir.specs.declared.term.Definition.{Definition};
ghost use Rattle.fidl_ir.specs.Terms.{definitions_view};
ghost use Rattle.fidl_protocol.specs.declared.fault.ProtocolFault.{ProtocolFault};
ghost use Rattle.fidl_protocol.specs.declared.fault.ProtocolFault.TheVariants.{Memory};
ghost use Rattle.fidl_protocol.specs.Checked.{AreChecked};
ghost use Rattle.fidl_protocol.specs.Faults.{IsTrueOfProtocols};

/// Files of which a refusal is true break a rule of protocols, so files are accepted or refused,
/// and never rightly both. Memory that ran out says nothing of the files.
pub fn refused_protocols_break_a_rule()
    ensures { (files : List File) (fault : ProtocolFault) (definitions : List Definition)
        (figures : List Figure) → fault ≢ Memory → IsTrueOfProtocols files fault
        → let ds : Declarations = record {
          terms = definitions_view definitions;
          figures = figures;
        } in
        AreChecked files ds → ⊥ }
{}
