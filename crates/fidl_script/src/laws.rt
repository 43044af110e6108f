//! Laws of scripts.
ghost use Rattle.std.specs.Prelude.{◌≡◌, ◌≢◌, ℕ, List};
ghost use Rattle.fidl_verify.specs.Lookups.{TableProtocol};
ghost use Rattle.fidl_script.specs.Script.{Script as Data};
ghost use Rattle.fidl_script.specs.Text.{IsScript};
ghost use Rattle.fidl_script.specs.Faults.{IsTold};
ghost use Rattle.fidl_script.specs.declared.fault.ScriptFault.{ScriptFault};
ghost use Rattle.fidl_script.specs.declared.fault.ScriptFault.TheVariants.{Memory};

/// A text of which a fault is true is no script for a protocol of the table, unless it is memory
/// that ran out.
pub fn refused_texts_are_no_scripts()
    ensures { (table text : List ℕ) (fault : ScriptFault) → IsTold table text fault → fault ≢ Memory
        → (p : TableProtocol) → p.table ≡ table → (s : Data) → IsScript p text s → ⊥ }
{}
