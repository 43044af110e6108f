//! Laws of refusals.
ghost use Rattle.std.specs.Prelude.{◌≢◌, ℕ, List};
ghost use Rattle.fidl_script.specs.Faults.{IsTold};
ghost use Rattle.fidl_script.specs.declared.fault.ScriptFault.{ScriptFault};
ghost use Rattle.fidl_script.specs.declared.fault.ScriptFault.TheVariants.{Memory};
ghost use Rattle.fidl_stream_commands.specs.Serving.{HasScript};

/// A text of which a script's fault is true is no script for a protocol of the table, unless memory
/// ran out. So a table or a script that is refused excludes that the service is run.
pub fn refused_texts_are_not_served()
    ensures { (table text : List ℕ) → (fault : ScriptFault) → IsTold table text fault
        → fault ≢ Memory → ¬ (HasScript table text) }
{}
