//! Laws of the definitions. Each is the contract of a function with an empty body.
ghost use Rattle.std.specs.Prelude.{◌≡◌, ◌≢◌, ℕ, List};
ghost use Rattle.fidl_wire.specs.declared.handle.HandleInfo.{HandleInfo};
ghost use Rattle.fidl_wire.specs.Value.{Value};
ghost use Rattle.fidl_wire.specs.Term.{Term};
ghost use Rattle.fidl_wire.specs.Figure.{Declarations};
ghost use Rattle.fidl_wire.specs.Message.{Encodes};
ghost use Rattle.fidl_encode.specs.declared.fault.EncodeFault.{EncodeFault};
ghost use Rattle.fidl_encode.specs.declared.fault.EncodeFault.TheVariants.{Memory};
ghost use Rattle.fidl_encode.specs.Told.{IsTold};

/// A value that is refused has no message, unless it is memory that ran out.
pub fn refused_values_have_no_message()
    ensures { (ds : Declarations) (t : Term) (v : Value) (fault : EncodeFault)
        → IsTold ds t v fault → fault ≢ Memory
        → (bytes : List ℕ) (handles : List HandleInfo) → Encodes ds t v bytes handles → ⊥ }
{}

/// A value has at most one message: one that encodes the value of another message is that message.
pub fn messages_are_unique()
    ensures { (ds : Declarations) (t : Term) (v : Value) (bytes again : List ℕ)
        (handles beside : List HandleInfo) → Encodes ds t v bytes handles
        → Encodes ds t v again beside → (again ≡ bytes) × (beside ≡ handles) }
{}
