//! Refused: what is past a limit of messages.
ghost use Rattle.std.specs.Prelude.{ℕ, ◌<◌, List, length};
ghost use Rattle.fidl_wire.specs.declared.handle.HandleInfo.{HandleInfo};
ghost use Rattle.fidl_wire.specs.Value.{Value};
ghost use Rattle.fidl_wire.specs.Term.{Term};
ghost use Rattle.fidl_wire.specs.Figure.{Declarations};
ghost use Rattle.fidl_wire.specs.Depth.{Depth};
ghost use Rattle.fidl_wire.specs.Message.{Encodes, IsEncoding};

/// More than 16,777,216 bytes, of any type.
pub fn more_than_16777216_bytes()
    ensures { (ds : Declarations) (t : Term) (bytes : List ℕ) (handles : List HandleInfo) → 16777216 <
        length bytes → ¬ (IsEncoding ds t bytes handles) }
{}

/// More than 64 handles, of any type.
pub fn more_than_64_handles()
    ensures { (ds : Declarations) (t : Term) (bytes : List ℕ) (handles : List HandleInfo) → 64 <
        length handles → ¬ (IsEncoding ds t bytes handles) }
{}

/// Any value that is deeper than 32.
pub fn values_deeper_than_32()
    ensures { (ds : Declarations) (t : Term) (v : Value) (bytes : List ℕ)
        (handles : List HandleInfo) → 32 < Depth ds t v → ¬ (Encodes ds t v bytes handles) }
{}
