//! Laws of the definitions: each is the contract of a function that does nothing.
ghost use Rattle.std.specs.Prelude.{ℕ, ◌<◌, List, Option};
ghost use Rattle.fidl_wire.specs.declared.handle.HandleInfo.{HandleInfo};
ghost use Rattle.fidl_wire.specs.Term.{Term};
ghost use Rattle.fidl_wire.specs.Term as ty;
ghost use Rattle.fidl_wire.specs.Figure.{Declarations, IsLaidOut};
ghost use Rattle.fidl_wire.specs.Message.{IsEncoding};
ghost use Rattle.fidl_table_format.specs.Section.{header_of};
ghost use Rattle.fidl_table_format.specs.Terms.{declarations_of};
ghost use Rattle.fidl_table_format.specs.WellFormed.{WellFormed};
ghost use Rattle.fidl_decode_model.specs.declared.fault.DecodeFault.{DecodeFault};
ghost use Rattle.fidl_decode_model.specs.State.{Message, Position};
ghost use Rattle.fidl_decode_model.specs.Envelopes.{Contained, BreaksEnvelope};
ghost use Rattle.fidl_decode_model.specs.Faults.{IsTold, IsWithin};

/// A message of which a refusal is true encodes no value of the type.
pub fn refused_messages_encode_nothing()
    ensures { (table : List ℕ) → WellFormed table → (entry : ℕ) → entry < (header_of table).entries
        → (bytes : List ℕ) (handles : List HandleInfo) (fault : DecodeFault)
        → IsTold (declarations_of table) (ty.named entry) bytes handles fault
        → IsEncoding (declarations_of table) (ty.named entry) bytes handles → ⊥ }
{}

/// An envelope that breaks a rule by its numbers holds no member, and has none behind it.
pub fn broken_envelopes_have_no_member()
    ensures { (ds : Declarations) → IsLaidOut ds → (m : Message) → IsWithin m.bytes m.handles
        → (held : ℕ) (t : Option Term) (envelope : ℕ) (from to : Position) (fault : DecodeFault)
        → BreaksEnvelope ds m held t envelope from.next from.handle fault
        → Contained ds m held t envelope from to → ⊥ }
{}
