//! Laws of the lines of frames.
ghost use Rattle.std.specs.Prelude.{◌≡◌, ℕ, List};
ghost use Rattle.fidl_verify.specs.Lookups.{TableProtocol, IsProtocolOfTable};
ghost use Rattle.fidl_verify.specs.declared.method.Payload.TheVariants.{Missing};
ghost use Rattle.fidl_dump.specs.declared.direction.Direction.{Direction};
ghost use Rattle.fidl_dump.specs.declared.fault.FrameFault.{FrameFault};
ghost use Rattle.fidl_dump.specs.Methods.{NamesMethod, carried_of, IsUnknown};
ghost use Rattle.fidl_dump.specs.Lines.{IsLine, AreLines};
ghost use Rattle.fidl_dump.specs.Faults.{IsFrameFault};

/// Where an ordinal is unknown, a method of it has no messages of the direction.
pub fn an_unknown_ordinal_has_no_message()
    ensures { (p : TableProtocol) → IsProtocolOfTable p → (direction : Direction)
        → (ordinal number : ℕ) → IsUnknown p direction ordinal → NamesMethod p ordinal number
        → carried_of p.table direction number ≡ Missing }
{}

/// A frame of which a refusal is true has no line.
pub fn refused_frames_have_no_line()
    ensures { (p : TableProtocol) → IsProtocolOfTable p → (direction : Direction)
        → (frame line : List ℕ) → (fault : FrameFault) → IsFrameFault p direction frame fault
        → ¬ (IsLine p direction frame line) }
{}

/// A frame has at most one line.
pub fn a_frame_has_one_line()
    ensures { (p : TableProtocol) → IsProtocolOfTable p → (direction : Direction)
        → (frame line other : List ℕ) → IsLine p direction frame line
        → IsLine p direction frame other → line ≡ other }
{}

/// So the lines of frames are one text.
pub fn frames_have_one_text()
    ensures { (p : TableProtocol) → IsProtocolOfTable p → (direction : Direction)
        → (frames : List (List ℕ)) → (text other : List ℕ) → AreLines p direction frames text
        → AreLines p direction frames other → text ≡ other }
{}
