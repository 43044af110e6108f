//! Worked facts: lines and outcomes, computed by the definitions.
ghost use Rattle.std.specs.Prelude.{◌≡◌, [], codes, Ok, Err};
ghost use Rattle.fidl_requests.specs.declared.ended.Ended.TheVariants as ended;
ghost use Rattle.fidl_script.specs.declared.fault.ScriptFault.TheVariants as script_fault;
ghost use Rattle.fidl_serve.specs.declared.fault.ServeFault.TheVariants as fault;
ghost use Rattle.fidl_commands.specs.declared.outcome.Outcome.TheVariants as outcome;
ghost use Rattle.fidl_decode_model.specs.declared.fault.DecodeFault.TheVariants as message_fault;
ghost use Rattle.fidl_header.specs.declared.fault.HeaderFault.TheVariants as header_fault;
ghost use Rattle.fidl_dump.specs.declared.fault.FrameFault.TheVariants as frame_fault;
ghost use Rattle.fidl_stream_commands.specs.Serving.{script_line, line_of, outcome_of};
ghost use Rattle.fidl_stream_commands.specs.Dumping.{frame_line};

/// The line of a script's fault has the script's line where the fault reports one.
pub fn the_lines_of_scripts()
    ensures placeless { script_line script_fault.UnknownProtocol
        ≡ codes "script 2 UnknownProtocol\n" }
    ensures placed { script_line (script_fault.BadValue 3) ≡ codes "script 5 BadValue at 3\n" }
    ensures unplaced { ¬ (script_line (script_fault.BadValue 3) ≡ codes "script 5 BadValue\n") }
{}

/// The lines of a service's ends and faults. The end of the input prints nothing.
pub fn the_lines_of_services()
    ensures end { line_of (Ok ended.EndOfInput) ≡ [] }
    ensures strict { line_of (Ok ended.StrictUnknown) ≡ codes "ended 2 StrictUnknown\n" }
    ensures write { line_of (Err (fault.Write 7)) ≡ codes "serve 2 Write\n" }
    ensures read { ¬ (line_of (Err fault.Read) ≡ codes "serve 2 Read\n") }
{}

/// What happens to the command by the result of its service.
pub fn the_outcomes_of_services()
    ensures end { outcome_of (Ok ended.EndOfInput) ≡ outcome.Done }
    ensures cut { outcome_of (Ok ended.BadFrame) ≡ outcome.Refused }
    ensures read { outcome_of (Err fault.Read) ≡ outcome.Unread }
    ensures not_written { ¬ (outcome_of (Err fault.Read) ≡ outcome.Unwritten) }
    ensures write { outcome_of (Err (fault.Write 7)) ≡ outcome.Unwritten }
    ensures endless { outcome_of (Err fault.NeverEnds) ≡ outcome.Refused }
    ensures memory { outcome_of (Err fault.Memory) ≡ outcome.NoMemory }
{}

/// The line of a frame's fault begins with the frame's number, and has the offset of a body's fault.
pub fn the_lines_of_frames()
    ensures cut { frame_line 2 frame_fault.BadFrame ≡ codes "frame 2: ended 4 BadFrame\n" }
    ensures bare { frame_line 10 frame_fault.BadMessage ≡ codes "frame 10: ended 3 BadMessage\n" }
    ensures header { frame_line 1 (frame_fault.Header header_fault.BadMagic)
        ≡ codes "frame 1: header 2 BadMagic\n" }
    ensures body { frame_line 1 (frame_fault.Body (message_fault.Padding 2))
        ≡ codes "frame 1: decode 4 Padding at 2\n" }
    ensures placed { ¬ (frame_line 1 (frame_fault.Body (message_fault.Padding 2))
        ≡ codes "frame 1: decode 4 Padding\n") }
{}
