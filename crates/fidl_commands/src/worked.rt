//! Worked facts: lines and statuses, computed by the definitions.
ghost use Rattle.std.specs.Prelude.{◌≡◌, [], ◌∷◌, codes};
ghost use Rattle.fidl_table_format.specs.declared.record.Header.{Header};
ghost use Rattle.fidl_reading.specs.declared.fault.NotationFault.TheVariants as text_fault;
ghost use Rattle.fidl_encode.specs.declared.fault.EncodeFault.TheVariants as value_fault;
ghost use Rattle.fidl_verify.specs.declared.fault.TableFault.TheVariants as fault;
ghost use Rattle.fidl_commands.specs.Decoding.{table_line};
ghost use Rattle.fidl_commands.specs.Encoding.{message_text, text_line, value_line};
ghost use Rattle.fidl_commands.specs.Summary.{summary_text};
ghost use Rattle.fidl_commands.specs.Status.{status_of, number_of};
ghost use Rattle.fidl_commands.specs.declared.outcome.Outcome.TheVariants as outcome;
ghost use Rattle.fidl_commands.specs.declared.outcome.Status.TheVariants as status;

/// The line of a table that is too short, and not that of one that is too long.
pub fn the_line_of_a_short_table()
    ensures is { table_line (fault.Truncated 0) ≡ codes "table 3 Truncated at 0\n" }
    ensures other { ¬ (table_line (fault.Surplus 0) ≡ codes "table 3 Truncated at 0\n") }
{}

/// The line of a text's fault has a place, and that of a value's fault has none.
pub fn the_lines_of_texts_and_values()
    ensures text { text_line (text_fault.Syntax 5) 5 ≡ codes "notation 1 Syntax at 5\n" }
    ensures value { value_line value_fault.UnknownValue ≡ codes "encode 4 UnknownValue\n" }
{}

/// What is printed of a message: its bytes in lower-case digits, a line feed, and its handles.
pub fn the_lines_of_a_message()
    ensures bytes { message_text (10 ∷ 255 ∷ []) [] ≡ codes "0aff\n" }
    ensures handles { message_text (10 ∷ []) (record { id = 7; object_type = 1; rights = 3 } ∷ [])
        ≡ codes "0a\nhandle 7:1:3\n" }
{}

/// The line of what a table holds: entries, roots, protocols and methods, and its bytes.
pub fn the_line_of_a_table()
    ensures { (h : Header) → h.entries ≡ 1 → h.roots ≡ 2 → h.protocols ≡ 3 → h.methods ≡ 4
        → summary_text h 5 ≡ codes "entries 1, roots 2, protocols 3, methods 4, bytes 5\n" }
{}

/// The status of each outcome, and the number of each status.
pub fn statuses_of_outcomes()
    ensures numbers { (number_of status.Done ≡ 0) × (number_of status.Refused ≡ 1)
        × (number_of status.Usage ≡ 2) × (number_of status.FileFault ≡ 3)
        × (number_of status.Memory ≡ 4) }
    ensures done { (status_of outcome.Done ≡ status.Done) × (status_of outcome.Asked ≡ status.Done) }
    ensures refused { status_of outcome.Refused ≡ status.Refused }
    ensures usage { (status_of outcome.WrongLine ≡ status.Usage)
        × (status_of outcome.NoRoot ≡ status.Usage) }
    ensures files { (status_of outcome.NoFile ≡ status.FileFault)
        × (status_of outcome.Unwritten ≡ status.FileFault) }
    ensures memory { status_of outcome.NoMemory ≡ status.Memory }
{}
