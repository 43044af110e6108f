//! Worked facts: which frames are over, and whose members are leaves, computed by the definitions.
ghost use Rattle.std.specs.Prelude.{[]};
ghost use Rattle.fidl_table_format.specs.Samples.{struct_and_box, table_and_union};
ghost use Rattle.fidl_decode_model.specs.declared.frame.Remaining.TheVariants.{Rows, Elements};
ghost use Rattle.fidl_decode_model.specs.declared.frame.Remaining.TheVariants.{Envelopes};
ghost use Rattle.fidl_decode_values.specs.Body.{envelopes_of};
ghost use Rattle.fidl_decode.specs.Over.{NoRows, IsOver, AreRowsOfLeaves};

/// Rows and elements can be over, and envelopes cannot. A frame is over where its last byte is
/// read.
pub fn frames_that_are_over()
    ensures rows { NoRows (Rows 3 0) }
    ensures row { ¬ (NoRows (Rows 3 1)) }
    ensures elements { NoRows (Elements 0 8 0) }
    ensures element { ¬ (NoRows (Elements 0 8 2)) }
    ensures envelopes { ¬ (NoRows (Envelopes 0 1 0)) }
    ensures envelope { ¬ (IsOver (envelopes_of 0 16 0 1)) }
{}

/// Members of rows are leaves: uint8 are, and a box is not. Elements are no rows.
pub fn rows_of_leaves()
    ensures none { AreRowsOfLeaves [] (Rows 0 0) }
    ensures numbers { AreRowsOfLeaves (table_and_union 1 2 1 2) (Rows 0 2) }
    ensures holder { ¬ (AreRowsOfLeaves (struct_and_box 0 0) (Rows 0 1)) }
    ensures elements { ¬ (AreRowsOfLeaves [] (Elements 0 8 0)) }
    ensures envelopes { ¬ (AreRowsOfLeaves [] (Envelopes 0 0 0)) }
{}
