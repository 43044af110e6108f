//! Worked facts: numbers that are no kind.
ghost use Rattle.fidl_table_format.specs.Entry.{HasShape};
ghost use Rattle.fidl_table_format.specs.Samples.{an_entry};

/// The kinds have the numbers from 1 to 19.
pub fn other_kinds()
    ensures before { ¬ HasShape (an_entry 0 0 0 0 0 0) }
    ensures behind { ¬ HasShape (an_entry 20 0 0 0 0 0) }
{}
