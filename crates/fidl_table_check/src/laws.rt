//! Laws of the definitions: each is the contract of a function that does nothing.
ghost use Rattle.std.specs.Prelude.{ℕ, List};
ghost use Rattle.fidl_wire.specs.Term.{Term};
ghost use Rattle.fidl_wire.specs.Figure.{Declarations, IsLaidOut};
ghost use Rattle.fidl_table_format.specs.WellFormed.{WellFormed};
ghost use Rattle.fidl_table_check.specs.Numbered.{AreEntries, ShowsTypes};

/// Where the entries of a well-formed table are the types of a list, each entry has its type's
/// values, with the same encodings, depths and texts.
pub fn entries_show_their_types()
    ensures { (ds : Declarations) (types : List Term) (bytes : List ℕ) → IsLaidOut ds
        → WellFormed bytes → AreEntries ds types bytes → ShowsTypes ds types bytes }
{}
