//! The members of each table and union of a compiled table have different names, so that a text
//! names each of them (docs/notation.md, "Names").
#![tactic(auto)]

ghost use Rattle.std.specs.Prelude.{ℕ, List};
ghost use Rattle.fidl_tree.specs.declared.file.File.{File};
ghost use Rattle.fidl_names.specs.Resolved.{Resolves};
ghost use Rattle.fidl_table_format.specs.WellFormed.{WellFormed};
ghost use Rattle.fidl_table.specs.Shows.{Shows};
ghost use Rattle.fidl_reading.specs.Written.{HasDistinctNames};

/// In a table that shows the library of files whose names are resolved, no table or union has two
/// members of one name.
pub fn written_tables_have_distinct_names()
    ensures { (files : List File) → (bytes : List ℕ) → Resolves files → Shows files bytes
        → WellFormed bytes → HasDistinctNames bytes }
{}
