//! Worked facts: what small tables show of files, and what they don't.
ghost use Rattle.std.specs.Prelude.{◌≡◌, ◌⊎◌, ℕ, List, [], ◌∷◌, codes, Some, slice_get};
ghost use Rattle.fidl_tree.specs.declared.file.File.{File};
ghost use Rattle.fidl_wire.specs.Term as ty;
ghost use Rattle.fidl_wire.specs.Figure.{Declarations};
ghost use Rattle.fidl_declarations.specs.Forms.{Form};
ghost use Rattle.fidl_lower_types.specs.Numbers.{all_forms};
ghost use Rattle.fidl_layout.specs.Laid.{AreLaidOut};
ghost use Rattle.fidl_layout.specs.Roots.{RootAt};
ghost use Rattle.fidl_named.specs.declared.place.DeclarationId.{DeclarationId};
ghost use Rattle.fidl_composition.specs.Protocols.{IsProtocol};
ghost use Rattle.fidl_protocol.specs.declared.method.Protocol.{Protocol};
ghost use Rattle.fidl_table_build.specs.Samples.{header_bytes};
ghost use Rattle.fidl_table.specs.Definitions.{definition_names, ShowsDefinition};
ghost use Rattle.fidl_table.specs.Roots.{IsRootOf, ShowsRoots};
ghost use Rattle.fidl_table.specs.Entries.{ShowsEntries};
ghost use Rattle.fidl_table.specs.Shows.{Shows};
ghost use Rattle.fidl_table.specs.Samples.{three_types, three_names, two_roots, one_protocol};

pub mod listed;
pub mod protocols;

/// The names of definitions stand in the order of their forms.
pub fn names_of_definitions()
    ensures none { definition_names [] ≡ [] }
    ensures in_order { (files : List File) (one two : Form) → all_forms files ≡ one ∷ two ∷ []
        → definition_names files ≡ one.name ∷ two.name ∷ [] }
{}

/// The entry of a definition has its name and its values.
pub fn entries_of_definitions()
    ensures a_struct { (files : List File) → definition_names files ≡ three_names
        → ShowsDefinition files three_types (two_roots 16 0 1) 2 1 }
    ensures other_name { (files : List File)
        → definition_names files ≡ codes "l/b" ∷ codes "l/a" ∷ codes "l/c" ∷ []
        → ¬ ShowsDefinition files three_types (two_roots 16 0 1) 2 1 }
    ensures other_type { (files : List File)
        → ¬ ShowsDefinition files three_types (two_roots 6 0 1) 2 1 }
    ensures other_definition { (files : List File)
        → ¬ ShowsDefinition files three_types (two_roots 16 0 1) 0 1 }
    ensures no_definition { (ds : Declarations) (bytes : List ℕ) (definition entry : ℕ)
        → ¬ ShowsDefinition [] ds bytes definition entry }
{}

/// A root is of a declared type, and has its name and its entry.
pub fn roots_of_declared_types()
    ensures same { (files : List File) → definition_names files ≡ three_names → RootAt files 2
        → IsRootOf files three_types (two_roots 16 0 1) 2 0 }
    ensures undeclared { (files : List File) → definition_names files ≡ three_names
        → ¬ RootAt files 2 → ¬ IsRootOf files three_types (two_roots 16 0 1) 2 0 }
    ensures other_name { (files : List File) → definition_names files ≡ three_names
        → ¬ IsRootOf files three_types (two_roots 16 3 1) 2 0 }
    ensures other_entry { (files : List File) → definition_names files ≡ three_names
        → ¬ IsRootOf files three_types (two_roots 16 0 2) 2 0 }
{}

/// The roots of a table are all declared types, and nothing else.
pub fn lists_of_roots()
    ensures none { (ds : Declarations) → ShowsRoots [] ds (header_bytes 0 0 0 0) }
    ensures both { (files : List File) (ds : Declarations)
        → ((i : ℕ) → RootAt files i → (i ≡ 2) ⊎ (i ≡ 0))
        → IsRootOf files ds (two_roots 16 0 1) 2 0 → IsRootOf files ds (two_roots 16 0 1) 0 1
        → ShowsRoots files ds (two_roots 16 0 1) }
    ensures fewer { (files : List File) (ds : Declarations) (i : ℕ) → RootAt files i
        → ¬ ShowsRoots files ds (header_bytes 0 0 0 0) }
    ensures more { (ds : Declarations) → ¬ ShowsRoots [] ds (two_roots 16 0 1) }
{}

/// The entries of a table are the types that roots and payloads reach, the first root first.
pub fn entries_of_tables()
    ensures none { (ds : Declarations) → ShowsEntries [] ds [] (header_bytes 0 0 0 0) }
    ensures first_root_first { (files : List File) (ds : Declarations) (library : List Protocol)
        (bytes : List ℕ) (i : ℕ) (others : List ℕ) (e : ShowsEntries files ds library bytes)
        → e.roots ≡ i ∷ others → slice_get e.types 0 ≡ Some (ty.named i) }
    ensures more_entries { (files : List File) (ds : Declarations) (library : List Protocol)
        → ¬ ShowsEntries files ds library (header_bytes 1 0 0 0) }
{}

/// A table shows files that are laid out, by their declared types and their protocols, all of both.
pub fn tables_of_files()
    ensures none { Shows [] (header_bytes 0 0 0 0) }
    ensures fewer_roots { (files : List File) (i : ℕ) → RootAt files i
        → ¬ Shows files (header_bytes 0 0 0 0) }
    ensures more_roots { ¬ Shows [] (two_roots 16 0 1) }
    ensures fewer_protocols { (files : List File) (id : DeclarationId) → IsProtocol files id
        → ¬ Shows files (header_bytes 0 0 0 0) }
    ensures more_protocols { ¬ Shows [] one_protocol }
    ensures not_laid_out { (files : List File) (bytes : List ℕ)
        → ((ds : Declarations) → ¬ AreLaidOut files ds) → ¬ Shows files bytes }
{}
