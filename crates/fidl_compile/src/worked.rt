//! Worked facts: what reads as what, what refusals say, and what is reported of them.
ghost use Rattle.std.specs.Prelude.{◌≡◌, ℕ, List, [], ◌∷◌, Some, None, codes};
ghost use Rattle.fidl_span.specs.declared.words.Span.{Span};
ghost use Rattle.fidl_span.specs.declared.words.Word.{Word};
ghost use Rattle.fidl_span.specs.declared.faults.LexFault.{LexFault};
ghost use Rattle.fidl_span.specs.declared.faults.LexFault.TheVariants as Lex;
ghost use Rattle.fidl_span.specs.Words.{Words};
ghost use Rattle.fidl_tree.specs.File.{yield_of};
ghost use Rattle.fidl_tree.specs.declared.file.File.{File};
ghost use Rattle.fidl_parse.specs.declared.fault.ParseFault.{ParseFault};
ghost use Rattle.fidl_parse.specs.declared.fault.ParseFault.TheVariants as Parse;
ghost use Rattle.fidl_parse.specs.Trees.{HasTree};
ghost use Rattle.fidl_named.specs.declared.place.Place.{Place};
ghost use Rattle.fidl_named.specs.declared.fault.NameFault.{NameFault};
ghost use Rattle.fidl_named.specs.declared.fault.NameFault.TheVariants as Names;
ghost use Rattle.fidl_consts.specs.declared.fault.ConstFault.{ConstFault};
ghost use Rattle.fidl_consts.specs.declared.fault.ConstFault.TheVariants as Const;
ghost use Rattle.fidl_consts.specs.Evaluated.{Evaluates};
ghost use Rattle.fidl_names.specs.Resolved.{Resolves};
ghost use Rattle.fidl_wire.specs.Term.{Term};
ghost use Rattle.fidl_wire.specs.Figure.{Declarations};
ghost use Rattle.fidl_types.specs.Types.{TypesAre};
ghost use Rattle.fidl_types.specs.declared.fault.TypeFault.{TypeFault};
ghost use Rattle.fidl_types.specs.declared.fault.TypeFault.TheVariants as Types;
ghost use Rattle.fidl_layout.specs.Laid.{AreLaidOut};
ghost use Rattle.fidl_layout.specs.declared.fault.LayoutFault.{LayoutFault};
ghost use Rattle.fidl_protocol.specs.declared.fault.ProtocolFault.{ProtocolFault};
ghost use Rattle.fidl_layout.specs.declared.fault.LayoutFault.TheVariants as Layout;
ghost use Rattle.fidl_protocol.specs.declared.fault.ProtocolFault.TheVariants as Protocol;
ghost use Rattle.fidl_compile.specs.declared.fault.CompileFault.{CompileFault};
ghost use Rattle.fidl_compile.specs.declared.fault.CompileFault.TheVariants as Faults;
ghost use Rattle.fidl_compile.specs.Sources.{ReadsAs, ReadAs};
ghost use Rattle.fidl_compile.specs.Stages.{SourceRefused, NextRefused, AddingRefused};
ghost use Rattle.fidl_compile.specs.Stages.{FilesRefused, AreRefused, of_lex, of_names};
ghost use Rattle.fidl_compile.specs.Reports.{report_of};

/// A tree reads from one source alone, its words are those of the source, and the source has a
/// tree. Each source has one file.
pub fn sources_and_trees()
    ensures source { (src other : List ℕ) (tree : File) → ReadsAs src tree → ReadsAs other tree
        → src ≡ other }
    ensures tree { (src : List ℕ) (tree : File) → ReadsAs src tree → HasTree (yield_of tree) src }
    ensures words { (src : List ℕ) (tree : File) → ReadsAs src tree → Words src (yield_of tree) }
    ensures none { ReadAs [] [] }
    ensures too_few { (src : List ℕ) → ReadAs (src ∷ []) [] → ⊥ }
    ensures too_many { (tree : File) → ReadAs [] (tree ∷ []) → ⊥ }
{}

/// A source is refused by its own words or tree, and under its own number; files by the stages that
/// judge files, and by each only where they keep the rules of those before it. Memory that ran out is no stage's fault, and says nothing.
pub fn stages_of_refusals()
    ensures number { (src : List ℕ) (fault : LexFault)
        → SourceRefused src 0 (Faults.Lex 1 fault) → ⊥ }
    ensures source { (src : List ℕ) (fault : NameFault)
        → SourceRefused src 0 (Faults.Names fault) → ⊥ }
    ensures tree { (src : List ℕ) (fault : ParseFault)
        → SourceRefused src 0 (Faults.Parse 0 fault) → (words : List Word)
        × Words src words × (HasTree words src → ⊥) }
    ensures next { (fault : CompileFault) → NextRefused [] 0 fault → ⊥ }
    ensures adding { (files : List File) (fault : ConstFault)
        → AddingRefused files (Faults.Const fault) → ⊥ }
    ensures none { (fault : NameFault) → AddingRefused [] (Faults.Names fault) → ⊥ }
    ensures files { (files : List File) (fault : LexFault)
        → FilesRefused files (Faults.Lex 0 fault) → ⊥ }
    ensures lex_memory { SourceRefused [] 0 (Faults.Lex 0 Lex.Memory) → ⊥ }
    ensures const_memory { (files : List File)
        → FilesRefused files (Faults.Const Const.Memory) → ⊥ }
    ensures before_types { (files : List File) (fault : TypeFault)
        → FilesRefused files (Faults.Types fault) → Resolves files × Evaluates files }
    ensures before_layout { (files : List File) (fault : LayoutFault)
        → FilesRefused files (Faults.Layout fault)
        → Resolves files × Evaluates files × ((ts : List Term) × TypesAre files ts) }
    ensures before_protocols { (files : List File) (fault : ProtocolFault)
        → FilesRefused files (Faults.Protocol fault)
        → Resolves files × Evaluates files × ((ds : Declarations) × AreLaidOut files ds) }
    ensures memory { (sources : List (List ℕ)) → AreRefused sources Faults.Memory }
    ensures made { (of_lex 3 Lex.Memory ≡ Faults.Memory) × (of_names Names.Memory ≡ Faults.Memory) }
{}

/// A refusal is reported with its stage, the number and the name of the stage's fault, and its
/// place; lack of memory isn't reported.
pub fn reports_of_refusals()
    ensures lex { (span : Span) → report_of (Faults.Lex 2 (Lex.BadByte span))
        ≡ Some (record {
          stage = codes "lex";
          number = 2;
          name = codes "BadByte";
          place = record { file = 2; span = span };
        }) }
    ensures parse { (span : Span) → report_of (Faults.Parse 1 (Parse.TooNested span))
        ≡ Some (record {
          stage = codes "parse";
          number = 2;
          name = codes "TooNested";
          place = record { file = 1; span = span };
        }) }
    ensures names { (place : Place) → report_of (Faults.Names (Names.UnknownName place))
        ≡ Some (record {
          stage = codes "names";
          number = 3;
          name = codes "UnknownName";
          place = place;
        }) }
    ensures constants { (place : Place) → report_of (Faults.Const (Const.OutOfRange place))
        ≡ Some (record {
          stage = codes "const";
          number = 1;
          name = codes "OutOfRange";
          place = place;
        }) }
    ensures types { (place : Place) → report_of (Faults.Types (Types.InlineCycle place))
        ≡ Some (record {
          stage = codes "types";
          number = 2;
          name = codes "InlineCycle";
          place = place;
        }) }
    ensures layout { (place : Place) → report_of (Faults.Layout (Layout.TooLarge place))
        ≡ Some (record {
          stage = codes "layout";
          number = 2;
          name = codes "TooLarge";
          place = place;
        }) }
    ensures protocol { (place : Place) → report_of (Faults.Protocol (Protocol.NotStrict place))
        ≡ Some (record {
          stage = codes "protocol";
          number = 1;
          name = codes "NotStrict";
          place = place;
        }) }
    ensures memory { report_of Faults.Memory ≡ None }
{}
