//! Worked facts: what the definitions say of small types, and what they don't.
ghost use Rattle.std.specs.Prelude.{◌≡◌, ◌≢◌, ◌<◌, ◌^◌, ℕ, List, [], ◌∷◌, Option, None, Some};
ghost use Rattle.std.specs.Prelude.{Bool, true, false};
ghost use Rattle.fidl_span.specs.declared.words.Span.{Span};
ghost use Rattle.fidl_tree.specs.Leaf.{text_at};
ghost use Rattle.fidl_tree.specs.Syntax.{Path, Value, TypeUse, named_type, no_arguments};
ghost use Rattle.fidl_tree.specs.Syntax.{next_argument, number_argument, type_argument};
ghost use Rattle.fidl_tree.specs.Syntax.{struct_layout, table_layout, Members, Response};
ghost use Rattle.fidl_tree.specs.declared.file.File.{File};
ghost use Rattle.fidl_named.specs.declared.meaning.Predeclared.TheVariants as Words;
ghost use Rattle.fidl_consts.specs.Literals.{number_of};
ghost use Rattle.fidl_wire.specs.Term as ty;
ghost use Rattle.fidl_constraints.specs.Behind.{word_head};
ghost use Rattle.fidl_constraints.specs.declared.parts.PartKind.TheVariants as Kinds;
ghost use Rattle.fidl_constraints.specs.Examples.{part};
ghost use Rattle.fidl_lower_types.specs.declared.node.Shape.TheVariants as Shapes;
ghost use Rattle.fidl_declarations.specs.declared.step.Step.{Step};
ghost use Rattle.fidl_declarations.specs.declared.step.Step.TheVariants as Steps;
ghost use Rattle.fidl_declarations.specs.Forms.{Form, layout_form, result_form};
ghost use Rattle.fidl_declarations.specs.Forms.{empty_response_form};
ghost use Rattle.fidl_lower_types.specs.Numbers.{IsFormAt, IsFirst, IsFirstForm, IsAnswerAt};
ghost use Rattle.fidl_lower_types.specs.Counts.{CountIs};
ghost use Rattle.fidl_lower_types.specs.Terms.{Node, made_of, word_term, is_struct, leaf, holds};
ghost use Rattle.fidl_lower_types.specs.Terms.{HeadIs};

/// The terms of predeclared types: with their bounds, and none for numbers that are left out of the
/// profile.
pub fn terms_of_words()
    ensures bool { word_term Words.Bool [] ≡ Some ty.bool }
    ensures byte { word_term Words.Byte [] ≡ Some (ty.number ty.uint8) }
    ensures signed { (word_term Words.Int8 [] ≡ Some (ty.number ty.int8))
        × (word_term Words.Int16 [] ≡ Some (ty.number ty.int16))
        × (word_term Words.Int32 [] ≡ Some (ty.number ty.int32))
        × (word_term Words.Int64 [] ≡ Some (ty.number ty.int64)) }
    ensures unsigned { (word_term Words.Uint8 [] ≡ Some (ty.number ty.uint8))
        × (word_term Words.Uint16 [] ≡ Some (ty.number ty.uint16))
        × (word_term Words.Uint32 [] ≡ Some (ty.number ty.uint32))
        × (word_term Words.Uint64 [] ≡ Some (ty.number ty.uint64)) }
    ensures string { word_term Words.String (part Kinds.Bound 4 ∷ part Kinds.Optional 0 ∷ [])
        ≡ Some (ty.string true 4) }
    ensures bytes { word_term Words.Bytes [] ≡ Some (ty.vector false 4294967295
        (ty.number ty.uint8)) }
    ensures clients { word_term Words.ClientEnd (part Kinds.Protocol 0 ∷ [])
        ≡ Some (ty.handle false 4 2147483648) }
    ensures servers { word_term Words.ServerEnd (part Kinds.Protocol 0 ∷ part Kinds.Optional 0
        ∷ []) ≡ Some (ty.handle true 4 2147483648) }
    ensures floats { (word_term Words.Float32 [] ≡ None) × (word_term Words.Float64 [] ≡ None) }
    ensures other { word_term Words.Int64 [] ≢ Some (ty.number ty.uint64) }
{}

/// Vectors and arrays have the term of their elements in them, and only structs are structs.
pub fn terms_of_elements()
    ensures vector { made_of (Shapes.Vector true 7) ty.bool ≡ ty.vector true 7 ty.bool }
    ensures array { made_of (Shapes.Array 3) ty.bool ≡ ty.array ty.bool 3 }
    ensures other { made_of (Shapes.Array 3) ty.bool ≢ ty.array ty.bool 4 }
    ensures structs { (k : Span) (ms : Members) → (is_struct (struct_layout false k ms) ≡ true)
        × (is_struct (table_layout false k ms) ≡ false) }
{}

/// A number word counts elements from 1 on; a name with a constraint counts none.
pub fn counts_of_elements()
    ensures word { (files : List File) (f : File) (s : Span) → number_of (text_at f.src.now s) ≡ 3
        → CountIs files f (number_argument s) 3 }
    ensures none { (files : List File) (f : File) (s : Span) → CountIs files f (number_argument s) 0
        → ⊥ }
    ensures constrained { (files : List File) (f : File) (path : Path) (v : Value) (n : ℕ)
        → CountIs files f (type_argument (named_type path no_arguments (v ∷ []))) n → ⊥ }
{}

/// A vector of one type is of its elements, and a vector of nothing is nothing.
pub fn vectors_hold_one_type()
    ensures holds { (files : List File) (t : TypeUse)
        → HeadIs files 0 [] (word_head Words.Vector (next_argument (type_argument t) no_arguments))
        (holds 0 t (Shapes.Vector false 4294967295)) }
    ensures none { (files : List File) (n : Node) → HeadIs files 0 []
        (word_head Words.Vector no_arguments) n → ⊥ }
    ensures bools { (files : List File) → HeadIs files 0 [] (word_head Words.Bool no_arguments)
        (leaf ty.bool) }
{}

/// A layout is known by where its keyword stands, in its own file and as it is or where it may be
/// absent; the first form of it has its number.
pub fn numbers_of_layouts()
    ensures own { (path : List Step) (name : List ℕ) (k : Span) (ms : Members)
        → IsFormAt 2 false k (record {
          file = 2;
          path = path;
          name = name;
          kind = layout_form false (struct_layout false k ms);
        }) }
    ensures optional { (form : Form) (k : Span) (ms : Members)
        → form.kind ≡ layout_form false (struct_layout false k ms) → IsFormAt 2 true k form → ⊥ }
    ensures elsewhere { (form : Form) (k j : Span) → k ≢ j → IsFormAt 2 false k form
        → IsFormAt 2 false j form → ⊥ }
    ensures first { (one other : Form) (k : Span) → (IsFormAt 2 false k one → ⊥)
        → IsFormAt 2 false k other → IsFirstForm (one ∷ other ∷ []) 2 false k 1 }
    ensures later { (one other : Form) (k : Span) → IsFormAt 2 false k one
        → IsFirstForm (one ∷ other ∷ []) 2 false k 1 → ⊥ }
    ensures too_high { (forms : List Form) (k : Span) → IsFirstForm forms 2 false k (2 ^ 32) → ⊥ }
{}

/// The result of a method, and the empty response in it, are known by the names of the protocol and
/// of the method in their own file.
pub fn numbers_of_answers()
    ensures result { (p m : Span) (name : List ℕ) (strict : Bool) (r : Response)
        → IsAnswerAt 2 false p m (record {
          file = 2;
          path = Steps.Name p ∷ Steps.Name m ∷ Steps.Result ∷ [];
          name = name;
          kind = result_form strict r;
        }) }
    ensures empty { (p m : Span) (name : List ℕ) → IsAnswerAt 2 true p m (record {
      file = 2;
      path = Steps.Name p ∷ Steps.Name m ∷ Steps.Response ∷ [];
      name = name;
      kind = empty_response_form;
    }) }
    ensures no_result { (p m : Span) (form : Form) → form.kind ≡ empty_response_form
        → IsAnswerAt 2 false p m form → ⊥ }
    ensures other_file { (p m : Span) (form : Form) → IsAnswerAt 2 true p m form
        → IsAnswerAt 3 true p m form → ⊥ }
    ensures other_method { (p m n : Span) (form : Form) → m ≢ n → IsAnswerAt 2 false p m form
        → IsAnswerAt 2 false p n form → ⊥ }
    ensures other_protocol { (p q m : Span) (form : Form) → p ≢ q → IsAnswerAt 2 false p m form
        → IsAnswerAt 2 false q m form → ⊥ }
    ensures layout { (p m k : Span) (ms : Members) (form : Form)
        → form.kind ≡ layout_form false (struct_layout false k ms) → IsAnswerAt 2 false p m form
        → ⊥ }
    ensures none { (p m : Span) (i : ℕ) → IsFirst [] (IsAnswerAt 2 true p m) i → ⊥ }
{}
