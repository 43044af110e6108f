//! Worked facts: what the definitions say of small forms, and what they don't.
ghost use Rattle.std.specs.Prelude.{◌≡◌, ◌≢◌, ◌∷◌, ◌^◌, [], ℕ, ℤ, pos, neg_ℤ, List, Some, None};
ghost use Rattle.std.specs.Prelude.{true, false, codes};
ghost use Rattle.fidl_span.specs.declared.words.Span.{Span};
ghost use Rattle.fidl_tree.specs.Leaf.{text_at};
ghost use Rattle.fidl_tree.specs.Syntax.{Attribute, TypeUse, no_members};
ghost use Rattle.fidl_tree.specs.Syntax.{named_member};
ghost use Rattle.fidl_tree.specs.Syntax.{ValueMember, bits_kind, struct_layout};
ghost use Rattle.fidl_tree.specs.Syntax.{table_layout, union_layout, no_underlying, Response};
ghost use Rattle.fidl_tree.specs.declared.file.File.{File};
ghost use Rattle.fidl_consts.specs.declared.const_type.NumberKind.TheVariants as Kinds;
ghost use Rattle.fidl_declarations.specs.declared.step.Step.{Step};
ghost use Rattle.fidl_declarations.specs.declared.step.Step.TheVariants as Steps;
ghost use Rattle.fidl_declarations.specs.Forms.{Form, layout_form, result_form, empty_response_form};
ghost use Rattle.fidl_wire.specs.Term as ty;
ghost use Rattle.fidl_wire.specs.Term.{Term, no_fields, field, no_rows, row};
ghost use Rattle.fidl_lower_types.specs.Terms.{TermIs};
ghost use Rattle.fidl_member_rules.specs.Numbers.{NumbersAre};
ghost use Rattle.fidl_lower_layouts.specs.Members.{FieldsAre};
ghost use Rattle.fidl_lower_layouts.specs.Values.{kind_of, IsMaskOf, IsNumbered, ValuesAre};
ghost use Rattle.fidl_lower_layouts.specs.Results.{AreOfOneMethod, IsEmptyOf, IsFirstEmpty};
ghost use Rattle.fidl_lower_layouts.specs.Results.{IsEmptyNumber, ErrorIs, result_rows, IsResult};
ghost use Rattle.fidl_lower_layouts.specs.Definitions.{KindIs, DefinitionIs, DefinitionsAre};

/// A member of a struct gives a field of its name and its term, and each member gives one.
pub fn fields_of_structs()
    ensures none { (files : List File) (n : ℕ) (f : File) → FieldsAre files n f [] no_fields }
    ensures one { (files : List File) (n : ℕ) (f : File) (attributes : List Attribute) (name : Span)
        (t : TypeUse) (e : Term) → TermIs files n t e
        → FieldsAre files n f (named_member attributes name t ∷ [])
        (field (text_at f.src.now name) e no_fields) }
    ensures two { (files : List File) (n : ℕ) (f : File) (attributes : List Attribute)
        (name other : Span) (t u : TypeUse) (e d : Term) → TermIs files n t e → TermIs files n u d
        → FieldsAre files n f
        (named_member attributes name t ∷ named_member attributes other u ∷ [])
        (field (text_at f.src.now name) e (field (text_at f.src.now other) d no_fields)) }
    ensures too_few { (files : List File) (n : ℕ) (f : File) (attributes : List Attribute)
        (name : Span) (t : TypeUse)
        → FieldsAre files n f (named_member attributes name t ∷ []) no_fields → ⊥ }
    ensures too_many { (files : List File) (n : ℕ) (f : File) (name : List ℕ) (e : Term)
        → FieldsAre files n f [] (field name e no_fields) → ⊥ }
{}

/// Each type of whole numbers is the one of its name.
pub fn kinds_of_numbers()
    ensures signed { (kind_of Kinds.Int8 ≡ ty.int8) × (kind_of Kinds.Int16 ≡ ty.int16)
        × (kind_of Kinds.Int32 ≡ ty.int32) × (kind_of Kinds.Int64 ≡ ty.int64) }
    ensures unsigned { (kind_of Kinds.Uint8 ≡ ty.uint8) × (kind_of Kinds.Uint16 ≡ ty.uint16)
        × (kind_of Kinds.Uint32 ≡ ty.uint32) × (kind_of Kinds.Uint64 ≡ ty.uint64) }
    ensures other { kind_of Kinds.Uint8 ≢ ty.int8 }
{}

/// The mask of 1 and 4 is 5, that of nothing 0; numbers below 0 and of more than 64 bits have none.
pub fn masks_of_numbers()
    ensures nothing { IsMaskOf [] 0 }
    ensures two { IsMaskOf (pos 1 ∷ pos 4 ∷ []) 5 }
    ensures twice { IsMaskOf (pos 4 ∷ pos 4 ∷ []) 4 }
    ensures other { IsMaskOf (pos 1 ∷ pos 4 ∷ []) 4 → ⊥ }
    ensures negative { (mask : ℕ) → IsMaskOf (neg_ℤ (pos 1) ∷ []) mask → ⊥ }
    ensures too_high { (mask : ℕ) → IsMaskOf (pos (2 ^ 64) ∷ []) mask → ⊥ }
{}

/// Strict bits have the mask of their members, flexible ones have none.
pub fn masks_of_bits()
    ensures strict { (files : List File) (f : File) (ms : List ValueMember)
        → NumbersAre files f Kinds.Uint8 ms (pos 1 ∷ pos 4 ∷ [])
        → IsNumbered files f Kinds.Uint8 bits_kind true ms (ty.bits ty.uint8 (Some 5)) }
    ensures empty { (files : List File) (f : File)
        → IsNumbered files f Kinds.Uint8 bits_kind true [] (ty.bits ty.uint8 (Some 0)) }
    ensures no_mask { (files : List File) (f : File) (ms : List ValueMember)
        → IsNumbered files f Kinds.Uint8 bits_kind true ms (ty.bits ty.uint8 None) → ⊥ }
    ensures flexible { (files : List File) (f : File) (ms : List ValueMember)
        → IsNumbered files f Kinds.Uint8 bits_kind false ms (ty.bits ty.uint8 None) }
    ensures masked { (files : List File) (f : File) (ms : List ValueMember)
        → IsNumbered files f Kinds.Uint8 bits_kind false ms (ty.bits ty.uint8 (Some 5)) → ⊥ }
{}

/// Bits without an underlying type are of uint32, and of no other.
pub fn underlying_types()
    ensures unwritten { (files : List File) (f : File) (ms : List ValueMember)
        → ValuesAre files f bits_kind false no_underlying ms (ty.bits ty.uint32 None) }
    ensures other { (files : List File) (f : File) (ms : List ValueMember)
        → ValuesAre files f bits_kind false no_underlying ms (ty.bits ty.uint8 None) → ⊥ }
{}

/// A response is the first member of a result, an error the second; a flexible method's result has
/// a third, and a strict one's has not.
pub fn members_of_results()
    ensures strict { (e : Term) → result_rows true e None ≡ row 1 (codes "response") e no_rows }
    ensures error { (e d : Term) → result_rows true e (Some d)
        ≡ row 1 (codes "response") e (row 2 (codes "err") d no_rows) }
    ensures flexible { (e : Term) → result_rows false e None ≡ row 1 (codes "response") e
        (row 3 (codes "framework_err") (ty.number ty.int32) no_rows) }
    ensures both { (e d : Term) → result_rows false e (Some d) ≡ row 1 (codes "response") e
        (row 2 (codes "err") d (row 3 (codes "framework_err") (ty.number ty.int32) no_rows)) }
    ensures written { (files : List File) (n : ℕ) (t : TypeUse)
        → ErrorIs files n (Some t) None → ⊥ }
    ensures unwritten { (files : List File) (n : ℕ) (d : Term) → ErrorIs files n None (Some d) → ⊥ }
{}

/// A result is a strict union that is never absent.
pub fn results_are_strict()
    ensures strict { (files : List File) (n : ℕ) (path : List Step) (t : TypeUse) (e : Term)
        → TermIs files n t e → IsResult files n path true
        (record { payload = Some t; error = None })
        (ty.union false true (row 1 (codes "response") e no_rows)) }
    ensures empty { (files : List File) (n : ℕ) (path : List Step) (i : ℕ)
        → IsEmptyNumber files n path i → IsResult files n path false
        (record { payload = None; error = None })
        (ty.union false true (result_rows false (ty.named i) None)) }
    ensures flexible { (files : List File) (n : ℕ) (path : List Step) (r : Response)
        → IsResult files n path false r (ty.union false false no_rows) → ⊥ }
    ensures optional { (files : List File) (n : ℕ) (path : List Step) (r : Response)
        (rows : ty.Rows) → IsResult files n path true r (ty.union true true rows) → ⊥ }
{}

/// An empty response is known by its method's path, and the first one counts.
pub fn empty_responses()
    ensures paths { (s : Span) → AreOfOneMethod (Steps.Name s ∷ Steps.Result ∷ [])
        (Steps.Name s ∷ Steps.Response ∷ []) }
    ensures other_step { (s : Span) → AreOfOneMethod (Steps.Name s ∷ Steps.Result ∷ [])
        (Steps.Name s ∷ Steps.Error ∷ []) → ⊥ }
    ensures other_method { (s t : Span) → (s ≡ t → ⊥)
        → AreOfOneMethod (Steps.Name s ∷ Steps.Result ∷ []) (Steps.Name t ∷ Steps.Response ∷ [])
        → ⊥ }
    ensures own { (n : ℕ) (s : Span) (name : List ℕ)
        → IsEmptyOf n (Steps.Name s ∷ Steps.Result ∷ []) (record {
          file = n;
          path = Steps.Name s ∷ Steps.Response ∷ [];
          name = name;
          kind = empty_response_form;
        }) }
    ensures other_file { (n m : ℕ) (s : Span) (name : List ℕ) → (m ≡ n → ⊥)
        → IsEmptyOf n (Steps.Name s ∷ Steps.Result ∷ []) (record {
          file = m;
          path = Steps.Name s ∷ Steps.Response ∷ [];
          name = name;
          kind = empty_response_form;
        }) → ⊥ }
    ensures other_kind { (n : ℕ) (s : Span) (name : List ℕ) (r : Response)
        → IsEmptyOf n (Steps.Name s ∷ Steps.Result ∷ []) (record {
          file = n;
          path = Steps.Name s ∷ Steps.Response ∷ [];
          name = name;
          kind = result_form true r;
        }) → ⊥ }
    ensures behind { (n : ℕ) (path : List Step) (r e : Form) → (IsEmptyOf n path r → ⊥)
        → IsEmptyOf n path e → IsFirstEmpty (r ∷ e ∷ []) n path 1 }
    ensures later { (n : ℕ) (path : List Step) (e d : Form) → IsEmptyOf n path e
        → IsFirstEmpty (e ∷ d ∷ []) n path 1 → ⊥ }
    ensures none { (n : ℕ) (path : List Step) (i : ℕ) → IsFirstEmpty [] n path i → ⊥ }
{}

/// Each layout has the definition of its kind, a union says whether it may be absent and whether it
/// is strict, and an empty response is the struct without members.
pub fn definitions_of_layouts()
    ensures structs { (files : List File) (n : ℕ) (f : File) (path : List Step) (k : Span)
        → KindIs files n f path (layout_form false (struct_layout true k no_members))
        (ty.struct no_fields) }
    ensures no_table { (files : List File) (n : ℕ) (f : File) (path : List Step) (k : Span)
        → KindIs files n f path (layout_form false (struct_layout true k no_members))
        (ty.table no_rows) → ⊥ }
    ensures tables { (files : List File) (n : ℕ) (f : File) (path : List Step) (k : Span)
        → KindIs files n f path (layout_form false (table_layout false k no_members))
        (ty.table no_rows) }
    ensures unions { (files : List File) (n : ℕ) (f : File) (path : List Step) (k : Span)
        → KindIs files n f path (layout_form true (union_layout false true k no_members))
        (ty.union true false no_rows) }
    ensures present { (files : List File) (n : ℕ) (f : File) (path : List Step) (k : Span)
        (rows : ty.Rows)
        → KindIs files n f path (layout_form false (union_layout false true k no_members))
        (ty.union true false rows) → ⊥ }
    ensures strict { (files : List File) (n : ℕ) (f : File) (path : List Step) (k : Span)
        (rows : ty.Rows)
        → KindIs files n f path (layout_form true (union_layout true false k no_members))
        (ty.union true false rows) → ⊥ }
    ensures empty { (files : List File) (n : ℕ) (f : File) (path : List Step)
        → KindIs files n f path empty_response_form (ty.struct no_fields) }
    ensures other { (files : List File) (n : ℕ) (f : File) (path : List Step)
        → KindIs files n f path empty_response_form (ty.table no_rows) → ⊥ }
{}

/// A form has a definition in its own file alone, and what has no forms has no definitions.
pub fn definitions_of_files()
    ensures inside { (f : File) (path : List Step) (name : List ℕ) → DefinitionIs (f ∷ [])
        (record { file = 0; path = path; name = name; kind = empty_response_form })
        (ty.struct no_fields) }
    ensures outside { (f : File) (path : List Step) (name : List ℕ) (t : Term)
        → DefinitionIs (f ∷ [])
        (record { file = 1; path = path; name = name; kind = empty_response_form }) t → ⊥ }
    ensures none { DefinitionsAre [] [] }
    ensures more { (t : Term) → DefinitionsAre [] (t ∷ []) → ⊥ }
{}
