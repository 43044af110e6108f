//! Worked facts: what the definitions say of small forms and files, and what they don't.
ghost use Rattle.std.specs.Prelude.{◌≡◌, ◌≢◌, ◌∷◌, [], ℕ, Bool, List, true, false};
ghost use Rattle.fidl_span.specs.declared.words.Span.{Span};
ghost use Rattle.fidl_tree.specs.Syntax.{ValuesKind, Underlying, ValueMember, Members, Response};
ghost use Rattle.fidl_tree.specs.Syntax.{values_layout, struct_layout, table_layout, union_layout};
ghost use Rattle.fidl_tree.specs.declared.file.File.{File};
ghost use Rattle.fidl_named.specs.declared.place.Place.{Place};
ghost use Rattle.fidl_declarations.specs.declared.step.Step.TheVariants as Steps;
ghost use Rattle.fidl_declarations.specs.Forms.{Form, layout_form, result_form, empty_response_form};
ghost use Rattle.fidl_resource_rules.specs.declared.fault.ResourceFault.TheVariants as Resources;
ghost use Rattle.fidl_resource_rules.specs.Resources.{IsTrueOfResources};
ghost use Rattle.fidl_type_rules.specs.declared.fault.UseFault.TheVariants as Uses;
ghost use Rattle.fidl_type_rules.specs.Uses.{IsTrueOfUses};
ghost use Rattle.fidl_wire.specs.Term as ty;
ghost use Rattle.fidl_wire.specs.Term.{Term};
ghost use Rattle.fidl_lower_types.specs.Numbers.{all_forms};
ghost use Rattle.fidl_lower_layouts.specs.Definitions.{DefinitionsAre};
ghost use Rattle.fidl_ir_rules.specs.declared.mark.Mark.TheVariants.{Resource, Value, Result};
ghost use Rattle.fidl_ir_rules.specs.Samples.{a_handle, holding};
ghost use Rattle.fidl_types.specs.declared.fault.TypeFault.TheVariants as Faults;
ghost use Rattle.fidl_types.specs.Marks.{form_mark, marks_of};
ghost use Rattle.fidl_types.specs.Places.{name_place, form_place, IsPlaceOf};
ghost use Rattle.fidl_types.specs.Types.{TypesAre};
ghost use Rattle.fidl_types.specs.Faults.{IsTrueOfTypes};

/// A struct, a table and a union are resources where they are marked; bits, enums and empty
/// responses are none, and a result is no marked one.
pub fn marks_of_forms()
    ensures marked { (k : Span) (ms : Members)
        → form_mark (layout_form false (struct_layout true k ms)) ≡ Resource }
    ensures unmarked { (k : Span) (ms : Members)
        → form_mark (layout_form false (table_layout false k ms)) ≡ Value }
    ensures table { (k : Span) (ms : Members)
        → form_mark (layout_form false (table_layout true k ms)) ≡ Resource }
    ensures plain_struct { (k : Span) (ms : Members)
        → form_mark (layout_form false (struct_layout false k ms)) ≡ Value }
    ensures plain_union { (strict : Bool) (k : Span) (ms : Members)
        → form_mark (layout_form true (union_layout strict false k ms)) ≡ Value }
    ensures union { (k : Span) (ms : Members)
        → form_mark (layout_form true (union_layout false true k ms)) ≡ Resource }
    ensures strict_union { (k : Span) (ms : Members)
        → form_mark (layout_form true (union_layout true false k ms)) ≢ Resource }
    ensures values { (kind : ValuesKind) (k : Span) (u : Underlying) (ms : List ValueMember)
        → form_mark (layout_form false (values_layout kind true k u ms)) ≡ Value }
    ensures result { (strict : Bool) (r : Response) → form_mark (result_form strict r) ≡ Result }
    ensures other { (strict : Bool) (r : Response) → form_mark (result_form strict r) ≢ Resource }
    ensures empty { form_mark empty_response_form ≡ Value }
    ensures in_order { (one other : Form)
        → marks_of (one ∷ other ∷ []) ≡ form_mark one.kind ∷ form_mark other.kind ∷ [] }
{}

/// What is declared is reported at its name; what a member or a method names, at that name.
pub fn places_of_paths()
    ensures declared { (s : Span) → name_place (Steps.Name s ∷ []) ≡ s }
    ensures member { (s t : Span) → name_place (Steps.Name s ∷ Steps.Name t ∷ []) ≡ t }
    ensures request { (s t : Span)
        → name_place (Steps.Name s ∷ Steps.Name t ∷ Steps.Request ∷ []) ≡ t }
    ensures in_request { (s t u : Span)
        → name_place (Steps.Name s ∷ Steps.Name t ∷ Steps.Request ∷ Steps.Name u ∷ []) ≡ u }
    ensures other { (s t : Span) → s ≢ t
        → name_place (Steps.Name s ∷ Steps.Name t ∷ Steps.Request ∷ []) ≢ s }
{}

/// A form is reported in its own file; the second of two has the number 1.
pub fn places_of_forms()
    ensures file { (n : ℕ) (s : Span) (name : List ℕ) → form_place (record {
      file = n;
      path = Steps.Name s ∷ [];
      name = name;
      kind = empty_response_form;
    }) ≡ record { file = n; span = s } }
    ensures second { (one other : Form) → IsPlaceOf (one ∷ other ∷ []) 1 (form_place other) }
    ensures past { (one : Form) (place : Place) → IsPlaceOf (one ∷ []) 1 place → ⊥ }
{}

/// A struct that isn't marked and holds a handle is reported, and no marked one is, nor a result.
pub fn handles_in_structs()
    ensures unmarked { (files : List File) (form : Form) (k : Span) (ms : Members)
        → all_forms files ≡ form ∷ [] → form.kind ≡ layout_form false (struct_layout false k ms)
        → DefinitionsAre files (holding a_handle ∷ [])
        → IsTrueOfTypes files (Faults.NotResource (form_place form)) }
    ensures marked { (files : List File) (form : Form) (k : Span) (ms : Members) (place : Place)
        → all_forms files ≡ form ∷ [] → form.kind ≡ layout_form false (struct_layout true k ms)
        → IsTrueOfTypes files (Faults.NotResource place) → ⊥ }
    ensures of_a_result { (files : List File) (form : Form) (r : Response) (place : Place)
        → all_forms files ≡ form ∷ [] → form.kind ≡ result_form true r
        → IsTrueOfTypes files (Faults.NotResource place) → ⊥ }
{}

/// A struct that stands in itself is reported where its form is, and nowhere else; none is that has
/// itself in a box.
pub fn structs_in_themselves()
    ensures there { (files : List File) (form : Form) → all_forms files ≡ form ∷ []
        → DefinitionsAre files (holding (ty.named 0) ∷ [])
        → IsTrueOfTypes files (Faults.InlineCycle (form_place form)) }
    ensures elsewhere { (files : List File) (form : Form) (place : Place)
        → all_forms files ≡ form ∷ [] → place ≢ form_place form
        → IsTrueOfTypes files (Faults.InlineCycle place) → ⊥ }
    ensures boxed { (files : List File) (place : Place)
        → DefinitionsAre files (holding (ty.box (ty.named 0)) ∷ [])
        → IsTrueOfTypes files (Faults.InlineCycle place) → ⊥ }
{}

/// BadConstraint is said of a type where it is used, or of a resource definition, and of nothing
/// else.
pub fn faults_of_two_parts()
    ensures used { (files : List File) (place : Place)
        → IsTrueOfUses files (Uses.BadConstraint place)
        → IsTrueOfTypes files (Faults.BadConstraint place) }
    ensures defined { (files : List File) (place : Place)
        → IsTrueOfResources files (Resources.BadConstraint place)
        → IsTrueOfTypes files (Faults.BadConstraint place) }
    ensures neither { (files : List File) (place : Place)
        → (IsTrueOfUses files (Uses.BadConstraint place) → ⊥)
        → (IsTrueOfResources files (Resources.BadConstraint place) → ⊥)
        → IsTrueOfTypes files (Faults.BadConstraint place) → ⊥ }
{}

/// No files keep all rules, and they have no definition; nothing but lack of memory is said of
/// them.
pub fn no_files()
    ensures kept { TypesAre [] [] }
    ensures no_definition { (t : Term) → TypesAre [] (t ∷ []) → ⊥ }
    ensures nowhere { (place : Place) → IsTrueOfTypes [] (Faults.InlineCycle place) → ⊥ }
    ensures memory { IsTrueOfTypes [] Faults.Memory }
{}
