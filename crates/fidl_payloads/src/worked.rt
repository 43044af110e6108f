//! Worked facts: what the definitions say of small types and members, and what they don't.
ghost use Rattle.std.specs.Prelude.{◌≡◌, ◌≢◌, ◌<◌, ◌^◌, ◌∷◌, [], ℕ, Bool, List, None, Some};
ghost use Rattle.std.specs.Prelude.{Option, true, false, slice_get};
ghost use Rattle.fidl_span.specs.declared.words.Span.{Span};
ghost use Rattle.fidl_tree.specs.Syntax.{Attribute, Path, ValueMember, ValuesKind, Underlying};
ghost use Rattle.fidl_tree.specs.Syntax.{Members, TypeUse, Response, Openness, Declaration};
ghost use Rattle.fidl_tree.specs.Syntax.{values_layout, struct_layout, table_layout, union_layout};
ghost use Rattle.fidl_tree.specs.Syntax.{ProtocolMember as Member, compose_member, method_member};
ghost use Rattle.fidl_tree.specs.Syntax.{event_member, protocol_body, type_body, Layout};
ghost use Rattle.fidl_tree.specs.Views.{file_view};
ghost use Rattle.fidl_tree.specs.declared.file.File.{File};
ghost use Rattle.fidl_named.specs.declared.place.Place.{Place};
ghost use Rattle.fidl_consts.specs.Refusals.{type_span};
ghost use Rattle.fidl_declarations.specs.declared.step.Step.{Step};
ghost use Rattle.fidl_declarations.specs.declared.step.Step.TheVariants as Steps;
ghost use Rattle.fidl_declarations.specs.Forms.{Form, layout_form, result_form, empty_response_form};
ghost use Rattle.fidl_wire.specs.Term as ty;
ghost use Rattle.fidl_wire.specs.Term.{Term, Fields, Rows};
ghost use Rattle.fidl_lower_types.specs.Numbers.{all_forms};
ghost use Rattle.fidl_lower_types.specs.Terms.{TermIs};
ghost use Rattle.fidl_payloads.specs.declared.fault.PayloadFault.TheVariants as Faults;
ghost use Rattle.fidl_payloads.specs.declared.payload.Payload.{Payload};
ghost use Rattle.fidl_payloads.specs.declared.payload.Payload.TheVariants as Carried;
ghost use Rattle.fidl_payloads.specs.Kinds.{IsPayloadForm, IsPayloadAt, IsPayload, MayBePayload};
ghost use Rattle.fidl_payloads.specs.Kinds.{IsPayloadDefinition};
ghost use Rattle.fidl_payloads.specs.Results.{IsResultForm, IsFirstResult, IsResultNumber};
ghost use Rattle.fidl_payloads.specs.Results.{ResultStands};
ghost use Rattle.fidl_payloads.specs.Payloads.{PartIs, result_path, RequestIs, ResponseIs};
ghost use Rattle.fidl_payloads.specs.Members.{IsMemberOf, MemberHolds, MemberBreaks};
ghost use Rattle.fidl_payloads.specs.Members.{payload_types, IsReportIn};

/// A struct, a table and a union may be payloads; a union that may be absent, bits, an enum, a
/// result and an empty response may not.
pub fn forms_of_payloads()
    ensures structs { (k : Span) (ms : Members)
        → IsPayloadForm (layout_form false (struct_layout true k ms)) }
    ensures tables { (k : Span) (ms : Members)
        → IsPayloadForm (layout_form false (table_layout false k ms)) }
    ensures unions { (k : Span) (ms : Members)
        → IsPayloadForm (layout_form false (union_layout true false k ms)) }
    ensures absent { (strict is_resource : Bool) (k : Span) (ms : Members)
        → IsPayloadForm (layout_form true (union_layout strict is_resource k ms)) → ⊥ }
    ensures values { (kind : ValuesKind) (k : Span) (u : Underlying) (ms : List ValueMember)
        → IsPayloadForm (layout_form false (values_layout kind true k u ms)) → ⊥ }
    ensures results { (strict : Bool) (r : Response) → IsPayloadForm (result_form strict r) → ⊥ }
    ensures empty { IsPayloadForm empty_response_form → ⊥ }
{}

/// A type is the payload of its own number where that form may be one; a type of another kind, as a
/// vector, is none.
pub fn types_of_payloads()
    ensures own { (files : List File) (n i : ℕ) (t : TypeUse) (form : Form) (k : Span)
        (ms : Members) → TermIs files n t (ty.named i) → slice_get (all_forms files) i ≡ Some form
        → form.kind ≡ layout_form false (struct_layout false k ms) → IsPayload files n t i }
    ensures other { (files : List File) (n i j : ℕ) (t : TypeUse) → i ≢ j
        → TermIs files n t (ty.named i) → IsPayload files n t j → ⊥ }
    ensures vectors { (files : List File) (n i j : ℕ) (t : TypeUse)
        → TermIs files n t (ty.vector false j (ty.named i)) → IsPayload files n t i → ⊥ }
    ensures absent { (files : List File) (n i : ℕ) (t : TypeUse) (form : Form) (k : Span)
        (ms : Members) → TermIs files n t (ty.named i) → slice_get (all_forms files) i ≡ Some form
        → form.kind ≡ layout_form true (union_layout false false k ms) → IsPayload files n t i
        → ⊥ }
    ensures past { IsPayloadAt [] 0 → ⊥ }
{}

/// Definitions of payloads are structs, tables and unions that are never absent.
pub fn definitions_of_payloads()
    ensures structs { (fields : Fields) → MayBePayload (ty.struct fields) }
    ensures tables { (rows : Rows) → MayBePayload (ty.table rows) }
    ensures unions { (strict : Bool) (rows : Rows) → MayBePayload (ty.union false strict rows) }
    ensures absent { (strict : Bool) (rows : Rows) → MayBePayload (ty.union true strict rows)
        → ⊥ }
    ensures bits { MayBePayload (ty.bits ty.uint32 None) → ⊥ }
    ensures second { (one : Term) (fields : Fields)
        → IsPayloadDefinition (one ∷ ty.struct fields ∷ []) 1 }
    ensures past { (fields : Fields) → IsPayloadDefinition (ty.struct fields ∷ []) 1 → ⊥ }
{}

/// The result of a method is the first result form at its own path in its own file, and has a
/// number of 32 bits.
pub fn forms_of_results()
    ensures own { (p m : Span) (strict : Bool) (r : Response) (name : List ℕ)
        → IsResultForm 2 (result_path p m) (record {
          file = 2;
          path = Steps.Name p ∷ Steps.Name m ∷ Steps.Result ∷ [];
          name = name;
          kind = result_form strict r;
        }) }
    ensures other_method { (p m other : Span) (form : Form) → m ≢ other
        → IsResultForm 2 (result_path p m) form → IsResultForm 2 (result_path p other) form → ⊥ }
    ensures other_file { (path : List Step) (form : Form) → IsResultForm 2 path form
        → IsResultForm 3 path form → ⊥ }
    ensures no_result { (path : List Step) (form : Form) → form.kind ≡ empty_response_form
        → IsResultForm 2 path form → ⊥ }
    ensures behind { (n : ℕ) (path : List Step) (one other : Form) → (IsResultForm n path one → ⊥)
        → IsResultForm n path other → IsFirstResult (one ∷ other ∷ []) n path 1 }
    ensures later { (n : ℕ) (path : List Step) (one other : Form) → IsResultForm n path one
        → IsFirstResult (one ∷ other ∷ []) n path 1 → ⊥ }
    ensures too_high { (forms : List Form) (n : ℕ) (path : List Step)
        → IsFirstResult forms n path (2 ^ 32) → ⊥ }
    ensures none { (n : ℕ) (path : List Step) → ResultStands [] n path → ⊥ }
{}

/// Nothing in parentheses is a message without content, a type is that of its definition; neither
/// is no message.
pub fn payloads_of_parts()
    ensures nothing { (files : List File) (n : ℕ) → PartIs files n None Carried.Empty }
    ensures written { (files : List File) (n i : ℕ) (t : TypeUse) → IsPayload files n t i
        → PartIs files n (Some t) (Carried.«Type» i) }
    ensures missing { (files : List File) (n : ℕ) → PartIs files n None Carried.Missing → ⊥ }
    ensures empty { (files : List File) (n : ℕ) (t : TypeUse)
        → PartIs files n (Some t) Carried.Empty → ⊥ }
{}

/// A method has a request, also where nothing is written in it; an event and a composition have
/// none.
pub fn requests()
    ensures method { (files : List File) (n i : ℕ) (m : Span) (t : TypeUse) (r : Option Response)
        → IsPayload files n t i
        → RequestIs files n (method_member [] true m (Some t) r) (Carried.«Type» i) }
    ensures empty { (files : List File) (n : ℕ) (m : Span) (r : Option Response)
        → RequestIs files n (method_member [] true m None r) Carried.Empty }
    ensures no_message { (files : List File) (n : ℕ) (m : Span) (r : Option Response)
        → RequestIs files n (method_member [] true m None r) Carried.Missing → ⊥ }
    ensures event { (files : List File) (n : ℕ) (e : Span) (t : Option TypeUse)
        → RequestIs files n (event_member [] true e t) Carried.Missing }
    ensures of_event { (files : List File) (n : ℕ) (e : Span) (t : Option TypeUse)
        → RequestIs files n (event_member [] true e t) Carried.Empty → ⊥ }
    ensures composition { (files : List File) (n : ℕ) (path : Path)
        → RequestIs files n (compose_member [] path) Carried.Missing }
{}

/// A strict method without `error` answers what is written. A one-way method has no response.
pub fn responses_without_results()
    ensures written { (files : List File) (n i : ℕ) (p m : Span) (a t : TypeUse) (r : Response)
        → r.payload ≡ Some t → r.error ≡ None → IsPayload files n t i
        → ResponseIs files n p (method_member [] true m (Some a) (Some r)) (Carried.«Type» i) }
    ensures empty { (files : List File) (n : ℕ) (p m : Span) (r : Response) → r.payload ≡ None
        → r.error ≡ None
        → ResponseIs files n p (method_member [] true m None (Some r)) Carried.Empty }
    ensures no_result { (files : List File) (n i : ℕ) (p m : Span) (r : Response)
        → r.payload ≡ None → r.error ≡ None
        → ResponseIs files n p (method_member [] true m None (Some r)) (Carried.«Type» i) → ⊥ }
    ensures one_way { (files : List File) (n : ℕ) (p m : Span) (strict : Bool)
        → ResponseIs files n p (method_member [] strict m None None) Carried.Missing }
    ensures no_message { (files : List File) (n : ℕ) (p m : Span) (strict : Bool)
        → ResponseIs files n p (method_member [] strict m None None) Carried.Empty → ⊥ }
    ensures composition { (files : List File) (n : ℕ) (p : Span) (path : Path)
        → ResponseIs files n p (compose_member [] path) Carried.Missing }
{}

/// A flexible method and one with `error` answer in their results, whatever is written. An event
/// carries what is written, also a flexible one.
pub fn responses_with_results()
    ensures flexible { (files : List File) (n i : ℕ) (p m : Span) (r : Response)
        → IsResultNumber files n (result_path p m) i
        → ResponseIs files n p (method_member [] false m None (Some r)) (Carried.«Type» i) }
    ensures error { (files : List File) (n i : ℕ) (p m : Span) (t : TypeUse) (r : Response)
        → r.error ≡ Some t → IsResultNumber files n (result_path p m) i
        → ResponseIs files n p (method_member [] true m None (Some r)) (Carried.«Type» i) }
    ensures no_part { (files : List File) (n i : ℕ) (p m : Span) (r : Response)
        → (IsResultNumber files n (result_path p m) i → ⊥)
        → ResponseIs files n p (method_member [] false m None (Some r)) (Carried.«Type» i) → ⊥ }
    ensures not_empty { (files : List File) (n : ℕ) (p m : Span) (r : Response)
        → ResponseIs files n p (method_member [] false m None (Some r)) Carried.Empty → ⊥ }
    ensures event { (files : List File) (n : ℕ) (p e : Span) (strict : Bool)
        → ResponseIs files n p (event_member [] strict e None) Carried.Empty }
    ensures of_event { (files : List File) (n i : ℕ) (p e : Span) (strict : Bool)
        → ResponseIs files n p (event_member [] strict e None) (Carried.«Type» i) → ⊥ }
{}

/// A protocol has the members that are written in it, under its own name.
pub fn members_of_protocols()
    ensures own { (files : List File) (f : File) (d : Declaration) (o : Openness)
        (one other : Member) → slice_get files 1 ≡ Some f
        → (file_view f).declarations ≡ d ∷ []
        → d.body ≡ protocol_body o (one ∷ other ∷ []) → IsMemberOf files 1 d.name other }
    ensures other_name { (files : List File) (f : File) (d : Declaration) (p : Span) (m : Member)
        → slice_get files 1 ≡ Some f → (file_view f).declarations ≡ d ∷ [] → p ≢ d.name
        → IsMemberOf files 1 p m → ⊥ }
    ensures no_protocol { (files : List File) (f : File) (d : Declaration) (l : Layout) (p : Span)
        (m : Member) → slice_get files 1 ≡ Some f → (file_view f).declarations ≡ d ∷ []
        → d.body ≡ type_body [] l → IsMemberOf files 1 p m → ⊥ }
    ensures no_member { (files : List File) (f : File) (d : Declaration) (o : Openness)
        (p : Span) (m : Member) → slice_get files 1 ≡ Some f
        → (file_view f).declarations ≡ d ∷ [] → d.body ≡ protocol_body o []
        → IsMemberOf files 1 p m → ⊥ }
    ensures no_file { (p : Span) (m : Member) → IsMemberOf [] 0 p m → ⊥ }
{}

/// The request and the response are payloads, the latter also where the method has a result; the
/// type behind `error` is none.
pub fn types_that_are_payloads()
    ensures both { (m : Span) (a b e : TypeUse) (r : Response) → r.payload ≡ Some b
        → r.error ≡ Some e
        → payload_types (method_member [] false m (Some a) (Some r)) ≡ a ∷ b ∷ [] }
    ensures request { (m : Span) (a : TypeUse)
        → payload_types (method_member [] true m (Some a) None) ≡ a ∷ [] }
    ensures event { (e : Span) (t : TypeUse)
        → payload_types (event_member [] true e (Some t)) ≡ t ∷ [] }
    ensures composition { (path : Path) → payload_types (compose_member [] path) ≡ [] }
    ensures other { (m : Span) (b : TypeUse) (r : Response) → r.payload ≡ Some b
        → payload_types (method_member [] false m None (Some r)) ≢ [] }
{}

/// A type that may not be a payload is reported at its place, and nowhere else; a member whose
/// types may be payloads is not refused.
pub fn refused_payloads()
    ensures holds { (files : List File) (n i : ℕ) (m : Span) (t : TypeUse) → IsPayload files n t i
        → MemberHolds files n (method_member [] true m (Some t) None) }
    ensures response { (files : List File) (n : ℕ) (m : Span) (t : TypeUse) (r : Response)
        → r.payload ≡ Some t → ((i : ℕ) → IsPayload files n t i → ⊥)
        → MemberBreaks files n (method_member [] false m None (Some r)) (type_span t) }
    ensures breaks { (files : List File) (n : ℕ) (m : Span) (t : TypeUse) (r : Response)
        → r.payload ≡ Some t → ((i : ℕ) → IsPayload files n t i → ⊥)
        → MemberHolds files n (method_member [] false m None (Some r)) → ⊥ }
    ensures elsewhere { (files : List File) (n : ℕ) (e s : Span) (t : TypeUse)
        → s ≢ type_span t → MemberBreaks files n (event_member [] true e (Some t)) s → ⊥ }
    ensures kept { (files : List File) (n i : ℕ) (e s : Span) (t : TypeUse) → IsPayload files n t i
        → MemberBreaks files n (event_member [] true e (Some t)) s → ⊥ }
    ensures other_file { (files : List File) (m : Member) (place : Place) → place.file ≡ 1
        → IsReportIn 0 (MemberBreaks files 0 m) (Faults.BadPayload place) → ⊥ }
{}
