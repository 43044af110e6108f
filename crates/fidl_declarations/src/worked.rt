//! Worked facts: what the definitions give for small types, methods and files.
ghost use Rattle.std.specs.Prelude.{◌≡◌, ◌≢◌, ◌++◌, ◌∷◌, [], ℕ, List, None, Some, true, false};
ghost use Rattle.std.specs.Prelude.{codes};
ghost use Rattle.fidl_span.specs.declared.words.Span.{Span};
ghost use Rattle.fidl_tree.specs.Leaf.{text_at};
ghost use Rattle.fidl_tree.specs.Syntax.{Path, TypeUse, named_type, layout_type, Response, File};
ghost use Rattle.fidl_tree.specs.Syntax.{no_arguments, next_argument, type_argument};
ghost use Rattle.fidl_tree.specs.Syntax.{struct_layout, union_layout, table_layout, Members};
ghost use Rattle.fidl_tree.specs.Syntax.{no_members, next_member, named_member, ordinal_member};
ghost use Rattle.fidl_tree.specs.Syntax.{reserved_member, alias_body, service_body, event_member};
ghost use Rattle.fidl_declarations.specs.declared.step.Step.{Step};
ghost use Rattle.fidl_declarations.specs.declared.step.Step.TheVariants as Steps;
ghost use Rattle.fidl_declarations.specs.Sites.{any_type, present_type, aliased_type, service_type};
ghost use Rattle.fidl_declarations.specs.Sites.{second_argument, within, type_site, layout_site};
ghost use Rattle.fidl_declarations.specs.Sites.{result_site, empty_response_site, attributes_site};
ghost use Rattle.fidl_declarations.specs.Sites.{type_sites, layout_sites, response_sites, body_sites};
ghost use Rattle.fidl_declarations.specs.Sites.{protocol_sites};
ghost use Rattle.fidl_declarations.specs.Forms.{layout_form, layout_kinds, steps_text, file_forms};
ghost use Rattle.fidl_declarations.specs.Forms.{forms_from};
ghost use Rattle.fidl_declarations.specs.Keywords.{layout_keyword};

/// In `a<b, c>` stand `a`, `b`, and `c` as the second argument of `a`.
pub fn types_in_arguments()
    ensures seen { (p : List Step) (a b c : Path) → type_sites p any_type (named_type a
        (next_argument (type_argument (named_type b no_arguments []))
        (next_argument (type_argument (named_type c no_arguments [])) no_arguments)) [])
        ≡ type_site any_type (named_type a
        (next_argument (type_argument (named_type b no_arguments []))
        (next_argument (type_argument (named_type c no_arguments [])) no_arguments)) [])
        ∷ type_site any_type (named_type b no_arguments [])
        ∷ type_site (second_argument a) (named_type c no_arguments []) ∷ [] }
    ensures other { (p : List Step) (a b c : Path) → type_sites p any_type (named_type a
        (next_argument (type_argument (named_type b no_arguments []))
        (next_argument (type_argument (named_type c no_arguments [])) no_arguments)) [])
        ≢ type_site any_type (named_type a
        (next_argument (type_argument (named_type b no_arguments []))
        (next_argument (type_argument (named_type c no_arguments [])) no_arguments)) [])
        ∷ type_site (second_argument a) (named_type b no_arguments [])
        ∷ type_site any_type (named_type c no_arguments []) ∷ [] }
{}

/// In `struct {x struct {};}` stands the outer layout, and then the inner one at the path of `x`.
pub fn layouts_at_the_paths_of_members()
    ensures seen { (p : List Step) (k j x : Span) → layout_sites p (struct_layout false k
        (next_member (named_member [] x (layout_type [] (struct_layout false j no_members) []))
        no_members))
        ≡ layout_site p (struct_layout false k
        (next_member (named_member [] x (layout_type [] (struct_layout false j no_members) []))
        no_members))
        ∷ attributes_site []
        ∷ type_site any_type (layout_type [] (struct_layout false j no_members) [])
        ∷ attributes_site []
        ∷ layout_site (within p (Steps.Name x)) (struct_layout false j no_members) ∷ [] }
    ensures other { (p : List Step) (k j x : Span) → layout_sites p (struct_layout false k
        (next_member (named_member [] x (layout_type [] (struct_layout false j no_members) []))
        no_members))
        ≢ layout_site (within p (Steps.Name x)) (struct_layout false j no_members) ∷ [] }
{}

/// In `union {1: reserved; 2: a t;}` stands the type of `a`, which is never absent.
pub fn members_of_unions_are_present()
    ensures seen { (p : List Step) (k one two a : Span) (t : TypeUse) (q : Path)
        → t ≡ named_type q no_arguments [] → layout_sites p (union_layout false false k
        (next_member (reserved_member [] one) (next_member (ordinal_member [] two a t)
        no_members)))
        ≡ layout_site p (union_layout false false k
        (next_member (reserved_member [] one) (next_member (ordinal_member [] two a t)
        no_members)))
        ∷ attributes_site [] ∷ attributes_site [] ∷ type_site present_type t ∷ [] }
    ensures other { (p : List Step) (k one two a : Span) (t : TypeUse) (q : Path)
        → t ≡ named_type q no_arguments [] → layout_sites p (union_layout false false k
        (next_member (reserved_member [] one) (next_member (ordinal_member [] two a t)
        no_members)))
        ≢ layout_site p (union_layout false false k
        (next_member (reserved_member [] one) (next_member (ordinal_member [] two a t)
        no_members)))
        ∷ attributes_site [] ∷ attributes_site [] ∷ type_site any_type t ∷ [] }
{}

/// A flexible method that answers nothing has a result with an empty struct in it, a strict one
/// without `error` has none, and one with `error` has a result.
pub fn results_of_methods()
    ensures flexible { (p : List Step) (r : Response) → r.payload ≡ None → r.error ≡ None
        → response_sites p false r
        ≡ result_site (within p Steps.Result) false r
        ∷ empty_response_site (within p Steps.Response) ∷ [] }
    ensures strict { (p : List Step) (r : Response) → r.payload ≡ None → r.error ≡ None
        → response_sites p true r ≡ [] }
    ensures error { (p : List Step) (r : Response) (t : TypeUse) (q : Path)
        → t ≡ named_type q no_arguments [] → r.payload ≡ None → r.error ≡ Some t
        → response_sites p true r
        ≡ type_site present_type t ∷ result_site (within p Steps.Result) true r
        ∷ empty_response_site (within p Steps.Response) ∷ [] }
    ensures other { (p : List Step) (r : Response) → r.payload ≡ None → r.error ≡ None
        → response_sites p false r ≢ [] }
{}

/// What an alias stands for may leave open what other places ask for; a member of a service may
/// not.
pub fn places_of_declarations()
    ensures alias { (p : List Step) (q : Path)
        → body_sites p (alias_body (named_type q no_arguments []))
        ≡ type_site aliased_type (named_type q no_arguments []) ∷ [] }
    ensures service { (p : List Step) (q : Path) (x : Span)
        → body_sites p (service_body (next_member (named_member [] x
        (named_type q no_arguments [])) no_members))
        ≡ attributes_site [] ∷ type_site service_type (named_type q no_arguments []) ∷ [] }
    ensures other { (p : List Step) (q : Path)
        → body_sites p (alias_body (named_type q no_arguments []))
        ≢ type_site any_type (named_type q no_arguments []) ∷ [] }
{}

/// The keyword of a layout is its place.
pub fn keywords_of_layouts()
    ensures seen { (k : Span) (ms : Members) → layout_keyword (union_layout true false k ms) ≡ k }
    ensures other { (k j : Span) (ms : Members) → k ≢ j
        → layout_keyword (union_layout true false k ms) ≢ j }
{}

/// The request of `M` in `P` is named `P.M.request`.
pub fn names_of_requests()
    ensures seen { (src : List ℕ) (p m : Span) → text_at src p ≡ codes "P"
        → text_at src m ≡ codes "M"
        → steps_text src (Steps.Name p ∷ Steps.Name m ∷ Steps.Request ∷ [])
        ≡ codes "P.M.request" }
    ensures other { (src : List ℕ) (p m : Span) → text_at src p ≡ codes "P"
        → text_at src m ≡ codes "M"
        → steps_text src (Steps.Name p ∷ Steps.Name m ∷ Steps.Request ∷ [])
        ≢ codes "P.request" }
{}

/// The response of `M` in `P` is named `P.M.response`, the type behind its `error` `P.M.error`, and
/// the union in which it answers `P.M.result`.
pub fn names_of_answers()
    ensures response { (src : List ℕ) (p m : Span) → text_at src p ≡ codes "P"
        → text_at src m ≡ codes "M"
        → steps_text src (Steps.Name p ∷ Steps.Name m ∷ Steps.Response ∷ [])
        ≡ codes "P.M.response" }
    ensures error { (src : List ℕ) (p m : Span) → text_at src p ≡ codes "P"
        → text_at src m ≡ codes "M"
        → steps_text src (Steps.Name p ∷ Steps.Name m ∷ Steps.Error ∷ [])
        ≡ codes "P.M.error" }
    ensures result { (src : List ℕ) (p m : Span) → text_at src p ≡ codes "P"
        → text_at src m ≡ codes "M"
        → steps_text src (Steps.Name p ∷ Steps.Name m ∷ Steps.Result ∷ [])
        ≡ codes "P.M.result" }
    ensures other { (src : List ℕ) (p m : Span) → text_at src p ≡ codes "P"
        → text_at src m ≡ codes "M"
        → steps_text src (Steps.Name p ∷ Steps.Name m ∷ Steps.Error ∷ [])
        ≢ codes "P.M.err" }
{}

/// What an event carries is named as a response: the layout that is written in `-> E(struct {})` of
/// `P` stands at `P.E.response`, and not at the path of a request.
pub fn payloads_of_events()
    ensures seen { (p : List Step) (e k : Span) → protocol_sites p (event_member [] false e
        (Some (layout_type [] (struct_layout false k no_members) [])))
        ≡ attributes_site []
        ∷ type_site any_type (layout_type [] (struct_layout false k no_members) [])
        ∷ attributes_site []
        ∷ layout_site (within (within p (Steps.Name e)) Steps.Response)
        (struct_layout false k no_members) ∷ [] }
    ensures other { (p : List Step) (e k : Span) → protocol_sites p (event_member [] false e
        (Some (layout_type [] (struct_layout false k no_members) [])))
        ≢ attributes_site []
        ∷ type_site any_type (layout_type [] (struct_layout false k no_members) [])
        ∷ attributes_site []
        ∷ layout_site (within (within p (Steps.Name e)) Steps.Request)
        (struct_layout false k no_members) ∷ [] }
    ensures name { (src : List ℕ) (p e : Span) → text_at src p ≡ codes "P"
        → text_at src e ≡ codes "E"
        → steps_text src (within (within (Steps.Name p ∷ []) (Steps.Name e)) Steps.Response)
        ≡ codes "P.E.response" }
    ensures nothing { (p : List Step) (e : Span)
        → protocol_sites p (event_member [] false e None) ≡ attributes_site [] ∷ [] }
{}

/// A union is numbered twice, and a table once.
pub fn forms_of_layouts()
    ensures union { (k : Span) (ms : Members) → layout_kinds (union_layout false false k ms)
        ≡ layout_form false (union_layout false false k ms)
        ∷ layout_form true (union_layout false false k ms) ∷ [] }
    ensures table { (k : Span) (ms : Members) → layout_kinds (table_layout false k ms)
        ≡ layout_form false (table_layout false k ms) ∷ [] }
    ensures other { (k : Span) (ms : Members) → layout_kinds (union_layout false false k ms)
        ≢ layout_form false (union_layout false false k ms) ∷ [] }
{}

/// The forms of the first file have its number, 0, and come before those of the second.
pub fn forms_of_files()
    ensures seen { (f g : File) → forms_from 0 (f ∷ g ∷ [])
        ≡ file_forms 0 f ++ file_forms 1 g ++ [] }
    ensures other { (f : File) → forms_from 1 (f ∷ []) ≡ file_forms 1 f ++ [] }
{}
