//! Worked facts: small tables that show what is listed, and some that don't.
ghost use Rattle.std.specs.Prelude.{◌≡◌, ◌≢◌, ℕ, List, [], ◌∷◌, codes, Some, slice_get};
ghost use Rattle.std.specs.Global.{Vec};
ghost use Rattle.fidl_wire.specs.Term.{Term};
ghost use Rattle.fidl_wire.specs.Term as ty;
ghost use Rattle.fidl_ir.specs.Terms.{definitions_view};
ghost use Rattle.fidl_verify.specs.declared.protocol.Openness.TheVariants.{Ajar};
ghost use Rattle.fidl_verify.specs.declared.method.Payload.TheVariants as payload;
ghost use Rattle.fidl_table_build.specs.declared.listing.Carried.TheVariants as carried;
ghost use Rattle.fidl_table_build.specs.declared.listing.Listing.{Listing};
ghost use Rattle.fidl_table_build.specs.declared.listing.MethodEntry.{MethodEntry};
ghost use Rattle.fidl_table_build.specs.declared.listing.ProtocolEntry.{ProtocolEntry};
ghost use Rattle.fidl_table_build.specs.Starts.{carried_number, method_numbers, protocol_numbers};
ghost use Rattle.fidl_table_build.specs.Starts.{starts_of};
ghost use Rattle.fidl_table_build.specs.Roots.{IsEntryOf, ShowsRoot, ShowsRoots};
ghost use Rattle.fidl_table_build.specs.Methods.{ShowsPayload, ShowsMethod, ShowsProtocol};
ghost use Rattle.fidl_table_build.specs.Methods.{ShowsProtocols};
ghost use Rattle.fidl_table_build.specs.Assembled.{names_of, IsAssembled};
ghost use Rattle.fidl_table_build.specs.Samples.{header_bytes, two_roots, two_methods, two_protocols};
ghost use Rattle.fidl_table_build.specs.Samples.{one_struct, a_method, two_payloads, a_protocol};

/// The entry of a definition is the place of its type in the list of types.
pub fn entries_of_definitions()
    ensures same { IsEntryOf (ty.bool ∷ ty.named 2 ∷ []) 2 1 }
    ensures other_definition { ¬ IsEntryOf (ty.bool ∷ ty.named 2 ∷ []) 1 1 }
    ensures other_entry { ¬ IsEntryOf (ty.bool ∷ ty.named 2 ∷ []) 2 0 }
    ensures turned { ¬ IsEntryOf (ty.bool ∷ ty.named 2 ∷ []) 1 2 }
    ensures none { (definition entry : ℕ) → ¬ IsEntryOf [] definition entry }
{}

/// A root has the name and the entry of its definition.
pub fn roots_of_definitions()
    ensures first { ShowsRoot (codes "b" ∷ codes "c" ∷ codes "a" ∷ [])
        (ty.bool ∷ ty.named 2 ∷ ty.named 0 ∷ []) (two_roots 2) 2 0 }
    ensures second { ShowsRoot (codes "b" ∷ codes "c" ∷ codes "a" ∷ [])
        (ty.bool ∷ ty.named 2 ∷ ty.named 0 ∷ []) (two_roots 2) 0 1 }
    ensures other_name { ¬ ShowsRoot (codes "c" ∷ codes "b" ∷ codes "a" ∷ [])
        (ty.bool ∷ ty.named 2 ∷ ty.named 0 ∷ []) (two_roots 2) 0 1 }
    ensures other_entry { ¬ ShowsRoot (codes "b" ∷ codes "c" ∷ codes "a" ∷ [])
        (ty.bool ∷ ty.named 2 ∷ ty.named 0 ∷ []) (two_roots 1) 0 1 }
    ensures other_type { ¬ ShowsRoot (codes "b" ∷ codes "c" ∷ codes "a" ∷ [])
        (ty.bool ∷ ty.named 2 ∷ ty.named 1 ∷ []) (two_roots 2) 0 1 }
{}

/// The roots of a table are all those of the list, in its order.
pub fn lists_of_roots()
    ensures none { ShowsRoots [] [] [] (header_bytes 0 0 0 0) }
    ensures both { ShowsRoots (codes "b" ∷ codes "c" ∷ codes "a" ∷ [])
        (ty.bool ∷ ty.named 2 ∷ ty.named 0 ∷ []) (2 ∷ 0 ∷ []) (two_roots 2) }
    ensures fewer { ¬ ShowsRoots (codes "b" ∷ codes "c" ∷ codes "a" ∷ [])
        (ty.bool ∷ ty.named 2 ∷ ty.named 0 ∷ []) (2 ∷ []) (two_roots 2) }
    ensures more { ¬ ShowsRoots (codes "b" ∷ codes "c" ∷ codes "a" ∷ [])
        (ty.bool ∷ ty.named 2 ∷ ty.named 0 ∷ []) (2 ∷ 0 ∷ 1 ∷ []) (two_roots 2) }
    ensures turned { ¬ ShowsRoots (codes "b" ∷ codes "c" ∷ codes "a" ∷ [])
        (ty.bool ∷ ty.named 2 ∷ ty.named 0 ∷ []) (0 ∷ 2 ∷ []) (two_roots 2) }
{}

/// A message that is missing, an empty one and one with a value of a definition are three things.
pub fn payloads_of_messages()
    ensures missing { ShowsPayload [] carried.Missing payload.Missing }
    ensures empty { ShowsPayload [] carried.Empty payload.Empty }
    ensures value { ShowsPayload (ty.bool ∷ ty.named 2 ∷ []) (carried.Definition 2)
        (payload.Entry 1) }
    ensures empty_for_missing { ¬ ShowsPayload [] carried.Missing payload.Empty }
    ensures value_for_missing { (types : List Term) (entry : ℕ)
        → ¬ ShowsPayload types carried.Missing (payload.Entry entry) }
    ensures missing_for_empty { ¬ ShowsPayload [] carried.Empty payload.Missing }
    ensures value_for_empty { (types : List Term) (entry : ℕ)
        → ¬ ShowsPayload types carried.Empty (payload.Entry entry) }
    ensures missing_for_value { (types : List Term) (definition : ℕ)
        → ¬ ShowsPayload types (carried.Definition definition) payload.Missing }
    ensures empty_for_value { (types : List Term) (definition : ℕ)
        → ¬ ShowsPayload types (carried.Definition definition) payload.Empty }
    ensures other_definition { ¬ ShowsPayload (ty.bool ∷ ty.named 2 ∷ []) (carried.Definition 1)
        (payload.Entry 1) }
    ensures other_entry { ¬ ShowsPayload (ty.bool ∷ ty.named 2 ∷ []) (carried.Definition 2)
        (payload.Entry 0) }
{}

/// A method has its ordinal, its name, whether it is strict, and what each of its messages carries.
pub fn methods_of_tables()
    ensures same { (name : Vec ℕ) → name.items ≡ codes "m"
        → ShowsMethod (ty.bool ∷ ty.named 2 ∷ []) (two_methods 7 7 1) (a_method name) 1 }
    ensures other_name { (name : Vec ℕ) → name.items ≡ codes "l"
        → ¬ ShowsMethod (ty.bool ∷ ty.named 2 ∷ []) (two_methods 7 7 1) (a_method name) 1 }
    ensures other_ordinal { (name : Vec ℕ)
        → ¬ ShowsMethod (ty.bool ∷ ty.named 2 ∷ []) (two_methods 8 7 1) (a_method name) 1 }
    ensures flexible { (name : Vec ℕ)
        → ¬ ShowsMethod (ty.bool ∷ ty.named 2 ∷ []) (two_methods 7 6 1) (a_method name) 1 }
    ensures no_request { (name : Vec ℕ)
        → ¬ ShowsMethod (ty.bool ∷ ty.named 2 ∷ []) (two_methods 7 5 1) (a_method name) 1 }
    ensures no_response { (name : Vec ℕ)
        → ¬ ShowsMethod (ty.bool ∷ ty.named 2 ∷ []) (two_methods 7 3 1) (a_method name) 1 }
    ensures other_request { (name : Vec ℕ)
        → ¬ ShowsMethod (ty.bool ∷ ty.named 2 ∷ []) (two_methods 7 7 0) (a_method name) 1 }
    ensures other_number { (name : Vec ℕ)
        → ¬ ShowsMethod (ty.bool ∷ ty.named 2 ∷ []) (two_methods 7 7 1) (a_method name) 0 }
{}

/// A protocol has its name, its openness and all its methods, which stand behind those of the
/// protocols before it.
pub fn protocols_of_tables()
    ensures same { (name own : Vec ℕ) (methods : Vec MethodEntry) → name.items ≡ codes "q"
        → own.items ≡ codes "m" → methods.items ≡ a_method own ∷ []
        → ShowsProtocol (ty.bool ∷ ty.named 2 ∷ []) (two_protocols 1 1 7)
        (a_protocol name methods) 1 }
    ensures other_name { (name : Vec ℕ) (methods : Vec MethodEntry) → name.items ≡ codes "p"
        → ¬ ShowsProtocol (ty.bool ∷ ty.named 2 ∷ []) (two_protocols 1 1 7)
        (a_protocol name methods) 1 }
    ensures other_openness { (name : Vec ℕ) (methods : Vec MethodEntry)
        → ¬ ShowsProtocol (ty.bool ∷ ty.named 2 ∷ []) (two_protocols 2 1 7)
        (a_protocol name methods) 1 }
    ensures fewer { (name : Vec ℕ) (methods : Vec MethodEntry) → methods.items ≡ []
        → ¬ ShowsProtocol (ty.bool ∷ ty.named 2 ∷ []) (two_protocols 1 1 7)
        (a_protocol name methods) 1 }
    ensures more { (name : Vec ℕ) (one two : MethodEntry) (methods : Vec MethodEntry)
        → methods.items ≡ one ∷ two ∷ []
        → ¬ ShowsProtocol (ty.bool ∷ ty.named 2 ∷ []) (two_protocols 1 1 7)
        (a_protocol name methods) 1 }
    ensures other_method { (name own : Vec ℕ) (methods : Vec MethodEntry)
        → methods.items ≡ a_method own ∷ []
        → ¬ ShowsProtocol (ty.bool ∷ ty.named 2 ∷ []) (two_protocols 1 1 8)
        (a_protocol name methods) 1 }
{}

/// The protocols of a table are all those of the list, in its order.
pub fn lists_of_protocols()
    ensures none { ShowsProtocols [] [] (header_bytes 0 0 0 0) }
    ensures both { (types : List Term) (p q : ProtocolEntry)
        → ShowsProtocol types (two_protocols 1 1 7) p 0
        → ShowsProtocol types (two_protocols 1 1 7) q 1
        → ShowsProtocols types (p ∷ q ∷ []) (two_protocols 1 1 7) }
    ensures fewer { (types : List Term) (p : ProtocolEntry)
        → ¬ ShowsProtocols types (p ∷ []) (two_protocols 1 1 7) }
    ensures more { (types : List Term) (p q r : ProtocolEntry)
        → ¬ ShowsProtocols types (p ∷ q ∷ r ∷ []) (two_protocols 1 1 7) }
    ensures turned { (types : List Term) (p q : ProtocolEntry) → p.openness ≡ Ajar
        → ¬ ShowsProtocols types (p ∷ q ∷ []) (two_protocols 1 1 7) }
{}

/// The types are reached from the roots, then from what messages carry: a request before its
/// response, and methods in their order.
pub fn starts_of_listings()
    ensures none { carried_number carried.Empty ≡ [] }
    ensures a_request { (name : Vec ℕ) → method_numbers (a_method name) ≡ 2 ∷ [] }
    ensures both { (name : Vec ℕ) → method_numbers (two_payloads name) ≡ 4 ∷ 3 ∷ [] }
    ensures response_first { (name : Vec ℕ) → method_numbers (two_payloads name) ≢ 3 ∷ 4 ∷ [] }
    ensures methods_in_order { (name own other : Vec ℕ) (methods : Vec MethodEntry)
        → methods.items ≡ two_payloads own ∷ a_method other ∷ []
        → protocol_numbers (a_protocol name methods) ≡ 4 ∷ 3 ∷ 2 ∷ [] }
    ensures roots_first { (l : Listing) (name own : Vec ℕ) (methods : Vec MethodEntry)
        → methods.items ≡ a_method own ∷ [] → l.roots.now ≡ 5 ∷ 1 ∷ []
        → l.protocols.now ≡ a_protocol name methods ∷ [] → starts_of l ≡ 5 ∷ 1 ∷ 2 ∷ [] }
    ensures payloads_first { (l : Listing) (name own : Vec ℕ) (methods : Vec MethodEntry)
        → methods.items ≡ a_method own ∷ [] → l.roots.now ≡ 5 ∷ 1 ∷ []
        → l.protocols.now ≡ a_protocol name methods ∷ [] → starts_of l ≢ 2 ∷ 5 ∷ 1 ∷ [] }
{}

/// A table is that of a listing where its entries, their names, its roots and its protocols are
/// those of the listing.
pub fn tables_of_listings()
    ensures names_in_order { (l : Listing) (one two : Vec ℕ) → l.names.now ≡ one ∷ two ∷ []
        → names_of l ≡ one.items ∷ two.items ∷ [] }
    ensures none { (l : Listing) → l.roots.now ≡ [] → l.protocols.now ≡ []
        → IsAssembled l (header_bytes 0 0 0 0) }
    ensures a_struct { (l : Listing)
        → definitions_view l.definitions.now ≡ ty.struct ty.no_fields ∷ []
        → names_of l ≡ codes "a" ∷ [] → l.roots.now ≡ 0 ∷ [] → l.protocols.now ≡ []
        → IsAssembled l (one_struct 97 97) }
    ensures first_root_first { (l : Listing) (bytes : List ℕ) (i : ℕ) (others : List ℕ)
        → l.roots.now ≡ i ∷ others → (a : IsAssembled l bytes)
        → slice_get a.types 0 ≡ Some (ty.named i) }
    ensures other_type { (l : Listing)
        → definitions_view l.definitions.now ≡ ty.table ty.no_rows ∷ []
        → l.roots.now ≡ 0 ∷ [] → ¬ IsAssembled l (one_struct 97 97) }
    ensures other_entry_name { (l : Listing) → names_of l ≡ codes "a" ∷ [] → l.roots.now ≡ 0 ∷ []
        → ¬ IsAssembled l (one_struct 98 97) }
    ensures other_root_name { (l : Listing) → names_of l ≡ codes "a" ∷ [] → l.roots.now ≡ 0 ∷ []
        → ¬ IsAssembled l (one_struct 97 98) }
    ensures fewer_roots { (l : Listing) → l.roots.now ≡ [] → ¬ IsAssembled l (one_struct 97 97) }
    ensures fewer_protocols { (l : Listing) → l.protocols.now ≡ []
        → ¬ IsAssembled l (header_bytes 0 0 1 0) }
    ensures more_protocols { (l : Listing) (p : ProtocolEntry) → l.protocols.now ≡ p ∷ []
        → ¬ IsAssembled l (header_bytes 0 0 0 0) }
{}
