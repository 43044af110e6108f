//! Worked facts: how small methods and protocols are listed before their table is assembled.
ghost use Rattle.std.specs.Prelude.{◌≡◌, ◌≢◌, ℕ, List, [], ◌∷◌, codes, false};
ghost use Rattle.std.specs.Global.{Vec};
ghost use Rattle.fidl_span.specs.declared.words.Span.{Span};
ghost use Rattle.fidl_tree.specs.Syntax.{Openness, ProtocolMember};
ghost use Rattle.fidl_tree.specs.Syntax.{ajar_protocol, open_protocol};
ghost use Rattle.fidl_tree.specs.Views.{openness_view};
ghost use Rattle.fidl_tree.specs.declared.file.File.{File};
ghost use Rattle.fidl_named.specs.declared.place.DeclarationId.{DeclarationId};
ghost use Rattle.fidl_declarations.specs.Forms.{Form};
ghost use Rattle.fidl_composition.specs.Protocols.{IsProtocolAt};
ghost use Rattle.fidl_payloads.specs.declared.payload.Payload.TheVariants as payload;
ghost use Rattle.fidl_protocol.specs.declared.method.Method.{Method};
ghost use Rattle.fidl_protocol.specs.declared.method.Protocol.{Protocol};
ghost use Rattle.fidl_table_build.specs.declared.listing.Carried.TheVariants as carried;
ghost use Rattle.fidl_table_build.specs.declared.listing.MethodEntry.{MethodEntry};
ghost use Rattle.fidl_table_build.specs.declared.listing.ProtocolEntry.{ProtocolEntry};
ghost use Rattle.fidl_table_build.specs.Samples as entries;
ghost use Rattle.fidl_table.specs.declared.found.Found.{Found};
ghost use Rattle.fidl_table.specs.Listed.{names_of, carried_by, IsFoundAs, IsFound};
ghost use Rattle.fidl_table.specs.Listed.{IsMethodEntry, IsProtocolEntry, AreListed};
ghost use Rattle.fidl_table.specs.Samples.{piece, IsSmall, first, a_method, a_protocol};

/// Names stand in the order of forms, and each payload is listed as its own kind.
pub fn names_and_payloads()
    ensures names { (one two : Form) → names_of (one ∷ two ∷ []) ≡ one.name ∷ two.name ∷ [] }
    ensures missing { carried_by payload.Missing ≡ carried.Missing }
    ensures empty { carried_by payload.Empty ≡ carried.Empty }
    ensures value { (i : ℕ) → carried_by (payload.«Type» i) ≡ carried.Definition i }
{}

/// What is found of an id has the file, the openness and the name of the protocol of that id.
pub fn protocols_that_are_found()
    ensures itself { (x : Found) → IsFoundAs x x.file.now
        (openness_view x.protocol.now.openness) x.protocol.now.name }
    ensures other_file { (x : Found) (f : File) (openness : Openness) (name : Span)
        → x.file.now ≢ f → ¬ IsFoundAs x f openness name }
    ensures other_openness { (x : Found) (f : File) (openness : Openness) (name : Span)
        → openness_view x.protocol.now.openness ≢ openness → ¬ IsFoundAs x f openness name }
    ensures other_name { (x : Found) (f : File) (openness : Openness) (name : Span)
        → x.protocol.now.name ≢ name → ¬ IsFoundAs x f openness name }
    ensures same { (files : List File) (id : DeclarationId) (x : Found) (f : File)
        (openness : Openness) (name : Span) (members : List ProtocolMember)
        → IsProtocolAt files id f openness name members → IsFoundAs x f openness name
        → IsFound files id x }
    ensures other { (files : List File) (id : DeclarationId) (x : Found) (f : File)
        (openness : Openness) (name : Span) (members : List ProtocolMember)
        → IsProtocolAt files id f openness name members → ¬ IsFoundAs x f openness name
        → ¬ IsFound files id x }
{}

/// A method is listed with its ordinal, its name by the protocol that declares it, whether it is
/// strict, and what each of its messages carries.
pub fn entries_of_methods()
    ensures same { (files : List File) (f : File) (openness : Openness)
        (members : List ProtocolMember) (name : Vec ℕ) → name.items ≡ codes "l/p.m" → IsSmall f
        → IsProtocolAt files first f openness (piece 1) members
        → IsMethodEntry files a_method (entries.a_method name) }
    ensures other_name { (files : List File) (f : File) (openness : Openness)
        (members : List ProtocolMember) (name : Vec ℕ) → name.items ≡ codes "l/m.m" → IsSmall f
        → IsProtocolAt files first f openness (piece 1) members
        → ¬ IsMethodEntry files a_method (entries.a_method name) }
    ensures other_ordinal { (files : List File) (e : MethodEntry) → e.ordinal ≡ 8
        → ¬ IsMethodEntry files a_method e }
    ensures flexible { (files : List File) (e : MethodEntry) → e.strict ≡ false
        → ¬ IsMethodEntry files a_method e }
    ensures other_request { (files : List File) (e : MethodEntry)
        → e.request ≡ carried.Definition 1 → ¬ IsMethodEntry files a_method e }
    ensures other_response { (files : List File) (e : MethodEntry) → e.response ≡ carried.Missing
        → ¬ IsMethodEntry files a_method e }
{}

/// A protocol is listed with its name, its openness and all its methods in their order.
pub fn entries_of_protocols()
    ensures same { (files : List File) (f : File) (members : List ProtocolMember)
        (methods : Vec Method) (name : Vec ℕ) (own : MethodEntry) (listed : Vec MethodEntry)
        → methods.items ≡ a_method ∷ [] → listed.items ≡ own ∷ [] → name.items ≡ codes "l/p"
        → IsSmall f → IsProtocolAt files first f ajar_protocol (piece 1) members
        → IsMethodEntry files a_method own
        → IsProtocolEntry files (a_protocol methods) (entries.a_protocol name listed) }
    ensures other_name { (files : List File) (f : File) (members : List ProtocolMember)
        (methods : Vec Method) (name : Vec ℕ) (listed : Vec MethodEntry)
        → name.items ≡ codes "l/m" → IsSmall f
        → IsProtocolAt files first f ajar_protocol (piece 1) members
        → ¬ IsProtocolEntry files (a_protocol methods) (entries.a_protocol name listed) }
    ensures other_openness { (files : List File) (f : File) (members : List ProtocolMember)
        (methods : Vec Method) (name : Vec ℕ) (listed : Vec MethodEntry)
        → IsProtocolAt files first f open_protocol (piece 1) members
        → ¬ IsProtocolEntry files (a_protocol methods) (entries.a_protocol name listed) }
    ensures fewer { (files : List File) (methods : Vec Method) (e : ProtocolEntry)
        → methods.items ≡ a_method ∷ [] → e.methods.items ≡ []
        → ¬ IsProtocolEntry files (a_protocol methods) e }
    ensures more { (files : List File) (methods : Vec Method) (e : ProtocolEntry)
        (own : MethodEntry) → methods.items ≡ [] → e.methods.items ≡ own ∷ []
        → ¬ IsProtocolEntry files (a_protocol methods) e }
    ensures other_method { (files : List File) (methods : Vec Method) (e : ProtocolEntry)
        (own : MethodEntry) → methods.items ≡ a_method ∷ [] → e.methods.items ≡ own ∷ []
        → ¬ IsMethodEntry files a_method own → ¬ IsProtocolEntry files (a_protocol methods) e }
{}

/// Protocols are listed in whatever order, all of them and nothing else.
pub fn lists_of_entries()
    ensures none { (files : List File) → AreListed files [] [] }
    ensures turned { (files : List File) (p q : Protocol) (e x : ProtocolEntry)
        → IsProtocolEntry files p e → IsProtocolEntry files q x
        → AreListed files (p ∷ q ∷ []) (x ∷ e ∷ []) }
    ensures fewer { (files : List File) (p : Protocol) → ¬ AreListed files (p ∷ []) [] }
    ensures more { (files : List File) (e : ProtocolEntry) → ¬ AreListed files [] (e ∷ []) }
    ensures other { (files : List File) (p : Protocol) (e : ProtocolEntry)
        → ¬ IsProtocolEntry files p e → ¬ AreListed files (p ∷ []) (e ∷ []) }
{}
