//! Worked facts: small tables that show methods and protocols, and some that don't.
ghost use Rattle.std.specs.Prelude.{◌≡◌, ℕ, List, [], ◌∷◌};
ghost use Rattle.std.specs.Global.{Vec};
ghost use Rattle.fidl_tree.specs.Syntax.{Openness, ProtocolMember};
ghost use Rattle.fidl_tree.specs.Syntax.{closed_protocol, ajar_protocol, open_protocol};
ghost use Rattle.fidl_tree.specs.declared.file.File.{File};
ghost use Rattle.fidl_named.specs.declared.place.DeclarationId.{DeclarationId};
ghost use Rattle.fidl_wire.specs.Figure.{Declarations};
ghost use Rattle.fidl_composition.specs.Protocols.{IsProtocolAt, IsProtocol};
ghost use Rattle.fidl_payloads.specs.declared.payload.Payload.TheVariants as carried;
ghost use Rattle.fidl_protocol.specs.declared.method.Method.{Method};
ghost use Rattle.fidl_protocol.specs.declared.method.Protocol.{Protocol};
ghost use Rattle.fidl_protocol.specs.Checked.{AreProtocolsWith};
ghost use Rattle.fidl_verify.specs.declared.method.Payload.TheVariants as payload;
ghost use Rattle.fidl_table_build.specs.Samples.{header_bytes};
ghost use Rattle.fidl_table.specs.Definitions.{ShowsDefinition};
ghost use Rattle.fidl_table.specs.Protocols.{openness_number, ShowsPayload, ShowsMethod};
ghost use Rattle.fidl_table.specs.Protocols.{ShowsProtocol, ShowsProtocols};
ghost use Rattle.fidl_table.specs.Samples.{piece, IsSmall, first, a_method, a_protocol};
ghost use Rattle.fidl_table.specs.Samples.{one_protocol, two_protocols};

/// The numbers of openness.
pub fn numbers_of_openness()
    ensures closed { openness_number closed_protocol ≡ 0 }
    ensures ajar { openness_number ajar_protocol ≡ 1 }
    ensures open { openness_number open_protocol ≡ 2 }
{}

/// A message that is missing, an empty one and one with a value of a definition are three things.
pub fn payloads_of_messages()
    ensures missing { (files : List File) (ds : Declarations) (bytes : List ℕ)
        → ShowsPayload files ds bytes carried.Missing payload.Missing }
    ensures empty { (files : List File) (ds : Declarations) (bytes : List ℕ)
        → ShowsPayload files ds bytes carried.Empty payload.Empty }
    ensures value { (files : List File) (ds : Declarations) (bytes : List ℕ) (i entry : ℕ)
        → ShowsDefinition files ds bytes i entry
        → ShowsPayload files ds bytes (carried.«Type» i) (payload.Entry entry) }
    ensures other_value { (files : List File) (ds : Declarations) (bytes : List ℕ) (i entry : ℕ)
        → ¬ ShowsDefinition files ds bytes i entry
        → ¬ ShowsPayload files ds bytes (carried.«Type» i) (payload.Entry entry) }
    ensures empty_for_missing { (files : List File) (ds : Declarations) (bytes : List ℕ)
        → ¬ ShowsPayload files ds bytes carried.Missing payload.Empty }
    ensures value_for_missing { (files : List File) (ds : Declarations) (bytes : List ℕ)
        (entry : ℕ) → ¬ ShowsPayload files ds bytes carried.Missing (payload.Entry entry) }
    ensures missing_for_empty { (files : List File) (ds : Declarations) (bytes : List ℕ)
        → ¬ ShowsPayload files ds bytes carried.Empty payload.Missing }
    ensures value_for_empty { (files : List File) (ds : Declarations) (bytes : List ℕ) (entry : ℕ)
        → ¬ ShowsPayload files ds bytes carried.Empty (payload.Entry entry) }
    ensures missing_for_value { (files : List File) (ds : Declarations) (bytes : List ℕ) (i : ℕ)
        → ¬ ShowsPayload files ds bytes (carried.«Type» i) payload.Missing }
    ensures empty_for_value { (files : List File) (ds : Declarations) (bytes : List ℕ) (i : ℕ)
        → ¬ ShowsPayload files ds bytes (carried.«Type» i) payload.Empty }
{}

/// A method has its ordinal, its name by the protocol that declares it, whether it is strict, and
/// what each of its messages carries.
pub fn methods_of_tables()
    ensures same { (files : List File) (ds : Declarations) (f : File) (openness : Openness)
        (members : List ProtocolMember) → IsSmall f
        → IsProtocolAt files first f openness (piece 1) members
        → ShowsDefinition files ds (two_protocols 1 1 7 7) 2 1
        → ShowsMethod files ds (two_protocols 1 1 7 7) a_method 2 }
    ensures other_name { (files : List File) (ds : Declarations) (f : File) (openness : Openness)
        (members : List ProtocolMember) → IsSmall f
        → IsProtocolAt files first f openness (piece 0) members
        → ¬ ShowsMethod files ds (two_protocols 1 1 7 7) a_method 2 }
    ensures other_ordinal { (files : List File) (ds : Declarations)
        → ¬ ShowsMethod files ds (two_protocols 1 1 8 7) a_method 2 }
    ensures flexible { (files : List File) (ds : Declarations)
        → ¬ ShowsMethod files ds (two_protocols 1 1 7 6) a_method 2 }
    ensures no_request { (files : List File) (ds : Declarations)
        → ¬ ShowsMethod files ds (two_protocols 1 1 7 5) a_method 2 }
    ensures no_response { (files : List File) (ds : Declarations)
        → ¬ ShowsMethod files ds (two_protocols 1 1 7 3) a_method 2 }
    ensures other_request { (files : List File) (ds : Declarations)
        → ¬ ShowsDefinition files ds (two_protocols 1 1 7 7) 2 1
        → ¬ ShowsMethod files ds (two_protocols 1 1 7 7) a_method 2 }
    ensures other_number { (files : List File) (ds : Declarations)
        → ¬ ShowsMethod files ds (two_protocols 1 1 7 7) a_method 1 }
{}

/// A protocol has its name, its openness and all its methods, which stand behind those of the
/// protocols before it.
pub fn protocols_of_tables()
    ensures same { (files : List File) (ds : Declarations) (f : File)
        (members : List ProtocolMember) (methods : Vec Method) → methods.items ≡ a_method ∷ []
        → IsSmall f → IsProtocolAt files first f ajar_protocol (piece 1) members
        → ShowsMethod files ds (two_protocols 1 1 7 7) a_method 2
        → ShowsProtocol files ds (two_protocols 1 1 7 7) (a_protocol methods) 1 }
    ensures other_name { (files : List File) (ds : Declarations) (f : File)
        (members : List ProtocolMember) (methods : Vec Method) → IsSmall f
        → IsProtocolAt files first f ajar_protocol (piece 2) members
        → ¬ ShowsProtocol files ds (two_protocols 1 1 7 7) (a_protocol methods) 1 }
    ensures other_openness { (files : List File) (ds : Declarations) (f : File)
        (members : List ProtocolMember) (methods : Vec Method)
        → IsProtocolAt files first f open_protocol (piece 1) members
        → ¬ ShowsProtocol files ds (two_protocols 1 1 7 7) (a_protocol methods) 1 }
    ensures fewer { (files : List File) (ds : Declarations) (methods : Vec Method)
        → methods.items ≡ []
        → ¬ ShowsProtocol files ds (two_protocols 1 1 7 7) (a_protocol methods) 1 }
    ensures more { (files : List File) (ds : Declarations) (one two : Method)
        (methods : Vec Method) → methods.items ≡ one ∷ two ∷ []
        → ¬ ShowsProtocol files ds (two_protocols 1 1 7 7) (a_protocol methods) 1 }
    ensures other_method { (files : List File) (ds : Declarations) (methods : Vec Method)
        → methods.items ≡ a_method ∷ []
        → ¬ ShowsMethod files ds (two_protocols 1 1 7 7) a_method 2
        → ¬ ShowsProtocol files ds (two_protocols 1 1 7 7) (a_protocol methods) 1 }
{}

/// The protocols of a table are all those of the files, and nothing else.
pub fn lists_of_protocols()
    ensures none { (ds : Declarations) → ShowsProtocols [] ds (header_bytes 0 0 0 0) }
    ensures one { (files : List File) (ds : Declarations) (p : Protocol)
        → AreProtocolsWith files (p ∷ []) → ShowsProtocol files ds one_protocol p 0
        → ShowsProtocols files ds one_protocol }
    ensures fewer { (files : List File) (ds : Declarations) (id : DeclarationId)
        → IsProtocol files id → ¬ ShowsProtocols files ds (header_bytes 0 0 0 0) }
    ensures more { (ds : Declarations) → ¬ ShowsProtocols [] ds one_protocol }
    ensures not_shown { (files : List File) (ds : Declarations)
        → ((p : Protocol) → ¬ ShowsProtocol files ds one_protocol p 0)
        → ¬ ShowsProtocols files ds one_protocol }
{}
