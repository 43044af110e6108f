//! Worked facts: the methods of protocols, what they carry, and what refusals say of them.
ghost use Rattle.std.specs.Prelude.{◌≡◌, ◌≢◌, ◌<◌, List, [], ◌∷◌};
ghost use Rattle.fidl_tree.specs.declared.file.File.{File};
ghost use Rattle.fidl_named.specs.declared.place.Place.{Place};
ghost use Rattle.fidl_named.specs.declared.place.DeclarationId.{DeclarationId as Id};
ghost use Rattle.fidl_composition.specs.Compositions.{Composes, Reaches, IsWay};
ghost use Rattle.fidl_payloads.specs.declared.payload.Payload.TheVariants as payload;
ghost use Rattle.fidl_protocol.specs.declared.method.Method.{Method as Entry};
ghost use Rattle.fidl_protocol.specs.Methods.{IsDeclared, HasMethod, method_place, HaveOneName};
ghost use Rattle.fidl_protocol.specs.Methods.{MethodsDiffer};
ghost use Rattle.fidl_protocol.specs.declared.fault.ProtocolFault.TheVariants as Faults;
ghost use Rattle.fidl_protocol.specs.Checked.{AreChecked, AreMethodsOf, AreProtocolsWith};
ghost use Rattle.fidl_protocol.specs.Faults.{IsReported, TwoAreAlike, HaveOneOrdinal};
ghost use Rattle.fidl_protocol.specs.Faults.{IsTrueOfProtocols};
ghost use Rattle.fidl_protocol.specs.Starts.{Carries, AreStarts};

/// No files keep all rules, and have no protocols; nothing but lack of memory is said of them.
pub fn no_files()
    ensures checked { AreChecked [] (record { terms = []; figures = [] }) }
    ensures protocols { AreProtocolsWith [] [] }
    ensures starts { AreStarts [] [] }
    ensures one_start { AreStarts [] (0 ∷ []) → ⊥ }
    ensures method { (place : Place) → IsTrueOfProtocols [] (Faults.DuplicateMethod place) → ⊥ }
    ensures payload { (place : Place) → IsTrueOfProtocols [] (Faults.BadPayload place) → ⊥ }
    ensures types { (place : Place) → IsTrueOfProtocols [] (Faults.TooManyTypes place) → ⊥ }
    ensures memory { IsTrueOfProtocols [] Faults.Memory }
{}

/// A protocol has the methods that it declares and those of what it composes, and no others.
pub fn methods_of_protocols()
    ensures own { (files : List File) (m : Entry) → IsDeclared files m
        → HasMethod files m.protocol m }
    ensures composed { (files : List File) (p : Id) (m : Entry) → Composes files p m.protocol
        → IsDeclared files m → HasMethod files p m }
    ensures not_reached { (files : List File) (p : Id) (m : Entry)
        → (Reaches files p m.protocol → ⊥) → HasMethod files p m → ⊥ }
    ensures not_declared { (files : List File) (p : Id) (m : Entry) → (IsDeclared files m → ⊥)
        → HasMethod files p m → ⊥ }
{}

/// A protocol without methods has no two of one name or one ordinal; two different methods of one
/// name, or of one ordinal, don't differ as they have to.
pub fn methods_that_differ()
    ensures none { (files : List File) (p : Id) → ((m : Entry) → HasMethod files p m → ⊥)
        → MethodsDiffer files p }
    ensures name { (files : List File) (p : Id) (one other : Entry) → HasMethod files p one
        → HasMethod files p other → one ≢ other → HaveOneName files one other
        → MethodsDiffer files p → ⊥ }
    ensures ordinal { (files : List File) (p : Id) (one other : Entry) → HasMethod files p one
        → HasMethod files p other → one ≢ other → HaveOneOrdinal one other
        → MethodsDiffer files p → ⊥ }
{}

/// A list of the methods of a protocol leaves none out, has no other, and has each once and in the
/// order of their ordinals.
pub fn lists_of_methods()
    ensures none { (files : List File) (p : Id) → ((m : Entry) → HasMethod files p m → ⊥)
        → AreMethodsOf files p [] }
    ensures left_out { (files : List File) (p : Id) (m : Entry) → HasMethod files p m
        → AreMethodsOf files p [] → ⊥ }
    ensures another { (files : List File) (p : Id) (m : Entry) → (HasMethod files p m → ⊥)
        → AreMethodsOf files p (m ∷ []) → ⊥ }
    ensures twice { (files : List File) (p : Id) (m : Entry)
        → AreMethodsOf files p (m ∷ m ∷ []) → ⊥ }
    ensures falling { (files : List File) (p : Id) (one other : Entry)
        → other.own.ordinal < one.own.ordinal → AreMethodsOf files p (one ∷ other ∷ []) → ⊥ }
{}

/// A method carries the definitions of its request and its response, and nothing else.
pub fn what_methods_carry()
    ensures request { (m : Entry) → m.payloads.request ≡ payload.«Type» 3 → Carries m 3 }
    ensures response { (m : Entry) → m.payloads.response ≡ payload.«Type» 3 → Carries m 3 }
    ensures other { (m : Entry) → m.payloads.request ≡ payload.«Type» 3
        → m.payloads.response ≡ payload.Missing → Carries m 4 → ⊥ }
    ensures nothing { (m : Entry) → m.payloads.request ≡ payload.Empty
        → m.payloads.response ≡ payload.Missing → Carries m 3 → ⊥ }
{}

/// Of two alike methods the protocol's own is reported at its name, of two own ones the later, and
/// of two composed ones the path to one; no place in the file of another protocol is reported.
pub fn where_alike_methods_are_reported()
    ensures own { (files : List File) (p : Id) (one other : Entry) → HasMethod files p one
        → HasMethod files p other → one ≢ other → HaveOneOrdinal one other
        → one.protocol ≢ p → other.protocol ≡ p
        → TwoAreAlike files HaveOneOrdinal (method_place other) }
    ensures later { (files : List File) (p : Id) (one other : Entry) → other.protocol ≡ p
        → one.own.member < other.own.member → IsReported files p other one (method_place other) }
    ensures first { (files : List File) (p : Id) (one other : Entry) (place : Place)
        → one.protocol ≡ p → other.protocol ≡ p → one.own.member < other.own.member
        → IsReported files p one other place → ⊥ }
    ensures path { (files : List File) (p : Id) (one other : Entry) (place : Place)
        → one.protocol ≢ p → other.protocol ≢ p → IsWay files p other.protocol place
        → IsReported files p other one place }
    ensures own_by_path { (files : List File) (p : Id) (one other : Entry) (place : Place)
        → one.protocol ≡ p → other.protocol ≢ p → IsReported files p other one place → ⊥ }
    ensures other_file { (files : List File) (p : Id) (one other : Entry) (place : Place)
        → place.file ≢ p.file → IsReported files p other one place → ⊥ }
    ensures alone { (files : List File) (place : Place)
        → ((p : Id) (one other : Entry) → HasMethod files p one → HasMethod files p other
        → one ≡ other) → TwoAreAlike files HaveOneOrdinal place → ⊥ }
{}
