//! Laws of the definitions: the contracts of functions that do nothing.
ghost use Rattle.std.specs.Prelude.{◌≡◌, ◌≢◌, ℕ, List, Some, slice_get};
ghost use Rattle.std.specs.List.{Contains};
ghost use Rattle.fidl_span.specs.declared.words.Span.{Span};
ghost use Rattle.fidl_tree.specs.Syntax.{TypeUse, ProtocolMember as Member};
ghost use Rattle.fidl_tree.specs.Views.{protocol_member_view};
ghost use Rattle.fidl_tree.specs.declared.declaration.Declaration.{Declaration};
ghost use Rattle.fidl_tree.specs.declared.declaration.DeclarationBody.TheVariants as Declared;
ghost use Rattle.fidl_tree.specs.declared.declaration.ProtocolDeclaration.{ProtocolDeclaration};
ghost use Rattle.fidl_tree.specs.declared.protocol.ProtocolMember.{ProtocolMember};
ghost use Rattle.fidl_tree.specs.declared.file.File.{File};
ghost use Rattle.fidl_wire.specs.Term.{Term};
ghost use Rattle.fidl_types.specs.Types.{TypesAre};
ghost use Rattle.fidl_payloads.specs.declared.fault.PayloadFault.{PayloadFault};
ghost use Rattle.fidl_payloads.specs.declared.fault.PayloadFault.TheVariants as Faults;
ghost use Rattle.fidl_payloads.specs.declared.payload.Payload.{Payload};
ghost use Rattle.fidl_payloads.specs.Kinds.{IsPayload, IsPayloadDefinition};
ghost use Rattle.fidl_payloads.specs.Payloads.{RequestIs, ResponseIs};
ghost use Rattle.fidl_payloads.specs.Members.{IsMemberOf, MemberHolds, MemberBreaks, IsReportIn};

/// A member of which a refusal is true has a type written as a payload that may not be one, so a
/// member is accepted or refused, and never rightly both. Memory that ran out says nothing of it.
pub fn refused_payloads_break_a_rule()
    ensures place { (files : List File) (number : ℕ) (m : Member) (span : Span)
        → MemberBreaks files number m span → MemberHolds files number m → ⊥ }
    ensures fault { (files : List File) (number : ℕ) (m : Member) (fault : PayloadFault)
        → fault ≢ Faults.Memory → IsReportIn number (MemberBreaks files number m) fault
        → MemberHolds files number m → ⊥ }
{}

/// A member has one request and one response.
pub fn the_payloads_of_a_method_are_one()
    ensures request { (files : List File) (number : ℕ) (m : Member) (one other : Payload)
        → RequestIs files number m one → RequestIs files number m other → one ≡ other }
    ensures response { (files : List File) (number : ℕ) (protocol : Span) (m : Member)
        (one other : Payload) → ResponseIs files number protocol m one
        → ResponseIs files number protocol m other → one ≡ other }
{}

/// Each member that a protocol of a file declares is one of its members.
pub fn declared_members_are_members()
    ensures { (files : List File) (number : ℕ) (f : File) (d : Declaration)
        (p : ProtocolDeclaration) (m : ProtocolMember) → slice_get files number ≡ Some f
        → Contains f.declarations.items d → d.body ≡ Declared.Protocol p
        → Contains p.members.items m → IsMemberOf files number p.name (protocol_member_view m) }
{}

/// In files that keep all rules of types, the definition that a payload is of is a struct, a table
/// or a union that is never absent.
pub fn payloads_are_defined()
    ensures { (files : List File) (number : ℕ) (t : TypeUse) (i : ℕ) (ts : List Term)
        → IsPayload files number t i → TypesAre files ts → IsPayloadDefinition ts i }
{}
