//! What refusals of the parts say of the files.
ghost use Rattle.std.specs.Prelude.{◌≢◌, List};
ghost use Rattle.fidl_span.specs.declared.words.Span.{Span as Where};
ghost use Rattle.fidl_tree.specs.Syntax.{Openness, ProtocolMember as Member};
ghost use Rattle.fidl_tree.specs.Views.{file_view};
ghost use Rattle.fidl_tree.specs.declared.file.File.{File as Tree};
ghost use Rattle.fidl_named.specs.declared.place.DeclarationId.{DeclarationId as Id};
ghost use Rattle.fidl_composition.specs.Protocols.{IsProtocolAt};
ghost use Rattle.fidl_composition.specs.Compositions.{IsTrueOfCompositions};
ghost use Rattle.fidl_method_rules.specs.Rules.{ProtocolBreaks, IsReportIn as IsMethodReport};
ghost use Rattle.fidl_payloads.specs.Members.{MemberBreaks, IsReportIn as IsPayloadReport};
ghost use Rattle.std.specs.List.{Contains};
ghost use Rattle.fidl_composition.specs.declared.fault.ComposeFault.TheVariants as compose;
ghost use Rattle.fidl_method_rules.specs.declared.fault.MethodFault.TheVariants as method;
ghost use Rattle.fidl_payloads.specs.declared.fault.PayloadFault.TheVariants as payload;
ghost use Rattle.fidl_protocol.specs.declared.fault.ProtocolFault.TheVariants.{Memory};
ghost use Rattle.fidl_protocol.specs.Faults.{IsTrueOfProtocols};

use crate::fault::ProtocolFault;
use fidl_composition::ComposeFault;
use fidl_method_rules::MethodFault;
use fidl_payloads::PayloadFault;

/// A refusal of compositions.
pub(crate) fn of_compositions(fault: ComposeFault) -> ProtocolFault
    ensures holds { (files : List Tree) → IsTrueOfCompositions files fault
        → IsTrueOfProtocols files result }
    ensures memory { fault ≢ compose.Memory → result ≢ Memory }
{
    match fault {
        ComposeFault::BadCompose { place } => ProtocolFault::BadCompose { place },
        ComposeFault::ComposeCycle { place } => ProtocolFault::ComposeCycle { place },
        ComposeFault::Memory => ProtocolFault::Memory,
    }
}

/// A refusal of the methods of a protocol.
pub(crate) fn of_methods(fault: MethodFault) -> ProtocolFault
    ensures holds { (files : List Tree) (id : Id) (f : Tree) (openness : Openness) (name : Where)
        (members : List Member) → IsProtocolAt files id f openness name members
        → IsMethodReport id.file (ProtocolBreaks (file_view f) openness name members) fault
        → IsTrueOfProtocols files result }
    ensures memory { fault ≢ method.Memory → result ≢ Memory }
{
    match fault {
        MethodFault::NotStrict { place } => ProtocolFault::NotStrict { place },
        MethodFault::BadSelector { place } => ProtocolFault::BadSelector { place },
        MethodFault::ZeroOrdinal { place } => ProtocolFault::ZeroOrdinal { place },
        MethodFault::Memory => ProtocolFault::Memory,
    }
}

/// A refusal of a payload.
pub(crate) fn of_payloads(fault: PayloadFault) -> ProtocolFault
    ensures holds { (files : List Tree) (id : Id) (f : Tree) (openness : Openness) (name : Where)
        (members : List Member) (m : Member) → IsProtocolAt files id f openness name members
        → Contains members m → IsPayloadReport id.file (MemberBreaks files id.file m) fault
        → IsTrueOfProtocols files result }
    ensures memory { fault ≢ payload.Memory → result ≢ Memory }
{
    match fault {
        PayloadFault::BadPayload { place } => ProtocolFault::BadPayload { place },
        PayloadFault::Memory => ProtocolFault::Memory,
    }
}
