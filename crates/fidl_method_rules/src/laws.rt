//! Laws of the definitions: the contracts of functions that do nothing.
ghost use Rattle.std.specs.Prelude.{◌≡◌, ◌≢◌, ℕ, List};
ghost use Rattle.fidl_span.specs.declared.words.Span.{Span};
ghost use Rattle.fidl_tree.specs.Syntax.{File, Openness, ProtocolMember};
ghost use Rattle.fidl_method_rules.specs.declared.fault.MethodFault.{MethodFault};
ghost use Rattle.fidl_method_rules.specs.declared.fault.MethodFault.TheVariants as Faults;
ghost use Rattle.fidl_method_rules.specs.Methods.{Method, OrdinalIs};
ghost use Rattle.fidl_method_rules.specs.Rules.{Rule, ProtocolHolds, ProtocolBreaks, IsReportIn};

/// A protocol that breaks a rule doesn't hold, so a protocol is accepted or refused, and never
/// rightly both. Memory that ran out says nothing of the protocol.
pub fn refused_methods_break_a_rule()
    ensures broken { (f : File) (openness : Openness) (protocol : Span)
        (members : List ProtocolMember) (rule : Rule) (span : Span)
        → ProtocolBreaks f openness protocol members rule span
        → ProtocolHolds f openness protocol members → ⊥ }
    ensures refused { (number : ℕ) (f : File) (openness : Openness) (protocol : Span)
        (members : List ProtocolMember) (fault : MethodFault) → fault ≢ Faults.Memory
        → IsReportIn number (ProtocolBreaks f openness protocol members) fault
        → ProtocolHolds f openness protocol members → ⊥ }
{}

/// A method has one ordinal at most.
pub fn the_ordinal_of_a_method_is_one()
    ensures { (f : File) (protocol : Span) (m : Method) (a b : ℕ)
        → OrdinalIs f protocol m a → OrdinalIs f protocol m b → a ≡ b }
{}
