//! Laws of what frames ask.
ghost use Rattle.std.specs.Prelude.{◌≡◌, ◌↔◌, ℕ, List};
ghost use Rattle.fidl_verify.specs.Lookups.{TableProtocol, IsProtocolOfTable};
ghost use Rattle.fidl_requests.specs.Methods.{IsRequested, IsUnrequested};
ghost use Rattle.fidl_requests.specs.Verdict.{IsVerdict};
ghost use Rattle.fidl_requests.specs.declared.verdict.Verdict.{Verdict};

/// The method of an ordinal is one.
pub fn an_ordinal_has_one_method()
    ensures { (p : TableProtocol) → IsProtocolOfTable p → (ordinal m n : ℕ)
        → IsRequested p ordinal m → IsRequested p ordinal n → m ≡ n }
{}

/// An ordinal of no method, or of an event, is just one that no method with a request has.
pub fn an_ordinal_is_requested_or_not()
    ensures { (p : TableProtocol) → IsProtocolOfTable p → (ordinal : ℕ)
        → IsUnrequested p ordinal ↔ ((number : ℕ) → ¬ (IsRequested p ordinal number)) }
{}

/// A frame has one verdict.
pub fn a_frame_has_one_verdict()
    ensures { (p : TableProtocol) → IsProtocolOfTable p → (frame : List ℕ) → (v w : Verdict)
        → IsVerdict p frame v → IsVerdict p frame w → v ≡ w }
{}
