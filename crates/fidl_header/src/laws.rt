//! Laws of headers.
ghost use Rattle.std.specs.Prelude.{ℕ, List};
ghost use Rattle.fidl_header.specs.Header.{IsHeader};
ghost use Rattle.fidl_header.specs.Faults.{IsRefused};
ghost use Rattle.fidl_header.specs.declared.fault.HeaderFault.{HeaderFault};

/// Bytes of which a refusal is true do not begin with a header.
pub fn refused_bytes_have_no_header()
    ensures { (bytes : List ℕ) → (fault : HeaderFault) → IsRefused bytes fault
        → ¬ (IsHeader bytes) }
{}
