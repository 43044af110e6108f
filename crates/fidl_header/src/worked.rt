//! Worked headers.
ghost use Rattle.std.specs.Prelude.{◌≡◌, [], ◌∷◌, true, false};
ghost use Rattle.fidl_header.specs.Header.{IsHeader, header_of, header_bytes};
ghost use Rattle.fidl_header.specs.Faults.{IsRefused};
ghost use Rattle.fidl_header.specs.declared.header.Header.{Header};
ghost use Rattle.fidl_header.specs.declared.fault.HeaderFault.TheVariants as fault;

/// Transaction 7, flexible, of the method whose ordinal is 258.
pub fn a_flexible_header()
    ensures { header_bytes (record { txid = 7; flexible = true; ordinal = 258 })
        ≡ 7 ∷ 0 ∷ 0 ∷ 0 ∷ 2 ∷ 0 ∷ 128 ∷ 1 ∷ 2 ∷ 1 ∷ 0 ∷ 0 ∷ 0 ∷ 0 ∷ 0 ∷ 0 ∷ [] }
{}

/// A strict one, with flag bits that are ignored.
pub fn a_strict_header_with_other_flags()
    ensures { header_of (1 ∷ 2 ∷ 0 ∷ 0 ∷ 255 ∷ 255 ∷ 63 ∷ 1 ∷ 3 ∷ 0 ∷ 0 ∷ 0 ∷ 0 ∷ 0 ∷ 0 ∷ 0 ∷ [])
        ≡ record { txid = 513; flexible = false; ordinal = 3 } }
{}

/// Fifteen bytes are too few.
pub fn fifteen_bytes_are_short()
    ensures { IsRefused (0 ∷ 0 ∷ 0 ∷ 0 ∷ 2 ∷ 0 ∷ 0 ∷ 1 ∷ 0 ∷ 0 ∷ 0 ∷ 0 ∷ 0 ∷ 0 ∷ 0 ∷ []) fault.Short }
{}

/// The eighth byte is the magic number.
pub fn another_magic_number()
    ensures { IsRefused (1 ∷ 1 ∷ 1 ∷ 1 ∷ 2 ∷ 1 ∷ 1 ∷ 0 ∷ 1 ∷ 1 ∷ 1 ∷ 1 ∷ 1 ∷ 1 ∷ 1 ∷ 1 ∷ [])
        fault.BadMagic }
{}

/// The second lowest bit of the fifth byte says version 2.
pub fn another_version()
    ensures { IsRefused (0 ∷ 0 ∷ 0 ∷ 0 ∷ 253 ∷ 2 ∷ 0 ∷ 1 ∷ 0 ∷ 0 ∷ 0 ∷ 0 ∷ 0 ∷ 0 ∷ 0 ∷ 0 ∷ [])
        fault.NotVersion2 }
{}

/// The second highest bit of the seventh byte says that the message overflows.
pub fn a_message_that_overflows()
    ensures { IsRefused (0 ∷ 0 ∷ 0 ∷ 0 ∷ 2 ∷ 0 ∷ 64 ∷ 1 ∷ 0 ∷ 0 ∷ 0 ∷ 0 ∷ 0 ∷ 0 ∷ 0 ∷ 0 ∷ [])
        fault.Overflow }
{}
