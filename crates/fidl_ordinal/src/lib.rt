//! Ordinals of methods, by which messages name them (docs/language.md, "Ordinals").
#![tactic(auto)]

ghost use Rattle.std.specs.Prelude.{◌≡◌};
ghost use Rattle.fidl_ordinal.specs.Ordinal.{ordinal};

use sha2::{Digest, Sha256};

/// The ordinal of a method, by the text `library.name/Protocol.Method`: the first eight bytes of its
/// SHA-256 digest (FIPS 180-4) as a little-endian number, with the top bit cleared.
pub fn ordinal_of(text: &[u8]) -> u64
    ensures { result ≡ ordinal text.now }
{
    let digest = Sha256::digest(text);
    match digest[..].first_chunk::<8>() {
        Some(first) => u64::from_le_bytes(*first) % (1 << 63),
        None => unreachable!(),
    }
}

#[cfg(test)]
mod tests {
    use super::ordinal_of;

    /// The digests of `abc` and of no bytes are worked examples of SHA-256.
    #[test]
    fn ordinals_of_known_digests(rt: HostRuntime) {
        assert_eq!(rt; ordinal_of(b"abc"), 0x6acf_018f_bf16_78ba);
        assert_eq!(rt; ordinal_of(b""), 0x141c_fc98_42c4_b0e3);
    }
}
