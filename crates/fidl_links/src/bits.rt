//! Bits of a list of bytes.
ghost use Rattle.std.specs.Prelude.{◌≡◌, ◌≢◌, ℕ, ◌⊎◌, ◌<◌, ◌≤◌, length};
ghost use Rattle.fidl_links.specs.Bits.{bit, flag};

/// Whether the bit with the number `which`, the lowest first, of the byte with the number `i` is set.
#[inline(always)]
pub(crate) fn has_bit(bytes: &[u8], i: usize, which: u8) -> bool
    requires within { i < length bytes.now }
    requires eight { which < 8 }
    ensures { flag result ≡ bit bytes.now i which }
{
    (bytes[i] >> which) & 1 == 1
}

/// Sets it.
#[inline(always)]
pub(crate) fn set_bit(bytes: &mut [u8], i: usize, which: u8)
    requires within { i < length bytes.old }
    requires eight { which < 8 }
    ensures len { length bytes.new ≡ length bytes.old }
    ensures here { bit bytes.new i which ≡ 1 }
    ensures elsewhere { (j b : ℕ) → (j ≢ i) ⊎ (b ≢ which) → bit bytes.new j b ≡ bit bytes.old j b }
{
    bytes[i] |= 1 << which;
}

/// Clears all bits of the first so many bytes.
pub(crate) fn clear(bytes: &mut [u8], count: usize)
    requires { count ≤ length bytes.old }
    ensures len { length bytes.new ≡ length bytes.old }
    ensures clear { (i b : ℕ) → i < count → bit bytes.new i b ≡ 0 }
{
    bytes[..count].fill(0);
}
