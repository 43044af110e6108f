//! Words of a message: eight bytes each, which are written as one number or by halves.
ghost use Rattle.std.specs.Prelude.{◌≡◌, ℕ, ◌+◌, ◌/◌, ◌%◌, ◌<◌, ◌≤◌, length, slice_index, slice_range};
ghost use Rattle.std.specs.Int.{to_le_bytes, w32, w64};
ghost use Rattle.fidl_links.specs.Words.{AreOctets, Put};

/// Bytes have eight bits each.
#[inline(always)]
pub(crate) fn are_octets(bytes: &[u8])
    ensures { AreOctets bytes.now }
{
    let _ = bytes;
}

/// Writes the word that stands at a place.
#[inline(always)]
pub(crate) fn put_word(bytes: &mut [u8], place: usize, number: u64)
    requires aligned { place % 8 ≡ 0 }
    requires room { place + 8 ≤ length bytes.old }
    ensures len { length bytes.new ≡ length bytes.old }
    ensures here { slice_range bytes.new place (place + 8) ≡ to_le_bytes w64 number }
    ensures before { (k : ℕ) → k < place → slice_index bytes.new k ≡ slice_index bytes.old k }
    ensures behind { (k : ℕ) → place + 8 ≤ k → slice_index bytes.new k ≡ slice_index bytes.old k }
    ensures put { Put bytes.old bytes.new (place / 8) number }
    ensures octets { AreOctets bytes.new }
{
    bytes[place..place + 8].copy_from_slice(&number.to_le_bytes());
    are_octets(bytes);
}

/// Writes the half of a word that stands at a place.
#[inline(always)]
pub(crate) fn put_half(bytes: &mut [u8], place: usize, number: u32)
    requires { place + 4 ≤ length bytes.old }
    ensures len { length bytes.new ≡ length bytes.old }
    ensures here { slice_range bytes.new place (place + 4) ≡ to_le_bytes w32 number }
    ensures before { (k : ℕ) → k < place → slice_index bytes.new k ≡ slice_index bytes.old k }
    ensures behind { (k : ℕ) → place + 4 ≤ k → slice_index bytes.new k ≡ slice_index bytes.old k }
    ensures octets { AreOctets bytes.new }
{
    bytes[place..place + 4].copy_from_slice(&number.to_le_bytes());
    are_octets(bytes);
}
