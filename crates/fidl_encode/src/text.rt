//! Texts that are UTF-8.
ghost use Rattle.std.specs.Prelude.{◌≤◌, ◌<◌, ◌↔◌, ℕ, IsTrue, IsUtf8, length, slice_index};

use fidl_wire::u64_at;
use simdutf8::is_utf8;

/// The high bits of eight bytes.
const HIGH_BITS: u64 = 0x8080_8080_8080_8080;

/// The length up to which the bytes of a text are looked at before it is checked as blocks of 64.
const SHORT: usize = 64;

/// The end of the words of eight ASCII bytes at the front of a text.
#[inline(always)]
fn ascii_end(text: &[u8]) -> usize
    ensures within { result ≤ length text.now }
    ensures ascii { (k : ℕ) → k < result → slice_index text.now k < 128 }
{
    let mut at = 0;
    while text.len() - at >= 8 && u64_at(text, at) & HIGH_BITS == 0 {
        at += 8;
    }
    at
}

/// Whether a text is UTF-8. Of a short one the bytes are looked at first, since most are ASCII.
#[inline(always)]
pub(crate) fn is_text(text: &[u8]) -> bool
    ensures { IsTrue result ↔ IsUtf8 text.now }
{
    if text.len() > SHORT {
        return is_utf8(text);
    }
    for i in ascii_end(text)..text.len() {
        if text[i] >= 128 {
            return is_utf8(text);
        }
    }
    true
}
