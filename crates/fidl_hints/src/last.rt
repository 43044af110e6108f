//! The bytes that follow the last occurrence of a byte.
ghost use Rattle.std.specs.Prelude.{◌≡◌, ◌==◌};
ghost use Rattle.std.specs.List.{after_last, before_first};

/// The bytes that follow the last occurrence of this byte; all bytes where it does not occur.
pub(crate) fn behind_last(byte: u8, bytes: &[u8]) -> &[u8]
    ensures { result.now ≡ after_last (λ b. b == byte) bytes.now }
{
    let mut from = bytes.len();
    while from > 0 && bytes[from - 1] != byte {
        from -= 1;
    }
    &bytes[from..]
}

/// The bytes before the first of this byte; all where there is none.
pub(crate) fn before_first(byte: u8, bytes: &[u8]) -> &[u8]
    ensures { result.now ≡ before_first (λ b. b == byte) bytes.now }
{
    let mut to = 0;
    while to < bytes.len() && bytes[to] != byte {
        to += 1;
    }
    &bytes[..to]
}
