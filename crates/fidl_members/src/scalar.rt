//! Bools and numbers of the language, by the types of the table that they are read as.
ghost use Rattle.std.specs.Prelude.{◌≡◌, ◌+◌, ◌≤◌, ◌↔◌, ℤ, pos, length, IsTrue, Some};
ghost use Rattle.fidl_wire.specs.Value.{Value, bool, number};
ghost use Rattle.fidl_table_format.specs.declared.kind.EntryKind.{EntryKind};
ghost use Rattle.fidl_table_format.specs.declared.kind.EntryKind.TheVariants as kinds;
ghost use Rattle.fidl_members.specs.Scalars.{scalar_as, scalar_size, value_standing};

use fidl_table_format::EntryKind;
use fidl_wire::{u16_at, u32_at, u64_at};

/// A bool or a number that is read by one load: `bool`, `u8` to `u64` and `i8` to `i64`. Bits and
/// enums are read as their underlying type.
pub trait Scalar: Copy + Drop {
    ghost kind: { EntryKind };

    ghost value: { Self → Value };

    /// Whether values of this kind are read as this type.
    fn is_of(of: EntryKind) -> bool
        ensures { IsTrue result ↔ scalar_as of ≡ Some kind };

    /// The value at a place.
    fn at(bytes: &[u8], place: usize) -> Self
        requires { place + scalar_size kind ≤ length bytes.now }
        ensures { value result ≡ value_standing kind bytes.now place };
}

impl Scalar for bool {
    ghost kind = { kinds.Bool };

    ghost value = { λ b. bool b };

    #[inline(always)]
    fn is_of(of: EntryKind) -> bool {
        of == EntryKind::Bool
    }

    #[inline(always)]
    fn at(bytes: &[u8], place: usize) -> bool {
        bytes[place] == 1
    }
}

impl Scalar for u8 {
    ghost kind = { kinds.Uint8 };

    ghost value = { λ n. number (pos n) };

    #[inline(always)]
    fn is_of(of: EntryKind) -> bool {
        of == EntryKind::Uint8
    }

    #[inline(always)]
    fn at(bytes: &[u8], place: usize) -> u8 {
        bytes[place]
    }
}

impl Scalar for u16 {
    ghost kind = { kinds.Uint16 };

    ghost value = { λ n. number (pos n) };

    #[inline(always)]
    fn is_of(of: EntryKind) -> bool {
        of == EntryKind::Uint16
    }

    #[inline(always)]
    fn at(bytes: &[u8], place: usize) -> u16 {
        u16_at(bytes, place)
    }
}

impl Scalar for u32 {
    ghost kind = { kinds.Uint32 };

    ghost value = { λ n. number (pos n) };

    #[inline(always)]
    fn is_of(of: EntryKind) -> bool {
        of == EntryKind::Uint32
    }

    #[inline(always)]
    fn at(bytes: &[u8], place: usize) -> u32 {
        u32_at(bytes, place)
    }
}

impl Scalar for u64 {
    ghost kind = { kinds.Uint64 };

    ghost value = { λ n. number (pos n) };

    #[inline(always)]
    fn is_of(of: EntryKind) -> bool {
        of == EntryKind::Uint64
    }

    #[inline(always)]
    fn at(bytes: &[u8], place: usize) -> u64 {
        u64_at(bytes, place)
    }
}

impl Scalar for i8 {
    ghost kind = { kinds.Int8 };

    ghost value = { λ n. number n };

    #[inline(always)]
    fn is_of(of: EntryKind) -> bool {
        of == EntryKind::Int8
    }

    #[inline(always)]
    fn at(bytes: &[u8], place: usize) -> i8 {
        bytes[place].cast_signed()
    }
}

impl Scalar for i16 {
    ghost kind = { kinds.Int16 };

    ghost value = { λ n. number n };

    #[inline(always)]
    fn is_of(of: EntryKind) -> bool {
        of == EntryKind::Int16
    }

    #[inline(always)]
    fn at(bytes: &[u8], place: usize) -> i16 {
        u16_at(bytes, place).cast_signed()
    }
}

impl Scalar for i32 {
    ghost kind = { kinds.Int32 };

    ghost value = { λ n. number n };

    #[inline(always)]
    fn is_of(of: EntryKind) -> bool {
        of == EntryKind::Int32
    }

    #[inline(always)]
    fn at(bytes: &[u8], place: usize) -> i32 {
        u32_at(bytes, place).cast_signed()
    }
}

impl Scalar for i64 {
    ghost kind = { kinds.Int64 };

    ghost value = { λ n. number n };

    #[inline(always)]
    fn is_of(of: EntryKind) -> bool {
        of == EntryKind::Int64
    }

    #[inline(always)]
    fn at(bytes: &[u8], place: usize) -> i64 {
        u64_at(bytes, place).cast_signed()
    }
}
