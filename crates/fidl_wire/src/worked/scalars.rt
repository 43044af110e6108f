//! Worked messages of bools, numbers, bits and enums, each as a message of its own.
ghost use Rattle.std.specs.Prelude.{[], ◌∷◌, ◌++◌, replicate, true, false, pos, negsuc, Some, None};
ghost use Rattle.fidl_wire.specs.Value.{bool, number};
ghost use Rattle.fidl_wire.specs.Term.{int8, int16, int32, int64, uint8, uint16, uint32, uint64};
ghost use Rattle.fidl_wire.specs.Term as ty;
ghost use Rattle.fidl_wire.specs.Figure.{no_declarations};
ghost use Rattle.fidl_wire.specs.Encoding.{zeros};
ghost use Rattle.fidl_wire.specs.Message.{Encodes};

/// A bool is one byte, 0 or 1.
pub fn bools()
    ensures no { Encodes no_declarations ty.bool (bool false) (zeros 8) [] }
    ensures yes { Encodes no_declarations ty.bool (bool true) (1 ∷ zeros 7) [] }
{}

/// Unsigned numbers of each width, their least significant byte first.
pub fn unsigned_numbers()
    ensures of_8_bits { Encodes no_declarations (ty.number uint8) (number (pos 0x12))
        (0x12 ∷ zeros 7) [] }
    ensures of_16_bits { Encodes no_declarations (ty.number uint16) (number (pos 0x1234))
        (0x34 ∷ 0x12 ∷ zeros 6) [] }
    ensures of_32_bits { Encodes no_declarations (ty.number uint32) (number (pos 0x12345678))
        (0x78 ∷ 0x56 ∷ 0x34 ∷ 0x12 ∷ zeros 4) [] }
    ensures of_64_bits { Encodes no_declarations (ty.number uint64)
        (number (pos 0x123456789abcdef0))
        (0xf0 ∷ 0xde ∷ 0xbc ∷ 0x9a ∷ 0x78 ∷ 0x56 ∷ 0x34 ∷ 0x12 ∷ []) [] }
{}

/// The greatest unsigned number of each width.
pub fn greatest_unsigned_numbers()
    ensures of_8_bits { Encodes no_declarations (ty.number uint8) (number (pos 255)) (255 ∷ zeros 7)
        [] }
    ensures of_16_bits { Encodes no_declarations (ty.number uint16) (number (pos 65535))
        (255 ∷ 255 ∷ zeros 6) [] }
    ensures of_32_bits { Encodes no_declarations (ty.number uint32) (number (pos 4294967295))
        (replicate 4 255 ++ zeros 4) [] }
    ensures of_64_bits { Encodes no_declarations (ty.number uint64)
        (number (pos 18446744073709551615)) (replicate 8 255) [] }
{}

/// The signed number -2 of each width, in two's complement (`negsuc n` is -n - 1).
pub fn negative_numbers()
    ensures of_8_bits { Encodes no_declarations (ty.number int8) (number (negsuc 1)) (254 ∷ zeros 7)
        [] }
    ensures of_16_bits { Encodes no_declarations (ty.number int16) (number (negsuc 1))
        (254 ∷ 255 ∷ zeros 6) [] }
    ensures of_32_bits { Encodes no_declarations (ty.number int32) (number (negsuc 1))
        (254 ∷ replicate 3 255 ++ zeros 4) [] }
    ensures of_64_bits { Encodes no_declarations (ty.number int64) (number (negsuc 1))
        (254 ∷ replicate 7 255) [] }
{}

/// The least signed number of each width, -2^7, -2^15, -2^31 and -2^63.
pub fn least_signed_numbers()
    ensures of_8_bits { Encodes no_declarations (ty.number int8) (number (negsuc 127))
        (0x80 ∷ zeros 7) [] }
    ensures of_16_bits { Encodes no_declarations (ty.number int16) (number (negsuc 32767))
        (0 ∷ 0x80 ∷ zeros 6) [] }
    ensures of_32_bits { Encodes no_declarations (ty.number int32) (number (negsuc 2147483647))
        (zeros 3 ++ 0x80 ∷ zeros 4) [] }
    ensures of_64_bits { Encodes no_declarations (ty.number int64)
        (number (negsuc 9223372036854775807)) (zeros 7 ++ 0x80 ∷ []) [] }
{}

/// The greatest signed number of each width, 2^7 - 1, 2^15 - 1, 2^31 - 1 and 2^63 - 1.
pub fn greatest_signed_numbers()
    ensures of_8_bits { Encodes no_declarations (ty.number int8) (number (pos 127)) (0x7f ∷ zeros 7)
        [] }
    ensures of_16_bits { Encodes no_declarations (ty.number int16) (number (pos 32767))
        (255 ∷ 0x7f ∷ zeros 6) [] }
    ensures of_32_bits { Encodes no_declarations (ty.number int32) (number (pos 2147483647))
        (replicate 3 255 ++ 0x7f ∷ zeros 4) [] }
    ensures of_64_bits { Encodes no_declarations (ty.number int64)
        (number (pos 9223372036854775807)) (replicate 7 255 ++ 0x7f ∷ []) [] }
{}

/// `strict bits : uint16 {A = 1; C = 4;}` take any of their members, all or none of them; flexible
/// bits take other bits too.
pub fn bits()
    ensures one_member { Encodes no_declarations (ty.bits uint16 (Some 5)) (number (pos 4))
        (4 ∷ zeros 7) [] }
    ensures all_members { Encodes no_declarations (ty.bits uint16 (Some 5)) (number (pos 5))
        (5 ∷ zeros 7) [] }
    ensures no_member { Encodes no_declarations (ty.bits uint16 (Some 5)) (number (pos 0)) (zeros 8)
        [] }
    ensures flexible { Encodes no_declarations (ty.bits uint16 None) (number (pos 0x302))
        (2 ∷ 3 ∷ zeros 6) [] }
{}

/// `strict enum : int16 {A = -1; B = 2;}` takes its values; a flexible enum takes other numbers
/// too.
pub fn enums()
    ensures first { Encodes no_declarations (ty.enum int16 (Some (negsuc 0 ∷ pos 2 ∷ [])))
        (number (negsuc 0)) (255 ∷ 255 ∷ zeros 6) [] }
    ensures last { Encodes no_declarations (ty.enum int16 (Some (negsuc 0 ∷ pos 2 ∷ [])))
        (number (pos 2)) (2 ∷ zeros 7) [] }
    ensures flexible { Encodes no_declarations (ty.enum int16 None) (number (pos 0x103))
        (3 ∷ 1 ∷ zeros 6) [] }
{}
