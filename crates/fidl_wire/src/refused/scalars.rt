//! Refused: bools, numbers, bits and enums.
ghost use Rattle.std.specs.Prelude.{[], ◌∷◌, pos, negsuc, Some, None};
ghost use Rattle.fidl_wire.specs.Value.{absent, number};
ghost use Rattle.fidl_wire.specs.Term.{int8, int16, int32, int64, uint8, uint16, uint32, uint64};
ghost use Rattle.fidl_wire.specs.Term as ty;
ghost use Rattle.fidl_wire.specs.Figure.{no_declarations};
ghost use Rattle.fidl_wire.specs.Encoding.{zeros};
ghost use Rattle.fidl_wire.specs.Typed.{Typed};
ghost use Rattle.fidl_wire.specs.Message.{IsEncoding};

/// A bool whose byte is 2.
pub fn a_bool_of_two()
    ensures { ¬ (IsEncoding no_declarations ty.bool (2 ∷ zeros 7) []) }
{}

/// Numbers past the greatest unsigned number of their width.
pub fn unsigned_numbers_too_great()
    ensures of_8_bits { ¬ (Typed no_declarations (ty.number uint8) (number (pos 256))) }
    ensures of_16_bits { ¬ (Typed no_declarations (ty.number uint16) (number (pos 65536))) }
    ensures of_32_bits { ¬ (Typed no_declarations (ty.number uint32) (number (pos 4294967296))) }
    ensures of_64_bits { ¬ (Typed no_declarations (ty.number uint64)
        (number (pos 18446744073709551616))) }
{}

/// The number -1 at the unsigned types (`negsuc n` is -n - 1).
pub fn negative_unsigned_numbers()
    ensures of_8_bits { ¬ (Typed no_declarations (ty.number uint8) (number (negsuc 0))) }
    ensures of_16_bits { ¬ (Typed no_declarations (ty.number uint16) (number (negsuc 0))) }
    ensures of_32_bits { ¬ (Typed no_declarations (ty.number uint32) (number (negsuc 0))) }
    ensures of_64_bits { ¬ (Typed no_declarations (ty.number uint64) (number (negsuc 0))) }
{}

/// Numbers past the greatest signed number of their width.
pub fn signed_numbers_too_great()
    ensures of_8_bits { ¬ (Typed no_declarations (ty.number int8) (number (pos 128))) }
    ensures of_16_bits { ¬ (Typed no_declarations (ty.number int16) (number (pos 32768))) }
    ensures of_32_bits { ¬ (Typed no_declarations (ty.number int32) (number (pos 2147483648))) }
    ensures of_64_bits { ¬ (Typed no_declarations (ty.number int64)
        (number (pos 9223372036854775808))) }
{}

/// Numbers below the least signed number of their width.
pub fn signed_numbers_too_small()
    ensures of_8_bits { ¬ (Typed no_declarations (ty.number int8) (number (negsuc 128))) }
    ensures of_16_bits { ¬ (Typed no_declarations (ty.number int16) (number (negsuc 32768))) }
    ensures of_32_bits { ¬ (Typed no_declarations (ty.number int32) (number (negsuc 2147483648))) }
    ensures of_64_bits { ¬ (Typed no_declarations (ty.number int64)
        (number (negsuc 9223372036854775808))) }
{}

/// `strict bits : uint8 {A = 1; C = 4;}` with a bit that is no member, alone and beside members;
/// and numbers that are not of the bits' width.
pub fn bits_that_are_no_members()
    ensures alone { ¬ (IsEncoding no_declarations (ty.bits uint8 (Some 5)) (2 ∷ zeros 7) []) }
    ensures beside_members { ¬ (IsEncoding no_declarations (ty.bits uint8 (Some 5)) (7 ∷ zeros 7)
        []) }
    ensures negative { ¬ (Typed no_declarations (ty.bits uint8 (Some 5)) (number (negsuc 0))) }
    ensures too_great { ¬ (Typed no_declarations (ty.bits uint8 None) (number (pos 256))) }
{}

/// `strict enum : uint8 {A = 1; B = 2;}` with another number, and a flexible enum with a number
/// that is not of its width.
pub fn enum_numbers_that_are_no_members()
    ensures strict { ¬ (IsEncoding no_declarations (ty.enum uint8 (Some (pos 1 ∷ pos 2 ∷ [])))
        (3 ∷ zeros 7) []) }
    ensures too_great { ¬ (Typed no_declarations (ty.enum uint8 None) (number (pos 256))) }
{}

/// Absence, of what is never optional.
pub fn scalars_that_are_absent()
    ensures bools { ¬ (Typed no_declarations ty.bool absent) }
    ensures numbers { ¬ (Typed no_declarations (ty.number uint8) absent) }
    ensures bits { ¬ (Typed no_declarations (ty.bits uint8 None) absent) }
    ensures enums { ¬ (Typed no_declarations (ty.enum uint8 None) absent) }
{}

/// A number whose padding is not zero.
pub fn a_number_with_another_byte()
    ensures { ¬ (IsEncoding no_declarations (ty.number uint8) (1 ∷ 1 ∷ zeros 6) []) }
{}
