//! Why the types of files are refused.
ghost use Rattle.std.specs.Prelude.{◌≡◌};

use fidl_named::Place;
use std::alloc::AllocError;
use thiserror::Error;

/// Why the types of files are refused (public source: the FIDL language specification).
#[derive(Clone, Copy, Debug, PartialEq, Eq, Drop, Error)]
pub enum TypeFault {
    /// A struct, a table or a union that isn't marked `resource`, and has a member that is a handle
    /// or a resource, or holds one in a vector, an array or a box; reported at its name, or at that
    /// of the member, the method or the alias that it has its name from ("Resource types").
    #[error("only what is marked `resource` may hold a handle")]
    NotResource { place: Place },
    /// A struct that stands in itself, through members and arrays; reported as NotResource is
    /// ("Structs").
    #[error("this struct stands in itself")]
    InlineCycle { place: Place },
    /// An ordinal that is 0, or past the last of its layout; reported at the ordinal ("Tables",
    /// "Unions").
    #[error("this ordinal is out of range")]
    BadOrdinal { place: Place },
    /// An ordinal that a member before it has, reserved ones too; reported at the later one
    /// ("Tables", "Unions").
    #[error("this ordinal is taken")]
    DuplicateOrdinal { place: Place },
    /// A member of bits or an enum whose number a member before it has; reported at its name
    /// ("Bits", "Enums").
    #[error("this number is taken")]
    DuplicateValue { place: Place },
    /// A member of bits whose number is no power of two; reported at its name ("Bits").
    #[error("a member of bits is a power of two")]
    NotPowerOfTwo { place: Place },
    /// A strict enum or union without members; reported at its keyword ("Enums", "Unions").
    #[error("a strict enum or union has a member")]
    EmptyStrict { place: Place },
    /// A member of a table or a union, or a type after `error`, that may be absent; reported at the
    /// type ("Tables", "Unions", "Protocols").
    #[error("this type may be absent")]
    OptionalMember { place: Place },
    /// A type whose arguments or constraints are of a wrong number or kind, or which isn't what its
    /// place asks for, reported at the type; or a resource definition that isn't of `uint32` or has
    /// no subtype, or another property, reported at its type, its name, or the property's type
    /// ("Types", "Resource definitions").
    #[error("this type is not rightly written")]
    BadConstraint { place: Place },
    /// A box of a type other than a struct; reported at that type ("Box").
    #[error("a box is of a struct")]
    BadBox { place: Place },
    /// `float32`, `float64`, `@available`, or a protocol's `@transport` of another transport than
    /// channels: parts of the language that the profile leaves out; reported at the name.
    #[error("this is left out of the profile")]
    OutOfProfile { place: Place },
    /// Memory ran out, or the files have more than 2^32 forms.
    #[error("memory ran out")]
    Memory,
}

impl TypeFault {
    ghost use Rattle.fidl_types.specs.FaultNames.{number_of, name_of, place_of};

    /// The fault's number.
    pub fn number(&self) -> u32
        ensures { result ≡ number_of self.now }
    {
        match self {
            TypeFault::NotResource { .. } => 1,
            TypeFault::InlineCycle { .. } => 2,
            TypeFault::BadOrdinal { .. } => 3,
            TypeFault::DuplicateOrdinal { .. } => 4,
            TypeFault::DuplicateValue { .. } => 5,
            TypeFault::NotPowerOfTwo { .. } => 6,
            TypeFault::EmptyStrict { .. } => 7,
            TypeFault::OptionalMember { .. } => 8,
            TypeFault::BadConstraint { .. } => 9,
            TypeFault::BadBox { .. } => 10,
            TypeFault::OutOfProfile { .. } => 11,
            TypeFault::Memory => 12,
        }
    }

    /// The fault's name.
    pub fn name(&self) -> &'static str
        ensures { result.now ≡ name_of self.now }
    {
        match self {
            TypeFault::NotResource { .. } => "NotResource",
            TypeFault::InlineCycle { .. } => "InlineCycle",
            TypeFault::BadOrdinal { .. } => "BadOrdinal",
            TypeFault::DuplicateOrdinal { .. } => "DuplicateOrdinal",
            TypeFault::DuplicateValue { .. } => "DuplicateValue",
            TypeFault::NotPowerOfTwo { .. } => "NotPowerOfTwo",
            TypeFault::EmptyStrict { .. } => "EmptyStrict",
            TypeFault::OptionalMember { .. } => "OptionalMember",
            TypeFault::BadConstraint { .. } => "BadConstraint",
            TypeFault::BadBox { .. } => "BadBox",
            TypeFault::OutOfProfile { .. } => "OutOfProfile",
            TypeFault::Memory => "Memory",
        }
    }

    /// Where the sources are at fault: the number of a file and a span in bytes; nothing where
    /// memory ran out.
    pub fn place(&self) -> Option<Place>
        ensures { result ≡ place_of self.now }
    {
        match self {
            TypeFault::NotResource { place }
            | TypeFault::InlineCycle { place }
            | TypeFault::BadOrdinal { place }
            | TypeFault::DuplicateOrdinal { place }
            | TypeFault::DuplicateValue { place }
            | TypeFault::NotPowerOfTwo { place }
            | TypeFault::EmptyStrict { place }
            | TypeFault::OptionalMember { place }
            | TypeFault::BadConstraint { place }
            | TypeFault::BadBox { place }
            | TypeFault::OutOfProfile { place } => Some(*place),
            TypeFault::Memory => None,
        }
    }
}

impl From<AllocError> for TypeFault {
    ghost use Rattle.fidl_types.specs.declared.fault.TypeFault.TheVariants.{Memory};

    ghost from_gives = { λ _ fault. fault ≡ Memory };

    fn from(_error: AllocError) -> TypeFault {
        TypeFault::Memory
    }
}
