//! The types of constants.
ghost use Rattle.std.specs.Prelude.{◌≡◌, ◌↔◌, Bool, IsTrue};
ghost use Rattle.fidl_consts.specs.PlainValues.{InRange, is_unsigned, Suits, predeclared_type};

use fidl_named::{DeclarationId, Predeclared};

/// A type of whole numbers (public source: the FIDL language specification, "Integers").
#[derive(Clone, Copy, PartialEq, Eq, Debug, Drop)]
pub enum NumberKind {
    Int8,
    Int16,
    Int32,
    Int64,
    Uint8,
    Uint16,
    Uint32,
    Uint64,
}

/// Bits or an enum that a name can lead to.
#[derive(Clone, Copy, PartialEq, Eq, Debug, Drop)]
pub enum BitsOrEnum {
    /// The layout that a declaration is written as, an alias too.
    Declared(DeclarationId),
    /// The layout that a property of a resource definition has for its type, by the definition's
    /// id and the property's number.
    Property { of: DeclarationId, property: usize },
}

/// A type that a constant can have (public source: the FIDL language specification, "Constants").
#[derive(Clone, Copy, PartialEq, Eq, Debug, Drop)]
pub enum ConstType {
    Bool,
    Number(NumberKind),
    String,
    Values(BitsOrEnum),
}

impl NumberKind {
    /// Whether a whole number is one of this type.
    pub fn holds(self, value: i128) -> bool
        ensures { IsTrue result ↔ InRange self value }
    {
        match self {
            NumberKind::Int8 => i8::try_from(value).is_ok(),
            NumberKind::Int16 => i16::try_from(value).is_ok(),
            NumberKind::Int32 => i32::try_from(value).is_ok(),
            NumberKind::Int64 => i64::try_from(value).is_ok(),
            NumberKind::Uint8 => u8::try_from(value).is_ok(),
            NumberKind::Uint16 => u16::try_from(value).is_ok(),
            NumberKind::Uint32 => u32::try_from(value).is_ok(),
            NumberKind::Uint64 => u64::try_from(value).is_ok(),
        }
    }

    /// Whether the type has no numbers below zero.
    pub fn is_unsigned(self) -> bool
        ensures { result ≡ is_unsigned self }
    {
        matches!(
            self,
            NumberKind::Uint8 | NumberKind::Uint16 | NumberKind::Uint32 | NumberKind::Uint64
        )
    }
}

/// Whether a named value of one type may be given where another is wanted.
pub fn suits(is_member: bool, own: ConstType, wanted: ConstType) -> bool
    ensures { IsTrue result ↔ Suits is_member own wanted }
{
    if own == wanted {
        return true;
    }
    match (own, wanted) {
        (ConstType::Number(_), ConstType::Number(_)) => true,
        (ConstType::Values(_), ConstType::Number(_)) => is_member,
        _ => false,
    }
}

/// The type of constants that a predeclared name is.
pub fn predeclared_type(name: Predeclared) -> Option<ConstType>
    ensures { result ≡ predeclared_type name }
{
    match name {
        Predeclared::Bool => Some(ConstType::Bool),
        Predeclared::Int8 => Some(ConstType::Number(NumberKind::Int8)),
        Predeclared::Int16 => Some(ConstType::Number(NumberKind::Int16)),
        Predeclared::Int32 => Some(ConstType::Number(NumberKind::Int32)),
        Predeclared::Int64 => Some(ConstType::Number(NumberKind::Int64)),
        Predeclared::Uint8 | Predeclared::Byte => Some(ConstType::Number(NumberKind::Uint8)),
        Predeclared::Uint16 => Some(ConstType::Number(NumberKind::Uint16)),
        Predeclared::Uint32 => Some(ConstType::Number(NumberKind::Uint32)),
        Predeclared::Uint64 => Some(ConstType::Number(NumberKind::Uint64)),
        Predeclared::String => Some(ConstType::String),
        _ => None,
    }
}
