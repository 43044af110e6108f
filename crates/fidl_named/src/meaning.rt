//! What names can mean.

ghost use Rattle.std.specs.Prelude.{◌≡◌, ◌↔◌, IsTrue, IsNone, IfSome};
ghost use Rattle.fidl_named.specs.declared.meaning.Predeclared.{Predeclared as Word};
ghost use Rattle.fidl_named.specs.Meanings.{predeclared_text, predeclared_kind};

use crate::place::DeclarationId;

/// What the place of a name wants: only readings of this kind count there (public source: the FIDL
/// language specification, "Scoping").
#[derive(Clone, Copy, PartialEq, Eq, Debug, Drop)]
pub enum Wanted {
    Type,
    Protocol,
    /// A constant, or a member of bits or of an enum.
    Value,
}

/// The names of the language itself (public source: the FIDL language specification, "Built-in
/// types").
#[derive(Clone, Copy, PartialEq, Eq, Debug, Drop)]
pub enum Predeclared {
    Bool,
    Int8,
    Int16,
    Int32,
    Int64,
    Uint8,
    Uint16,
    Uint32,
    Uint64,
    Float32,
    Float64,
    String,
    Vector,
    Array,
    Box,
    ClientEnd,
    ServerEnd,
    Byte,
    Bytes,
    Max,
}

/// What a name means.
#[derive(Clone, Copy, PartialEq, Eq, Debug, Drop)]
pub enum Meaning {
    Predeclared(Predeclared),
    Declared(DeclarationId),
    /// A member of declared bits or of a declared enum, by its number in the layout, from 0.
    Member {
        of: DeclarationId,
        number: usize,
    },
    /// A member of the bits or the enum that a property of a resource definition has for its type.
    PropertyMember {
        of: DeclarationId,
        property: usize,
        number: usize,
    },
}

/// All names of the language itself.
const PREDECLARED: [Predeclared; 20] = [
    Predeclared::Bool,
    Predeclared::Int8,
    Predeclared::Int16,
    Predeclared::Int32,
    Predeclared::Int64,
    Predeclared::Uint8,
    Predeclared::Uint16,
    Predeclared::Uint32,
    Predeclared::Uint64,
    Predeclared::Float32,
    Predeclared::Float64,
    Predeclared::String,
    Predeclared::Vector,
    Predeclared::Array,
    Predeclared::Box,
    Predeclared::ClientEnd,
    Predeclared::ServerEnd,
    Predeclared::Byte,
    Predeclared::Bytes,
    Predeclared::Max,
];

/// How a name of the language itself is written.
fn predeclared_text(name: Predeclared) -> &'static str
    ensures { result.now ≡ predeclared_text name }
{
    match name {
        Predeclared::Bool => "bool",
        Predeclared::Int8 => "int8",
        Predeclared::Int16 => "int16",
        Predeclared::Int32 => "int32",
        Predeclared::Int64 => "int64",
        Predeclared::Uint8 => "uint8",
        Predeclared::Uint16 => "uint16",
        Predeclared::Uint32 => "uint32",
        Predeclared::Uint64 => "uint64",
        Predeclared::Float32 => "float32",
        Predeclared::Float64 => "float64",
        Predeclared::String => "string",
        Predeclared::Vector => "vector",
        Predeclared::Array => "array",
        Predeclared::Box => "box",
        Predeclared::ClientEnd => "client_end",
        Predeclared::ServerEnd => "server_end",
        Predeclared::Byte => "byte",
        Predeclared::Bytes => "bytes",
        Predeclared::Max => "MAX",
    }
}

/// Whether a name of the language itself is of this kind.
pub(crate) fn is_predeclared_kind(name: Predeclared, wanted: Wanted) -> bool
    ensures { IsTrue result ↔ (predeclared_kind name ≡ wanted) }
{
    match name {
        Predeclared::Max => matches!(wanted, Wanted::Value),
        _ => matches!(wanted, Wanted::Type),
    }
}

/// The name of the language itself that is written like this.
pub(crate) fn find_predeclared(text: &[u8]) -> Option<Predeclared>
    ensures found { IfSome result (λ p. predeclared_text p ≡ text.now) }
    ensures none { IsNone result → (p : Word) → predeclared_text p ≡ text.now → ⊥ }
{
    for name in PREDECLARED {
        if predeclared_text(name).as_bytes() == text {
            return Some(name);
        }
    }
    None
}
