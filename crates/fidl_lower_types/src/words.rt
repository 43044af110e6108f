//! The terms of predeclared types.
ghost use Rattle.std.specs.Prelude.{◌≡◌, option_map, IfOk};
ghost use Rattle.fidl_wire.specs.Term as ty;
ghost use Rattle.fidl_constraints.specs.Parts.{optional_in, bound_in};
ghost use Rattle.fidl_ir.specs.Terms.{number_kind_view, term_view};
ghost use Rattle.fidl_lower_types.specs.Terms.{end_term, word_kind, other_term, word_term};

use fidl_constraints::Parts;
use fidl_ir::{NumberKind, Type};
use fidl_named::Predeclared;
use std::alloc::{AllocError, Global};

/// An end: a handle of a channel, with whatever rights came.
fn an_end(parts: &Parts) -> Type
    ensures { term_view result ≡ end_term parts.now.list.items }
{
    Type::Handle {
        optional: parts.is_optional(),
        subtype: 4,
        rights: 0x8000_0000,
    }
}

/// A vector of bytes.
fn some_bytes(alloc: Global, parts: &Parts) -> Result<Type, AllocError>
    ensures { IfOk result (λ t. term_view t ≡ ty.vector (optional_in parts.now.list.items)
        (bound_in parts.now.list.items) (ty.number ty.uint8)) }
{
    Ok(Type::Vector {
        optional: parts.is_optional(),
        bound: parts.bound(),
        element: Box::new(alloc, Type::Number(NumberKind::Uint8))?,
    })
}

/// The whole numbers that a predeclared type is.
fn number_kind(name: Predeclared) -> Option<NumberKind>
    ensures { option_map number_kind_view result ≡ word_kind name }
{
    match name {
        Predeclared::Int8 => Some(NumberKind::Int8),
        Predeclared::Int16 => Some(NumberKind::Int16),
        Predeclared::Int32 => Some(NumberKind::Int32),
        Predeclared::Int64 => Some(NumberKind::Int64),
        Predeclared::Uint8 | Predeclared::Byte => Some(NumberKind::Uint8),
        Predeclared::Uint16 => Some(NumberKind::Uint16),
        Predeclared::Uint32 => Some(NumberKind::Uint32),
        Predeclared::Uint64 => Some(NumberKind::Uint64),
        _ => None,
    }
}

/// The predeclared type of this name, which has no arguments, and is no number.
fn other_type(alloc: Global, name: Predeclared, parts: &Parts) -> Result<Option<Type>, AllocError>
    ensures { IfOk result (λ found. option_map term_view found
        ≡ other_term name parts.now.list.items) }
{
    match name {
        Predeclared::Bool => Ok(Some(Type::Bool)),
        Predeclared::String => Ok(Some(Type::Text {
            optional: parts.is_optional(),
            bound: parts.bound(),
        })),
        Predeclared::Bytes => Ok(Some(some_bytes(alloc, parts)?)),
        Predeclared::ClientEnd | Predeclared::ServerEnd => Ok(Some(an_end(parts))),
        _ => Ok(None),
    }
}

/// The predeclared type of this name, which has no arguments.
pub(crate) fn word_type(
    alloc: Global,
    name: Predeclared,
    parts: &Parts,
) -> Result<Option<Type>, AllocError>
    ensures { IfOk result (λ found. option_map term_view found
        ≡ word_term name parts.now.list.items) }
{
    match number_kind(name) {
        Some(kind) => Ok(Some(Type::Number(kind))),
        None => other_type(alloc, name, parts),
    }
}
