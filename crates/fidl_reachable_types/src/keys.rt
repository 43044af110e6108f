//! The words by which types are told apart.
ghost use Rattle.std.specs.Prelude.{◌≡◌, ◌++◌, IfOk, OnOk};
ghost use Rattle.fidl_ir.specs.Terms.{number_kind_view, term_view};
ghost use Rattle.fidl_reachable_types.specs.Keys.{flag, rank, words};
ghost use Rattle.fidl_reachable_types.specs.Growing.{reference_view};

use crate::list::TypeRef;
use fidl_ir::{NumberKind, Type};
use std::alloc::{AllocError, Global};

/// One for true.
fn flag(is: bool) -> u32
    ensures { result ≡ flag is }
{
    if is { 1 } else { 0 }
}

/// The number of a type of numbers.
fn rank(kind: NumberKind) -> u32
    ensures { result ≡ rank (number_kind_view kind) }
{
    match kind {
        NumberKind::Int8 => 0,
        NumberKind::Int16 => 1,
        NumberKind::Int32 => 2,
        NumberKind::Int64 => 3,
        NumberKind::Uint8 => 4,
        NumberKind::Uint16 => 5,
        NumberKind::Uint32 => 6,
        NumberKind::Uint64 => 7,
    }
}

/// Appends the words of a type.
fn push_words(found: &mut Vec<u32>, of: &Type) -> Result<(), AllocError>
    ensures { OnOk result (found.new.items ≡ found.old.items ++ words (term_view of.now)) }
{
    match of {
        Type::Bool => found.extend_from_slice(&[0]),
        Type::Number(kind) => found.extend_from_slice(&[1, rank(*kind)]),
        Type::Handle {
            optional,
            subtype,
            rights,
        } => found.extend_from_slice(&[2, flag(*optional), *subtype, *rights]),
        Type::Text { optional, bound } => found.extend_from_slice(&[3, flag(*optional), *bound]),
        Type::Vector {
            optional,
            bound,
            element,
        } => {
            found.extend_from_slice(&[4, flag(*optional), *bound])?;
            push_words(found, element)
        }
        Type::Array { element, count } => {
            found.extend_from_slice(&[5, *count])?;
            push_words(found, element)
        }
        Type::Box(number) => found.extend_from_slice(&[6, 7, *number]),
        Type::Named(number) => found.extend_from_slice(&[7, *number]),
    }
}

/// The words of a type.
pub(crate) fn words_of(alloc: Global, of: TypeRef<'_>) -> Result<Vec<u32>, AllocError>
    ensures { IfOk result (λ found. found.items ≡ words (reference_view of.entry)) }
{
    let mut found = Vec::new(alloc);
    match of {
        TypeRef::Of(of) => push_words(&mut found, of)?,
        TypeRef::Layout(number) => found.extend_from_slice(&[7, number])?,
    }
    Ok(found)
}
