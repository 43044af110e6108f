//! Types that are the same, and the numbers that a list gives to types.
ghost use Rattle.std.specs.Prelude.{◌≡◌, ◌≢◌, ℕ, map, slice_get, IsTrue, IfSome, IfNone};
ghost use Rattle.std.specs.Option.{option_map};
ghost use Rattle.fidl_wire.specs.Term as ty;
ghost use Rattle.fidl_equivalence.specs.Alike.{IsNumbered};
ghost use Rattle.fidl_ir.specs.Terms.{number_kind_view, term_view};
ghost use Rattle.fidl_reachable_types.specs.Growing.{reference_view};

use crate::shape::{kind_of, same_kind};
use fidl_ir::{NumberKind, Type};
use fidl_reachable_types::TypeRef;

/// Whether a type is this one of numbers.
fn is_number(of: &Type, kind: NumberKind) -> bool
    ensures { IsTrue result → term_view of.now ≡ ty.number (number_kind_view kind) }
{
    match of {
        Type::Number(other) => same_kind(kind_of(*other), kind_of(kind)),
        _ => false,
    }
}

/// Whether a type is this one of handles.
fn is_handle(of: &Type, optional: bool, subtype: u32, rights: u32) -> bool
    ensures { IsTrue result → term_view of.now ≡ ty.handle optional subtype rights }
{
    match of {
        Type::Handle {
            optional: other,
            subtype: other_subtype,
            rights: other_rights,
        } => *other == optional && *other_subtype == subtype && *other_rights == rights,
        _ => false,
    }
}

/// Whether a type is this one of strings.
fn is_text(of: &Type, optional: bool, bound: u32) -> bool
    ensures { IsTrue result → term_view of.now ≡ ty.string optional bound }
{
    match of {
        Type::Text {
            optional: other,
            bound: other_bound,
        } => *other == optional && *other_bound == bound,
        _ => false,
    }
}

/// The element of a type of vectors that may or may not be absent, and have this bound.
fn vector_element(of: &Type, optional: bool, bound: u32) -> Option<&Type>
    ensures { IfSome result
        (λ t. term_view of.now ≡ ty.vector optional bound (term_view t.now)) }
{
    match of {
        Type::Vector {
            optional: other,
            bound: other_bound,
            element,
        } if *other == optional && *other_bound == bound => Some(element),
        _ => None,
    }
}

/// The element of a type of arrays of this many.
fn array_element(of: &Type, count: u32) -> Option<&Type>
    ensures { IfSome result (λ t. term_view of.now ≡ ty.array (term_view t.now) count) }
{
    match of {
        Type::Array {
            element,
            count: other,
        } if *other == count => Some(element),
        _ => None,
    }
}

/// Whether two types are the same.
fn is_same(a: &Type, b: &Type) -> bool
    ensures { IsTrue result → term_view a.now ≡ term_view b.now }
{
    match a {
        Type::Bool => matches!(b, Type::Bool),
        Type::Number(kind) => is_number(b, *kind),
        Type::Handle {
            optional,
            subtype,
            rights,
        } => is_handle(b, *optional, *subtype, *rights),
        Type::Text { optional, bound } => is_text(b, *optional, *bound),
        Type::Vector {
            optional,
            bound,
            element,
        } => match vector_element(b, *optional, *bound) {
            Some(other) => is_same(element, other),
            None => false,
        },
        Type::Array { element, count } => match array_element(b, *count) {
            Some(other) => is_same(element, other),
            None => false,
        },
        Type::Box(number) => matches!(b, Type::Box(other) if *other == *number),
        Type::Named(number) => matches!(b, Type::Named(other) if *other == *number),
    }
}

/// The type at a place of a list; None past its end.
pub(crate) fn type_at<'d>(types: &[TypeRef<'d>], place: usize) -> Option<TypeRef<'d>>
    ensures { option_map reference_view result ≡ slice_get (map reference_view types.now) place }
{
    types.get(place).copied()
}

/// The number of the definition that a type is, where it is one.
pub(crate) fn layout_number(of: TypeRef<'_>) -> Option<u32>
    ensures some { IfSome result (λ number. reference_view of.entry ≡ ty.named number) }
    ensures none { IfNone result ((i : ℕ) → reference_view of.entry ≢ ty.named i) }
{
    match of {
        TypeRef::Layout(number) => Some(number),
        TypeRef::Of(of) => match of {
            Type::Named(number) => Some(*number),
            _ => None,
        },
    }
}

/// Whether this number in a list is that of a definition.
pub(crate) fn is_layout(types: &[TypeRef<'_>], number: u32, layout: u32) -> bool
    ensures { IsTrue result
        → IsNumbered (map reference_view types.now) (ty.named layout) (ty.named number) }
{
    match type_at(types, number as usize) {
        Some(of) => match layout_number(of) {
            Some(other) => other == layout,
            None => false,
        },
        None => false,
    }
}

/// Whether this number in a list is that of a type.
pub(crate) fn is_part(types: &[TypeRef<'_>], number: u32, part: &Type) -> bool
    ensures { IsTrue result
        → IsNumbered (map reference_view types.now) (term_view part.now) (ty.named number) }
{
    match part {
        Type::Named(layout) => is_layout(types, number, *layout),
        _ => match type_at(types, number as usize) {
            Some(of) => match of {
                TypeRef::Of(of) => is_same(part, of),
                TypeRef::Layout(_) => false,
            },
            None => false,
        },
    }
}
