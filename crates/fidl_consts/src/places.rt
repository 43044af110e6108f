//! Where types and their layouts stand.
ghost use Rattle.std.specs.Prelude.{◌≡◌};
ghost use Rattle.fidl_tree.specs.Views.{keyword_span, body_view, type_view};
ghost use Rattle.fidl_consts.specs.Refusals.{layout_span, type_span};

use crate::names::path_place;
use fidl_span::Span;
use fidl_tree::{LayoutBody, TypeConstructor, ValuesKeyword};

/// The place of the keyword of bits or an enum.
fn keyword_span(keyword: &ValuesKeyword) -> Span
    ensures { result ≡ keyword_span keyword.now }
{
    match keyword {
        ValuesKeyword::Bits(span) | ValuesKeyword::Enum(span) => *span,
    }
}

/// The place of a layout's keyword.
pub fn layout_span(body: &LayoutBody) -> Span
    ensures { result ≡ layout_span (body_view body.now) }
{
    match body {
        LayoutBody::Values(layout) => keyword_span(&layout.keyword),
        LayoutBody::Struct(layout) => layout.keyword,
        LayoutBody::Table(layout) => layout.keyword,
        LayoutBody::Union(layout) => layout.keyword,
    }
}

/// The place of a type: its name, or its layout's keyword.
pub fn type_span(constructor: &TypeConstructor) -> Span
    ensures { result ≡ type_span (type_view constructor.now) }
{
    match constructor {
        TypeConstructor::Named(named) => path_place(&named.path),
        TypeConstructor::Layout { layout, .. } => layout_span(&layout.body),
    }
}
