//! Where types stand.
ghost use Rattle.std.specs.Prelude.{◌≡◌};
ghost use Rattle.fidl_consts.specs.Refusals.{type_span};
ghost use Rattle.fidl_constraints.specs.BehindViews.{use_view};

use crate::type_use::TypeUse;
use fidl_consts::names::path_place;
use fidl_consts::places::layout_span;
use fidl_span::Span;

/// Where a type stands: its name, or its layout's keyword.
pub fn type_span(of: TypeUse<'_>) -> Span
    ensures { result ≡ type_span (use_view of.entry) }
{
    match of {
        TypeUse::Named(named) => path_place(&named.path),
        TypeUse::Written { layout, .. } => layout_span(&layout.body),
    }
}
