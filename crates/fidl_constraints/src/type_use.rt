//! Types where they are used.
ghost use Rattle.std.specs.Prelude.{◌≡◌, option_copied};
ghost use Rattle.fidl_tree.specs.Views.{type_view, constraints_view};
ghost use Rattle.fidl_constraints.specs.Behind.{constraints_in};
ghost use Rattle.fidl_constraints.specs.BehindViews.{use_view};

use fidl_tree::{Constraints, Layout, NamedType, TypeConstructor};

/// A type where it is used: by its name, or as a layout.
#[derive(Clone, Copy, Drop)]
pub enum TypeUse<'f> {
    Named(&'f NamedType),
    Written {
        layout: &'f Layout,
        constraints: Option<&'f Constraints>,
    },
}

/// A type of the tree as a use.
pub fn use_of(constructor: &TypeConstructor) -> TypeUse<'_>
    ensures { use_view result ≡ type_view constructor.now }
{
    match constructor {
        TypeConstructor::Named(named) => TypeUse::Named(named),
        TypeConstructor::Layout {
            layout,
            constraints,
        } => TypeUse::Written {
            layout,
            constraints: constraints.as_ref(),
        },
    }
}

/// Its own constraints.
pub(crate) fn own_constraints<'f>(of: TypeUse<'f>) -> Option<&'f Constraints>
    ensures { constraints_view (option_copied result) ≡ constraints_in (use_view of.entry) }
{
    match of {
        TypeUse::Named(named) => named.constraints.as_ref(),
        TypeUse::Written { constraints, .. } => constraints,
    }
}
