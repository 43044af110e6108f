//! Types where they are used.
ghost use Rattle.std.specs.Prelude.{◌≡◌, IfSome, IsNone};
ghost use Rattle.fidl_tree.specs.Syntax.{TypeUse as Plain};
ghost use Rattle.fidl_constraints.specs.BehindViews.{use_view};
ghost use Rattle.fidl_declarations.specs.Sites.{Role as PlainRole, type_site};
ghost use Rattle.fidl_declarations.specs.SiteViews.{role_view, site_view};

use fidl_constraints::TypeUse;
use fidl_declarations::{Role, Site};

/// A written type: the number of its file, what its place asks of it, and the type.
#[derive(Clone, Copy, Drop)]
pub(crate) struct Used<'f> {
    pub file_index: usize,
    pub role: Role<'f>,
    pub of: TypeUse<'f>,
}

/// The type that stands at a site of the file of this number, if one does.
pub(crate) fn used_at<'f>(file_index: usize, site: &Site<'f>) -> Option<Used<'f>>
    ensures found { IfSome result (λ u. (u.file_index ≡ file_index)
        × (site_view site.now ≡ type_site (role_view u.role) (use_view u.of))) }
    ensures none { IsNone result → (role : PlainRole) (t : Plain)
        → site_view site.now ≡ type_site role t → ⊥ }
{
    match site {
        Site::Named { role, named } => Some(Used {
            file_index,
            role: *role,
            of: TypeUse::Named(*named),
        }),
        Site::Written {
            role,
            layout,
            constraints,
        } => Some(Used {
            file_index,
            role: *role,
            of: TypeUse::Written {
                layout: *layout,
                constraints: *constraints,
            },
        }),
        Site::Layout { .. } => None,
        Site::Result { .. } => None,
        Site::EmptyResponse { .. } => None,
        Site::Attributes { .. } => None,
    }
}
