//! The names of definitions.
ghost use Rattle.std.specs.Prelude.{◌≡◌, map, IfOk};
ghost use Rattle.fidl_declarations.specs.FormViews.{forms_view};
ghost use Rattle.fidl_table.specs.Listed.{names_of};

use fidl_declarations::Form;
use std::alloc::{AllocError, Global};

/// The full names of the definitions of forms, in their order.
pub(crate) fn definition_names(
    alloc: Global,
    forms: &[Form<'_, '_>],
) -> Result<Vec<Vec<u8>>, AllocError>
    ensures { IfOk result (λ names. map (λ v. v.items) names.items
        ≡ names_of (forms_view forms.now)) }
{
    let mut names = Vec::new(alloc);
    for form in forms {
        let name = form.name(alloc)?;
        names.push(name)?;
    }
    Ok(names)
}
