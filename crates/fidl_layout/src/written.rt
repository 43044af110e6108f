//! The members that are written in bits and enums.
ghost use Rattle.std.specs.Prelude.{◌≡◌, IfErr, OnOk};
ghost use Rattle.fidl_tree.specs.Views.{body_view};
ghost use Rattle.fidl_declarations.specs.FormViews.{form_kind_view};
ghost use Rattle.fidl_lower_types.specs.Numbers.{all_forms};
ghost use Rattle.fidl_layout.specs.Faults.{IsTrueOfLayout};
ghost use Rattle.fidl_layout.specs.Written.{layout_values, written_values, ValuesFit};

use crate::fault::LayoutFault;
use fidl_declarations::FormKind;
use fidl_limits::MAX_LAYOUT_MEMBERS;
use fidl_tree::LayoutBody;
use fidl_types::{Types, place_of};

/// How many members of bits or an enum are written.
fn layout_values(body: &LayoutBody) -> usize
    ensures { result ≡ layout_values (body_view body.now) }
{
    match body {
        LayoutBody::Values(layout) => layout.members.len(),
        LayoutBody::Struct(_) | LayoutBody::Table(_) | LayoutBody::Union(_) => 0,
    }
}

/// The same of a form.
fn written_values(kind: FormKind<'_>) -> usize
    ensures { result ≡ written_values (form_kind_view kind.entry) }
{
    match kind {
        FormKind::Layout { body, .. } => layout_values(body),
        FormKind::Result { .. } | FormKind::EmptyResponse => 0,
    }
}

/// No bits or enum has more members than a layout may have.
pub(crate) fn check_values(types: &Types<'_, '_>) -> Result<(), LayoutFault>
    ensures ok { OnOk result (ValuesFit (all_forms types.now)) }
    ensures fault_is_true { IfErr result (IsTrueOfLayout types.now) }
{
    let forms = types.forms();
    for number in 0..forms.len() {
        if written_values(forms[number].kind) > MAX_LAYOUT_MEMBERS as usize {
            return Err(LayoutFault::TooManyMembers {
                place: place_of(forms, number),
            });
        }
    }
    Ok(())
}
