//! What a part is read as, where its kind is known.
ghost use Rattle.std.specs.Prelude.{◌≡◌, Some};
ghost use Rattle.fidl_wire.specs.Value.{Value};
ghost use Rattle.fidl_view.specs.Views.{IsShownBy, type_shown};
ghost use Rattle.fidl_members.specs.Scalars.{scalar_of};

use crate::scalar::Scalar;
use fidl_view::View;

/// The bool or number that a view shows.
#[inline(always)]
pub(crate) fn scalar_in<S: Scalar>(view: View<'_, '_>) -> S
    requires { scalar_of (type_shown view) ≡ Some S.kind }
    ensures { (v : Value) → IsShownBy view.entry v → v ≡ S.value result }
{
    S::at(view.decoded().links().raw(), view.place())
}
