//! Where a form is reported.
ghost use Rattle.std.specs.Prelude.{◌≡◌, ◌<◌, length};
ghost use Rattle.fidl_declarations.specs.FormViews.{form_view, forms_view};
ghost use Rattle.fidl_types.specs.Places.{last_name, name_place, form_place, IsPlaceOf};

use fidl_declarations::{Form, Step};
use fidl_named::Place;
use fidl_span::Span;

/// The last name in a path.
fn last_name(path: &[Step]) -> Option<Span>
    ensures { result ≡ last_name path.now }
{
    let mut found = None;
    for step in path {
        if let Step::Name(name) = step {
            found = Some(*name);
        }
    }
    found
}

/// Where it stands.
fn name_place(path: &[Step]) -> Span
    ensures { result ≡ name_place path.now }
{
    last_name(path).unwrap_or(Span { from: 0, to: 0 })
}

/// The place of a form: its file, and the last name in its path.
fn form_place(form: &Form<'_, '_>) -> Place
    ensures { result ≡ form_place (form_view form.now) }
{
    Place {
        file: form.file_index,
        span: name_place(&form.path),
    }
}

/// The place of the form of this number.
pub fn place_of(forms: &[Form<'_, '_>], number: usize) -> Place
    requires { number < length forms.now }
    ensures { IsPlaceOf (forms_view forms.now) number result }
{
    form_place(&forms[number])
}
