//! Which types may be payloads.
ghost use Rattle.std.specs.Prelude.{◌≡◌, ◌<◌, ◌↔◌, ℕ, length, IfOk, IfSome, IsNone, IsTrue};
ghost use Rattle.fidl_tree.specs.Views.{body_view};
ghost use Rattle.fidl_declarations.specs.FormViews.{form_kind_view, forms_view};
ghost use Rattle.fidl_constraints.specs.BehindViews.{use_view};
ghost use Rattle.fidl_wire.specs.Term as Terms;
ghost use Rattle.fidl_ir.specs.Terms.{term_view};
ghost use Rattle.fidl_lower_types.specs.TermViews.{AreKnown};
ghost use Rattle.fidl_payloads.specs.Kinds.{IsPayloadLayout, IsPayloadForm, IsPayloadAt, IsPayload};

use fidl_constraints::TypeUse;
use fidl_declarations::{Form, FormKind};
use fidl_ir::Type;
use fidl_lower_types::{Sources, term_of};
use fidl_tree::LayoutBody;
use std::alloc::AllocError;

/// Whether a layout is a struct, a table or a union.
fn is_payload_layout(body: &LayoutBody) -> bool
    ensures { IsTrue result ↔ IsPayloadLayout (body_view body.now) }
{
    match body {
        LayoutBody::Values(_) => false,
        LayoutBody::Struct(_) => true,
        LayoutBody::Table(_) => true,
        LayoutBody::Union(_) => true,
    }
}

/// Whether a form is such a layout, and never absent.
fn is_payload_form(kind: FormKind<'_>) -> bool
    ensures { IsTrue result ↔ IsPayloadForm (form_kind_view kind.entry) }
{
    match kind {
        FormKind::Layout { body, optional } => !optional && is_payload_layout(body),
        FormKind::Result { .. } => false,
        FormKind::EmptyResponse => false,
    }
}

/// Whether the form of this number is one.
fn is_payload_at(forms: &[Form<'_, '_>], number: u32) -> bool
    ensures { IsTrue result ↔ IsPayloadAt (forms_view forms.now) number }
{
    match forms.get(number as usize) {
        None => false,
        Some(form) => is_payload_form(form.kind),
    }
}

/// The number of the definition that a term names.
fn named_number(of: &Type) -> Option<u32>
    ensures found { IfSome result (λ i. term_view of.now ≡ Terms.named i) }
    ensures none { IsNone result → (i : ℕ) → term_view of.now ≡ Terms.named i → ⊥ }
{
    if let Type::Named(number) = of {
        return Some(*number);
    }
    None
}

/// The number of the definition that a type in the file of this number is, aliases followed, where
/// that may be a payload.
pub(crate) fn payload_number(
    sources: &Sources<'_, '_, '_>,
    file_index: usize,
    of: TypeUse<'_>,
) -> Result<Option<u32>, AllocError>
    requires within { file_index < length sources.now.named.now }
    requires known { AreKnown sources.now }
    ensures found { IfOk result (λ found. IfSome found
        (IsPayload sources.now.named.now file_index (use_view of.entry))) }
    ensures none { IfOk result (λ found. IsNone found → (i : ℕ)
        → IsPayload sources.now.named.now file_index (use_view of.entry) i → ⊥) }
{
    let Some(term) = term_of(sources, file_index, of)? else {
        return Ok(None);
    };
    let Some(number) = named_number(&term) else {
        return Ok(None);
    };
    if !is_payload_at(sources.forms, number) {
        return Ok(None);
    }
    Ok(Some(number))
}
