//! What makes each form a resource.
ghost use Rattle.std.specs.Prelude.{◌≡◌, IfOk};
ghost use Rattle.fidl_tree.specs.Views.{body_view, is_resource_union};
ghost use Rattle.fidl_declarations.specs.FormViews.{form_kind_view, forms_view};
ghost use Rattle.fidl_types.specs.Marks.{word_mark, layout_mark, form_mark, marks_of};

use fidl_declarations::{Form, FormKind};
use fidl_ir_rules::Mark;
use fidl_tree::{LayoutBody, UnionModifiers};
use std::alloc::{AllocError, Global};

/// The mark of what is written with the modifier `resource`, or without.
fn word_mark(is_resource: bool) -> Mark
    ensures { result ≡ word_mark is_resource }
{
    if is_resource {
        return Mark::Resource;
    }
    Mark::Value
}

/// Whether a union is marked `resource`.
fn is_resource_union(modifiers: &UnionModifiers) -> bool
    ensures { result ≡ is_resource_union modifiers.now }
{
    match modifiers {
        UnionModifiers::StrictnessFirst { resource, .. } => resource.is_some(),
        UnionModifiers::ResourceFirst { .. } => true,
    }
}

/// The mark of a layout.
fn layout_mark(body: &LayoutBody) -> Mark
    ensures { result ≡ layout_mark (body_view body.now) }
{
    match body {
        LayoutBody::Values(_) => Mark::Value,
        LayoutBody::Struct(layout) => word_mark(layout.resource.is_some()),
        LayoutBody::Table(layout) => word_mark(layout.resource.is_some()),
        LayoutBody::Union(layout) => word_mark(is_resource_union(&layout.modifiers)),
    }
}

/// The mark of a form.
fn form_mark(kind: FormKind<'_>) -> Mark
    ensures { result ≡ form_mark (form_kind_view kind.entry) }
{
    match kind {
        FormKind::Layout { body, .. } => layout_mark(body),
        FormKind::Result { .. } => Mark::Result,
        FormKind::EmptyResponse => Mark::Value,
    }
}

/// The marks of forms, in their order.
pub(crate) fn marks_of(alloc: Global, forms: &[Form<'_, '_>]) -> Result<Vec<Mark>, AllocError>
    ensures { IfOk result (λ marks. marks.items ≡ marks_of (forms_view forms.now)) }
{
    let mut marks = Vec::new(alloc);
    for form in forms {
        marks.push(form_mark(form.kind))?;
    }
    Ok(marks)
}
