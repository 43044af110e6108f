//! The definitions of forms.
ghost use Rattle.std.specs.Prelude.{◌≡◌, ◌<◌, List, Some, length, map, slice_get, IfOk, IfSome};
ghost use Rattle.std.specs.Prelude.{IsNone};
ghost use Rattle.fidl_tree.specs.Syntax.{members_of};
ghost use Rattle.fidl_tree.specs.Views.{body_view, member_view, ordinal_member_view};
ghost use Rattle.fidl_declarations.specs.FormViews.{form_kind_view, form_view};
ghost use Rattle.fidl_wire.specs.Term.{Term};
ghost use Rattle.fidl_ir.specs.Terms.{definition_view, definitions_view};
ghost use Rattle.fidl_lower_types.specs.TermViews.{AreKnown};
ghost use Rattle.fidl_lower_layouts.specs.Definitions.{IsStructOf, IsTableOf, IsUnionOf, LayoutIs};
ghost use Rattle.fidl_lower_layouts.specs.Definitions.{KindIs, DefinitionIs, DefinitionsAre};

use crate::members::{fields, rows};
use crate::results::result_definition;
use crate::scope::Scope;
use crate::values::values_definition;
use fidl_declarations::{Form, FormKind};
use fidl_ir::Definition;
use fidl_lower_types::Sources;
use fidl_member_rules::is_strict_union;
use fidl_tree::{LayoutBody, Member, OrdinalMember};
use std::alloc::AllocError;

/// A struct of these members.
fn struct_of<'f>(
    scope: Scope<'_, 'f, '_>,
    members: &'f [Member],
) -> Result<Option<Definition>, AllocError>
    requires within { scope.file_index < length scope.sources.now.named.now }
    requires known { AreKnown scope.sources.now }
    ensures found { IfOk result (λ found. IfSome found (λ d. IsStructOf
        scope.entry.sources.now.named.now scope.entry.file_index scope.entry.file.now
        (members_of (map member_view members.now)) (definition_view d))) }
    ensures none { IfOk result (λ found. IsNone found → (t : Term) → IsStructOf
        scope.entry.sources.now.named.now scope.entry.file_index scope.entry.file.now
        (members_of (map member_view members.now)) t → ⊥) }
{
    match fields(scope, members)? {
        None => Ok(None),
        Some(fields) => Ok(Some(Definition::Struct(fields))),
    }
}

/// A table of these members.
fn table_of<'f>(
    scope: Scope<'_, 'f, '_>,
    members: &'f [OrdinalMember],
) -> Result<Option<Definition>, AllocError>
    requires within { scope.file_index < length scope.sources.now.named.now }
    requires known { AreKnown scope.sources.now }
    ensures found { IfOk result (λ found. IfSome found (λ d. IsTableOf
        scope.entry.sources.now.named.now scope.entry.file_index scope.entry.file.now
        (members_of (map ordinal_member_view members.now)) (definition_view d))) }
    ensures none { IfOk result (λ found. IsNone found → (t : Term) → IsTableOf
        scope.entry.sources.now.named.now scope.entry.file_index scope.entry.file.now
        (members_of (map ordinal_member_view members.now)) t → ⊥) }
{
    match rows(scope, members)? {
        None => Ok(None),
        Some(rows) => Ok(Some(Definition::Table(rows))),
    }
}

/// A union of these members, as it is or where it may be absent.
fn union_of<'f>(
    scope: Scope<'_, 'f, '_>,
    optional: bool,
    strict: bool,
    members: &'f [OrdinalMember],
) -> Result<Option<Definition>, AllocError>
    requires within { scope.file_index < length scope.sources.now.named.now }
    requires known { AreKnown scope.sources.now }
    ensures found { IfOk result (λ found. IfSome found (λ d. IsUnionOf
        scope.entry.sources.now.named.now scope.entry.file_index scope.entry.file.now
        optional strict (members_of (map ordinal_member_view members.now))
        (definition_view d))) }
    ensures none { IfOk result (λ found. IsNone found → (t : Term) → IsUnionOf
        scope.entry.sources.now.named.now scope.entry.file_index scope.entry.file.now
        optional strict (members_of (map ordinal_member_view members.now)) t → ⊥) }
{
    match rows(scope, members)? {
        None => Ok(None),
        Some(rows) => Ok(Some(Definition::Union {
            optional,
            strict,
            rows,
        })),
    }
}

/// The definition of a layout.
fn layout_definition<'f>(
    scope: Scope<'_, 'f, '_>,
    optional: bool,
    body: &'f LayoutBody,
) -> Result<Option<Definition>, AllocError>
    requires at { slice_get scope.sources.now.named.now scope.file_index ≡ Some scope.file.now }
    requires known { AreKnown scope.sources.now }
    ensures found { IfOk result (λ found. IfSome found (λ d. LayoutIs
        scope.entry.sources.now.named.now scope.entry.file_index scope.entry.file.now optional
        (body_view body.now) (definition_view d))) }
    ensures none { IfOk result (λ found. IsNone found → (t : Term) → LayoutIs
        scope.entry.sources.now.named.now scope.entry.file_index scope.entry.file.now optional
        (body_view body.now) t → ⊥) }
{
    match body {
        LayoutBody::Values(layout) => values_definition(scope, layout),
        LayoutBody::Struct(layout) => struct_of(scope, &layout.members),
        LayoutBody::Table(layout) => table_of(scope, &layout.members),
        LayoutBody::Union(layout) => {
            let strict = is_strict_union(&layout.modifiers);
            union_of(scope, optional, strict, &layout.members)
        }
    }
}

/// The definition of what stands in this file.
fn kind_definition<'f, 's>(
    scope: Scope<'_, 'f, 's>,
    form: &Form<'f, 's>,
) -> Result<Option<Definition>, AllocError>
    requires at { slice_get scope.sources.now.named.now scope.file_index ≡ Some scope.file.now }
    requires known { AreKnown scope.sources.now }
    ensures found { IfOk result (λ found. IfSome found (λ d. KindIs
        scope.entry.sources.now.named.now scope.entry.file_index scope.entry.file.now
        form.now.path.items (form_kind_view form.now.kind) (definition_view d))) }
    ensures none { IfOk result (λ found. IsNone found → (t : Term) → KindIs
        scope.entry.sources.now.named.now scope.entry.file_index scope.entry.file.now
        form.now.path.items (form_kind_view form.now.kind) t → ⊥) }
{
    match form.kind {
        FormKind::Layout { body, optional } => layout_definition(scope, optional, body),
        FormKind::Result { strict, response } => {
            result_definition(scope, &form.path, strict, response)
        }
        FormKind::EmptyResponse => Ok(Some(Definition::Struct(Vec::new(scope.sources.alloc)))),
    }
}

/// The definition of a form (public source: the FIDL language specification, "Layouts" and
/// "Protocols"). Nothing where there is none: its file is not of the set, a member's type has no
/// term, an ordinal or a number of a member doesn't fit, or bits or an enum have no numbers.
///
/// `AllocError`: memory ran out.
pub fn definition_of<'f, 's>(
    sources: &Sources<'_, 'f, 's>,
    form: &Form<'f, 's>,
) -> Result<Option<Definition>, AllocError>
    requires { AreKnown sources.now }
    ensures found { IfOk result (λ found. IfSome found (λ d. DefinitionIs sources.now.named.now
        (form_view form.now) (definition_view d))) }
    ensures none { IfOk result (λ found. IsNone found → (t : Term) → DefinitionIs
        sources.now.named.now (form_view form.now) t → ⊥) }
{
    if form.file_index >= sources.named.count() {
        return Ok(None);
    }
    let scope = Scope {
        sources,
        file_index: form.file_index,
        file: sources.named.file(form.file_index),
    };
    kind_definition(scope, form)
}

/// The definitions of all forms, in their order: each has the number of its form.
///
/// `AllocError`: memory ran out.
pub fn definitions(sources: &Sources<'_, '_, '_>) -> Result<Option<Vec<Definition>>, AllocError>
    requires { AreKnown sources.now }
    ensures found { IfOk result (λ found. IfSome found (λ ds. DefinitionsAre sources.now.named.now
        (definitions_view ds.items))) }
    ensures none { IfOk result (λ found. IsNone found → (ts : List Term) → DefinitionsAre
        sources.now.named.now ts → ⊥) }
{
    let mut found = Vec::new(sources.alloc);
    for form in sources.forms {
        let Some(next) = definition_of(sources, form)? else {
            return Ok(None);
        };
        found.push(next)?;
    }
    Ok(Some(found))
}
