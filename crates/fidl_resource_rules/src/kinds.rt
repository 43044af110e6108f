//! Types of uint32: numbers, bits and enums.
ghost use Rattle.std.specs.Prelude.{◌≡◌, ◌<◌, ◌↔◌, ℕ, length, List, Some, IfOk, IfSome, IsNone};
ghost use Rattle.std.specs.Prelude.{IsTrue, option_map, option_copied};
ghost use Rattle.fidl_tree.specs.Syntax.{Layout, ValuesKind, bits_kind, enum_kind};
ghost use Rattle.fidl_tree.specs.Views.{values_view, kind_view};
ghost use Rattle.fidl_tree.specs.declared.file.File.{File as Tree};
ghost use Rattle.fidl_tree.specs.declared.type_constructor.ValuesLayout.{out-ValuesLayout};
ghost use Rattle.fidl_constraints.specs.Behind.{layout_head};
ghost use Rattle.fidl_constraints.specs.BehindViews.{head_view, use_view};
ghost use Rattle.fidl_wire.specs.Term as Terms;
ghost use Rattle.fidl_ir.specs.Terms.{term_view};
ghost use Rattle.fidl_lower_types.specs.TermViews.{AreKnown};
ghost use Rattle.fidl_resource_rules.specs.Kinds.{IsUint32, LayoutSuits, AreOfUint32};

use fidl_constraints::{Head, TypeUse, behind};
use fidl_ir::{NumberKind, Type};
use fidl_lower_types::{Sources, term_of};
use fidl_tree::{LayoutBody, ValuesKeyword, ValuesLayout};
use std::alloc::AllocError;

/// Whether a term is uint32.
fn is_uint32_term(of: &Type) -> bool
    ensures { IsTrue result ↔ (term_view of.now ≡ Terms.number Terms.uint32) }
{
    matches!(of, Type::Number(NumberKind::Uint32))
}

/// Whether a type in the file of this number is uint32, aliases followed.
pub(crate) fn is_uint32(
    sources: &Sources<'_, '_, '_>,
    file_index: usize,
    of: TypeUse<'_>,
) -> Result<bool, AllocError>
    requires within { file_index < length sources.now.named.now }
    requires known { AreKnown sources.now }
    ensures { IfOk result (λ b. IsTrue b
        ↔ IsUint32 sources.now.named.now file_index (use_view of.entry)) }
{
    match term_of(sources, file_index, of)? {
        None => Ok(false),
        Some(term) => Ok(is_uint32_term(&term)),
    }
}

/// Whether the underlying type of bits or an enum is uint32: where none is written it is.
fn is_of_uint32(
    sources: &Sources<'_, '_, '_>,
    file_index: usize,
    layout: &ValuesLayout,
) -> Result<bool, AllocError>
    requires within { file_index < length sources.now.named.now }
    requires known { AreKnown sources.now }
    ensures { IfOk result (λ b. IsTrue b ↔ LayoutSuits sources.now.named.now file_index
        (kind_view (out-ValuesLayout layout.now).keyword) (values_view layout.now)) }
{
    match &layout.underlying {
        None => Ok(true),
        Some(underlying) => is_uint32(sources, file_index, TypeUse::Named(&underlying.named)),
    }
}

/// The bits or the enum that a type is behind its aliases.
fn values_in<'f>(head: Head<'f>) -> Option<&'f ValuesLayout>
    ensures found { IfSome result (λ l. head_view head.entry ≡ layout_head (values_view l.now)) }
    ensures none { IsNone result → (files : List Tree) (number : ℕ) (kind : ValuesKind)
        (l : Layout) → head_view head.entry ≡ layout_head l → LayoutSuits files number kind l → ⊥ }
{
    match head {
        Head::Layout(body) => match body {
            LayoutBody::Values(layout) => Some(layout),
            LayoutBody::Struct(_) | LayoutBody::Table(_) | LayoutBody::Union(_) => None,
        },
        Head::Word { .. } => None,
        Head::Handle(_) => None,
    }
}

/// Whether a type in the file of this number is bits of uint32 or an enum of uint32, aliases
/// followed: the keyword of what it is.
pub(crate) fn values_of_uint32<'f>(
    sources: &Sources<'_, 'f, '_>,
    file_index: usize,
    of: TypeUse<'f>,
) -> Result<Option<&'f ValuesKeyword>, AllocError>
    requires within { file_index < length sources.now.named.now }
    requires known { AreKnown sources.now }
    ensures found { IfOk result (λ found. IfSome found (λ k. AreOfUint32 sources.now.named.now
        file_index (kind_view k.now) (use_view of.entry))) }
    ensures only { IfOk result (λ found. (kind : ValuesKind) → AreOfUint32 sources.now.named.now
        file_index kind (use_view of.entry) → option_map kind_view (option_copied found)
        ≡ Some kind) }
{
    let Some(core) = behind(sources.alloc, sources.named, file_index, of)? else {
        return Ok(None);
    };
    let Some(layout) = values_in(core.head) else {
        return Ok(None);
    };
    if is_of_uint32(sources, core.file_index, layout)? {
        return Ok(Some(&layout.keyword));
    }
    Ok(None)
}
