//! Boxes of what is no struct.
ghost use Rattle.std.specs.Prelude.{◌≡◌, ◌<◌, ◌↔◌, length, true, IfOk, IfSome, IsNone};
ghost use Rattle.std.specs.Prelude.{IsTrue};
ghost use Rattle.fidl_tree.specs.Syntax.{TypeUse as Plain, Layout};
ghost use Rattle.fidl_tree.specs.Views.{body_view};
ghost use Rattle.fidl_constraints.specs.Behind.{layout_head};
ghost use Rattle.fidl_constraints.specs.BehindViews.{head_view, use_view};
ghost use Rattle.fidl_named.specs.declared.meaning.Predeclared.TheVariants as Words;
ghost use Rattle.fidl_lower_types.specs.Terms.{is_struct};
ghost use Rattle.fidl_lower_types.specs.TermViews.{AreKnown};
ghost use Rattle.fidl_type_rules.specs.Words.{ComesToStruct, IsBoxOf, BoxesOther};

use crate::words::{only_argument, word_of};
use fidl_constraints::{Head, TypeUse, gather};
use fidl_lower_types::Sources;
use fidl_named::Predeclared;
use fidl_tree::LayoutBody;
use std::alloc::AllocError;

/// Whether a layout is a struct.
fn is_struct(body: &LayoutBody) -> bool
    ensures { result ≡ is_struct (body_view body.now) }
{
    matches!(body, LayoutBody::Struct(_))
}

/// Whether a type behind its aliases is a struct.
fn is_struct_head(head: Head<'_>) -> bool
    ensures yes { IsTrue result → (l : Layout) × (head_view head.entry ≡ layout_head l)
        × (is_struct l ≡ true) }
    ensures no { (l : Layout) → head_view head.entry ≡ layout_head l → is_struct l ≡ true
        → IsTrue result }
{
    match head {
        Head::Layout(body) => is_struct(body),
        Head::Word { .. } => false,
        Head::Handle(_) => false,
    }
}

/// Whether a type in the file of this number is a struct, aliases followed.
fn comes_to_struct(
    sources: &Sources<'_, '_, '_>,
    file_index: usize,
    of: TypeUse<'_>,
) -> Result<bool, AllocError>
    requires within { file_index < length sources.now.named.now }
    requires known { AreKnown sources.now }
    ensures { IfOk result (λ b. IsTrue b
        ↔ ComesToStruct sources.now.named.now file_index (use_view of.entry)) }
{
    match gather(sources.alloc, sources.named, sources.consts, file_index, of)? {
        None => Ok(false),
        Some(gathered) => Ok(is_struct_head(gathered.core.head)),
    }
}

fn is_box(word: Predeclared) -> bool
    ensures { IsTrue result ↔ (word ≡ Words.Box) }
{
    matches!(word, Predeclared::Box)
}

/// What a type is written as a box of, where it is one of just one type.
fn boxed<'f>(
    sources: &Sources<'_, '_, '_>,
    file_index: usize,
    of: TypeUse<'f>,
) -> Result<Option<TypeUse<'f>>, AllocError>
    requires { file_index < length sources.now.named.now }
    ensures found { IfOk result (λ found. IfSome found (λ t. IsBoxOf sources.now.named.now
        file_index (use_view of.entry) (use_view t))) }
    ensures none { IfOk result (λ found. IsNone found → (t : Plain) → IsBoxOf
        sources.now.named.now file_index (use_view of.entry) t → ⊥) }
{
    let Some(word) = word_of(sources, file_index, of)? else {
        return Ok(None);
    };
    if is_box(word) {
        return Ok(only_argument(of));
    }
    Ok(None)
}

/// What a type is written as a box of, where that is no struct.
pub(crate) fn other_content<'f>(
    sources: &Sources<'_, '_, '_>,
    file_index: usize,
    of: TypeUse<'f>,
) -> Result<Option<TypeUse<'f>>, AllocError>
    requires within { file_index < length sources.now.named.now }
    requires known { AreKnown sources.now }
    ensures found { IfOk result (λ found. IfSome found (λ t. BoxesOther sources.now.named.now
        file_index (use_view of.entry) (use_view t))) }
    ensures none { IfOk result (λ found. IsNone found → (t : Plain) → BoxesOther
        sources.now.named.now file_index (use_view of.entry) t → ⊥) }
{
    let Some(content) = boxed(sources, file_index, of)? else {
        return Ok(None);
    };
    if comes_to_struct(sources, file_index, content)? {
        return Ok(None);
    }
    Ok(Some(content))
}
