//! The numbers of layouts and of all forms.
ghost use Rattle.std.specs.Prelude.{◌≡◌, ◌<◌, ◌+◌, ◌^◌, ℕ, List, Some, slice_get, IfOk, IfSome};
ghost use Rattle.std.specs.Prelude.{IsNone, OnOk};
ghost use Rattle.fidl_declarations.specs.Forms.{Form as Plain};
ghost use Rattle.fidl_declarations.specs.FormViews.{form_view, forms_view};
ghost use Rattle.indexmap.specs.IndexMap.{get};
ghost use Rattle.fidl_declarations.specs.Keywords.{layout_keyword};
ghost use Rattle.fidl_lower_types.specs.Numbers.{all_forms, IsFirstForm};
ghost use Rattle.fidl_lower_types.specs.NumberViews.{layout_key, form_key, same_key, same_answer};
ghost use Rattle.fidl_lower_types.specs.NumberViews.{IsLayoutKey, IsAnswerKey, AreHeldBefore};
ghost use Rattle.fidl_lower_types.specs.NumberViews.{AreNumbers};
ghost use Rattle.fidl_lower_types.specs.TermViews.{AreKnown};

use crate::answers::{AnswerKey, key_of_answer};
use crate::sources::Sources;
use fidl_declarations::{Form, FormKind, layout_keyword};
use fidl_span::Span;
use indexmap::IndexMap;
use std::alloc::{AllocError, Global};

/// What a layout is known by: the number of its file, whether it is numbered for where it may be
/// absent, and where its keyword begins and ends.
type LayoutKey = (usize, bool, usize, usize);

/// The numbers of forms, by what each is known by: those of layouts, and those of results and empty
/// responses.
#[derive(Drop)]
pub struct LayoutNumbers {
    known: IndexMap<LayoutKey, u32>,
    pub(crate) answers: IndexMap<AnswerKey, u32>,
}

/// What a layout is known by.
fn layout_key(file_index: usize, optional: bool, keyword: Span) -> LayoutKey
    ensures { result ≡ layout_key file_index optional keyword }
{
    (file_index, optional, keyword.from, keyword.to)
}

/// What the layout of a form is known by; nothing where the form is a result or an empty response.
fn form_key(form: &Form<'_, '_>) -> Option<LayoutKey>
    ensures { result ≡ form_key (form_view form.now) }
{
    match form.kind {
        FormKind::Layout { body, optional } => {
            Some(layout_key(form.file_index, optional, layout_keyword(body)))
        }
        FormKind::Result { .. } => None,
        FormKind::EmptyResponse => None,
    }
}

/// The same number, of 32 bits.
fn small(index: usize) -> Option<u32>
    ensures found { IfSome result (λ n. (n ≡ index) × (n < 2 ^ 32)) }
    ensures none { IsNone result → index < 2 ^ 32 → ⊥ }
{
    if index > 4_294_967_295 {
        return None;
    }
    Some(index as u32)
}

/// Gives the layout of a form this number, where it has none yet.
fn add_layout(
    known: &mut IndexMap<LayoutKey, u32>,
    form: &Form<'_, '_>,
    index: usize,
) -> Result<(), AllocError>
    ensures { OnOk result ((forms : List Plain) → slice_get forms index ≡ Some (form_view form.now)
        → AreHeldBefore IsLayoutKey (get same_key known.old) forms index
        → AreHeldBefore IsLayoutKey (get same_key known.new) forms (index + 1)) }
{
    let Some(key) = form_key(form) else {
        return Ok(());
    };
    let Some(number) = small(index) else {
        return Ok(());
    };
    if known.contains_key(&key) {
        return Ok(());
    }
    known.insert(key, number)?;
    Ok(())
}

/// Gives the result or the empty response that a form is this number, where it has none yet.
fn add_answer(
    answers: &mut IndexMap<AnswerKey, u32>,
    form: &Form<'_, '_>,
    index: usize,
) -> Result<(), AllocError>
    ensures { OnOk result ((forms : List Plain) → slice_get forms index ≡ Some (form_view form.now)
        → AreHeldBefore IsAnswerKey (get same_answer answers.old) forms index
        → AreHeldBefore IsAnswerKey (get same_answer answers.new) forms (index + 1)) }
{
    let Some(key) = key_of_answer(form) else {
        return Ok(());
    };
    let Some(number) = small(index) else {
        return Ok(());
    };
    if answers.contains_key(&key) {
        return Ok(());
    }
    answers.insert(key, number)?;
    Ok(())
}

/// The numbers of forms.
///
/// `AllocError`: memory ran out.
pub fn layout_numbers(alloc: Global, forms: &[Form<'_, '_>]) -> Result<LayoutNumbers, AllocError>
    ensures { IfOk result (AreNumbers (forms_view forms.now)) }
{
    let mut known = IndexMap::new(alloc);
    let mut answers = IndexMap::new(alloc);
    for (index, form) in forms.iter().enumerate() {
        add_layout(&mut known, form, index)?;
        add_answer(&mut answers, form, index)?;
    }
    Ok(LayoutNumbers { known, answers })
}

/// The number of the layout whose keyword stands there, as it is or where it may be absent.
pub(crate) fn number_of(
    sources: &Sources<'_, '_, '_>,
    file_index: usize,
    optional: bool,
    keyword: Span,
) -> Option<u32>
    requires { AreKnown sources.now }
    ensures found { IfSome result (IsFirstForm (all_forms sources.now.named.now) file_index optional
        keyword) }
    ensures none { IsNone result → (i : ℕ) → IsFirstForm (all_forms sources.now.named.now)
        file_index optional keyword i → ⊥ }
{
    let key = layout_key(file_index, optional, keyword);
    sources.numbers.known.get(&key).copied()
}
