//! The numbers of results and empty responses.
ghost use Rattle.std.specs.Prelude.{◌≡◌, ℕ, Bool, IfSome, IsNone, true, false};
ghost use Rattle.fidl_span.specs.declared.words.Span.{Span as Name};
ghost use Rattle.fidl_declarations.specs.FormViews.{form_kind_view, form_view};
ghost use Rattle.fidl_lower_types.specs.Numbers.{all_forms, method_path, last_step, IsAnswerKind};
ghost use Rattle.fidl_lower_types.specs.Numbers.{IsAnswerAt, IsFirst};
ghost use Rattle.fidl_lower_types.specs.NumberViews.{AnswerKey as Key, answer_key, IsAnswerKey};
ghost use Rattle.fidl_lower_types.specs.TermViews.{AreKnown};

use crate::sources::Sources;
use fidl_declarations::{Form, FormKind, Step};
use fidl_span::Span;

/// What a result or an empty response is known by: the number of its file, whether it is an empty
/// response, and where the names of its protocol and of its method begin and end.
pub(crate) type AnswerKey = (usize, bool, usize, usize, usize, usize);

/// What a result or an empty response is known by.
fn answer_key(file_index: usize, is_empty: bool, protocol: Span, method: Span) -> AnswerKey
    ensures { result ≡ answer_key file_index is_empty protocol method }
{
    (
        file_index,
        is_empty,
        protocol.from,
        protocol.to,
        method.from,
        method.to,
    )
}

/// Whether a result or an empty response is the latter; nothing of a layout.
fn is_empty_answer(kind: FormKind<'_>) -> Option<bool>
    ensures found { IfSome result (λ empty. IsAnswerKind empty (form_kind_view kind.entry)) }
    ensures none { IsNone result → (empty : Bool) → IsAnswerKind empty (form_kind_view kind.entry)
        → ⊥ }
{
    match kind {
        FormKind::Layout { .. } => None,
        FormKind::Result { .. } => Some(false),
        FormKind::EmptyResponse => Some(true),
    }
}

/// The last step of the path of a result or of an empty response.
fn last_step(is_empty: bool) -> Step
    ensures { result ≡ last_step is_empty }
{
    if is_empty {
        Step::Response
    } else {
        Step::Result
    }
}

/// The names of a protocol and of its method, from which a path goes this step further.
pub fn names_before(path: &[Step], last: Step) -> Option<(Span, Span)>
    ensures found { IfSome result (λ names. path.now ≡ method_path names.0 names.1 last) }
    ensures none { IsNone result → (protocol method : Name)
        → path.now ≡ method_path protocol method last → ⊥ }
{
    let [Step::Name(protocol), Step::Name(method), step] = path else {
        return None;
    };
    if *step != last {
        return None;
    }
    Some((*protocol, *method))
}

/// What a form is known by, if it is a result or an empty response of a method.
pub(crate) fn key_of_answer(form: &Form<'_, '_>) -> Option<AnswerKey>
    ensures found { IfSome result (λ key. IsAnswerKey key (form_view form.now)) }
    ensures none { IsNone result → (key : Key) → IsAnswerKey key (form_view form.now) → ⊥ }
{
    let is_empty = is_empty_answer(form.kind)?;
    let (protocol, method) = names_before(&form.path, last_step(is_empty))?;
    Some(answer_key(form.file_index, is_empty, protocol, method))
}

/// The number of the result or of the empty response of a method, whose name stands at `method` in
/// the protocol whose name stands at `protocol`.
fn answer_number(
    sources: &Sources<'_, '_, '_>,
    file_index: usize,
    is_empty: bool,
    protocol: Span,
    method: Span,
) -> Option<u32>
    requires { AreKnown sources.now }
    ensures found { IfSome result (IsFirst (all_forms sources.now.named.now)
        (IsAnswerAt file_index is_empty protocol method)) }
    ensures none { IsNone result → (i : ℕ) → IsFirst (all_forms sources.now.named.now)
        (IsAnswerAt file_index is_empty protocol method) i → ⊥ }
{
    let key = answer_key(file_index, is_empty, protocol, method);
    sources.numbers.answers.get(&key).copied()
}

/// The number of the union in which a method answers: its name stands at `method` in the file of
/// this number, and that of its protocol at `protocol`.
pub fn result_number(
    sources: &Sources<'_, '_, '_>,
    file_index: usize,
    protocol: Span,
    method: Span,
) -> Option<u32>
    requires { AreKnown sources.now }
    ensures found { IfSome result (IsFirst (all_forms sources.now.named.now)
        (IsAnswerAt file_index false protocol method)) }
    ensures none { IsNone result → (i : ℕ) → IsFirst (all_forms sources.now.named.now)
        (IsAnswerAt file_index false protocol method) i → ⊥ }
{
    answer_number(sources, file_index, false, protocol, method)
}

/// The number of the empty struct in that union.
pub fn empty_response_number(
    sources: &Sources<'_, '_, '_>,
    file_index: usize,
    protocol: Span,
    method: Span,
) -> Option<u32>
    requires { AreKnown sources.now }
    ensures found { IfSome result (IsFirst (all_forms sources.now.named.now)
        (IsAnswerAt file_index true protocol method)) }
    ensures none { IsNone result → (i : ℕ) → IsFirst (all_forms sources.now.named.now)
        (IsAnswerAt file_index true protocol method) i → ⊥ }
{
    answer_number(sources, file_index, true, protocol, method)
}
