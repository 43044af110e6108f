//! The attribute `@selector`.
ghost use Rattle.std.specs.Prelude.{◌≡◌, ◌∷◌, [], List, ℕ, codes, bytes_eq, IfOk, IfErr, IfSome};
ghost use Rattle.std.specs.Prelude.{IsNone};
ghost use Rattle.fidl_tree.specs.Views.{attribute_view, attributes_view, file_view};
ghost use Rattle.fidl_method_rules.specs.Texts.{MaySelect};
ghost use Rattle.fidl_method_rules.specs.Selectors.{selectors, Gives, SelectorsBreak};
ghost use Rattle.fidl_method_rules.specs.Methods.{Selects, SelectedBy};

use crate::full_name::named_in;
use crate::texts::{is_full_name, is_identifier};
use fidl_consts::string_bytes;
use fidl_member_rules::only_string;
use fidl_span::Span;
use fidl_tree::{Attribute, File};
use std::alloc::{AllocError, Global};

/// Whether a text is `selector`.
fn is_selector(text: &[u8]) -> bool
    ensures { result ≡ bytes_eq text.now (codes "selector") }
{
    text == b"selector".as_slice()
}

/// The first attribute that is called `selector`, and those behind it.
fn first_selector<'f>(
    file: &File<'_>,
    attributes: &'f [Attribute],
) -> Option<(&'f Attribute, &'f [Attribute])>
    ensures found { IfSome result (λ found. selectors file.now.src.now
        (attributes_view attributes.now) ≡ attribute_view found.0.now
        ∷ selectors file.now.src.now (attributes_view found.1.now)) }
    ensures none { IsNone result → selectors file.now.src.now
        (attributes_view attributes.now) ≡ [] }
{
    for (number, attribute) in attributes.iter().enumerate() {
        if is_selector(file.text(attribute.name)) {
            return Some((attribute, &attributes[number + 1..]));
        }
    }
    None
}

/// The one attribute that is called `selector`. Refused with the name of the second one.
pub(crate) fn only_selector<'f>(
    file: &File<'_>,
    attributes: &'f [Attribute],
) -> Result<Option<&'f Attribute>, Span>
    ensures found { IfOk result (λ found. IfSome found (λ attribute. selectors file.now.src.now
        (attributes_view attributes.now) ≡ attribute_view attribute.now ∷ [])) }
    ensures none { IfOk result (λ found. IsNone found → selectors file.now.src.now
        (attributes_view attributes.now) ≡ []) }
    ensures several { IfErr result (SelectorsBreak file.now.src.now
        (attributes_view attributes.now)) }
{
    let Some((first, rest)) = first_selector(file, attributes) else {
        return Ok(None);
    };
    match first_selector(file, rest) {
        None => Ok(Some(first)),
        Some((second, _)) => Err(second.name),
    }
}

/// The text that an attribute gives.
fn given_text(
    alloc: Global,
    file: &File<'_>,
    attribute: &Attribute,
) -> Result<Option<Vec<u8>>, AllocError>
    ensures found { IfOk result (λ found. IfSome found (λ text. Gives file.now.src.now
        (attribute_view attribute.now) text.items)) }
    ensures none { IfOk result (λ found. IsNone found → (text : List ℕ) → Gives file.now.src.now
        (attribute_view attribute.now) text → ⊥) }
{
    match only_string(&attribute.arguments) {
        None => Ok(None),
        Some(span) => Ok(Some(string_bytes(alloc, file.text(span))?)),
    }
}

/// The text of a method of this protocol whose selector gives this one.
fn text_of_given(
    alloc: Global,
    file: &File<'_>,
    protocol: Span,
    given: Vec<u8>,
) -> Result<Option<Vec<u8>>, AllocError>
    ensures found { IfOk result (λ found. IfSome found (λ text. Selects (file_view file.now)
        protocol given.items text.items)) }
    ensures none { IfOk result (λ found. IsNone found → MaySelect given.items → ⊥) }
{
    if is_full_name(&given) {
        return Ok(Some(given));
    }
    if is_identifier(&given) {
        return Ok(Some(named_in(alloc, file, protocol, &given)?));
    }
    Ok(None)
}

/// The text of a method of this protocol with this selector.
pub(crate) fn selected_text(
    alloc: Global,
    file: &File<'_>,
    protocol: Span,
    attribute: &Attribute,
) -> Result<Option<Vec<u8>>, AllocError>
    ensures found { IfOk result (λ found. IfSome found (λ text. SelectedBy (file_view file.now)
        protocol (attribute_view attribute.now) text.items)) }
    ensures none { IfOk result (λ found. IsNone found → (given : List ℕ)
        → Gives file.now.src.now (attribute_view attribute.now) given → MaySelect given → ⊥) }
{
    match given_text(alloc, file, attribute)? {
        None => Ok(None),
        Some(given) => text_of_given(alloc, file, protocol, given),
    }
}
