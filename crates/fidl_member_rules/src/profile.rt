//! The attributes that the profile leaves out.
ghost use Rattle.std.specs.Prelude.{◌≡◌, ◌↔◌, codes, IsTrue, IfOk, IfSome, IsNone};
ghost use Rattle.std.specs.List.{AllByRecursion};
ghost use Rattle.fidl_tree.specs.Views.{value_view, attribute_view, attributes_view};
ghost use Rattle.fidl_tree.specs.Views.{attribute_arguments_view};
ghost use Rattle.fidl_member_rules.specs.Profile.{string_alone, only_string, NamesChannel, IsAvailable};
ghost use Rattle.fidl_member_rules.specs.Profile.{IsOtherTransport, StandsAt};

use fidl_consts::string_bytes;
use fidl_span::Span;
use fidl_tree::{Arguments, Attribute, File, Operand, Value};
use std::alloc::{AllocError, Global};

/// Whether a text is `available`.
fn is_available(text: &[u8]) -> bool
    ensures { IsTrue result ↔ text.now ≡ codes "available" }
{
    text == b"available".as_slice()
}

/// Whether a text is `transport`.
fn is_transport(text: &[u8]) -> bool
    ensures { IsTrue result ↔ text.now ≡ codes "transport" }
{
    text == b"transport".as_slice()
}

/// The name of an attribute that gives versions.
pub(crate) fn available_attribute(file: &File<'_>, attributes: &[Attribute]) -> Option<Span>
    ensures found { IfSome result (StandsAt (IsAvailable file.now.src.now)
        (attributes_view attributes.now)) }
    ensures none { IsNone result → AllByRecursion (λ a. IsAvailable file.now.src.now a → ⊥)
        (attributes_view attributes.now) }
{
    for attribute in attributes {
        if is_available(file.text(attribute.name)) {
            return Some(attribute.name);
        }
    }
    None
}

/// The string literal that a value is just.
fn string_alone(value: &Value) -> Option<Span>
    ensures { result ≡ string_alone (value_view value.now) }
{
    match value.rest.split_first() {
        Some(_) => None,
        None => match &value.first {
            Operand::String(span) => Some(*span),
            Operand::Number { .. }
            | Operand::True(_)
            | Operand::False(_)
            | Operand::Path(_)
            | Operand::Group { .. } => None,
        },
    }
}

/// The string literal that is the only argument, and has no name.
pub fn only_string(arguments: &Option<Arguments>) -> Option<Span>
    ensures { result ≡ only_string (attribute_arguments_view arguments.now) }
{
    let list = arguments.as_ref()?.list.as_ref()?;
    match list.rest.split_first() {
        Some(_) => None,
        None => match &list.first.name {
            Some(_) => None,
            None => string_alone(&list.first.value),
        },
    }
}

/// Whether arguments name the transport by channels.
fn names_channel(
    alloc: Global,
    file: &File<'_>,
    arguments: &Option<Arguments>,
) -> Result<bool, AllocError>
    ensures { IfOk result (λ named. IsTrue named
        ↔ NamesChannel file.now.src.now (attribute_arguments_view arguments.now)) }
{
    match only_string(arguments) {
        None => Ok(false),
        Some(span) => {
            let text = string_bytes(alloc, file.text(span))?;
            Ok(text.as_slice() == b"Channel".as_slice())
        }
    }
}

/// Whether an attribute gives a transport other than by channels.
fn is_other_transport(
    alloc: Global,
    file: &File<'_>,
    attribute: &Attribute,
) -> Result<bool, AllocError>
    ensures { IfOk result (λ other. IsTrue other
        ↔ IsOtherTransport file.now.src.now (attribute_view attribute.now)) }
{
    if !is_transport(file.text(attribute.name)) {
        return Ok(false);
    }
    let named = names_channel(alloc, file, &attribute.arguments)?;
    Ok(!named)
}

/// The name of an attribute that gives a transport other than by channels.
pub(crate) fn other_transport(
    alloc: Global,
    file: &File<'_>,
    attributes: &[Attribute],
) -> Result<Option<Span>, AllocError>
    ensures found { IfOk result (λ found. IfSome found (StandsAt
        (IsOtherTransport file.now.src.now) (attributes_view attributes.now))) }
    ensures none { IfOk result (λ found. IsNone found
        → AllByRecursion (λ a. IsOtherTransport file.now.src.now a → ⊥)
        (attributes_view attributes.now)) }
{
    for attribute in attributes {
        if is_other_transport(alloc, file, attribute)? {
            return Ok(Some(attribute.name));
        }
    }
    Ok(None)
}
