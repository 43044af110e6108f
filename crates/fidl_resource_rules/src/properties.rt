//! The properties of a resource definition.
ghost use Rattle.std.specs.Prelude.{◌≡◌, ◌<◌, ◌↔◌, length, Some, IfOk, IfErr, OnOk, IsTrue};
ghost use Rattle.std.specs.Prelude.{codes};
ghost use Rattle.std.specs.List.{AllByRecursion};
ghost use Rattle.fidl_tree.specs.Syntax.{bits_kind, enum_kind};
ghost use Rattle.fidl_tree.specs.Views.{kind_view, type_view};
ghost use Rattle.fidl_consts.specs.Refusals.{type_span};
ghost use Rattle.fidl_constraints.specs.BehindViews.{use_view};
ghost use Rattle.fidl_lower_types.specs.TermViews.{AreKnown};
ghost use Rattle.fidl_resource_rules.specs.Kinds.{AreOfUint32, RightsSuit, TypeSuits};
ghost use Rattle.fidl_resource_rules.specs.Resources.{PropertyHolds, HasSubtype, PropertyBreaks};
ghost use Rattle.fidl_resource_rules.specs.Resources.{IsReportIn};

use crate::fault::ResourceFault;
use crate::kinds::{is_uint32, values_of_uint32};
use fidl_constraints::{TypeUse, type_span, use_of};
use fidl_lower_types::Sources;
use fidl_named::Place;
use fidl_tree::{File, Property, ValuesKeyword};
use std::alloc::AllocError;

/// Whether a text is `subtype`.
fn is_subtype(text: &[u8]) -> bool
    ensures { IsTrue result ↔ text.now ≡ codes "subtype" }
{
    text == b"subtype".as_slice()
}

/// Whether a text is `rights`.
fn is_rights(text: &[u8]) -> bool
    ensures { IsTrue result ↔ text.now ≡ codes "rights" }
{
    text == b"rights".as_slice()
}

fn is_enum(keyword: &ValuesKeyword) -> bool
    ensures { IsTrue result ↔ (kind_view keyword.now ≡ enum_kind) }
{
    matches!(keyword, ValuesKeyword::Enum(_))
}

fn is_bits(keyword: &ValuesKeyword) -> bool
    ensures { IsTrue result ↔ (kind_view keyword.now ≡ bits_kind) }
{
    matches!(keyword, ValuesKeyword::Bits(_))
}

/// Whether a type in the file of this number is an enum of uint32, aliases followed.
fn subtype_suits(
    sources: &Sources<'_, '_, '_>,
    file_index: usize,
    of: TypeUse<'_>,
) -> Result<bool, AllocError>
    requires within { file_index < length sources.now.named.now }
    requires known { AreKnown sources.now }
    ensures { IfOk result (λ b. IsTrue b
        ↔ AreOfUint32 sources.now.named.now file_index enum_kind (use_view of.entry)) }
{
    match values_of_uint32(sources, file_index, of)? {
        None => Ok(false),
        Some(keyword) => Ok(is_enum(keyword)),
    }
}

/// Whether it is bits of uint32.
fn is_bits_of_uint32(
    sources: &Sources<'_, '_, '_>,
    file_index: usize,
    of: TypeUse<'_>,
) -> Result<bool, AllocError>
    requires within { file_index < length sources.now.named.now }
    requires known { AreKnown sources.now }
    ensures { IfOk result (λ b. IsTrue b
        ↔ AreOfUint32 sources.now.named.now file_index bits_kind (use_view of.entry)) }
{
    match values_of_uint32(sources, file_index, of)? {
        None => Ok(false),
        Some(keyword) => Ok(is_bits(keyword)),
    }
}

/// Whether it is that, or uint32.
fn rights_suit(
    sources: &Sources<'_, '_, '_>,
    file_index: usize,
    of: TypeUse<'_>,
) -> Result<bool, AllocError>
    requires within { file_index < length sources.now.named.now }
    requires known { AreKnown sources.now }
    ensures { IfOk result (λ b. IsTrue b
        ↔ RightsSuit sources.now.named.now file_index (use_view of.entry)) }
{
    if is_bits_of_uint32(sources, file_index, of)? {
        return Ok(true);
    }
    is_uint32(sources, file_index, of)
}

/// Whether a property of this name may have this type.
fn type_suits(
    sources: &Sources<'_, '_, '_>,
    file_index: usize,
    name: &[u8],
    of: TypeUse<'_>,
) -> Result<bool, AllocError>
    requires within { file_index < length sources.now.named.now }
    requires known { AreKnown sources.now }
    ensures { IfOk result (λ b. IsTrue b
        ↔ TypeSuits sources.now.named.now file_index name.now (use_view of.entry)) }
{
    if is_subtype(name) {
        return subtype_suits(sources, file_index, of);
    }
    if is_rights(name) {
        return rights_suit(sources, file_index, of);
    }
    Ok(false)
}

/// A property has a type that suits its name.
fn check_property(
    sources: &Sources<'_, '_, '_>,
    file_index: usize,
    file: &File<'_>,
    property: &Property,
) -> Result<(), ResourceFault>
    requires within { file_index < length sources.now.named.now }
    requires known { AreKnown sources.now }
    ensures ok { OnOk result (PropertyHolds sources.now.named.now file_index file.now
        property.now) }
    ensures fault_is_true { IfErr result (IsReportIn file_index (λ span.
        (PropertyHolds sources.now.named.now file_index file.now property.now → ⊥)
        × (span ≡ type_span (type_view property.now.constructor)))) }
{
    let of = use_of(&property.constructor);
    if type_suits(sources, file_index, file.text(property.name), of)? {
        return Ok(());
    }
    Err(ResourceFault::BadConstraint {
        place: Place {
            file: file_index,
            span: type_span(of),
        },
    })
}

/// So does each property.
pub(crate) fn check_properties(
    sources: &Sources<'_, '_, '_>,
    file_index: usize,
    file: &File<'_>,
    properties: &[Property],
) -> Result<(), ResourceFault>
    requires within { file_index < length sources.now.named.now }
    requires known { AreKnown sources.now }
    ensures ok { OnOk result (AllByRecursion (PropertyHolds sources.now.named.now file_index
        file.now) properties.now) }
    ensures fault_is_true { IfErr result (IsReportIn file_index (PropertyBreaks
        sources.now.named.now file_index file.now properties.now)) }
{
    for property in properties {
        check_property(sources, file_index, file, property)?;
    }
    Ok(())
}

/// Whether one of some properties is the subtype.
pub(crate) fn has_subtype(file: &File<'_>, properties: &[Property]) -> bool
    ensures { IsTrue result ↔ HasSubtype file.now properties.now }
{
    for property in properties {
        if is_subtype(file.text(property.name)) {
            return true;
        }
    }
    false
}
