//! All resource definitions of files: whether each is proper.
ghost use Rattle.std.specs.Prelude.{◌≡◌, ◌<◌, length, slice_get, Some, IfErr, OnOk};
ghost use Rattle.std.specs.List.{AllByRecursion};
ghost use Rattle.fidl_tree.specs.Views.{type_view};
ghost use Rattle.fidl_tree.specs.declared.file.File.{File as Tree};
ghost use Rattle.fidl_consts.specs.Refusals.{type_span};
ghost use Rattle.fidl_lower_types.specs.TermViews.{AreKnown};
ghost use Rattle.fidl_resource_rules.specs.Kinds.{IsUint32};
ghost use Rattle.fidl_resource_rules.specs.Resources.{HasSubtype, ResourceHolds};
ghost use Rattle.fidl_resource_rules.specs.Resources.{DeclarationHolds, ResourcesHold, ResourceBreaks};
ghost use Rattle.fidl_resource_rules.specs.Resources.{BodyBreaks, OneBreaks, IsReportIn};
ghost use Rattle.fidl_resource_rules.specs.Resources.{IsTrueOfResources};

use crate::fault::ResourceFault;
use crate::kinds::is_uint32;
use crate::properties::{check_properties, has_subtype};
use fidl_constraints::{type_span, use_of};
use fidl_lower_types::Sources;
use fidl_named::Place;
use fidl_tree::{Declaration, DeclarationBody, File, ResourceDefinition};

/// A resource definition is of uint32.
fn check_underlying(
    sources: &Sources<'_, '_, '_>,
    file_index: usize,
    definition: &ResourceDefinition,
) -> Result<(), ResourceFault>
    requires within { file_index < length sources.now.named.now }
    requires known { AreKnown sources.now }
    ensures ok { OnOk result (IsUint32 sources.now.named.now file_index
        (type_view definition.now.constructor)) }
    ensures fault_is_true { IfErr result (IsReportIn file_index (λ span.
        (IsUint32 sources.now.named.now file_index (type_view definition.now.constructor) → ⊥)
        × (span ≡ type_span (type_view definition.now.constructor)))) }
{
    let of = use_of(&definition.constructor);
    if is_uint32(sources, file_index, of)? {
        return Ok(());
    }
    Err(ResourceFault::BadConstraint {
        place: Place {
            file: file_index,
            span: type_span(of),
        },
    })
}

/// It has a subtype.
fn check_subtype(
    file_index: usize,
    file: &File<'_>,
    definition: &ResourceDefinition,
) -> Result<(), ResourceFault>
    ensures ok { OnOk result (HasSubtype file.now definition.now.properties.members.items) }
    ensures fault_is_true { IfErr result (IsReportIn file_index (λ span.
        (HasSubtype file.now definition.now.properties.members.items → ⊥)
        × (span ≡ definition.now.name))) }
{
    if has_subtype(file, &definition.properties.members) {
        return Ok(());
    }
    Err(ResourceFault::BadConstraint {
        place: Place {
            file: file_index,
            span: definition.name,
        },
    })
}

/// It is proper.
fn check_definition(
    sources: &Sources<'_, '_, '_>,
    file_index: usize,
    file: &File<'_>,
    definition: &ResourceDefinition,
) -> Result<(), ResourceFault>
    requires within { file_index < length sources.now.named.now }
    requires known { AreKnown sources.now }
    ensures ok { OnOk result (ResourceHolds sources.now.named.now file_index file.now
        definition.now) }
    ensures fault_is_true { IfErr result (IsReportIn file_index (ResourceBreaks
        sources.now.named.now file_index file.now definition.now)) }
{
    check_underlying(sources, file_index, definition)?;
    check_properties(sources, file_index, file, &definition.properties.members)?;
    check_subtype(file_index, file, definition)
}

/// What is declared is proper where it is a resource definition.
fn check_declaration(
    sources: &Sources<'_, '_, '_>,
    file_index: usize,
    file: &File<'_>,
    declaration: &Declaration,
) -> Result<(), ResourceFault>
    requires within { file_index < length sources.now.named.now }
    requires known { AreKnown sources.now }
    ensures ok { OnOk result (DeclarationHolds sources.now.named.now file_index file.now
        declaration.now) }
    ensures fault_is_true { IfErr result (IsReportIn file_index (BodyBreaks
        sources.now.named.now file_index file.now declaration.now.body)) }
{
    match &declaration.body {
        DeclarationBody::Resource(definition) => {
            check_definition(sources, file_index, file, definition)
        }
        DeclarationBody::Const(_)
        | DeclarationBody::Alias(_)
        | DeclarationBody::Type(_)
        | DeclarationBody::Protocol(_)
        | DeclarationBody::Service(_) => Ok(()),
    }
}

/// So is each of some declarations.
fn check_declarations(
    sources: &Sources<'_, '_, '_>,
    file_index: usize,
    file: &File<'_>,
    declarations: &[Declaration],
) -> Result<(), ResourceFault>
    requires within { file_index < length sources.now.named.now }
    requires known { AreKnown sources.now }
    ensures ok { OnOk result (AllByRecursion (DeclarationHolds sources.now.named.now file_index
        file.now) declarations.now) }
    ensures fault_is_true { IfErr result (IsReportIn file_index (OneBreaks sources.now.named.now
        file_index file.now declarations.now)) }
{
    for declaration in declarations {
        check_declaration(sources, file_index, file, declaration)?;
    }
    Ok(())
}

/// So is what the file of this number declares.
fn check_file(sources: &Sources<'_, '_, '_>, file_index: usize) -> Result<(), ResourceFault>
    requires within { file_index < length sources.now.named.now }
    requires known { AreKnown sources.now }
    ensures ok { OnOk result ((f : Tree) → slice_get sources.now.named.now file_index ≡ Some f
        → AllByRecursion (DeclarationHolds sources.now.named.now file_index f)
        f.declarations.items) }
    ensures fault_is_true { IfErr result (IsTrueOfResources sources.now.named.now) }
{
    let file = sources.named.file(file_index);
    check_declarations(sources, file_index, file, &file.declarations)
}

/// Checks that each resource definition of the files is of uint32, with a property `subtype` that
/// is an enum of uint32, perhaps a property `rights` that is bits of uint32 or uint32, and no
/// other, aliases followed (public source: the FIDL language specification, "Resource
/// definitions"). Refused with BadConstraint where one isn't: at its type, at the type of a
/// property, or at its name where it has no subtype; and with Memory where memory ran out.
pub fn check_resources(sources: &Sources<'_, '_, '_>) -> Result<(), ResourceFault>
    requires known { AreKnown sources.now }
    ensures ok { OnOk result (ResourcesHold sources.now.named.now) }
    ensures fault_is_true { IfErr result (IsTrueOfResources sources.now.named.now) }
{
    for file_index in 0..sources.named.count() {
        check_file(sources, file_index)?;
    }
    Ok(())
}
