//! The rules of layouts and attributes that need no meanings.
ghost use Rattle.std.specs.Prelude.{◌≡◌, ◌<◌, map, length, slice_get, Some, IfErr, OnOk};
ghost use Rattle.std.specs.List.{AllByRecursion};
ghost use Rattle.fidl_tree.specs.Views.{attributes_view, body_view, declaration_view, file_view};
ghost use Rattle.fidl_declarations.specs.Sites.{file_sites};
ghost use Rattle.fidl_declarations.specs.SiteViews.{site_view, sites_view};
ghost use Rattle.fidl_member_rules.specs.Ordinals.{last_ordinal, layout_ordinals, OrdinalsHold};
ghost use Rattle.fidl_member_rules.specs.Profile.{IsAvailable, transport_attributes};
ghost use Rattle.fidl_member_rules.specs.Rules.{LayoutHolds, SiteHolds, TransportHolds, FileHolds};
ghost use Rattle.fidl_member_rules.specs.Rules.{RulesHold, LayoutBreaks, AttributesBreak, SiteBreaks};
ghost use Rattle.fidl_member_rules.specs.Rules.{TransportBreaks, OneBreaks, FileBreaks, IsReportIn};
ghost use Rattle.fidl_member_rules.specs.Rules.{OrdinalsBreak};
ghost use Rattle.fidl_member_rules.specs.Rules.{IsTrueOfRules};

use crate::fault::RuleFault;
use crate::ordinals::{check_ordinals, last_ordinal, layout_ordinals};
use crate::profile::{available_attribute, other_transport};
use crate::strict::is_empty_strict;
use fidl_declarations::{Site, file_sites, layout_keyword};
use fidl_named::{Named, Place};
use fidl_tree::{Attribute, Declaration, DeclarationBody, File, LayoutBody};
use std::alloc::Global;

/// The ordinals of a layout are from 1 to its last, and no two are the same.
fn check_layout_ordinals(
    alloc: Global,
    file: &File<'_>,
    file_index: usize,
    body: &LayoutBody,
) -> Result<(), RuleFault>
    ensures ok { let l = body_view body.now in
        OnOk result (OrdinalsHold file.now.src.now (last_ordinal l) (layout_ordinals l)) }
    ensures fault_is_true { let l = body_view body.now in IfErr result (IsReportIn file_index
        (OrdinalsBreak file.now.src.now (last_ordinal l) (layout_ordinals l))) }
{
    let ordinals = layout_ordinals(alloc, body)?;
    check_ordinals(alloc, file, file_index, last_ordinal(body), &ordinals)
}

/// A layout keeps the rules of its ordinals and members.
fn check_layout(
    alloc: Global,
    file: &File<'_>,
    file_index: usize,
    body: &LayoutBody,
) -> Result<(), RuleFault>
    ensures ok { OnOk result (LayoutHolds file.now.src.now (body_view body.now)) }
    ensures fault_is_true { IfErr result (IsReportIn file_index
        (LayoutBreaks file.now.src.now (body_view body.now))) }
{
    if is_empty_strict(body) {
        let span = layout_keyword(body);
        let place = Place {
            file: file_index,
            span,
        };
        return Err(RuleFault::EmptyStrict { place });
    }
    check_layout_ordinals(alloc, file, file_index, body)
}

/// No attribute gives versions.
fn check_attributes(
    file: &File<'_>,
    file_index: usize,
    attributes: &[Attribute],
) -> Result<(), RuleFault>
    ensures ok { OnOk result (AllByRecursion (λ a. IsAvailable file.now.src.now a → ⊥)
        (attributes_view attributes.now)) }
    ensures fault_is_true { IfErr result (IsReportIn file_index (AttributesBreak
        (IsAvailable file.now.src.now) (attributes_view attributes.now))) }
{
    match available_attribute(file, attributes) {
        None => Ok(()),
        Some(span) => Err(RuleFault::OutOfProfile {
            place: Place {
                file: file_index,
                span,
            },
        }),
    }
}

/// A site keeps its rules.
fn check_site(
    alloc: Global,
    file: &File<'_>,
    file_index: usize,
    site: &Site<'_>,
) -> Result<(), RuleFault>
    ensures ok { OnOk result (SiteHolds file.now.src.now (site_view site.now)) }
    ensures fault_is_true { IfErr result (IsReportIn file_index
        (SiteBreaks file.now.src.now (site_view site.now))) }
{
    match site {
        Site::Layout { body, .. } => check_layout(alloc, file, file_index, body),
        Site::Attributes { attributes } => check_attributes(file, file_index, attributes),
        Site::Named { .. } => Ok(()),
        Site::Written { .. } => Ok(()),
        Site::Result { .. } => Ok(()),
        Site::EmptyResponse { .. } => Ok(()),
    }
}

/// Each site keeps its rules.
fn check_sites(
    alloc: Global,
    file: &File<'_>,
    file_index: usize,
    sites: &[Site<'_>],
) -> Result<(), RuleFault>
    ensures ok { OnOk result (AllByRecursion (SiteHolds file.now.src.now) (sites_view sites.now)) }
    ensures fault_is_true { IfErr result (IsReportIn file_index
        (OneBreaks (SiteBreaks file.now.src.now) (sites_view sites.now))) }
{
    for site in sites {
        check_site(alloc, file, file_index, site)?;
    }
    Ok(())
}

/// So does each site of a file.
fn check_file_sites(alloc: Global, file: &File<'_>, file_index: usize) -> Result<(), RuleFault>
    ensures ok { let f = file_view file.now in
        OnOk result (AllByRecursion (SiteHolds f.source) (file_sites f)) }
    ensures fault_is_true { let f = file_view file.now in IfErr result (IsReportIn file_index
        (OneBreaks (SiteBreaks f.source) (file_sites f))) }
{
    let sites = file_sites(alloc, file)?;
    check_sites(alloc, file, file_index, &sites)
}

/// The attributes of a declaration by which a transport is judged.
fn transport_attributes(declaration: &Declaration) -> &[Attribute]
    ensures { attributes_view result.now
        ≡ transport_attributes (declaration_view declaration.now) }
{
    match &declaration.body {
        DeclarationBody::Protocol(_) => &declaration.attributes,
        DeclarationBody::Const(_)
        | DeclarationBody::Alias(_)
        | DeclarationBody::Type(_)
        | DeclarationBody::Service(_)
        | DeclarationBody::Resource(_) => &[],
    }
}

/// A protocol has no other transport than by channels.
fn check_transport(
    alloc: Global,
    file: &File<'_>,
    file_index: usize,
    declaration: &Declaration,
) -> Result<(), RuleFault>
    ensures ok { OnOk result (TransportHolds file.now.src.now
        (declaration_view declaration.now)) }
    ensures fault_is_true { IfErr result (IsReportIn file_index
        (TransportBreaks file.now.src.now (declaration_view declaration.now))) }
{
    match other_transport(alloc, file, transport_attributes(declaration))? {
        None => Ok(()),
        Some(span) => Err(RuleFault::OutOfProfile {
            place: Place {
                file: file_index,
                span,
            },
        }),
    }
}

/// Nor has any of the declarations of a file.
fn check_transports(alloc: Global, file: &File<'_>, file_index: usize) -> Result<(), RuleFault>
    ensures ok { let f = file_view file.now in
        OnOk result (AllByRecursion (TransportHolds f.source) f.declarations) }
    ensures fault_is_true { let f = file_view file.now in IfErr result (IsReportIn file_index
        (OneBreaks (TransportBreaks f.source) f.declarations)) }
{
    for declaration in &file.declarations {
        check_transport(alloc, file, file_index, declaration)?;
    }
    Ok(())
}

/// A file keeps the rules.
fn check_file(alloc: Global, file: &File<'_>, file_index: usize) -> Result<(), RuleFault>
    ensures ok { OnOk result (FileHolds (file_view file.now)) }
    ensures fault_is_true { IfErr result (IsReportIn file_index (FileBreaks (file_view file.now))) }
{
    check_file_sites(alloc, file, file_index)?;
    check_transports(alloc, file, file_index)
}

/// Checks the rules of layouts and attributes that need no meanings (public source: the FIDL
/// language specification, "Layouts"). Refused with BadOrdinal where an ordinal is 0 or past the
/// last, DuplicateOrdinal where a member before it has the ordinal, EmptyStrict where a strict enum
/// or union has no member, OutOfProfile where `@available` stands or a protocol has another
/// transport than channels, and Memory where memory ran out.
pub fn check_layouts(alloc: Global, named: &Named<'_, '_>) -> Result<(), RuleFault>
    ensures ok { OnOk result (RulesHold (map file_view named.now)) }
    ensures fault_is_true { IfErr result (IsTrueOfRules (map file_view named.now)) }
{
    for file_index in 0..named.count() {
        check_file(alloc, named.file(file_index), file_index)?;
    }
    Ok(())
}
