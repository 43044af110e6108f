//! The rules of the numbers of bits and enums.
ghost use Rattle.std.specs.Prelude.{◌≡◌, ◌++◌, ◌∷◌, [], Contains, Some, length, map};
ghost use Rattle.std.specs.Prelude.{slice_get, IfErr, OnOk};
ghost use Rattle.std.specs.List.{AllByRecursion};
ghost use Rattle.fidl_tree.specs.Syntax.{bits_kind};
ghost use Rattle.fidl_tree.specs.Views.{value_member_view, kind_view, values_view, body_view};
ghost use Rattle.fidl_consts.specs.Tables.{AreConsts};
ghost use Rattle.fidl_declarations.specs.Sites.{file_sites};
ghost use Rattle.fidl_declarations.specs.SiteViews.{site_view, sites_view};
ghost use Rattle.fidl_member_rules.specs.Numbers.{IsPowerOfTwo};
ghost use Rattle.fidl_member_rules.specs.ValueRules.{duplicate_rule, power_rule, NumbersHold, IsNoPower};
ghost use Rattle.fidl_member_rules.specs.ValueRules.{LayoutHolds, SiteHolds, FileHolds, ValuesHold, MemberBreaks};
ghost use Rattle.fidl_member_rules.specs.ValueRules.{LayoutBreaks, SiteBreaks, OneBreaks, FileBreaks};
ghost use Rattle.fidl_member_rules.specs.ValueRules.{IsReport, IsReportIn, IsTrueOfValues};

use crate::numbers::{ValueScope, is_power_of_two, member_numbers};
use crate::value_fault::ValuesFault;
use fidl_consts::{Consts, is_memory, underlying_kind};
use fidl_declarations::{Site, file_sites};
use fidl_named::{Named, Place};
use fidl_tree::{LayoutBody, ValueMember, ValuesKeyword, ValuesLayout};
use indexmap::IndexSet;
use std::alloc::Global;

/// A number of bits is a power of two.
fn check_power(keyword: &ValuesKeyword, number: i128, place: Place) -> Result<(), ValuesFault>
    ensures ok { OnOk result (kind_view keyword.now ≡ bits_kind → IsPowerOfTwo number) }
    ensures fault_is_true { IfErr result (IsReport (λ rule at. (rule ≡ power_rule) × (at ≡ place)
        × IsNoPower (kind_view keyword.now) number)) }
{
    match keyword {
        ValuesKeyword::Enum(_) => Ok(()),
        ValuesKeyword::Bits(_) => {
            if is_power_of_two(number) {
                return Ok(());
            }
            Err(ValuesFault::NotPowerOfTwo { place })
        }
    }
}

/// Adds a number, which must be new.
fn add_number(numbers: &mut IndexSet<i128>, number: i128, place: Place) -> Result<(), ValuesFault>
    ensures ok { OnOk result (numbers.new.keys ≡ numbers.old.keys ++ number ∷ []) }
    ensures fresh { OnOk result (Contains numbers.old.keys number → ⊥) }
    ensures fault_is_true { IfErr result (IsReport (λ rule at. (rule ≡ duplicate_rule)
        × (at ≡ place) × Contains numbers.old.keys number)) }
{
    if numbers.contains(&number) {
        return Err(ValuesFault::DuplicateValue { place });
    }
    numbers.insert(number)?;
    Ok(())
}

/// The name of a member of the file of this number.
fn place_of(file_index: usize, member: &ValueMember) -> Place
    ensures file { result.file ≡ file_index }
    ensures span { result.span ≡ member.now.name }
{
    Place {
        file: file_index,
        span: member.name,
    }
}

/// No two numbers of members are the same, and those of bits are powers of two.
fn check_numbers(
    alloc: Global,
    file_index: usize,
    keyword: &ValuesKeyword,
    members: &[ValueMember],
    numbers: &[i128],
) -> Result<(), ValuesFault>
    requires { length members.now ≡ length numbers.now }
    ensures ok { OnOk result (NumbersHold (kind_view keyword.now) numbers.now) }
    ensures fault_is_true { IfErr result (IsReportIn file_index (MemberBreaks
        (kind_view keyword.now) (map value_member_view members.now) numbers.now)) }
{
    let mut known = IndexSet::new(alloc);
    for rank in 0..numbers.len() {
        let number = numbers[rank];
        let place = place_of(file_index, &members[rank]);
        check_power(keyword, number, place)?;
        add_number(&mut known, number, place)?;
    }
    Ok(())
}

/// The numbers of bits or an enum keep the rules.
fn check_members(scope: ValueScope<'_, '_, '_>, layout: &ValuesLayout) -> Result<(), ValuesFault>
    requires at { slice_get scope.named.now scope.file_index ≡ Some scope.file.now }
    requires known { AreConsts scope.named.now scope.consts.now }
    ensures ok { OnOk result (LayoutHolds scope.entry.named.now scope.entry.file.now
        (values_view layout.now)) }
    ensures fault_is_true { IfErr result (IsReportIn scope.entry.file_index (LayoutBreaks
        scope.entry.named.now scope.entry.file.now (values_view layout.now))) }
{
    let kind = match underlying_kind(scope.named, scope.file_index, layout) {
        Ok(kind) => kind,
        Err(fault) => {
            if is_memory(fault) {
                return Err(ValuesFault::Memory);
            }
            return Ok(());
        }
    };
    let Some(numbers) = member_numbers(scope, kind, &layout.members)? else {
        return Ok(());
    };
    check_numbers(
        scope.alloc,
        scope.file_index,
        &layout.keyword,
        &layout.members,
        &numbers,
    )
}

/// A layout keeps the rules.
fn check_layout(scope: ValueScope<'_, '_, '_>, body: &LayoutBody) -> Result<(), ValuesFault>
    requires at { slice_get scope.named.now scope.file_index ≡ Some scope.file.now }
    requires known { AreConsts scope.named.now scope.consts.now }
    ensures ok { OnOk result (LayoutHolds scope.entry.named.now scope.entry.file.now
        (body_view body.now)) }
    ensures fault_is_true { IfErr result (IsReportIn scope.entry.file_index (LayoutBreaks
        scope.entry.named.now scope.entry.file.now (body_view body.now))) }
{
    match body {
        LayoutBody::Values(layout) => check_members(scope, layout),
        LayoutBody::Struct(_) => Ok(()),
        LayoutBody::Table(_) => Ok(()),
        LayoutBody::Union(_) => Ok(()),
    }
}

/// A site keeps the rules.
fn check_site(scope: ValueScope<'_, '_, '_>, site: &Site<'_>) -> Result<(), ValuesFault>
    requires at { slice_get scope.named.now scope.file_index ≡ Some scope.file.now }
    requires known { AreConsts scope.named.now scope.consts.now }
    ensures ok { OnOk result (SiteHolds scope.entry.named.now scope.entry.file.now
        (site_view site.now)) }
    ensures fault_is_true { IfErr result (IsReportIn scope.entry.file_index (SiteBreaks
        scope.entry.named.now scope.entry.file.now (site_view site.now))) }
{
    match site {
        Site::Layout { body, .. } => check_layout(scope, body),
        Site::Attributes { .. } => Ok(()),
        Site::Named { .. } => Ok(()),
        Site::Written { .. } => Ok(()),
        Site::Result { .. } => Ok(()),
        Site::EmptyResponse { .. } => Ok(()),
    }
}

/// Each site keeps the rules.
fn check_sites(scope: ValueScope<'_, '_, '_>, sites: &[Site<'_>]) -> Result<(), ValuesFault>
    requires at { slice_get scope.named.now scope.file_index ≡ Some scope.file.now }
    requires known { AreConsts scope.named.now scope.consts.now }
    ensures ok { OnOk result (AllByRecursion (SiteHolds scope.entry.named.now scope.entry.file.now)
        (sites_view sites.now)) }
    ensures fault_is_true { IfErr result (IsReportIn scope.entry.file_index (OneBreaks
        scope.entry.named.now scope.entry.file.now (sites_view sites.now))) }
{
    for site in sites {
        check_site(scope, site)?;
    }
    Ok(())
}

/// A file keeps the rules.
fn check_file(scope: ValueScope<'_, '_, '_>) -> Result<(), ValuesFault>
    requires at { slice_get scope.named.now scope.file_index ≡ Some scope.file.now }
    requires known { AreConsts scope.named.now scope.consts.now }
    ensures ok { OnOk result (FileHolds scope.entry.named.now scope.entry.file.now) }
    ensures fault_is_true { IfErr result (IsReportIn scope.entry.file_index (FileBreaks
        scope.entry.named.now scope.entry.file.now)) }
{
    let sites = file_sites(scope.alloc, scope.file)?;
    check_sites(scope, &sites)
}

/// Checks the numbers of the members of bits and enums (public source: the FIDL language
/// specification, "Bits" and "Enums"). Refused at the name of a member: with DuplicateValue where a
/// member before it has the same number, NotPowerOfTwo where it is one of bits and its number is no
/// power of two; and with Memory where memory ran out. `consts` are the values of these files.
pub fn check_values(
    alloc: Global,
    named: &Named<'_, '_>,
    consts: &Consts,
) -> Result<(), ValuesFault>
    requires { AreConsts named.now consts.now }
    ensures ok { OnOk result (ValuesHold named.now) }
    ensures fault_is_true { IfErr result (IsTrueOfValues named.now) }
{
    for file_index in 0..named.count() {
        let scope = ValueScope {
            alloc,
            named,
            consts,
            file_index,
            file: named.file(file_index),
        };
        check_file(scope)?;
    }
    Ok(())
}
