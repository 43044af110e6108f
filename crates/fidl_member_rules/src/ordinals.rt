//! The ordinals of tables and unions.
ghost use Rattle.std.specs.Prelude.{◌≡◌, ◌++◌, ◌∷◌, [], map, Contains, IfOk, IfErr, OnOk};
ghost use Rattle.fidl_tree.specs.Syntax.{members_of};
ghost use Rattle.fidl_tree.specs.Views.{ordinal_member_view, body_view};
ghost use Rattle.fidl_consts.specs.Literals.{number_of};
ghost use Rattle.fidl_member_rules.specs.Ordinals.{own_ordinal, member_ordinals, layout_ordinals};
ghost use Rattle.fidl_member_rules.specs.Ordinals.{last_ordinal, IsOrdinal, OrdinalsHold};
ghost use Rattle.fidl_member_rules.specs.Rules.{ordinal_rule, duplicate_rule, OrdinalsBreak};
ghost use Rattle.fidl_member_rules.specs.Rules.{IsReport, IsReportIn};

use crate::fault::RuleFault;
use fidl_consts::number_value;
use fidl_named::Place;
use fidl_span::Span;
use fidl_tree::{File, LayoutBody, OrdinalBody, OrdinalMember};
use indexmap::IndexSet;
use std::alloc::{AllocError, Global};

/// The ordinal of a member. A reserved one counts.
fn own_ordinal(member: &OrdinalMember) -> Span
    ensures { own_ordinal (ordinal_member_view member.now) ≡ result ∷ [] }
{
    match &member.body {
        OrdinalBody::Reserved(_) => member.ordinal,
        OrdinalBody::Typed { .. } => member.ordinal,
    }
}

/// Those of members, in order.
fn member_ordinals(alloc: Global, members: &[OrdinalMember]) -> Result<Vec<Span>, AllocError>
    ensures { IfOk result (λ found. found.items
        ≡ member_ordinals (members_of (map ordinal_member_view members.now))) }
{
    let mut found = Vec::new(alloc);
    for member in members {
        found.push(own_ordinal(member))?;
    }
    Ok(found)
}

/// Those of a layout.
pub(crate) fn layout_ordinals(alloc: Global, body: &LayoutBody) -> Result<Vec<Span>, AllocError>
    ensures { IfOk result (λ found. found.items ≡ layout_ordinals (body_view body.now)) }
{
    match body {
        LayoutBody::Values(_) => Ok(Vec::new(alloc)),
        LayoutBody::Struct(_) => Ok(Vec::new(alloc)),
        LayoutBody::Table(layout) => member_ordinals(alloc, &layout.members),
        LayoutBody::Union(layout) => member_ordinals(alloc, &layout.members),
    }
}

/// The last ordinal that a layout may have.
pub(crate) fn last_ordinal(body: &LayoutBody) -> u64
    ensures { result ≡ last_ordinal (body_view body.now) }
{
    match body {
        LayoutBody::Values(_) => 0,
        LayoutBody::Struct(_) => 0,
        LayoutBody::Table(_) => 64,
        LayoutBody::Union(_) => 4_294_967_295,
    }
}

/// The number of an ordinal, which is at most the last.
fn read_ordinal(text: &[u8], last: u64, place: Place) -> Result<u64, RuleFault>
    ensures number { IfOk result (λ number. number ≡ number_of text.now) }
    ensures within { IfOk result (IsOrdinal last) }
    ensures fault_is_true { IfErr result (IsReport (λ rule at. (rule ≡ ordinal_rule) × (at ≡ place)
        × (IsOrdinal last (number_of text.now) → ⊥))) }
{
    match number_value(text) {
        None => Err(RuleFault::BadOrdinal { place }),
        Some(number) => {
            if number == 0 || last < number {
                return Err(RuleFault::BadOrdinal { place });
            }
            Ok(number)
        }
    }
}

/// Adds a number, which must be new.
fn add_number(numbers: &mut IndexSet<u64>, number: u64, place: Place) -> Result<(), RuleFault>
    ensures ok { OnOk result (numbers.new.keys ≡ numbers.old.keys ++ number ∷ []) }
    ensures fresh { OnOk result (Contains numbers.old.keys number → ⊥) }
    ensures fault_is_true { IfErr result (IsReport (λ rule at. (rule ≡ duplicate_rule)
        × (at ≡ place) × Contains numbers.old.keys number)) }
{
    if numbers.contains(&number) {
        return Err(RuleFault::DuplicateOrdinal { place });
    }
    numbers.insert(number)?;
    Ok(())
}

/// Each ordinal is from 1 to the last, and no two are the same.
pub(crate) fn check_ordinals(
    alloc: Global,
    file: &File<'_>,
    file_index: usize,
    last: u64,
    ordinals: &[Span],
) -> Result<(), RuleFault>
    ensures ok { OnOk result (OrdinalsHold file.now.src.now last ordinals.now) }
    ensures fault_is_true { IfErr result (IsReportIn file_index
        (OrdinalsBreak file.now.src.now last ordinals.now)) }
{
    let mut numbers = IndexSet::new(alloc);
    for span in ordinals {
        let place = Place {
            file: file_index,
            span: *span,
        };
        let number = read_ordinal(file.text(*span), last, place)?;
        add_number(&mut numbers, number, place)?;
    }
    Ok(())
}
