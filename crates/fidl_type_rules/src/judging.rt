//! One written type: whether it is proper at its place.
ghost use Rattle.std.specs.Prelude.{◌<◌, length, List, IfOk, IfSome, IsNone};
ghost use Rattle.std.specs.Prelude.{IsTrue, IfErr, OnOk};
ghost use Rattle.fidl_constraints.specs.Behind.{Core as Plain};
ghost use Rattle.fidl_constraints.specs.BehindViews.{core_view, use_view};
ghost use Rattle.fidl_constraints.specs.declared.parts.Part.{Part};
ghost use Rattle.fidl_declarations.specs.SiteViews.{role_view};
ghost use Rattle.fidl_wire.specs.Term.{Term};
ghost use Rattle.fidl_lower_types.specs.Terms.{TermIs};
ghost use Rattle.fidl_lower_types.specs.TermViews.{AreKnown};
ghost use Rattle.fidl_type_rules.specs.Known.{AreKnownAliases};
ghost use Rattle.fidl_type_rules.specs.Made.{IsOfTerms};
ghost use Rattle.fidl_type_rules.specs.Uses.{IsProper, UseHolds, IsTrueOfUses};
ghost use Rattle.fidl_type_rules.specs.Standing.{Stands, IsImproperThere};

use crate::boxes::other_content;
use crate::fault::UseFault;
use crate::known::{Aliases, node_has_term};
use crate::origins::{culprit_of, failing};
use crate::roles::{presence_suits, role_suits};
use crate::used::Used;
use crate::words::{arguments_suit, is_left_out};
use fidl_constraints::{Gathered, TypeUse, gather, type_span};
use fidl_lower_types::{Sources, head_node, term_of};
use fidl_named::Place;
use std::alloc::AllocError;

/// Whether a type in the file of this number has a term.
pub(crate) fn has_term(
    sources: &Sources<'_, '_, '_>,
    file_index: usize,
    of: TypeUse<'_>,
) -> Result<bool, AllocError>
    requires within { file_index < length sources.now.named.now }
    requires known { AreKnown sources.now }
    ensures yes { IfOk result (λ b. IsTrue b → (e : Term)
        × TermIs sources.now.named.now file_index (use_view of.entry) e) }
    ensures no { IfOk result (λ b. (e : Term)
        → TermIs sources.now.named.now file_index (use_view of.entry) e → IsTrue b) }
{
    Ok(term_of(sources, file_index, of)?.is_some())
}

/// What a type is behind its aliases, with what its constraints give, where it is proper at its
/// place.
fn proper<'f>(
    sources: &Sources<'_, 'f, '_>,
    known: &mut Aliases,
    used: Used<'f>,
) -> Result<Option<Gathered<'f>>, AllocError>
    requires within { used.file_index < length sources.now.named.now }
    requires known { AreKnown sources.now }
    requires aliases { AreKnownAliases sources.now.named.now known.old.keys }
    ensures aliases { OnOk result (AreKnownAliases sources.now.named.now known.new.keys) }
    ensures found { IfOk result (λ found. IfSome found (λ g. IsProper sources.now.named.now
        used.entry.file_index (role_view used.entry.role) (use_view used.entry.of)
        (core_view g.core) g.parts.list.items)) }
    ensures none { IfOk result (λ found. IsNone found → (core : Plain) (parts : List Part)
        → IsProper sources.now.named.now used.entry.file_index (role_view used.entry.role)
        (use_view used.entry.of) core parts → ⊥) }
{
    let at = used.file_index;
    let found = gather(sources.alloc, sources.named, sources.consts, at, used.of)?;
    let Some(gathered) = found else {
        return Ok(None);
    };
    if !role_suits(used, gathered.core.head, &gathered.parts) {
        return Ok(None);
    }
    if !arguments_suit(sources, at, used.of)? {
        return Ok(None);
    }
    let core = &gathered.core;
    let Some(node) = head_node(sources, core.file_index, core.head, &gathered.parts)? else {
        return Ok(None);
    };
    if !node_has_term(sources, known, node)? {
        return Ok(None);
    }
    Ok(Some(gathered))
}

/// The fault of a type that isn't proper by itself.
fn own_fault(sources: &Sources<'_, '_, '_>, used: Used<'_>) -> Result<UseFault, AllocError>
    requires within { used.file_index < length sources.now.named.now }
    requires known { AreKnown sources.now }
    requires stands { Stands sources.now.named.now used }
    requires improper { IsImproperThere sources.now.named.now used }
    requires made { IsOfTerms sources.now.named.now used.file_index (use_view used.of) }
    ensures { IfOk result (IsTrueOfUses sources.now.named.now) }
{
    let file = used.file_index;
    if is_left_out(sources, file, used.of)? {
        let span = type_span(used.of);
        return Ok(UseFault::OutOfProfile {
            place: Place { file, span },
        });
    }
    if let Some(content) = other_content(sources, file, used.of)? {
        let span = type_span(content);
        return Ok(UseFault::BadBox {
            place: Place { file, span },
        });
    }
    let span = type_span(used.of);
    Ok(UseFault::BadConstraint {
        place: Place { file, span },
    })
}

/// The fault of a type that isn't proper: its own, or that of what it is made of.
fn fault_of(sources: &Sources<'_, '_, '_>, used: Used<'_>) -> Result<UseFault, AllocError>
    requires within { used.file_index < length sources.now.named.now }
    requires known { AreKnown sources.now }
    requires stands { Stands sources.now.named.now used }
    requires improper { IsImproperThere sources.now.named.now used }
    ensures { IfOk result (IsTrueOfUses sources.now.named.now) }
{
    let culprit = culprit_of(sources, failing(sources, used)?)?;
    own_fault(sources, culprit)
}

/// A type is proper at its place, and present where that asks for it.
pub(crate) fn check_use(
    sources: &Sources<'_, '_, '_>,
    known: &mut Aliases,
    used: Used<'_>,
) -> Result<(), UseFault>
    requires within { used.file_index < length sources.now.named.now }
    requires known { AreKnown sources.now }
    requires aliases { AreKnownAliases sources.now.named.now known.old.keys }
    requires stands { Stands sources.now.named.now used }
    ensures aliases { OnOk result (AreKnownAliases sources.now.named.now known.new.keys) }
    ensures ok { OnOk result (UseHolds sources.now.named.now used.entry.file_index
        (role_view used.entry.role) (use_view used.entry.of)) }
    ensures fault_is_true { IfErr result (IsTrueOfUses sources.now.named.now) }
{
    let Some(gathered) = proper(sources, known, used)? else {
        return Err(fault_of(sources, used)?);
    };
    if !presence_suits(used.role, gathered.core.head, &gathered.parts) {
        let place = Place {
            file: used.file_index,
            span: type_span(used.of),
        };
        return Err(UseFault::OptionalMember { place });
    }
    Ok(())
}
