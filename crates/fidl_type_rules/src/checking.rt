//! All types that are written in files: whether each is proper at its place.
ghost use Rattle.std.specs.Prelude.{◌≡◌, ◌<◌, length, slice_get, Some, IfErr, OnOk};
ghost use Rattle.std.specs.List.{AllByRecursion, Contains};
ghost use Rattle.fidl_tree.specs.declared.file.File.{File as Tree};
ghost use Rattle.fidl_declarations.specs.Sites.{Site as Plain};
ghost use Rattle.fidl_declarations.specs.SiteViews.{site_view, sites_view};
ghost use Rattle.fidl_lower_types.specs.TermViews.{AreKnown};
ghost use Rattle.fidl_type_rules.specs.Known.{AreKnownAliases};
ghost use Rattle.fidl_type_rules.specs.Uses.{SiteHolds, FileHolds, UsesHold, IsTrueOfUses};
ghost use Rattle.fidl_type_rules.specs.Standing.{StandsIn};

use crate::fault::UseFault;
use crate::judging::check_use;
use crate::known::Aliases;
use crate::roles::wants_type;
use crate::used::used_at;
use fidl_declarations::{Site, file_sites};
use fidl_lower_types::Sources;
use indexmap::IndexSet;

/// What stands at a site keeps the rules.
fn check_site(
    sources: &Sources<'_, '_, '_>,
    known: &mut Aliases,
    file_index: usize,
    site: &Site<'_>,
) -> Result<(), UseFault>
    requires within { file_index < length sources.now.named.now }
    requires known { AreKnown sources.now }
    requires aliases { AreKnownAliases sources.now.named.now known.old.keys }
    requires stands { StandsIn sources.now.named.now file_index (site_view site.now) }
    ensures aliases { OnOk result (AreKnownAliases sources.now.named.now known.new.keys) }
    ensures ok { OnOk result (SiteHolds sources.now.named.now file_index (site_view site.now)) }
    ensures fault_is_true { IfErr result (IsTrueOfUses sources.now.named.now) }
{
    let Some(used) = used_at(file_index, site) else {
        return Ok(());
    };
    if !wants_type(sources, used)? {
        return Ok(());
    }
    check_use(sources, known, used)
}

/// So does what stands at each of some sites.
fn check_sites(
    sources: &Sources<'_, '_, '_>,
    known: &mut Aliases,
    file_index: usize,
    sites: &[Site<'_>],
) -> Result<(), UseFault>
    requires within { file_index < length sources.now.named.now }
    requires known { AreKnown sources.now }
    requires aliases { AreKnownAliases sources.now.named.now known.old.keys }
    requires stand { (site : Plain) → Contains (sites_view sites.now) site
        → StandsIn sources.now.named.now file_index site }
    ensures aliases { OnOk result (AreKnownAliases sources.now.named.now known.new.keys) }
    ensures ok { OnOk result (AllByRecursion (SiteHolds sources.now.named.now file_index)
        (sites_view sites.now)) }
    ensures fault_is_true { IfErr result (IsTrueOfUses sources.now.named.now) }
{
    for site in sites {
        check_site(sources, known, file_index, site)?;
    }
    Ok(())
}

/// So does what stands in the file of this number.
fn check_file(
    sources: &Sources<'_, '_, '_>,
    known: &mut Aliases,
    file_index: usize,
) -> Result<(), UseFault>
    requires within { file_index < length sources.now.named.now }
    requires known { AreKnown sources.now }
    requires aliases { AreKnownAliases sources.now.named.now known.old.keys }
    ensures aliases { OnOk result (AreKnownAliases sources.now.named.now known.new.keys) }
    ensures ok { OnOk result ((f : Tree) → slice_get sources.now.named.now file_index ≡ Some f
        → FileHolds sources.now.named.now file_index f) }
    ensures fault_is_true { IfErr result (IsTrueOfUses sources.now.named.now) }
{
    let sites = file_sites(sources.alloc, sources.named.file(file_index))?;
    check_sites(sources, known, file_index, &sites)
}

/// Checks that each type that is written in the files is proper and suits the place where it stands
/// (public source: the FIDL language specification, "Types"). Refused with BadConstraint where a
/// type's arguments or constraints are of a wrong number or kind, it gives what it has been given,
/// lacks the protocol of an end, or isn't what its place asks for; with BadBox where a box is of no
/// struct; with OptionalMember where a member of a table or a union, or a type after `error`, may
/// be absent; with OutOfProfile where `float32` or `float64` is named; and with Memory where memory
/// ran out.
pub fn check_uses(sources: &Sources<'_, '_, '_>) -> Result<(), UseFault>
    requires known { AreKnown sources.now }
    ensures ok { OnOk result (UsesHold sources.now.named.now) }
    ensures fault_is_true { IfErr result (IsTrueOfUses sources.now.named.now) }
{
    let mut known = IndexSet::new(sources.alloc);
    for file_index in 0..sources.named.count() {
        check_file(sources, &mut known, file_index)?;
    }
    Ok(())
}
