//! The types that are written in files: all that stands in them is within the limits.
ghost use Rattle.std.specs.Prelude.{◌≡◌, ◌<◌, List, length, slice_get, Some, IfErr, IfOk};
ghost use Rattle.std.specs.Prelude.{IsTrue, OnOk};
ghost use Rattle.std.specs.List.{AllByRecursion, Contains};
ghost use Rattle.std.specs.Option.{option_map};
ghost use Rattle.fidl_tree.specs.declared.file.File.{File as Tree};
ghost use Rattle.fidl_constraints.specs.BehindViews.{use_view};
ghost use Rattle.fidl_declarations.specs.Sites.{Site as Plain};
ghost use Rattle.fidl_declarations.specs.SiteViews.{role_view, site_view, sites_view};
ghost use Rattle.fidl_lower_types.specs.TermViews.{AreKnown};
ghost use Rattle.fidl_type_shape.specs.Found.{figures_of};
ghost use Rattle.fidl_layout.specs.Uses.{wanted_type, written_type, IsWritten, StandsIn, UsesFit};
ghost use Rattle.fidl_layout.specs.Shallow.{UseFitsAtFirst, SiteFitsAtFirst, FileFitsAtFirst};
ghost use Rattle.fidl_layout.specs.Laid.{AreFigures};
ghost use Rattle.fidl_layout.specs.Faults.{UseExceeds, IsTrueOfLayout};

use crate::fault::LayoutFault;
use crate::shallow::shallow_term;
use fidl_constraints::{TypeUse, type_span};
use fidl_declarations::{Role, Site, file_sites};
use fidl_lower_types::{Sources, term_of};
use fidl_named::Place;
use fidl_type_shape::{Excess, Figures};
use fidl_types::Types;
use std::alloc::Global;

/// What stands at a place of this role, where it is a type.
fn wanted_type<'f>(role: Role<'_>, of: TypeUse<'f>) -> Option<TypeUse<'f>>
    ensures { option_map use_view result ≡ wanted_type (role_view role.entry) (use_view of.entry) }
{
    match role {
        Role::SecondArgument(_) => None,
        Role::Any | Role::Aliased | Role::Bare | Role::Present | Role::Service => Some(of),
    }
}

/// The type that is written at a site, if one is.
fn written_type<'f>(site: &Site<'f>) -> Option<TypeUse<'f>>
    ensures { option_map use_view result ≡ written_type (site_view site.now) }
{
    match site {
        Site::Named { role, named } => wanted_type(*role, TypeUse::Named(*named)),
        Site::Written {
            role,
            layout,
            constraints,
        } => wanted_type(
            *role,
            TypeUse::Written {
                layout: *layout,
                constraints: *constraints,
            },
        ),
        Site::Layout { .. } => None,
        Site::Result { .. } => None,
        Site::EmptyResponse { .. } => None,
        Site::Attributes { .. } => None,
    }
}

/// The fault of a type at this place that is past a limit.
fn exceeded(excess: Excess, place: Place) -> LayoutFault
    ensures { (files : List Tree) → UseExceeds files excess place → IsTrueOfLayout files result }
{
    match excess {
        Excess::Nest => LayoutFault::TooNested { place },
        Excess::Size => LayoutFault::TooLarge { place },
    }
}

/// Whether all that stands in a type is within the limits, down to its first vector.
fn fits_at_first(
    sources: &Sources<'_, '_, '_>,
    figures: &Figures,
    file_index: usize,
    of: TypeUse<'_>,
) -> Result<bool, LayoutFault>
    requires within { file_index < length sources.now.named.now }
    requires known { AreKnown sources.now }
    ensures ok { IfOk result (λ b. IsTrue b → UseFitsAtFirst sources.now.named.now
        (figures_of figures.now) file_index (use_view of.entry)) }
    ensures fault_is_true { IfErr result (IsTrueOfLayout sources.now.named.now) }
{
    match shallow_term(sources, file_index, of)? {
        None => Ok(false),
        Some(term) => match figures.check_type(&term) {
            Ok(()) => Ok(true),
            Err(_excess) => Ok(false),
        },
    }
}

/// All that stands in a written type is within the limits, down to its first vector at least.
fn check_use(
    sources: &Sources<'_, '_, '_>,
    figures: &Figures,
    file_index: usize,
    of: TypeUse<'_>,
) -> Result<(), LayoutFault>
    requires within { file_index < length sources.now.named.now }
    requires known { AreKnown sources.now }
    requires figures { AreFigures sources.now.named.now figures.now }
    requires written { IsWritten sources.now.named.now file_index (use_view of) }
    ensures ok { OnOk result (UseFitsAtFirst sources.now.named.now (figures_of figures.now)
        file_index (use_view of.entry)) }
    ensures fault_is_true { IfErr result (IsTrueOfLayout sources.now.named.now) }
{
    if fits_at_first(sources, figures, file_index, of)? {
        return Ok(());
    }
    let Some(term) = term_of(sources, file_index, of)? else {
        return Ok(());
    };
    match figures.check_type(&term) {
        Ok(()) => Ok(()),
        Err(excess) => {
            let place = Place {
                file: file_index,
                span: type_span(of),
            };
            Err(exceeded(excess, place))
        }
    }
}

/// So it is in the type that is written at a site.
fn check_site(
    sources: &Sources<'_, '_, '_>,
    figures: &Figures,
    file_index: usize,
    site: &Site<'_>,
) -> Result<(), LayoutFault>
    requires within { file_index < length sources.now.named.now }
    requires known { AreKnown sources.now }
    requires figures { AreFigures sources.now.named.now figures.now }
    requires stands { StandsIn sources.now.named.now file_index (site_view site.now) }
    ensures ok { OnOk result (SiteFitsAtFirst sources.now.named.now (figures_of figures.now)
        file_index (site_view site.now)) }
    ensures fault_is_true { IfErr result (IsTrueOfLayout sources.now.named.now) }
{
    match written_type(site) {
        None => Ok(()),
        Some(of) => check_use(sources, figures, file_index, of),
    }
}

/// So it is at each of some sites.
fn check_sites(
    sources: &Sources<'_, '_, '_>,
    figures: &Figures,
    file_index: usize,
    sites: &[Site<'_>],
) -> Result<(), LayoutFault>
    requires within { file_index < length sources.now.named.now }
    requires known { AreKnown sources.now }
    requires figures { AreFigures sources.now.named.now figures.now }
    requires stand { (site : Plain) → Contains (sites_view sites.now) site
        → StandsIn sources.now.named.now file_index site }
    ensures ok { OnOk result (AllByRecursion
        (SiteFitsAtFirst sources.now.named.now (figures_of figures.now) file_index)
        (sites_view sites.now)) }
    ensures fault_is_true { IfErr result (IsTrueOfLayout sources.now.named.now) }
{
    for site in sites {
        check_site(sources, figures, file_index, site)?;
    }
    Ok(())
}

/// So it is in the file of this number.
fn check_file(
    sources: &Sources<'_, '_, '_>,
    figures: &Figures,
    file_index: usize,
) -> Result<(), LayoutFault>
    requires within { file_index < length sources.now.named.now }
    requires known { AreKnown sources.now }
    requires figures { AreFigures sources.now.named.now figures.now }
    ensures ok { OnOk result ((f : Tree) → slice_get sources.now.named.now file_index ≡ Some f
        → FileFitsAtFirst sources.now.named.now (figures_of figures.now) file_index f) }
    ensures fault_is_true { IfErr result (IsTrueOfLayout sources.now.named.now) }
{
    let sites = file_sites(sources.alloc, sources.named.file(file_index))?;
    check_sites(sources, figures, file_index, &sites)
}

/// All types that are written in the files are within the limits. What a vector holds is written
/// too, so each type is asked only down to its first vector.
pub(crate) fn check_uses(
    alloc: Global,
    types: &Types<'_, '_>,
    figures: &Figures,
) -> Result<(), LayoutFault>
    requires { AreFigures types.now figures.now }
    ensures ok { OnOk result (UsesFit types.now (figures_of figures.now)) }
    ensures fault_is_true { IfErr result (IsTrueOfLayout types.now) }
{
    let sources = types.sources(alloc);
    for file_index in 0..sources.named.count() {
        check_file(&sources, figures, file_index)?;
    }
    Ok(())
}
