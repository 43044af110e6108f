//! Laying out checked files.
ghost use Rattle.std.specs.Prelude.{◌≡◌, List, IfErr, IfOk, OnOk};
ghost use Rattle.fidl_wire.specs.Term.{Term};
ghost use Rattle.fidl_wire.specs.Figure.{Declarations};
ghost use Rattle.fidl_types.specs.Types.{TypesAre};
ghost use Rattle.fidl_limits.specs.declared.limits.TheConstants.{MAX_ENTRIES};
ghost use Rattle.fidl_reachable_types.specs.Faults.{AreTooMany};
ghost use Rattle.fidl_layout.specs.Roots.{AreRoots};
ghost use Rattle.fidl_layout.specs.Laid.{AreLaidOut, TypesFit};
ghost use Rattle.fidl_layout.specs.Faults.{IsTrueOfLayout};

use crate::fault::LayoutFault;
use crate::figures::all_figures;
use crate::laid::Laid;
use crate::roots::declared_types;
use crate::uses::check_uses;
use crate::written::check_values;
use fidl_limits::MAX_ENTRIES;
use fidl_reachable_types::{EntryFault, reached_types};
use fidl_types::{Types, place_of};
use std::alloc::Global;

/// The declared types, which are these roots, reach too many types; reported at the last of them.
fn too_many(types: &Types<'_, '_>, roots: &[u32]) -> LayoutFault
    requires roots { AreRoots types.now roots.now }
    requires many { (ts : List Term) × TypesAre types.now ts × AreTooMany ts roots.now MAX_ENTRIES }
    ensures { IsTrueOfLayout types.now result }
{
    if roots.is_empty() {
        // Without roots no type is reached.
        return LayoutFault::Memory;
    }
    let root = roots[roots.len() - 1];
    LayoutFault::TooManyTypes {
        place: place_of(types.forms(), root as usize),
    }
}

/// The declared types reach no more types than a table may have.
fn check_types(alloc: Global, types: &Types<'_, '_>) -> Result<(), LayoutFault>
    ensures ok { OnOk result ((ts : List Term) → TypesAre types.now ts → TypesFit types.now ts) }
    ensures fault_is_true { IfErr result (IsTrueOfLayout types.now) }
{
    let roots = declared_types(alloc, types)?;
    match reached_types(alloc, types.definitions(), &roots, MAX_ENTRIES as usize) {
        Ok(_) => Ok(()),
        Err(EntryFault::TooMany) => Err(too_many(types, &roots)),
        Err(EntryFault::Memory) => Err(LayoutFault::Memory),
    }
}

/// Finds size, alignment and nest of all definitions of checked files, and where the members of
/// structs stand (public source: the FIDL wire format, "Size and alignment"). `types` are spent
/// either way. What each refusal means says `LayoutFault`.
pub fn lay_out<'f, 's>(alloc: Global, types: Types<'f, 's>) -> Result<Laid<'f, 's>, LayoutFault>
    ensures ok { IfOk result (λ laid. laid ≡ types.entry) }
    ensures kept { OnOk result ((ds : Declarations) × AreLaidOut types.entry ds) }
    ensures fault_is_true { IfErr result (IsTrueOfLayout types.entry) }
{
    check_values(&types)?;
    let figures = all_figures(alloc, &types)?;
    check_uses(alloc, &types, &figures)?;
    check_types(alloc, &types)?;
    Ok(Laid { types, figures })
}
