//! The figures of checked files.
ghost use Rattle.std.specs.Prelude.{IfErr, IfOk};
ghost use Rattle.fidl_ir.specs.Terms.{definitions_view};
ghost use Rattle.fidl_type_shape.specs.Faults.{IsTrueOf};
ghost use Rattle.fidl_types.specs.Types.{TypesAre};
ghost use Rattle.fidl_layout.specs.Faults.{IsTrueOfLayout};
ghost use Rattle.fidl_layout.specs.Laid.{AreFigures};

use crate::fault::LayoutFault;
use fidl_ir::Definition;
use fidl_type_shape::{FigureFault, Figures, find_figures};
use fidl_types::{Types, place_of};
use std::alloc::Global;

/// A fault of definitions at the place of their form.
fn fault_of(types: &Types<'_, '_>, definitions: &[Definition], fault: FigureFault) -> LayoutFault
    requires checked { TypesAre types.now (definitions_view definitions.now) }
    requires is_true { IsTrueOf (definitions_view definitions.now) fault }
    ensures { IsTrueOfLayout types.now result }
{
    let forms = types.forms();
    match fault {
        FigureFault::TooNested { definition } => LayoutFault::TooNested {
            place: place_of(forms, definition),
        },
        FigureFault::TooLarge { definition } => LayoutFault::TooLarge {
            place: place_of(forms, definition),
        },
        FigureFault::TooManyMembers { definition } => LayoutFault::TooManyMembers {
            place: place_of(forms, definition),
        },
        FigureFault::Memory => LayoutFault::Memory,
    }
}

/// The figures of all definitions, within the limits.
pub(crate) fn all_figures(alloc: Global, types: &Types<'_, '_>) -> Result<Figures, LayoutFault>
    ensures ok { IfOk result (AreFigures types.now) }
    ensures fault_is_true { IfErr result (IsTrueOfLayout types.now) }
{
    let definitions = types.definitions();
    match find_figures(alloc, definitions) {
        Ok(figures) => Ok(figures),
        Err(fault) => Err(fault_of(types, definitions, fault)),
    }
}
