//! The paths in values.
ghost use Rattle.std.specs.Prelude.{◌≡◌, ◌++◌, map, OnOk, IfOk};
ghost use Rattle.fidl_tree.specs.Syntax.{operands_of};
ghost use Rattle.fidl_tree.specs.Views.{value_view, or_operand_view, operand_view};
ghost use Rattle.fidl_named.specs.Places.{value_paths, operands_paths, operand_paths};
ghost use Rattle.fidl_named.specs.ReferenceViews.{paths_view};

use fidl_tree::{Operand, OrOperand, Path, Value};
use std::alloc::{AllocError, Global};

/// The paths in a value, after those before them.
#[cycle(paths)]
fn push_value<'f>(paths: &mut Vec<&'f Path>, value: &'f Value) -> Result<(), AllocError>
    ensures { OnOk result (paths_view paths.new.items ≡ paths_view paths.old.items
        ++ value_paths (value_view value.now)) }
{
    push_operand(paths, &value.first)?;
    push_or_operands(paths, &value.rest)
}

#[cycle(paths)]
fn push_or_operands<'f>(
    paths: &mut Vec<&'f Path>,
    or_operands: &'f [OrOperand],
) -> Result<(), AllocError>
    ensures { OnOk result (paths_view paths.new.items ≡ paths_view paths.old.items
        ++ operands_paths (operands_of (map or_operand_view or_operands.now))) }
{
    for or_operand in or_operands {
        push_operand(paths, &or_operand.operand)?;
    }
    Ok(())
}

#[cycle(paths)]
fn push_operand<'f>(paths: &mut Vec<&'f Path>, operand: &'f Operand) -> Result<(), AllocError>
    ensures { OnOk result (paths_view paths.new.items ≡ paths_view paths.old.items
        ++ operand_paths (operand_view operand.now)) }
{
    match operand {
        Operand::Number { .. } => Ok(()),
        Operand::String(_) => Ok(()),
        Operand::True(_) => Ok(()),
        Operand::False(_) => Ok(()),
        Operand::Path(path) => {
            paths.push(path)?;
            Ok(())
        }
        Operand::Group { value, .. } => push_value(paths, value),
    }
}

/// The paths in a value, in order.
pub fn value_paths<'f>(alloc: Global, value: &'f Value) -> Result<Vec<&'f Path>, AllocError>
    ensures { IfOk result (λ found. paths_view found.items ≡ value_paths (value_view value.now)) }
{
    let mut paths = Vec::new(alloc);
    push_value(&mut paths, value)?;
    Ok(paths)
}
