//! All methods of a protocol, its own and composed ones.
ghost use Rattle.std.specs.Prelude.{◌≡◌, IfOk};
ghost use Rattle.fidl_protocol.specs.Gathered.{rows_at};

use crate::method::Method;
use std::alloc::{AllocError, Global};

/// The methods that stand in the rows of these numbers, in their order. A row past the last has
/// none.
pub(crate) fn gathered(
    alloc: Global,
    rows: &[Vec<Method>],
    numbers: &[usize],
) -> Result<Vec<Method>, AllocError>
    ensures { IfOk result (λ ms. ms.items ≡ rows_at rows.now numbers.now) }
{
    let mut methods = Vec::new(alloc);
    for number in numbers {
        if let Some(row) = rows.get(*number) {
            methods.extend_from_slice(row)?;
        }
    }
    Ok(methods)
}
