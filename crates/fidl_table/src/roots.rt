//! The roots of a table.
ghost use Rattle.std.specs.Prelude.{IfOk};
ghost use Rattle.fidl_layout.specs.Roots.{AreRoots};

use fidl_layout::declared_types;
use fidl_types::Types;
use std::alloc::{AllocError, Global};

/// The name of this number; empty where there is none.
fn name_of(names: &[Vec<u8>], number: u32) -> &[u8] {
    match names.get(number as usize) {
        Some(name) => name,
        None => &[],
    }
}

/// The definitions of declared types, in the order of their names.
pub(crate) fn sorted_roots(
    alloc: Global,
    types: &Types<'_, '_>,
    names: &[Vec<u8>],
) -> Result<Vec<u32>, AllocError>
    ensures { IfOk result (λ roots. AreRoots types.now roots.items) }
{
    let Ok(mut roots) = declared_types(alloc, types) else {
        return Err(AllocError);
    };
    roots.sort_by_key(|number| name_of(names, *number))?;
    Ok(roots)
}
