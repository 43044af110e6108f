//! The table of a checked library.
ghost use Rattle.std.specs.Prelude.{◌≡◌, IfOk};
ghost use Rattle.fidl_table_format.specs.Section.{header_of};
ghost use Rattle.fidl_table_format.specs.WellFormed.{WellFormed};
ghost use Rattle.fidl_table.specs.Shows.{Shows};

use crate::definitions::definition_names;
use crate::protocols::protocol_entries;
use crate::roots::sorted_roots;
use fidl_protocol::Checked;
use fidl_table_build::{Listing, assemble};
use std::alloc::{AllocError, Global};

/// The bytes of the coding table of a checked library (docs/table.md, "What is written"). The table
/// is of version 2, so an enum has the fewest ranges of values. Its roots are the declared types, by
/// name; its protocols are all, by name, each with its methods by ordinal.
///
/// `AllocError`: memory ran out, or the library has no table: more names, protocols or methods than
/// fields of four bytes count, or a name that is no identifier, which no parsed file has. That other
/// libraries get their table is tested, and not proved.
pub fn write_table(alloc: Global, checked: &Checked<'_, '_>) -> Result<Vec<u8>, AllocError>
    ensures well_formed { IfOk result (λ table. WellFormed table.items) }
    ensures version { IfOk result (λ table. (header_of table.items).version ≡ 2) }
    ensures shows { IfOk result (λ table. Shows checked.now table.items) }
{
    let laid = checked.laid();
    // Its contract has the figures of all definitions, which are within the limits.
    let _figure = laid.figure(0);
    let types = laid.types();
    let names = definition_names(alloc, types.forms())?;
    let roots = sorted_roots(alloc, types, &names)?;
    let protocols = protocol_entries(alloc, types.named(), checked.protocols())?;
    let listing = Listing {
        definitions: types.definitions(),
        figures: laid.figures(),
        names: &names,
        roots: &roots,
        protocols: &protocols,
    };
    let table = assemble(alloc, &listing)?;
    Ok(table)
}
