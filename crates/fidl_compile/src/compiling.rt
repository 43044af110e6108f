//! From sources to their table.
ghost use Rattle.std.specs.Prelude.{IfOk, IfErr, map};
ghost use Rattle.fidl_table_format.specs.WellFormed.{WellFormed};
ghost use Rattle.fidl_reading.specs.Written.{HasDistinctNames};
ghost use Rattle.fidl_compile.specs.Sources.{IsTableOf};
ghost use Rattle.fidl_compile.specs.Stages.{AreRefused};

use crate::checking::{add_files, check_files};
use crate::fault::CompileFault;
use crate::sources::{Trees, read_sources};
use fidl_table::write_table;
use std::alloc::Global;

/// Compiles the sources of libraries to the bytes of their coding table (docs/table.md, "What is
/// written"; public source: the FIDL language specification). The sources are all files of all
/// libraries, in any order; each file belongs to the library that it names. In the table no table or
/// union has two members of one name, so that texts can name them.
///
/// Refused with the fault of the first stage that refuses them: file by file the words, the tree
/// and the declared names, and then, for all files, the meanings of names, the values of constants,
/// the types, the limits and the protocols. `Memory`: memory ran out, or more names, protocols or
/// methods are declared than a table's fields of four bytes count.
pub fn compile(alloc: Global, sources: &[&[u8]]) -> Result<Vec<u8>, CompileFault>
    ensures well_formed { IfOk result (λ table. WellFormed table.items) }
    ensures shows { IfOk result (λ table. IsTableOf (map (λ s. s.now) sources.now) table.items) }
    ensures distinct { IfOk result (λ table. HasDistinctNames table.items) }
    ensures fault_is_true { IfErr result (AreRefused (map (λ s. s.now) sources.now)) }
{
    let Trees { files, stop } = read_sources(alloc, sources)?;
    let set = add_files(alloc, &files)?;
    if let Some(fault) = stop {
        return Err(fault);
    }
    let checked = check_files(alloc, set)?;
    Ok(write_table(alloc, &checked)?)
}
