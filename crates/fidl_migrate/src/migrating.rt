//! From an accepted table to version 2.
ghost use Rattle.std.specs.Prelude.{◌≡◌, ◌↔◌, IsTrue, IfOk};
ghost use Rattle.fidl_table_format.specs.Section.{header_of};
ghost use Rattle.fidl_table_format.specs.WellFormed.{WellFormed};
ghost use Rattle.fidl_migrate.specs.Migrated.{IsMigrated};

use crate::keeping::is_kept;
use crate::writing::{WRITTEN_VERSION, written};
use fidl_table_format::read_header;
use fidl_verify::{Table, verify};
use std::alloc::{AllocError, Global};

/// Whether a table is of the version that is written.
fn is_written(table: &Table<'_>) -> bool
    ensures { IsTrue result ↔ ((header_of table.now).version ≡ 2) }
{
    read_header(table.bytes()).version == WRITTEN_VERSION
}

/// The bytes of a table that is of version 2 already.
fn own_bytes(alloc: Global, table: &Table<'_>) -> Result<Vec<u8>, AllocError>
    ensures same { IfOk result (λ bytes. bytes.items ≡ table.now) }
    ensures well_formed { WellFormed table.now }
{
    let mut bytes = Vec::new(alloc);
    bytes.extend_from_slice(table.bytes())?;
    Ok(bytes)
}

/// The bytes of a table in version 2: the same types, names, roots, protocols and methods, each at
/// its number, and the fewest ranges. A table of version 2 gives its own bytes. The new table is
/// read back and compared with the old one before it is handed out.
///
/// `AllocError`: memory ran out. That nothing else gives it is tested, and not proved.
pub fn migrate(alloc: Global, table: &Table<'_>) -> Result<Vec<u8>, AllocError>
    ensures migrated { IfOk result (λ bytes. IsMigrated table.now bytes.items) }
    ensures same { (header_of table.now).version ≡ 2
        → IfOk result (λ bytes. bytes.items ≡ table.now) }
{
    if is_written(table) {
        return own_bytes(alloc, table);
    }
    let bytes = written(alloc, table)?;
    let Ok(migrated) = verify(&bytes) else {
        return Err(AllocError);
    };
    if !is_written(&migrated) || !is_kept(table, &migrated) {
        return Err(AllocError);
    }
    Ok(bytes)
}
