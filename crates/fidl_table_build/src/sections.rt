//! The sections of a table, and the bytes that they make.
ghost use Rattle.fidl_reachable_types.specs.Growing.{IsKept};

use crate::entries::push_entries;
use crate::listing::Listing;
use crate::numbers::{push_u32, small};
use crate::protocols::{push_methods, push_protocols, push_roots};
use crate::rows::push_rows;
use crate::values::push_values;
use fidl_reachable_types::TypeList;
use std::alloc::{AllocError, Global};

/// The bytes of each section of a table, on the way to all of them.
#[derive(Drop)]
pub(crate) struct Sections {
    pub entries: Vec<u8>,
    pub rows: Vec<u8>,
    pub values: Vec<u8>,
    pub roots: Vec<u8>,
    pub protocols: Vec<u8>,
    pub methods: Vec<u8>,
    pub names: Vec<u8>,
}

impl Sections {
    /// Sections without records.
    fn new(alloc: Global) -> Sections {
        Sections {
            entries: Vec::new(alloc),
            rows: Vec::new(alloc),
            values: Vec::new(alloc),
            roots: Vec::new(alloc),
            protocols: Vec::new(alloc),
            methods: Vec::new(alloc),
            names: Vec::new(alloc),
        }
    }

    /// Appends the header: the mark, the version, and how many records each section has.
    fn push_header(&self, table: &mut Vec<u8>) -> Result<(), AllocError> {
        table.extend_from_slice(b"FCT2\x02\0\0\0")?;
        push_u32(table, small(self.entries.len() / 40)?)?;
        push_u32(table, small(self.rows.len() / 16)?)?;
        push_u32(table, small(self.values.len() / 16)?)?;
        push_u32(table, small(self.roots.len() / 12)?)?;
        push_u32(table, small(self.protocols.len() / 16)?)?;
        push_u32(table, small(self.methods.len() / 32)?)?;
        push_u32(table, small(self.names.len())?)?;
        push_u32(table, 0)
    }

    /// The bytes of the table.
    fn table(&self, alloc: Global) -> Result<Vec<u8>, AllocError> {
        let mut table = Vec::new(alloc);
        self.push_header(&mut table)?;
        table.extend_from_slice(&self.entries)?;
        table.extend_from_slice(&self.rows)?;
        table.extend_from_slice(&self.values)?;
        table.extend_from_slice(&self.roots)?;
        table.extend_from_slice(&self.protocols)?;
        table.extend_from_slice(&self.methods)?;
        table.extend_from_slice(&self.names)?;
        Ok(table)
    }
}

/// The bytes of a table whose entries are the types of a list. Names stand in the order entries,
/// rows, roots, protocols, methods.
pub(crate) fn table_bytes(
    alloc: Global,
    listing: &Listing<'_>,
    list: &TypeList<'_>,
) -> Result<Vec<u8>, AllocError>
    requires { IsKept list.now }
{
    let mut sections = Sections::new(alloc);
    push_entries(alloc, listing, list, &mut sections)?;
    push_rows(alloc, listing, list, &mut sections)?;
    push_values(listing, list, &mut sections.values)?;
    push_roots(alloc, listing, list, &mut sections)?;
    push_protocols(listing.protocols, &mut sections)?;
    push_methods(alloc, list, listing.protocols, &mut sections)?;
    sections.table(alloc)
}
