//! The rules of the header.
ghost use Rattle.std.specs.Prelude.{◌≡◌, ◌↔◌, IsTrue, IfOk, IfErr, length};
ghost use Rattle.fidl_table_format.specs.Section.{header_of, table_length};
ghost use Rattle.fidl_table_format.specs.WellFormed.{table_magic, IsVersion, HasHeader};
ghost use Rattle.fidl_verify.specs.Faults.{Breaks};

use crate::fault::TableFault;
use crate::sections::Sections;
use fidl_table_format::{HEADER_SIZE, Header, read_header, rows_start, values_size};
use fidl_wire::MAX_ENTRIES;

/// "FCT2", as a number.
const TABLE_MAGIC: u32 = 0x3254_4346;

/// How long a table with this header is.
fn length_of(header: &Header) -> u64
    ensures { result ≡ table_length header.now }
{
    HEADER_SIZE as u64
        + 40 * u64::from(header.entries)
        + 16 * u64::from(header.rows)
        + values_size(header, header.values) as u64
        + 12 * u64::from(header.roots)
        + 16 * u64::from(header.protocols)
        + 32 * u64::from(header.methods)
        + u64::from(header.names)
}

/// Whether the version is read, and what states nothing is zero.
fn is_version(header: &Header) -> bool
    ensures { IsTrue result ↔ IsVersion header.now }
{
    matches!(header.version, 1 | 2) && header.reserved == 0 && header.reserved_end == 0
}

/// The sections of a table whose header is right.
pub(crate) fn read_sections(bytes: &[u8]) -> Result<Sections<'_>, TableFault>
    ensures value { IfOk result (λ s. s.bytes.now ≡ bytes.now) }
    ensures ok { IfOk result (λ s. HasHeader bytes.now s.header) }
    ensures fault_is_true { IfErr result (Breaks bytes.now) }
{
    if bytes.len() < HEADER_SIZE {
        return Err(TableFault::Truncated { at: 0 });
    }
    let header = read_header(bytes);
    if header.magic != TABLE_MAGIC {
        return Err(TableFault::BadMagic { at: 0 });
    }
    if !is_version(&header) {
        return Err(TableFault::BadVersion { at: 0 });
    }
    let table_length = length_of(&header);
    if (bytes.len() as u64) < table_length {
        return Err(TableFault::Truncated { at: 0 });
    }
    if table_length < bytes.len() as u64 {
        return Err(TableFault::Surplus { at: 0 });
    }
    if header.entries > MAX_ENTRIES {
        return Err(TableFault::BadIndex { at: 0 });
    }
    let rows = rows_start(&header);
    Ok(Sections {
        bytes,
        header,
        rows,
    })
}
