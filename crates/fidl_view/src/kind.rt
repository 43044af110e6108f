//! The kinds of entries.
ghost use Rattle.std.specs.Prelude.{◌<◌};
ghost use Rattle.fidl_table_format.specs.Section.{header_of, entry_at};
ghost use Rattle.fidl_table_format.specs.Entry.{IsOf};
ghost use Rattle.fidl_table_format.specs.WellFormed.{WellFormed};

use fidl_decode::Decoded;
use fidl_table_format::EntryKind;

/// The kind of an entry of a message's table.
#[inline(always)]
pub(crate) fn entry_kind(decoded: &Decoded<'_, '_, '_>, index: u32) -> EntryKind
    requires { index < (header_of decoded.now.table).entries }
    ensures of { IsOf result (entry_at decoded.now.table index) }
    ensures well_formed { WellFormed decoded.now.table }
{
    let entry = decoded.table().entry(index);
    match EntryKind::from_number(entry.kind) {
        Some(kind) => kind,
        None => unreachable!(),
    }
}
