//! The kinds of entries, and the kinds that bools and numbers are read as.
ghost use Rattle.std.specs.Prelude.{◌≡◌, ◌<◌};
ghost use Rattle.fidl_table_format.specs.Section.{header_of, entry_at};
ghost use Rattle.fidl_table_format.specs.Entry.{IsOf};
ghost use Rattle.fidl_table_format.specs.WellFormed.{WellFormed};
ghost use Rattle.fidl_members.specs.Scalars.{scalar_as, scalar_of, type_in};

use fidl_table_format::EntryKind;
use fidl_verify::Table;

/// The kind of an entry.
pub(crate) fn entry_kind(table: &Table<'_>, entry: u32) -> EntryKind
    requires { entry < (header_of table.now).entries }
    ensures of { IsOf result (entry_at table.now entry) }
    ensures well_formed { WellFormed table.now }
{
    match EntryKind::from_number(table.entry(entry).kind) {
        Some(kind) => kind,
        None => unreachable!(),
    }
}

/// The kind that values of an entry are read as, where they are bools or numbers: its own, or the
/// underlying kind of bits and enums.
pub(crate) fn scalar_kind(table: &Table<'_>, entry: u32) -> EntryKind
    requires { entry < (header_of table.now).entries }
    ensures { scalar_as result ≡ scalar_of (type_in table.now entry) }
{
    match entry_kind(table, entry) {
        EntryKind::Bits | EntryKind::Enum => table.entry(entry).underlying(),
        kind => kind,
    }
}
