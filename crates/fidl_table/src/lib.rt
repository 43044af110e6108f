//! The coding table, as its users know it: the readers of its records, and the writer
//! (docs/table.md).
#![tactic(auto)]

mod definitions;
mod found;
mod methods;
mod protocols;
mod roots;
pub mod worked;
mod writing;

pub use fidl_table_format::{
    Entry, EntryKind, HEADER_SIZE, Header, MethodRecord, ProtocolRecord, Root, Row, ValueRange,
    is_less, name_bytes, number_bits, read_entry, read_header, read_method, read_protocol,
    read_range, read_root, read_row,
};
pub use fidl_wire::{u16_at, u32_at, u64_at};
pub use writing::write_table;
