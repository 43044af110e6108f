//! The records of a table as text (docs/program.md, "table").
ghost use Rattle.std.specs.Prelude.{◌≡◌, ◌<◌, OnOk, OnErr, IsSome};
ghost use Rattle.fidl_table_format.specs.Section.{header_of};
ghost use Rattle.fidl_text.specs.Listing.{kind_name, kind_word, openness_word, entry_line};
ghost use Rattle.fidl_text.specs.Listing.{row_line, value_line, root_line, protocol_line};
ghost use Rattle.fidl_text.specs.Listing.{method_line, record_line, count_of, section_text};
ghost use Rattle.fidl_text.specs.Listing.{sections_text, table_text};
ghost use Rattle.fidl_text.specs.Outputs.{Writes};

use crate::output::Output;
use crate::words::{Word, write_words};
use fidl_streams::Failed;
use fidl_table_format::{
    EntryKind, Header, name_bytes, read_header, read_method, read_protocol, read_root,
};
use fidl_verify::Table;
use std::io::Write;

/// A section of a table that has records.
#[derive(Clone, Copy, Debug, Drop)]
pub(crate) enum Section {
    Entries,
    Rows,
    Values,
    Roots,
    Protocols,
    Methods,
}

/// The name of a kind.
fn kind_name(kind: EntryKind) -> &'static str
    ensures { result.now ≡ kind_name kind }
{
    match kind {
        EntryKind::Bool => "bool",
        EntryKind::Int8 => "int8",
        EntryKind::Int16 => "int16",
        EntryKind::Int32 => "int32",
        EntryKind::Int64 => "int64",
        EntryKind::Uint8 => "uint8",
        EntryKind::Uint16 => "uint16",
        EntryKind::Uint32 => "uint32",
        EntryKind::Uint64 => "uint64",
        EntryKind::Bits => "bits",
        EntryKind::Enum => "enum",
        EntryKind::String => "string",
        EntryKind::Vector => "vector",
        EntryKind::Array => "array",
        EntryKind::Box => "box",
        EntryKind::Struct => "struct",
        EntryKind::Table => "table",
        EntryKind::Union => "union",
        EntryKind::Handle => "handle",
    }
}

/// The name of the kind of a number.
fn kind_word(number: u8) -> &'static str
    ensures { result.now ≡ kind_word number }
{
    match EntryKind::from_number(number) {
        Some(kind) => kind_name(kind),
        None => "-",
    }
}

/// Which methods a protocol may have.
fn openness_word(openness: u32) -> &'static str
    ensures { result.now ≡ openness_word openness }
{
    match openness {
        0 => "closed",
        1 => "ajar",
        _ => "open",
    }
}

/// Writes the line of an entry.
fn write_entry<W: Write>(table: &Table<'_>, index: u32, out: &mut Output<W>) -> Result<(), Failed>
    requires { index < (header_of table.now).entries }
    ensures text { Writes (W.contents out.old.writer) (W.contents out.new.writer)
        (entry_line table.now (header_of table.now) index) result }
    ensures kept { OnOk result (out.new.failure ≡ out.old.failure) }
    ensures failed { OnErr result (IsSome out.new.failure) }
{
    let entry = table.entry(index);
    let words = [
        Word::Number(index as u64),
        Word::Text(kind_word(entry.kind)),
        Word::Number(entry.flags as u64),
        Word::Text("size"),
        Word::Number(entry.size as u64),
        Word::Text("align"),
        Word::Number(entry.alignment as u64),
        Word::Text("nest"),
        Word::Number(entry.nest as u64),
        Word::Text("first"),
        Word::Number(entry.first as u64),
        Word::Text("count"),
        Word::Number(entry.count as u64),
        Word::Text("bound"),
        Word::Number(entry.bound),
        Word::Text("subtype"),
        Word::Number(entry.subtype as u64),
        Word::Text("rights"),
        Word::Number(entry.rights as u64),
        Word::Name(table.entry_name(&entry)),
    ];
    write_words("entry", &words, out)
}

/// Writes the line of a row.
fn write_row<W: Write>(table: &Table<'_>, index: u32, out: &mut Output<W>) -> Result<(), Failed>
    requires { index < (header_of table.now).rows }
    ensures text { Writes (W.contents out.old.writer) (W.contents out.new.writer)
        (row_line table.now (header_of table.now) index) result }
    ensures kept { OnOk result (out.new.failure ≡ out.old.failure) }
    ensures failed { OnErr result (IsSome out.new.failure) }
{
    let row = table.row(index);
    let words = [
        Word::Number(index as u64),
        Word::Number(row.key as u64),
        Word::Number(row.entry as u64),
        Word::Name(table.row_name(&row)),
    ];
    write_words("row", &words, out)
}

/// Writes the line of a record of values.
fn write_value<W: Write>(table: &Table<'_>, index: u32, out: &mut Output<W>) -> Result<(), Failed>
    requires { index < (header_of table.now).values }
    ensures text { Writes (W.contents out.old.writer) (W.contents out.new.writer)
        (value_line table.now (header_of table.now) index) result }
    ensures kept { OnOk result (out.new.failure ≡ out.old.failure) }
    ensures failed { OnErr result (IsSome out.new.failure) }
{
    let range = table.range(index);
    let words = [
        Word::Number(index as u64),
        Word::Number(range.lowest),
        Word::Number(range.highest),
    ];
    match read_header(table.bytes()).version {
        2 => write_words("value", &words, out),
        _ => write_words("value", &words[..2], out),
    }
}

/// Writes the line of a root.
fn write_root<W: Write>(table: &Table<'_>, index: u32, out: &mut Output<W>) -> Result<(), Failed>
    requires { index < (header_of table.now).roots }
    ensures text { Writes (W.contents out.old.writer) (W.contents out.new.writer)
        (root_line table.now (header_of table.now) index) result }
    ensures kept { OnOk result (out.new.failure ≡ out.old.failure) }
    ensures failed { OnErr result (IsSome out.new.failure) }
{
    let bytes = table.bytes();
    let header = read_header(bytes);
    let root = read_root(bytes, &header, index);
    let name = name_bytes(bytes, &header, root.name_place, root.name_length);
    let words = [Word::Name(name), Word::Number(root.entry as u64)];
    write_words("root", &words, out)
}

/// Writes the line of a protocol.
fn write_protocol<W: Write>(
    table: &Table<'_>,
    index: u32,
    out: &mut Output<W>,
) -> Result<(), Failed>
    requires { index < (header_of table.now).protocols }
    ensures text { Writes (W.contents out.old.writer) (W.contents out.new.writer)
        (protocol_line table.now (header_of table.now) index) result }
    ensures kept { OnOk result (out.new.failure ≡ out.old.failure) }
    ensures failed { OnErr result (IsSome out.new.failure) }
{
    let bytes = table.bytes();
    let header = read_header(bytes);
    let protocol = read_protocol(bytes, &header, index);
    let name = name_bytes(bytes, &header, protocol.name_place, protocol.name_length);
    let words = [
        Word::Name(name),
        Word::Text(openness_word(protocol.openness)),
        Word::Number(protocol.methods as u64),
    ];
    write_words("protocol", &words, out)
}

/// Writes the line of a method.
fn write_method<W: Write>(table: &Table<'_>, index: u32, out: &mut Output<W>) -> Result<(), Failed>
    requires { index < (header_of table.now).methods }
    ensures text { Writes (W.contents out.old.writer) (W.contents out.new.writer)
        (method_line table.now (header_of table.now) index) result }
    ensures kept { OnOk result (out.new.failure ≡ out.old.failure) }
    ensures failed { OnErr result (IsSome out.new.failure) }
{
    let bytes = table.bytes();
    let header = read_header(bytes);
    let method = read_method(bytes, &header, index);
    let name = name_bytes(bytes, &header, method.name_place, method.name_length);
    let words = [
        Word::Ordinal(method.ordinal),
        Word::Name(name),
        Word::Number(method.flags as u64),
        Word::Payload(method.request),
        Word::Payload(method.response),
    ];
    write_words("method", &words, out)
}

/// Writes the line of a record of a section.
fn write_record<W: Write>(
    table: &Table<'_>,
    section: Section,
    index: u32,
    out: &mut Output<W>,
) -> Result<(), Failed>
    requires { index < count_of section (header_of table.now) }
    ensures text { Writes (W.contents out.old.writer) (W.contents out.new.writer)
        (record_line section table.now (header_of table.now) index) result }
    ensures kept { OnOk result (out.new.failure ≡ out.old.failure) }
    ensures failed { OnErr result (IsSome out.new.failure) }
{
    match section {
        Section::Entries => write_entry(table, index, out),
        Section::Rows => write_row(table, index, out),
        Section::Values => write_value(table, index, out),
        Section::Roots => write_root(table, index, out),
        Section::Protocols => write_protocol(table, index, out),
        Section::Methods => write_method(table, index, out),
    }
}

impl Section {
    /// How many records it has.
    fn count(self, header: &Header) -> u32
        ensures { result ≡ count_of self header.now }
    {
        match self {
            Section::Entries => header.entries,
            Section::Rows => header.rows,
            Section::Values => header.values,
            Section::Roots => header.roots,
            Section::Protocols => header.protocols,
            Section::Methods => header.methods,
        }
    }
}

/// Writes the lines of a section's records, in their order.
fn write_section<W: Write>(
    table: &Table<'_>,
    section: Section,
    out: &mut Output<W>,
) -> Result<(), Failed>
    ensures text { Writes (W.contents out.old.writer) (W.contents out.new.writer)
        (section_text table.now section) result }
    ensures kept { OnOk result (out.new.failure ≡ out.old.failure) }
    ensures failed { OnErr result (IsSome out.new.failure) }
{
    let count = section.count(&read_header(table.bytes()));
    for index in 0..count {
        write_record(table, section, index, out)?;
    }
    Ok(())
}

/// Writes the lines of some sections.
fn write_sections<W: Write>(
    table: &Table<'_>,
    sections: &[Section],
    out: &mut Output<W>,
) -> Result<(), Failed>
    ensures text { Writes (W.contents out.old.writer) (W.contents out.new.writer)
        (sections_text table.now sections.now) result }
    ensures kept { OnOk result (out.new.failure ≡ out.old.failure) }
    ensures failed { OnErr result (IsSome out.new.failure) }
{
    for section in sections {
        write_section(table, *section, out)?;
    }
    Ok(())
}

/// Writes the lines of all records of a table: each section's in their order.
pub fn write_records<W: Write>(table: &Table<'_>, out: &mut Output<W>) -> Result<(), Failed>
    ensures text { Writes (W.contents out.old.writer) (W.contents out.new.writer)
        (table_text table.now) result }
    ensures kept { OnOk result (out.new.failure ≡ out.old.failure) }
    ensures failed { OnErr result (IsSome out.new.failure) }
{
    let sections = [
        Section::Entries,
        Section::Rows,
        Section::Values,
        Section::Roots,
        Section::Protocols,
        Section::Methods,
    ];
    write_sections(table, &sections, out)?;
    out.flush()
}
