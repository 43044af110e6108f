//! The names of a table's roots and protocols.
ghost use Rattle.std.specs.Prelude.{◌≡◌, ◌<◌, ◌++◌, codes, map, IfOk, OnOk, OnErr, IsSome};
ghost use Rattle.std.specs.Prelude.{IfSome};
ghost use Rattle.fidl_hints.specs.Nearest.{IsNearest};
ghost use Rattle.fidl_table_format.specs.Section.{header_of};
ghost use Rattle.fidl_text.specs.Outputs.{Writes};
ghost use Rattle.fidl_commands.specs.Naming.{count_of, name_of, names_of, names_text};
ghost use Rattle.fidl_commands.specs.Naming.{argument_of, kind_of};
ghost use Rattle.fidl_commands.specs.declared.naming.Named.TheVariants as the_names;

use fidl_hints::nearest;
use fidl_table_format::{Header, name_bytes, read_header, read_protocol, read_root};
use fidl_text::{Failed, Output};
use fidl_verify::Table;
use std::alloc::{AllocError, Global};
use std::io::Write;
use std::str;

/// Of what the names are.
#[derive(Clone, Copy, PartialEq, Eq, Debug, Drop)]
pub enum Named {
    Roots,
    Protocols,
}

impl Named {
    /// How many there are.
    fn count(self, header: &Header) -> u32
        ensures { result ≡ count_of self header.now }
    {
        match self {
            Named::Roots => header.roots,
            Named::Protocols => header.protocols,
        }
    }

    /// The argument of a command that gives one of the names.
    pub(crate) fn argument(self) -> &'static str
        ensures { result.now ≡ argument_of self }
    {
        match self {
            Named::Roots => "ROOT",
            Named::Protocols => "PROTOCOL",
        }
    }

    /// What has one of the names.
    pub(crate) fn kind(self) -> &'static str
        ensures { result.now ≡ kind_of self }
    {
        match self {
            Named::Roots => "root",
            Named::Protocols => "protocol",
        }
    }
}

/// The name of the root of this number.
fn root_name<'t>(table: &Table<'t>, index: u32) -> &'t [u8]
    requires { index < count_of the_names.Roots (header_of table.now) }
    ensures { result.now ≡ name_of the_names.Roots table.now index }
{
    let bytes = table.bytes();
    let header = read_header(bytes);
    let root = read_root(bytes, &header, index);
    name_bytes(bytes, &header, root.name_place, root.name_length)
}

/// The name of the protocol of this number.
fn protocol_name<'t>(table: &Table<'t>, index: u32) -> &'t [u8]
    requires { index < count_of the_names.Protocols (header_of table.now) }
    ensures { result.now ≡ name_of the_names.Protocols table.now index }
{
    let bytes = table.bytes();
    let header = read_header(bytes);
    let protocol = read_protocol(bytes, &header, index);
    name_bytes(bytes, &header, protocol.name_place, protocol.name_length)
}

/// The name of the root or the protocol of this number.
fn name_of<'t>(table: &Table<'t>, named: Named, index: u32) -> &'t [u8]
    requires { index < count_of named (header_of table.now) }
    ensures { result.now ≡ name_of named table.now index }
{
    match named {
        Named::Roots => root_name(table, index),
        Named::Protocols => protocol_name(table, index),
    }
}

/// Writes the line of a name.
fn write_name<W: Write>(name: &[u8], out: &mut Output<W>) -> Result<(), Failed>
    ensures text { Writes (W.contents out.old.writer) (W.contents out.new.writer)
        (name.now ++ codes "\n") result }
    ensures kept { OnOk result (out.new.failure ≡ out.old.failure) }
    ensures failed { OnErr result (IsSome out.new.failure) }
{
    out.write_all(name)?;
    out.write_all(b"\n")
}

/// Writes the names, a line for each.
pub(crate) fn write_names<W: Write>(
    table: &Table<'_>,
    named: Named,
    out: &mut Output<W>,
) -> Result<(), Failed>
    ensures text { Writes (W.contents out.old.writer) (W.contents out.new.writer)
        (names_text named table.now) result }
    ensures kept { OnOk result (out.new.failure ≡ out.old.failure) }
    ensures failed { OnErr result (IsSome out.new.failure) }
{
    let count = named.count(&read_header(table.bytes()));
    for index in 0..count {
        write_name(name_of(table, named, index), out)?;
    }
    out.flush()
}

/// The names, in their order.
pub(crate) fn names_of<'t>(
    alloc: Global,
    table: &Table<'t>,
    named: Named,
) -> Result<Vec<&'t [u8]>, AllocError>
    ensures { IfOk result (λ names. map (λ n. n.now) names.items ≡ names_of named table.now) }
{
    let count = named.count(&read_header(table.bytes()));
    let mut names = Vec::new(alloc);
    for index in 0..count {
        names.push(name_of(table, named, index))?;
    }
    Ok(names)
}

/// The name that is nearest to a word; None where none is near, or memory ran out.
pub fn near_name<'t>(alloc: Global, table: &Table<'t>, named: Named, word: &str) -> Option<&'t str>
    ensures { IfSome result (λ name. IsNearest word.now (names_of named table.now) name.now) }
{
    let Ok(names) = names_of(alloc, table, named) else {
        return None;
    };
    match nearest(alloc, word.as_bytes(), &names) {
        Ok(Some(name)) => str::from_utf8(name).ok(),
        _ => None,
    }
}
