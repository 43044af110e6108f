//! The calls of the compiler, from a source to its table.
ghost use Rattle.std.specs.Prelude.{IfOk};
ghost use Rattle.fidl_table_format.specs.WellFormed.{WellFormed};

use crate::telling::{Stop, done, refused};
use fidl_compile::{CompileFault, compile};
use fidl_const::evaluate;
use fidl_layout::lay_out;
use fidl_named::Named;
use fidl_names::LibrarySet;
use fidl_parse::parse;
use fidl_protocol::{Checked, protocols};
use fidl_span::lex;
use fidl_table::write_table;
use fidl_text::Output;
use fidl_tree::{File, yield_tokens};
use fidl_types::{Types, check};
use std::alloc::Global;
use std::io::Write;

/// The tree of a source.
fn tree_of<'s, W: Write>(
    alloc: Global,
    source: &'s [u8],
    out: &mut Output<W>,
) -> Result<File<'s>, Stop> {
    let words = match lex(alloc, source) {
        Ok(words) => words,
        Err(fault) => return Err(refused(out, "lex", fault.name())),
    };
    done(out, "lex")?;
    let tree = match parse(alloc, &words, source) {
        Ok(tree) => tree,
        Err(fault) => return Err(refused(out, "parse", fault.name())),
    };
    done(out, "parse")?;
    match yield_tokens(alloc, &tree) {
        Ok(_words) => done(out, "yield_tokens")?,
        Err(_) => return Err(refused(out, "yield_tokens", "Memory")),
    }
    Ok(tree)
}

/// Adds a file to a set of libraries, and once more to the same set where that was refused.
fn add_file<'f, 's, W: Write>(
    set: &mut LibrarySet<'f, 's>,
    file: &'f File<'s>,
    out: &mut Output<W>,
) -> Result<(), Stop> {
    if let Err(fault) = set.add(file) {
        let Stop = refused(out, "add", fault.name());
        if let Err(fault) = set.add(file) {
            return Err(refused(out, "add", fault.name()));
        }
    }
    done(out, "add")
}

/// The names of a set of libraries, resolved.
fn named_of<'f, 's, W: Write>(
    set: LibrarySet<'f, 's>,
    out: &mut Output<W>,
) -> Result<Named<'f, 's>, Stop> {
    match set.resolve() {
        Ok(named) => {
            done(out, "resolve")?;
            Ok(named)
        }
        Err(fault) => Err(refused(out, "resolve", fault.name())),
    }
}

/// The types of named libraries.
fn types_of<'f, 's, W: Write>(
    alloc: Global,
    named: Named<'f, 's>,
    out: &mut Output<W>,
) -> Result<Types<'f, 's>, Stop> {
    let consts = match evaluate(alloc, &named) {
        Ok(consts) => consts,
        Err(fault) => return Err(refused(out, "evaluate", fault.name())),
    };
    done(out, "evaluate")?;
    match check(alloc, named, consts) {
        Ok(types) => {
            done(out, "check")?;
            Ok(types)
        }
        Err(fault) => Err(refused(out, "check", fault.name())),
    }
}

/// The checked protocols of types.
fn checked_of<'f, 's, W: Write>(
    alloc: Global,
    types: Types<'f, 's>,
    out: &mut Output<W>,
) -> Result<Checked<'f, 's>, Stop> {
    let laid = match lay_out(alloc, types) {
        Ok(laid) => laid,
        Err(fault) => return Err(refused(out, "lay_out", fault.name())),
    };
    done(out, "lay_out")?;
    match protocols(alloc, laid) {
        Ok(checked) => {
            done(out, "protocols")?;
            Ok(checked)
        }
        Err(fault) => Err(refused(out, "protocols", fault.name())),
    }
}

/// The table of a source, by each call of the compiler.
pub(crate) fn table_of<W: Write>(
    alloc: Global,
    source: &[u8],
    out: &mut Output<W>,
) -> Result<Vec<u8>, Stop>
    ensures { IfOk result (λ table. WellFormed table.items) }
{
    let tree = tree_of(alloc, source, out)?;
    let mut set = LibrarySet::new(alloc);
    add_file(&mut set, &tree, out)?;
    let named = named_of(set, out)?;
    let types = types_of(alloc, named, out)?;
    let checked = checked_of(alloc, types, out)?;
    match write_table(alloc, &checked) {
        Ok(table) => {
            done(out, "write_table")?;
            Ok(table)
        }
        Err(_) => Err(refused(out, "write_table", "Memory")),
    }
}

/// Compiles a source by one call.
pub(crate) fn compile_whole<W: Write>(
    alloc: Global,
    source: &[u8],
    out: &mut Output<W>,
) -> Result<(), Stop> {
    match compile(alloc, &[source]) {
        Ok(_table) => done(out, "compile"),
        Err(CompileFault::Memory) => Err(refused(out, "compile", "Memory")),
        Err(_) => Err(refused(out, "compile", "another fault")),
    }
}
