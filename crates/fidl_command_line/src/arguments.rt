//! What a command line gives.
ghost use Rattle.std.specs.Prelude.{◌≡◌, IfOk, IfErr, IfSome, IfNone, map, option_map};
ghost use Rattle.std.specs.List.{AllZip, list_any};
ghost use Rattle.std.specs.Path.{path_buf_bytes, path_join, cur_dir};
ghost use Rattle.clap.specs.Words.{found_of, rows_of, first_of};
ghost use Rattle.fidl_command_line.specs.Handles.{IsHandleText};
ghost use Rattle.fidl_command_line.specs.Arguments.{AreNoHandles, IsDecode, IsNoDecode, is_given};
ghost use Rattle.fidl_command_line.specs.Arguments.{IsCompile, IsNoCompile, IsTable, IsNoTable};
ghost use Rattle.fidl_command_line.specs.Arguments.{IsEncode, IsNoEncode, IsMigrate, IsNoMigrate};
ghost use Rattle.fidl_command_line.specs.Arguments.{IsAskedBy, NamesNoFault, IsExplain};
ghost use Rattle.fidl_command_line.specs.Arguments.{IsNoExplain, IsRead, IsUnread};
ghost use Rattle.fidl_command_line.specs.Arguments.{IsGiven, IsUngiven};
ghost use Rattle.fidl_command_line.specs.Arguments.{handle_texts, is_one_path, listing_of};
ghost use Rattle.fidl_command_line.specs.Arguments.{IsHandleRefusal};

use crate::command_line::command_line;
use crate::content::{Content, Message, content_of, read_message};
use crate::handle::{read_handle, read_number};
use crate::named::{CommandName, Named, named_command};
use crate::streams::{DumpArguments, ServeArguments, read_dump, read_serve};
use crate::unread::Unread;
use clap::ArgMatches;
use fidl_hints::Faults;
use fidl_wire::HandleInfo;
use std::alloc::{AllocError, Global};
use std::convert::AsStr;
use std::path::{Path, PathBuf};

/// What `fidl decode` is given: the table's file, the root's name, and a message.
#[derive(Drop)]
pub struct DecodeArguments<'a> {
    pub table: &'a str,
    pub root: &'a str,
    pub message: Message<'a>,
    pub handles: Vec<HandleInfo>,
}

/// What `fidl encode` is given: the table's file, the root's name, and where the text of a value
/// stands.
#[derive(Clone, Copy, Debug, Drop)]
pub struct EncodeArguments<'a> {
    pub table: &'a str,
    pub root: &'a str,
    pub text: Content<'a>,
}

/// What `fidl compile` is given: the file to write the table to, the sources' files, and whether the
/// line of a fault is shown.
#[derive(Drop)]
pub struct CompileArguments<'a> {
    pub out: &'a str,
    pub snippet: bool,
    pub sources: Vec<&'a str>,
}

/// What `fidl migrate` is given: the file to write the table of version 2 to, and the table's file.
#[derive(Clone, Copy, Debug, Drop)]
pub struct MigrateArguments<'a> {
    pub out: &'a str,
    pub table: &'a str,
}

/// What is printed of a table.
#[derive(Clone, Copy, PartialEq, Eq, Debug, Drop)]
pub enum Listing {
    /// All its records.
    Records,
    /// The names of its roots.
    Roots,
    /// The names of its protocols.
    Protocols,
}

/// What `fidl table` is given: the table's file, and what is printed of it.
#[derive(Clone, Copy, Debug, Drop)]
pub struct TableArguments<'a> {
    pub file: &'a str,
    pub listing: Listing,
}

/// What the command line gives: a command with its arguments.
#[derive(Drop)]
pub enum Arguments<'a> {
    Compile(CompileArguments<'a>),
    Migrate(MigrateArguments<'a>),
    Decode(DecodeArguments<'a>),
    Encode(EncodeArguments<'a>),
    Table(TableArguments<'a>),
    Dump(DumpArguments<'a>),
    Serve(ServeArguments<'a>),
    /// The faults to explain.
    Explain(Faults<'a>),
}

/// The refusal of the handle of this number, from 1.
fn bad_handle(alloc: Global, number: usize) -> Unread
    ensures { IsHandleRefusal number result }
{
    match format!(in alloc;
        "error: --handle number {number}: three decimal numbers of 32 bits are wanted, as in 1:3:0"
    ) {
        Ok(line) => Unread::BadHandle { line },
        Err(_) => Unread::Memory,
    }
}

/// The handles of a message, from their texts.
fn read_handles(alloc: Global, texts: &[&str]) -> Result<Vec<HandleInfo>, Unread>
    ensures ok { IfOk result (λ handles.
        AllZip IsHandleText (map (λ text. text.now) texts.now) handles.items) }
    ensures fault_is_true { IfErr result (AreNoHandles (map (λ text. text.now) texts.now)) }
{
    let mut handles = Vec::new(alloc);
    for text in texts {
        let Some(handle) = read_handle(*text) else {
            return Err(bad_handle(alloc, handles.len() + 1));
        };
        if handles.push(handle).is_err() {
            return Err(Unread::Memory);
        }
    }
    Ok(handles)
}

/// The first value of an argument.
pub(crate) fn value_of<'a>(matches: &ArgMatches<'a>, id: &str) -> Option<&'a str>
    ensures { option_map (λ s. s.now) result ≡ first_of id.now (rows_of (found_of matches.now)) }
{
    matches.get_str(id)
}

/// Whether an option without a value was given.
pub(crate) fn is_given(matches: &ArgMatches<'_>, id: &str) -> bool
    ensures { result ≡ is_given id.now (rows_of (found_of matches.now)) }
{
    match value_of(matches, id) {
        Some(value) => value == "true",
        None => false,
    }
}

/// The handles that were given.
fn given_handles(alloc: Global, matches: &ArgMatches<'_>) -> Result<Vec<HandleInfo>, Unread>
    ensures ok { IfOk result (λ handles.
        AllZip IsHandleText (handle_texts (rows_of (found_of matches.now))) handles.items) }
    ensures fault_is_true { IfErr result
        (AreNoHandles (handle_texts (rows_of (found_of matches.now)))) }
{
    match matches.get_strs("handle") {
        Some(texts) => read_handles(alloc, texts),
        None => Ok(Vec::new(alloc)),
    }
}

/// What `fidl decode` was given.
fn read_decode<'a>(alloc: Global, matches: &ArgMatches<'a>) -> Result<DecodeArguments<'a>, Unread>
    ensures ok { IfOk result (IsDecode (rows_of (found_of matches.now))) }
    ensures fault_is_true { IfErr result (IsNoDecode (rows_of (found_of matches.now))) }
{
    let (Some(table), Some(root), Some(hex)) = (
        value_of(matches, "TABLE"),
        value_of(matches, "ROOT"),
        value_of(matches, "HEX"),
    ) else {
        return Err(Unread::Missing);
    };
    let message = read_message(alloc, hex, is_given(matches, "raw"))?;
    let handles = given_handles(alloc, matches)?;
    Ok(DecodeArguments {
        table,
        root,
        message,
        handles,
    })
}

/// What `fidl encode` was given.
fn read_encode<'a>(matches: &ArgMatches<'a>) -> Result<EncodeArguments<'a>, Unread>
    ensures ok { IfOk result (IsEncode (rows_of (found_of matches.now))) }
    ensures fault_is_true { IfErr result (IsNoEncode (rows_of (found_of matches.now))) }
{
    let (Some(table), Some(root)) = (value_of(matches, "TABLE"), value_of(matches, "ROOT")) else {
        return Err(Unread::Missing);
    };
    let Some(text) = value_of(matches, "TEXT") else {
        return Err(Unread::Missing);
    };
    Ok(EncodeArguments {
        table,
        root,
        text: content_of(text),
    })
}

/// A name as a path from the working directory on.
fn from_here(alloc: Global, name: &str) -> Result<PathBuf, AllocError>
    ensures { IfOk result (λ path. path_buf_bytes path ≡ path_join cur_dir name.now) }
{
    Path::new(".").join(alloc, name)
}

/// Whether one of these names has the path of a name. Links are not followed, and `..` is not
/// resolved.
fn is_among(alloc: Global, name: &str, names: &[&str]) -> Result<bool, AllocError>
    ensures { IfOk result (λ among.
        among ≡ list_any (is_one_path name.now) (map (λ n. n.now) names.now)) }
{
    let path = from_here(alloc, name)?;
    for other in names {
        if path == from_here(alloc, *other)? {
            return Ok(true);
        }
    }
    Ok(false)
}

/// What `fidl compile` was given.
fn read_compile<'a>(alloc: Global, matches: &ArgMatches<'a>) -> Result<CompileArguments<'a>, Unread>
    ensures ok { IfOk result (IsCompile (rows_of (found_of matches.now))) }
    ensures fault_is_true { IfErr result (IsNoCompile (rows_of (found_of matches.now))) }
{
    let Some(out) = value_of(matches, "out") else {
        return Err(Unread::Missing);
    };
    let Some(names) = matches.get_strs("FILE") else {
        return Err(Unread::Missing);
    };
    let is_source = is_among(alloc, out, names)?;
    if is_source {
        return Err(Unread::OutIsSource);
    }
    let sources = Vec::from_slice(alloc, names)?;
    Ok(CompileArguments {
        out,
        snippet: is_given(matches, "snippet"),
        sources,
    })
}

/// Whether two names are those of one path. Links are not followed, and `..` is not resolved.
fn is_one_path(alloc: Global, one: &str, other: &str) -> Result<bool, AllocError>
    ensures { IfOk result (λ same. same ≡ is_one_path one.now other.now) }
{
    let path = from_here(alloc, one)?;
    let other_path = from_here(alloc, other)?;
    Ok(path == other_path)
}

/// What `fidl migrate` was given.
fn read_migrate<'a>(alloc: Global, matches: &ArgMatches<'a>) -> Result<MigrateArguments<'a>, Unread>
    ensures ok { IfOk result (IsMigrate (rows_of (found_of matches.now))) }
    ensures fault_is_true { IfErr result (IsNoMigrate (rows_of (found_of matches.now))) }
{
    let (Some(out), Some(table)) = (value_of(matches, "out"), value_of(matches, "TABLE")) else {
        return Err(Unread::Missing);
    };
    let is_table = is_one_path(alloc, out, table)?;
    if is_table {
        return Err(Unread::OutIsTable);
    }
    Ok(MigrateArguments { out, table })
}

/// What is printed of a table, by the options that were given; None where both were.
fn listing_of(roots: bool, protocols: bool) -> Option<Listing>
    ensures { result ≡ listing_of roots protocols }
{
    match (roots, protocols) {
        (false, false) => Some(Listing::Records),
        (true, false) => Some(Listing::Roots),
        (false, true) => Some(Listing::Protocols),
        (true, true) => None,
    }
}

/// What `fidl table` was given.
fn read_table<'a>(matches: &ArgMatches<'a>) -> Result<TableArguments<'a>, Unread>
    ensures ok { IfOk result (IsTable (rows_of (found_of matches.now))) }
    ensures fault_is_true { IfErr result (IsNoTable (rows_of (found_of matches.now))) }
{
    let Some(file) = value_of(matches, "TABLE") else {
        return Err(Unread::Missing);
    };
    match listing_of(is_given(matches, "roots"), is_given(matches, "protocols")) {
        Some(listing) => Ok(TableArguments { file, listing }),
        None => Err(Unread::TwoLists),
    }
}

/// The faults that words ask for: a name, or a stage and a number.
fn asked_by<'a>(words: &[&'a str]) -> Option<Faults<'a>>
    ensures some { IfSome result (IsAskedBy (map (λ w. w.now) words.now)) }
    ensures none { IfNone result (NamesNoFault (map (λ w. w.now) words.now)) }
{
    if words.len() == 1 {
        return Some(Faults::Named(words[0]));
    }
    if words.len() != 2 {
        return None;
    }
    match read_number(words[1]) {
        Some(number) => Some(Faults::Numbered {
            stage: words[0],
            number,
        }),
        None => None,
    }
}

/// What `fidl explain` was given.
fn read_explain<'a>(matches: &ArgMatches<'a>) -> Result<Faults<'a>, Unread>
    ensures ok { IfOk result (IsExplain (rows_of (found_of matches.now))) }
    ensures fault_is_true { IfErr result (IsNoExplain (rows_of (found_of matches.now))) }
{
    let Some(words) = matches.get_strs("FAULT") else {
        return Err(Unread::Missing);
    };
    match asked_by(words) {
        Some(faults) => Ok(faults),
        None => Err(Unread::BadFault),
    }
}

/// What the command that was named was given.
fn read_command<'a>(alloc: Global, named: Named<'_, 'a>) -> Result<Arguments<'a>, Unread>
    ensures ok { IfOk result
        (IsRead named.entry.command (rows_of (found_of named.entry.matches.now))) }
    ensures fault_is_true { IfErr result
        (IsUnread named.entry.command (rows_of (found_of named.entry.matches.now))) }
{
    let matches = named.matches;
    match named.command {
        CommandName::Compile => Ok(Arguments::Compile(read_compile(alloc, matches)?)),
        CommandName::Migrate => Ok(Arguments::Migrate(read_migrate(alloc, matches)?)),
        CommandName::Decode => Ok(Arguments::Decode(read_decode(alloc, matches)?)),
        CommandName::Encode => Ok(Arguments::Encode(read_encode(matches)?)),
        CommandName::Table => Ok(Arguments::Table(read_table(matches)?)),
        CommandName::Dump => Ok(Arguments::Dump(read_dump(matches)?)),
        CommandName::Serve => Ok(Arguments::Serve(read_serve(matches)?)),
        CommandName::Explain => Ok(Arguments::Explain(read_explain(matches)?)),
    }
}

/// Reads the words of a command line, of which the first is the program's name.
pub fn read_arguments<'a, S: AsStr>(alloc: Global, words: &'a [S]) -> Result<Arguments<'a>, Unread>
    ensures ok { IfOk result (IsGiven (map S.text words.entry.now)) }
    ensures fault_is_true { IfErr result (IsUngiven (map S.text words.entry.now)) }
{
    let matches = match command_line(alloc)?.try_get_matches_from(words) {
        Ok(matches) => matches,
        Err(error) => return Err(Unread::from_clap(alloc, &error)),
    };
    match named_command(&matches) {
        Some(named) => read_command(alloc, named),
        None => Err(Unread::Missing),
    }
}
