//! The arguments of the commands over streams of frames.
ghost use Rattle.std.specs.Prelude.{◌≡◌, IfOk, IfErr};
ghost use Rattle.clap.specs.Words.{found_of, rows_of};
ghost use Rattle.fidl_command_line.specs.Arguments.{IsDump, IsNoDump, IsServe, IsNoServe};

use crate::arguments::{is_given, value_of};
use crate::unread::Unread;
use clap::ArgMatches;

/// What `fidl dump` is given: the table's file, the protocol's name, the file of the frames, and
/// whether these are responses and events.
#[derive(Clone, Copy, Debug, Drop)]
pub struct DumpArguments<'a> {
    pub table: &'a str,
    pub protocol: &'a str,
    pub file: &'a str,
    pub response: bool,
}

/// What `fidl serve` is given: the table's file, and the script's.
#[derive(Clone, Copy, Debug, Drop)]
pub struct ServeArguments<'a> {
    pub table: &'a str,
    pub script: &'a str,
}

/// What `fidl dump` was given.
pub(crate) fn read_dump<'a>(matches: &ArgMatches<'a>) -> Result<DumpArguments<'a>, Unread>
    ensures ok { IfOk result (IsDump (rows_of (found_of matches.now))) }
    ensures fault_is_true { IfErr result (IsNoDump (rows_of (found_of matches.now))) }
{
    let (Some(table), Some(protocol)) = (value_of(matches, "TABLE"), value_of(matches, "PROTOCOL"))
    else {
        return Err(Unread::Missing);
    };
    let Some(file) = value_of(matches, "FILE") else {
        return Err(Unread::Missing);
    };
    Ok(DumpArguments {
        table,
        protocol,
        file,
        response: is_given(matches, "response"),
    })
}

/// What `fidl serve` was given.
pub(crate) fn read_serve<'a>(matches: &ArgMatches<'a>) -> Result<ServeArguments<'a>, Unread>
    ensures ok { IfOk result (IsServe (rows_of (found_of matches.now))) }
    ensures fault_is_true { IfErr result (IsNoServe (rows_of (found_of matches.now))) }
{
    match (value_of(matches, "TABLE"), value_of(matches, "SCRIPT")) {
        (Some(table), Some(script)) => Ok(ServeArguments { table, script }),
        _ => Err(Unread::Missing),
    }
}
