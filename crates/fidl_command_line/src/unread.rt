//! Why a command line gives no arguments.
ghost use Rattle.std.specs.Prelude.{◌≡◌};
ghost use Rattle.clap.specs.Values.{kind_of};
ghost use Rattle.fidl_command_line.specs.Arguments.{IsToldByKind};
ghost use Rattle.fidl_command_line.specs.Complaints.{complaint_of};
ghost use Rattle.fidl_command_line.specs.declared.unread.Unread.TheVariants as unread;

use clap::error::ErrorKind;
use std::alloc::{AllocError, Global};

/// Why a command line gives no arguments.
#[derive(Debug, Drop)]
pub enum Unread {
    /// Help or the version was asked for, and is this text.
    Asked { text: String },
    /// The words are no command line, as the line says.
    Wrong { line: String },
    /// The words are not text.
    NotText,
    /// A command or an argument is missing.
    Missing,
    /// HEX is not an even number of hexadecimal digits.
    BadHex,
    /// `--raw` is given with a HEX that is no file and not the standard input.
    BadRaw,
    /// `--roots` and `--protocols` are given together.
    TwoLists,
    /// FAULT is neither a name nor a stage and a number.
    BadFault,
    /// A handle is not three decimal numbers of 32 bits, as the line says; it names the handle by its
    /// number, from 1, among those that are given.
    BadHandle { line: String },
    /// The file to write the table to is one of the sources.
    OutIsSource,
    /// The file to write the migrated table to is the table's.
    OutIsTable,
    /// Memory ran out.
    Memory,
}

impl From<AllocError> for Unread {
    ghost from_gives = { λ _ u. u ≡ unread.Memory };

    fn from(_error: AllocError) -> Unread {
        Unread::Memory
    }
}

/// The subcommand that the message of `clap` suggests in its line `tip: ..`: of several the last,
/// which fits best.
fn suggested(text: &str) -> Option<&str> {
    for part in text.lines() {
        let part = part.trim();
        if let Some(tip) = part.strip_prefix("tip: a similar subcommand exists: ") {
            return Some(tip);
        }
        if let Some(tips) = part.strip_prefix("tip: some similar subcommands exist: ") {
            return match tips.rsplit_once(", ") {
                Some((_, best)) => Some(best),
                None => Some(tips),
            };
        }
    }
    None
}

/// The first paragraph of a text in one line, and the name that it suggests.
fn one_line(alloc: Global, text: &str) -> Result<String, AllocError> {
    let mut line = String::new(alloc);
    for part in text.lines() {
        let part = part.trim();
        if part.is_empty() {
            break;
        }
        if !line.is_empty() {
            line.push(' ')?;
        }
        line.push_str(part)?;
    }
    if let Some(name) = suggested(text) {
        line.push_str("; did you mean ")?;
        line.push_str(name)?;
        line.push('?')?;
    }
    Ok(line)
}

impl Unread {
    /// What the reader of the command line says.
    pub(crate) fn from_clap(alloc: Global, error: &clap::Error) -> Unread
        ensures { IsToldByKind (kind_of error.now) result }
    {
        let Ok(text) = format!(in alloc; "{error}") else {
            return Unread::Memory;
        };
        match error.kind() {
            ErrorKind::OutOfMemory => Unread::Memory,
            ErrorKind::DisplayHelp | ErrorKind::DisplayVersion => Unread::Asked { text },
            _ => match one_line(alloc, text.as_str()) {
                Ok(line) => Unread::Wrong { line },
                Err(_) => Unread::Memory,
            },
        }
    }

    /// The line that says so. Nothing where help or the version was asked for.
    pub fn line(&self) -> &str
        ensures { result.now ≡ complaint_of self.now }
    {
        match self {
            Unread::Asked { .. } => "",
            Unread::Wrong { line } | Unread::BadHandle { line } => line.as_str(),
            Unread::NotText => "error: the arguments: UTF-8 is wanted",
            Unread::Missing => "error: the arguments: a command and what it needs are wanted; \
                fidl --help names them",
            Unread::OutIsSource => "error: --out: a file that is none of the sources is wanted",
            Unread::OutIsTable => "error: --out: a file that is not the table is wanted",
            Unread::BadHex => "error: HEX: an even number of hexadecimal digits is wanted",
            Unread::BadRaw => "error: --raw: @FILE or - is wanted in place of HEX",
            Unread::TwoLists => "error: --protocols: it does not go with --roots",
            Unread::BadFault =>
                "error: FAULT: a name is wanted, or a stage and a number, as in types 9",
            Unread::Memory => "error: out of memory",
        }
    }
}
