//! The command line of the program, as `clap` reads it.
ghost use Rattle.std.specs.Prelude.{◌≡◌, IfOk, false};
ghost use Rattle.clap.specs.Words.{Shape, app_of, new_app, rule_of, with_subcommand};
ghost use Rattle.clap.specs.declared.builder.command.Command.TheViews.{out-Command};
ghost use Rattle.fidl_command_line.specs.CommandLine as spec;
ghost use Rattle.fidl_command_line.specs.CommandLine.{positional, out_option, files_argument};
ghost use Rattle.fidl_command_line.specs.CommandLine.{handle_option, flag, fault_argument};
ghost use Rattle.fidl_command_line.specs.CommandLine.{IsCommandOf, program};

use clap::{Arg, ArgAction, Command};
use std::alloc::{AllocError, Global};

/// What the argument HEX is.
const HEX_HELP: &str =
    "The bytes of the message in hexadecimal; @FILE for the text of a file, - for \
    that of the standard input";

/// What the argument TEXT is.
const TEXT_HELP: &str =
    "The text of the value, as decode prints it; @FILE for the text of a file, - for that of the \
    standard input";

/// What stands below the help of the program, and of each command: an example, and the statuses.
const PROGRAM_HELP: &str = "\
Example:
  fidl compile --out store.fct zx.fidl types.fidl store.fidl

Status:
  0  it is done
  1  the sources, the table, the message, the text, the script or a frame is refused
  2  the command line is wrong, or names a root, a protocol or a fault that there is not
  3  a file or a stream cannot be read or written
  4  memory ran out";

const COMPILE_HELP: &str = "\
Example:
  fidl compile --out store.fct zx.fidl types.fidl store.fidl

Status:
  0  the table is written
  1  the sources are refused: FILE:LINE:COLUMN: STAGE NUMBER NAME
  2  the command line is wrong
  3  a file cannot be read or written
  4  memory ran out";

const MIGRATE_HELP: &str = "\
Example:
  fidl migrate --out new.fct old.fct

Status:
  0  the table of version 2 is written
  1  the table is refused
  2  the command line is wrong
  3  a file cannot be read or written
  4  memory ran out";

const DECODE_HELP: &str = "\
Examples:
  fidl decode point.fct Point 0100000002000000
  fidl decode point.fct Point @message.hex
  fidl decode --raw point.fct Point - <message

Status:
  0  the value is printed
  1  the table or the message is refused
  2  the command line is wrong, or the table has no such root
  3  a file or a stream cannot be read or written
  4  memory ran out";

const ENCODE_HELP: &str = "\
Examples:
  fidl encode point.fct Point '{x: 1, y: 2}'
  fidl encode point.fct Point @value.txt

Status:
  0  the bytes are printed, and a line for each handle
  1  the table, the text or its value is refused
  2  the command line is wrong, or the table has no such root
  3  a file or a stream cannot be read or written
  4  memory ran out";

const TABLE_HELP: &str = "\
Examples:
  fidl table store.fct
  fidl table --roots store.fct

Status:
  0  the records or the names are printed
  1  the table is refused
  2  the command line is wrong
  3  a file or a stream cannot be read or written
  4  memory ran out";

const DUMP_HELP: &str = "\
Examples:
  fidl dump store.fct demo.store/Store requests.bin
  fidl dump --response store.fct demo.store/Store replies.bin

Status:
  0  a line is printed for each frame
  1  the table or a frame is refused
  2  the command line is wrong, or the table has no such protocol
  3  a file or a stream cannot be read or written
  4  memory ran out";

const SERVE_HELP: &str = "\
Example:
  fidl serve store.fct store.script <requests.bin >replies.bin

Status:
  0  all requests are answered
  1  the table, the script or a request is refused
  2  the command line is wrong
  3  a file or a stream cannot be read or written
  4  memory ran out";

const EXPLAIN_HELP: &str = "\
Examples:
  fidl explain types 9
  fidl explain BadConstraint

Status:
  0  the explanation is printed
  2  the command line is wrong, or there is no such fault
  3  the output cannot be written
  4  memory ran out";

/// An argument that must be given, by its place.
fn required<'a>(alloc: Global, id: &'a str, text: &'a str) -> Arg<'a>
    ensures rule { rule_of result ≡ positional id.entry.now }
    ensures local { result.global ≡ false }
{
    Arg::new(alloc, id)
        .required(true)
        .action(ArgAction::Set)
        .help(text)
}

/// An option without a value, which is given or not.
fn flag<'a>(alloc: Global, id: &'a str, help: &'a str) -> Arg<'a>
    ensures rule { rule_of result ≡ flag id.entry.now }
    ensures local { result.global ≡ false }
{
    Arg::new(alloc, id)
        .long(id)
        .action(ArgAction::SetTrue)
        .help(help)
}

/// `--out OUT`.
fn out<'a>(alloc: Global) -> Arg<'a>
    ensures rule { rule_of result ≡ out_option }
    ensures local { result.global ≡ false }
{
    Arg::new(alloc, "out")
        .long("out")
        .value_name("OUT")
        .required(true)
        .action(ArgAction::Set)
        .help("The file to write the coding table to")
}

/// `FILE..`.
fn files<'a>(alloc: Global) -> Arg<'a>
    ensures rule { rule_of result ≡ files_argument }
    ensures local { result.global ≡ false }
{
    Arg::new(alloc, "FILE")
        .required(true)
        .num_args(1..)
        .action(ArgAction::Append)
        .help("The sources of the libraries, in any order")
}

/// `--handle I:T:R`.
fn handle<'a>(alloc: Global) -> Arg<'a>
    ensures rule { rule_of result ≡ handle_option }
    ensures local { result.global ≡ false }
{
    Arg::new(alloc, "handle")
        .long("handle")
        .value_name("I:T:R")
        .action(ArgAction::Append)
        .help("A handle of the message: id, object type and rights, as decimal numbers")
}

/// `FAULT..`: a name, or a stage and a number.
fn fault<'a>(alloc: Global) -> Arg<'a>
    ensures rule { rule_of result ≡ fault_argument }
    ensures local { result.global ≡ false }
{
    Arg::new(alloc, "FAULT")
        .required(true)
        .num_args(1..)
        .action(ArgAction::Append)
        .help("The name of a fault, as BadConstraint, or its stage and number, as types 9")
}

/// A command of this name, with what stands above and below its help.
fn described<'a>(alloc: Global, name: &'a str, about: &'a str, after_help: &'a str) -> Command<'a>
    ensures app { app_of result ≡ new_app name.entry.now }
    ensures local { (out-Command result).has_globals ≡ false }
{
    Command::new(alloc, name)
        .about(about)
        .after_help(after_help)
}

/// The command `compile`.
fn compile_command<'a>(alloc: Global) -> Result<Command<'a>, AllocError>
    ensures { IfOk result (IsCommandOf spec.compile_command) }
{
    described(
        alloc,
        "compile",
        "Writes the coding table of libraries, from their sources",
        COMPILE_HELP,
    )
    .arg(out(alloc))?
    .arg(flag(
        alloc,
        "snippet",
        "Shows the line of a fault, with a caret under its place",
    ))?
    .arg(files(alloc))
}

/// The command `migrate`.
fn migrate_command<'a>(alloc: Global) -> Result<Command<'a>, AllocError>
    ensures { IfOk result (IsCommandOf spec.migrate_command) }
{
    described(
        alloc,
        "migrate",
        "Writes the version 2 of a coding table",
        MIGRATE_HELP,
    )
    .arg(out(alloc))?
    .arg(required(alloc, "TABLE", "The file of the coding table"))
}

/// The command `decode`.
fn decode_command<'a>(alloc: Global) -> Result<Command<'a>, AllocError>
    ensures { IfOk result (IsCommandOf spec.decode_command) }
{
    described(
        alloc,
        "decode",
        "Prints the text of the value that a message encodes",
        DECODE_HELP,
    )
    .arg(handle(alloc))?
    .arg(flag(
        alloc,
        "raw",
        "Takes the bytes of a file or of the standard input as they are",
    ))?
    .arg(required(alloc, "TABLE", "The file of the coding table"))?
    .arg(required(alloc, "ROOT", "The name of the value's type in the table"))?
    .arg(required(alloc, "HEX", HEX_HELP))
}

/// The command `encode`.
fn encode_command<'a>(alloc: Global) -> Result<Command<'a>, AllocError>
    ensures { IfOk result (IsCommandOf spec.encode_command) }
{
    described(
        alloc,
        "encode",
        "Prints the message that encodes the value of a text",
        ENCODE_HELP,
    )
    .arg(required(alloc, "TABLE", "The file of the coding table"))?
    .arg(required(alloc, "ROOT", "The name of the value's type in the table"))?
    .arg(required(alloc, "TEXT", TEXT_HELP))
}

/// The command `table`.
fn table_command<'a>(alloc: Global) -> Result<Command<'a>, AllocError>
    ensures { IfOk result (IsCommandOf spec.table_command) }
{
    described(
        alloc,
        "table",
        "Prints the records of a coding table",
        TABLE_HELP,
    )
    .arg(flag(alloc, "roots", "Prints the names of the roots alone"))?
    .arg(flag(
        alloc,
        "protocols",
        "Prints the names of the protocols alone",
    ))?
    .arg(required(alloc, "TABLE", "The file of the coding table"))
}

/// The command `dump`.
fn dump_command<'a>(alloc: Global) -> Result<Command<'a>, AllocError>
    ensures { IfOk result (IsCommandOf spec.dump_command) }
{
    described(
        alloc,
        "dump",
        "Prints a line for each frame of a stream of messages",
        DUMP_HELP,
    )
    .arg(flag(
        alloc,
        "response",
        "Takes the frames for responses and events, not for requests",
    ))?
    .arg(required(alloc, "TABLE", "The file of the coding table"))?
    .arg(required(alloc, "PROTOCOL", "The name of the protocol in the table"))?
    .arg(required(alloc, "FILE", "The file of the frames"))
}

/// The command `serve`.
fn serve_command<'a>(alloc: Global) -> Result<Command<'a>, AllocError>
    ensures { IfOk result (IsCommandOf spec.serve_command) }
{
    described(
        alloc,
        "serve",
        "Answers the requests of the standard input by the replies of a script",
        SERVE_HELP,
    )
    .arg(required(alloc, "TABLE", "The file of the coding table"))?
    .arg(required(alloc, "SCRIPT", "The file of the script"))
}

/// The command `explain`.
fn explain_command<'a>(alloc: Global) -> Result<Command<'a>, AllocError>
    ensures { IfOk result (IsCommandOf spec.explain_command) }
{
    described(
        alloc,
        "explain",
        "Says what a fault means, with an example",
        EXPLAIN_HELP,
    )
    .arg(fault(alloc))
}

/// The program without its commands.
fn bare_program<'a>(alloc: Global) -> Result<Command<'a>, AllocError>
    ensures { IfOk result (λ c. app_of c ≡ spec.bare_program) }
{
    let program = described(
        alloc,
        "fidl",
        "Compiles FIDL libraries to coding tables, and reads and writes messages by them",
        PROGRAM_HELP,
    );
    Ok(
        program
            .bin_name("fidl")?
            .version("0.1")
            .subcommand_required(true),
    )
}

/// The program with one more command.
fn added<'a>(
    program: Command<'a>,
    command: Result<Command<'a>, AllocError>,
) -> Result<Command<'a>, AllocError>
    ensures { (shape : Shape) → IfOk command.entry (IsCommandOf shape)
        → IfOk result (λ c. app_of c ≡ with_subcommand (app_of program.entry) shape) }
{
    let command = command?;
    program.subcommand(command)
}

/// The command line of the program.
pub(crate) fn command_line<'a>(alloc: Global) -> Result<Command<'a>, AllocError>
    ensures { IfOk result (λ c. app_of c ≡ program) }
{
    let program = bare_program(alloc)?;
    let program = added(program, compile_command(alloc))?;
    let program = added(program, migrate_command(alloc))?;
    let program = added(program, decode_command(alloc))?;
    let program = added(program, encode_command(alloc))?;
    let program = added(program, table_command(alloc))?;
    let program = added(program, dump_command(alloc))?;
    let program = added(program, serve_command(alloc))?;
    added(program, explain_command(alloc))
}
