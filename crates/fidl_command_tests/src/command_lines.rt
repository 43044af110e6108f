//! Tests of `run`: command lines, each with its status and all that it prints.
use crate::listings::POINT_LINES;
use crate::tables::POINT;
use fidl_streams::Counted;
use fidl_tool::{Files, Output, run};
use std::alloc::{AllocError, Global};
use std::io;
use std::test::Fail;

/// Files: `point.fct` and `short.fct`, which lacks its last byte, texts of a message, and one for which
/// memory runs out, `vast`. The standard input is a message's bytes.
#[derive(Drop)]
struct Desk;

impl Files for Desk {
    type Input = Counted<&'static [u8]>;

    fn read(&self, alloc: Global, name: &str) -> io::Result<Vec<u8>> {
        if name == "point.fct" {
            Ok(Vec::from_slice(alloc, &POINT)?)
        } else if name == "short.fct" {
            Ok(Vec::from_slice(alloc, &POINT[..175])?)
        } else if name == "point.hex" {
            Ok(Vec::from_slice(alloc, b"01 00\t00 00\r\n02000000\n")?)
        } else if name == "odd.hex" {
            Ok(Vec::from_slice(alloc, b"01 0\n")?)
        } else if name == "vast" {
            Err(io::Error::from(io::ErrorKind::OutOfMemory))
        } else {
            Err(io::Error::from(io::ErrorKind::NotFound))
        }
    }

    fn read_input(&self, alloc: Global) -> io::Result<Vec<u8>> {
        Ok(Vec::from_slice(alloc, &[1, 0, 0, 0, 2, 0, 0, 0])?)
    }

    fn open_input(&self, _alloc: Global) -> Result<Counted<&'static [u8]>, AllocError> {
        Ok(Counted::new(b"".as_slice()))
    }

    fn write(&mut self, _name: &str, _bytes: &[u8]) -> io::Result<()> {
        Err(io::Error::from(io::ErrorKind::PermissionDenied))
    }
}

/// Runs a command line, and compares the status and what is printed on the output and on the
/// errors.
fn expect(alloc: Global, words: &[&str], status: u8, out: &str, errors: &str) -> Result<(), Fail> {
    let mut printed = Output::new(Vec::new(alloc));
    let mut told = Output::new(Vec::new(alloc));
    let outcome = run(alloc, words, &mut Desk, &mut printed, &mut told);
    if outcome.status().number() != status {
        return Err(Fail::from("another status"));
    }
    if printed.into_writer().as_slice() != out.as_bytes() {
        return Err(Fail::from("another output"));
    }
    if told.into_writer().as_slice() != errors.as_bytes() {
        return Err(Fail::from("another line"));
    }
    Ok(())
}

const POINT_HEX: &str = "0100000002000000";

#[test]
fn messages_are_decoded(rt: HostRuntime) -> Result<(), Fail> {
    let alloc = rt.alloc();
    let words = ["fidl", "decode", "point.fct", "Point", POINT_HEX];
    expect(alloc, &words, 0, "{x: 1, y: 2}\n", "")?;
    let words = ["fidl", "decode", "point.fct", "Point", "0aFF000002000000"];
    expect(alloc, &words, 0, "{x: 65290, y: 2}\n", "")?;
    let words = ["fidl", "decode", "point.fct", "Point", "01000000020000"];
    expect(alloc, &words, 1, "", "decode 3 Truncated at 0\n")?;
    let words = [
        "fidl",
        "decode",
        "--handle",
        "1:3:0",
        "point.fct",
        "Point",
        POINT_HEX,
    ];
    expect(alloc, &words, 1, "", "decode 20 HandlesLeft at 8\n")?;
    let words = [
        "fidl",
        "decode",
        "point.fct",
        "Point",
        POINT_HEX,
        "--handle=2:5:4294967295",
    ];
    expect(alloc, &words, 1, "", "decode 20 HandlesLeft at 8\n")
}

#[test]
fn tables_are_printed(rt: HostRuntime) -> Result<(), Fail> {
    let alloc = rt.alloc();
    let words = ["fidl", "table", "point.fct"];
    expect(alloc, &words, 0, POINT_LINES, "")?;
    let words = ["fidl", "table", "short.fct"];
    expect(alloc, &words, 1, "", "table 3 Truncated at 0\n")?;
    let words = ["fidl", "table", "none"];
    expect(alloc, &words, 3, "", "error: \"none\": entity not found\n")?;
    let words = ["fidl", "table", "vast"];
    expect(alloc, &words, 4, "", "error: out of memory\n")?;
    let missing = "error: the following required arguments were not provided: <TABLE>\n";
    expect(alloc, &["fidl", "table"], 2, "", missing)?;
    let surplus = "error: unexpected argument 'Point' found\n";
    let words = ["fidl", "table", "point.fct", "Point"];
    expect(alloc, &words, 2, "", surplus)
}

#[test]
fn files_and_roots_that_are_missing(rt: HostRuntime) -> Result<(), Fail> {
    let alloc = rt.alloc();
    let words = ["fidl", "decode", "no\tfile", "Point", POINT_HEX];
    expect(
        alloc,
        &words,
        3,
        "",
        "error: \"no\\tfile\": entity not found\n",
    )?;
    let words = ["fidl", "decode", "vast", "Point", POINT_HEX];
    expect(alloc, &words, 4, "", "error: out of memory\n")?;
    let words = ["fidl", "decode", "point.fct", "Line", POINT_HEX];
    let no_root = "error: ROOT: no root of \"point.fct\" has the name \"Line\"\n";
    expect(alloc, &words, 2, "", no_root)?;
    let words = ["fidl", "decode", "point.fct", "Paint", POINT_HEX];
    let near =
        "error: ROOT: no root of \"point.fct\" has the name \"Paint\"; did you mean Point?\n";
    expect(alloc, &words, 2, "", near)
}

#[test]
fn messages_stand_in_files_and_in_the_input(rt: HostRuntime) -> Result<(), Fail> {
    let alloc = rt.alloc();
    let words = ["fidl", "decode", "point.fct", "Point", "@point.hex"];
    expect(alloc, &words, 0, "{x: 1, y: 2}\n", "")?;
    let words = ["fidl", "decode", "--raw", "point.fct", "Point", "-"];
    expect(alloc, &words, 0, "{x: 1, y: 2}\n", "")?;
    let hex = "error: HEX: an even number of hexadecimal digits is wanted\n";
    let words = ["fidl", "decode", "point.fct", "Point", "@odd.hex"];
    expect(alloc, &words, 2, "", hex)?;
    let words = ["fidl", "decode", "point.fct", "Point", "-"];
    expect(alloc, &words, 2, "", hex)?;
    let words = ["fidl", "decode", "point.fct", "Point", "@none"];
    expect(alloc, &words, 3, "", "error: \"none\": entity not found\n")?;
    let raw = "error: --raw: @FILE or - is wanted in place of HEX\n";
    let words = ["fidl", "decode", "--raw", "point.fct", "Point", POINT_HEX];
    expect(alloc, &words, 2, "", raw)
}

#[test]
fn names_alone(rt: HostRuntime) -> Result<(), Fail> {
    let alloc = rt.alloc();
    let words = ["fidl", "table", "--roots", "point.fct"];
    expect(alloc, &words, 0, "Point\n", "")?;
    let words = ["fidl", "table", "--protocols", "point.fct"];
    expect(alloc, &words, 0, "", "")?;
    let both = "error: --protocols: it does not go with --roots\n";
    let words = ["fidl", "table", "--roots", "--protocols", "point.fct"];
    expect(alloc, &words, 2, "", both)
}

#[test]
fn faults_that_there_are_not(rt: HostRuntime) -> Result<(), Fail> {
    let alloc = rt.alloc();
    let name = "error: FAULT: no fault has the name \"Wrong\"\n";
    expect(alloc, &["fidl", "explain", "Wrong"], 2, "", name)?;
    let number = "error: FAULT: no fault has the stage \"types\" and the number 99\n";
    expect(alloc, &["fidl", "explain", "types", "99"], 2, "", number)?;
    let wanted = "error: FAULT: a name is wanted, or a stage and a number, as in types 9\n";
    expect(alloc, &["fidl", "explain", "types", "x"], 2, "", wanted)
}

#[test]
fn wrong_arguments_come_before_files(rt: HostRuntime) -> Result<(), Fail> {
    let alloc = rt.alloc();
    let hex = "error: HEX: an even number of hexadecimal digits is wanted\n";
    expect(
        alloc,
        &["fidl", "decode", "none", "Point", "012"],
        2,
        "",
        hex,
    )?;
    expect(
        alloc,
        &["fidl", "decode", "none", "Point", "0g"],
        2,
        "",
        hex,
    )?;
    let handle =
        "error: --handle number 1: three decimal numbers of 32 bits are wanted, as in 1:3:0\n";
    let words = ["fidl", "decode", "--handle", "1:3", "none", "Point", "00"];
    expect(alloc, &words, 2, "", handle)?;
    let words = [
        "fidl",
        "decode",
        "--handle=1:3:0",
        "--handle=",
        "none",
        "Point",
        "00",
    ];
    let second =
        "error: --handle number 2: three decimal numbers of 32 bits are wanted, as in 1:3:0\n";
    expect(alloc, &words, 2, "", second)
}

#[test]
fn texts_are_encoded(rt: HostRuntime) -> Result<(), Fail> {
    let alloc = rt.alloc();
    let words = ["fidl", "encode", "point.fct", "Point", "{x: 1, y: 2}"];
    expect(alloc, &words, 0, "0100000002000000\n", "")?;
    let words = ["fidl", "encode", "point.fct", "Point", "{x: 1}"];
    expect(alloc, &words, 1, "", "notation 1 Syntax at 5\n")?;
    let words = ["fidl", "encode", "point.fct", "Point", "@none"];
    let none = "error: \"none\": entity not found\n";
    expect(alloc, &words, 3, "", none)?;
    let words = ["fidl", "encode", "point.fct", "Point", "@vast"];
    expect(alloc, &words, 4, "", "error: out of memory\n")
}

#[test]
fn wrong_command_lines(rt: HostRuntime) -> Result<(), Fail> {
    let alloc = rt.alloc();
    let unknown = "error: unrecognized subcommand 'explane'; did you mean 'explain'?\n";
    expect(alloc, &["fidl", "explane"], 2, "", unknown)?;
    let missing = "error: the following required arguments were not provided: <ROOT> <HEX>\n";
    expect(alloc, &["fidl", "decode", "point.fct"], 2, "", missing)?;
    let dash = "error: unexpected argument '-1' found\n";
    expect(
        alloc,
        &["fidl", "decode", "point.fct", "Point", "-1"],
        2,
        "",
        dash,
    )?;
    let none = "error: 'fidl' requires a subcommand but one was not provided [subcommands: \
        compile, migrate, decode, encode, table, dump, serve, explain, help]\n";
    expect(alloc, &["out/fidl"], 2, "", none)?;
    expect(alloc, &[], 2, "", none)
}

#[test]
fn help_and_version(rt: HostRuntime) -> Result<(), Fail> {
    let alloc = rt.alloc();
    expect(alloc, &["fidl", "--version"], 0, "fidl 0.1\n", "")?;
    let help = "Compiles FIDL libraries to coding tables, and reads and writes messages by them\n\n\
        Usage: fidl <COMMAND>\n\nCommands:\n  \
        compile  Writes the coding table of libraries, from their sources\n  \
        migrate  Writes the version 2 of a coding table\n  \
        decode   Prints the text of the value that a message encodes\n  \
        encode   Prints the message that encodes the value of a text\n  \
        table    Prints the records of a coding table\n  \
        dump     Prints a line for each frame of a stream of messages\n  \
        serve    Answers the requests of the standard input by the replies of a script\n  \
        explain  Says what a fault means, with an example\n  \
        help     Print this message or the help of the given subcommand(s)\n\nOptions:\n  \
        -h, --help     Print help\n  -V, --version  Print version\n\nExample:\n  \
        fidl compile --out store.fct zx.fidl types.fidl store.fidl\n\nStatus:\n  \
        0  it is done\n  1  the sources, the table, the message, the text, the script or a frame is refused\n  \
        2  the command line is wrong, or names a root, a protocol or a fault that there is not\n  \
        3  a file or a stream cannot be read or written\n  4  memory ran out\n";
    expect(alloc, &["fidl", "--help"], 0, help, "")?;
    expect(alloc, &["fidl", "help"], 0, help, "")
}
