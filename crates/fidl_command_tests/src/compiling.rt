//! Tests of `run`: command lines of `compile` and `migrate`, with what they write.
use crate::tables::{RANGES, VALUES};
use fidl_streams::Counted;
use fidl_tool::{Files, Output, run};
use std::alloc::{AllocError, Global};
use std::io;
use std::process::Abort;
use std::test::Fail;

/// A file in memory.
#[derive(Drop)]
struct Stored {
    name: &'static str,
    bytes: Vec<u8>,
}

/// Files in memory, and the one that was written.
#[derive(Drop)]
struct Store {
    alloc: Global,
    files: Vec<Stored>,
    written: Option<Vec<u8>>,
    is_full: bool,
}

impl Files for Store {
    type Input = Counted<&'static [u8]>;

    fn read(&self, alloc: Global, name: &str) -> io::Result<Vec<u8>> {
        let Some(file) = self.files.iter().find(|file| file.name == name) else {
            return Err(io::Error::from(io::ErrorKind::NotFound));
        };
        Ok(Vec::from_slice(alloc, &file.bytes)?)
    }

    fn read_input(&self, _alloc: Global) -> io::Result<Vec<u8>> {
        Err(io::Error::from(io::ErrorKind::NotFound))
    }

    fn open_input(&self, _alloc: Global) -> Result<Counted<&'static [u8]>, AllocError> {
        Ok(Counted::new(b"".as_slice()))
    }

    fn write(&mut self, _name: &str, bytes: &[u8]) -> io::Result<()> {
        if self.is_full {
            return Err(io::Error::from(io::ErrorKind::StorageFull));
        }
        self.written = Some(Vec::from_slice(self.alloc, bytes)?);
        Ok(())
    }
}

const POINT: &[u8] = b"library point; type Point = struct {x uint32; y uint32;};";

const BAD: &[u8] = b"library point;\ntype Point = struct {x Int;};";

/// A disk with sources, and with a table of version 1 and one whose ranges touch.
fn disk(alloc: Global) -> Result<Store, Fail> {
    let mut files = Vec::new(alloc);
    files.push(Stored {
        name: "bad\n.fidl",
        bytes: Vec::from_slice(alloc, BAD)?,
    })?;
    files.push(Stored {
        name: "point.fidl",
        bytes: Vec::from_slice(alloc, POINT)?,
    })?;
    files.push(Stored {
        name: "bad.fidl",
        bytes: Vec::from_slice(alloc, BAD)?,
    })?;
    files.push(Stored {
        name: "old.fct",
        bytes: Vec::from_slice(alloc, &VALUES)?,
    })?;
    let mut touching = RANGES;
    touching[96] = 3;
    files.push(Stored {
        name: "touching.fct",
        bytes: Vec::from_slice(alloc, &touching)?,
    })?;
    Ok(Store {
        alloc,
        files,
        written: None,
        is_full: false,
    })
}

/// What a command line answers, prints and writes.
#[derive(Drop)]
struct Answer {
    status: u8,
    out: Vec<u8>,
    errors: Vec<u8>,
    disk: Store,
}

fn ran(alloc: Global, mut disk: Store, words: &[&str]) -> Answer {
    let mut out = Output::new(Vec::new(alloc));
    let mut errors = Output::new(Vec::new(alloc));
    let outcome = run(alloc, words, &mut disk, &mut out, &mut errors);
    Answer {
        status: outcome.status().number(),
        out: out.into_writer(),
        errors: errors.into_writer(),
        disk,
    }
}

/// A command line is refused with this status and this line, and writes nothing.
fn refused(
    rt: &impl Abort,
    alloc: Global,
    words: &[&str],
    status: u8,
    line: &str,
) -> Result<(), Fail> {
    let ran = ran(alloc, disk(alloc)?, words);
    assert_eq!(rt; ran.status, status);
    assert_eq!(rt; ran.errors.as_slice(), line.as_bytes());
    assert_eq!(rt; ran.out.as_slice(), b"".as_slice());
    assert_eq!(rt; ran.disk.written, None);
    Ok(())
}

#[test]
fn a_table_is_written(rt: HostRuntime) -> Result<(), Fail> {
    let alloc = rt.alloc();
    let words = ["fidl", "compile", "--out", "point.fct", "point.fidl"];
    let ran = ran(alloc, disk(alloc)?, &words);
    assert_eq!(rt; ran.status, 0);
    let line = b"entries 2, roots 1, protocols 0, methods 0, bytes 188\n";
    assert_eq!(rt; ran.out.as_slice(), line.as_slice());
    assert_eq!(rt; ran.errors.as_slice(), b"".as_slice());
    let length = match &ran.disk.written {
        Some(table) => table.len(),
        None => 0,
    };
    assert_eq!(rt; length, 188);
    Ok(())
}

#[test]
fn a_refused_run_writes_nothing(rt: HostRuntime) -> Result<(), Fail> {
    let alloc = rt.alloc();
    let bad = "bad.fidl:2:24: names 3 UnknownName\n";
    refused(
        &rt,
        alloc,
        &["fidl", "compile", "--out", "o", "bad.fidl"],
        1,
        bad,
    )?;
    let shown = "bad.fidl:2:24: names 3 UnknownName\n    type Point = struct {x Int;};\n\
        \u{20}                          ^ see 'fidl explain names 3'\n";
    let words = ["fidl", "compile", "--snippet", "--out", "o", "bad.fidl"];
    refused(&rt, alloc, &words, 1, shown)?;
    let quoted = "\"bad\\n.fidl\":2:24: names 3 UnknownName\n";
    let words = ["fidl", "compile", "--out", "o", "bad\n.fidl"];
    refused(&rt, alloc, &words, 1, quoted)?;
    let twice = "point.fidl:1:21: names 1 DuplicateName\n";
    let words = ["fidl", "compile", "--out=o", "point.fidl", "point.fidl"];
    refused(&rt, alloc, &words, 1, twice)?;
    let none = "error: \"none\": entity not found\n";
    let words = ["fidl", "compile", "--out", "o", "bad.fidl", "none"];
    refused(&rt, alloc, &words, 3, none)
}

#[test]
fn a_wrong_command_line_reads_nothing(rt: HostRuntime) -> Result<(), Fail> {
    let alloc = rt.alloc();
    let no_file = "error: the following required arguments were not provided: <FILE>...\n";
    refused(&rt, alloc, &["fidl", "compile", "--out", "o"], 2, no_file)?;
    let no_out = "error: the following required arguments were not provided: --out <OUT>\n";
    refused(&rt, alloc, &["fidl", "compile", "none"], 2, no_out)?;
    let same = "error: --out: a file that is none of the sources is wanted\n";
    let words = [
        "fidl",
        "compile",
        "none",
        "point.fidl",
        "--out",
        "point.fidl",
    ];
    refused(&rt, alloc, &words, 2, same)?;
    // The same path by another name.
    let words = ["fidl", "compile", "--out", "./point.fidl", "point.fidl"];
    refused(&rt, alloc, &words, 2, same)?;
    let words = ["fidl", "compile", "--out", "a/b", ".//a/./b"];
    refused(&rt, alloc, &words, 2, same)
}

#[test]
fn a_file_that_cannot_be_written(rt: HostRuntime) -> Result<(), Fail> {
    let alloc = rt.alloc();
    let mut full = disk(alloc)?;
    full.is_full = true;
    let ran = ran(
        alloc,
        full,
        &["fidl", "compile", "--out", "o", "point.fidl"],
    );
    assert_eq!(rt; ran.status, 3);
    assert_eq!(rt;
        ran.errors.as_slice(),
        b"error: \"o\": no storage space\n".as_slice()
    );
    assert_eq!(rt; ran.out.as_slice(), b"".as_slice());
    assert_eq!(rt; ran.disk.written, None);
    Ok(())
}

#[test]
fn the_table_stands_where_its_line_is_not_printed(rt: HostRuntime) -> Result<(), Fail> {
    let alloc = rt.alloc();
    let mut disk = disk(alloc)?;
    let mut room = [0u8; 8];
    let mut out = Output::new(room.as_mut_slice());
    let mut errors = Output::new(Vec::new(alloc));
    let words = ["fidl", "compile", "--out", "o", "point.fidl"];
    let outcome = run(alloc, &words, &mut disk, &mut out, &mut errors);
    assert_eq!(rt; outcome.status().number(), 3);
    let told = b"error: the output: write zero\n".as_slice();
    assert!(rt; errors.into_writer().as_slice() == told);
    assert!(rt; room.as_slice() == b"entries ".as_slice());
    let length = match &disk.written {
        Some(table) => table.len(),
        None => 0,
    };
    assert_eq!(rt; length, 188);
    Ok(())
}

#[test]
fn a_table_is_migrated(rt: HostRuntime) -> Result<(), Fail> {
    let alloc = rt.alloc();
    let words = ["fidl", "migrate", "--out", "new.fct", "old.fct"];
    let ran = ran(alloc, disk(alloc)?, &words);
    assert_eq!(rt; ran.status, 0);
    let line = b"entries 1, roots 1, protocols 0, methods 0, bytes 130\n";
    assert_eq!(rt; ran.out.as_slice(), line.as_slice());
    assert_eq!(rt; ran.errors.as_slice(), b"".as_slice());
    let Some(new) = &ran.disk.written else {
        return Err(Fail::from("nothing is written"));
    };
    assert_eq!(rt; new.as_slice(), RANGES.as_slice());
    Ok(())
}

#[test]
fn tables_that_are_not_migrated(rt: HostRuntime) -> Result<(), Fail> {
    let alloc = rt.alloc();
    let words = ["fidl", "migrate", "--out", "o", "touching.fct"];
    refused(&rt, alloc, &words, 1, "table 10 NotSorted at 0\n")?;
    let same = "error: --out: a file that is not the table is wanted\n";
    let words = ["fidl", "migrate", "--out", "./old.fct", "old.fct"];
    refused(&rt, alloc, &words, 2, same)?;
    let none = "error: \"none\": entity not found\n";
    let words = ["fidl", "migrate", "--out", "o", "none"];
    refused(&rt, alloc, &words, 3, none)
}
