//! Tests of the commands over streams of frames: `serve` and `dump`.
use crate::tables::OPEN;
use crate::writers::Brief;
use fidl_streams::Counted;
use fidl_tool::{Files, Output, run};
use std::alloc::{AllocError, Global};
use std::io;
use std::io::Read;
use std::test::Fail;

/// The request of an unknown ordinal, with the flexible bit and transaction id 7.
const REQUEST: [u8; 24] = [
    0x10, 0, 0, 0, 0, 0, 0, 0, 0x07, 0, 0, 0, 0x02, 0, 0x80, 0x01, 0xba, 0x78, 0x16, 0xbf, 0x8f,
    0x01, 0xcf, 0x6a,
];

/// The same without the flexible bit.
const STRICT: [u8; 24] = [
    0x10, 0, 0, 0, 0, 0, 0, 0, 0x07, 0, 0, 0, 0x02, 0, 0, 0x01, 0xba, 0x78, 0x16, 0xbf, 0x8f, 0x01,
    0xcf, 0x6a,
];

/// The reply to the first.
const REPLY: [u8; 40] = [
    0x20, 0, 0, 0, 0, 0, 0, 0, 0x07, 0, 0, 0, 0x02, 0, 0x80, 0x01, 0xba, 0x78, 0x16, 0xbf, 0x8f,
    0x01, 0xcf, 0x6a, 0x03, 0, 0, 0, 0, 0, 0, 0, 0xfe, 0xff, 0xff, 0xff, 0, 0, 0x01, 0,
];

/// The standard input: some bytes, or a read that fails.
#[derive(Clone, Copy, Drop)]
enum Input {
    Bytes(&'static [u8]),
    Broken,
}

impl Read for Input {
    fn read(&mut self, buf: &mut [u8]) -> io::Result<usize> {
        match self {
            Input::Bytes(bytes) => {
                let count = bytes.len().min(buf.len());
                buf[..count].copy_from_slice(&bytes[..count]);
                *self = Input::Bytes(&bytes[count..]);
                Ok(count)
            }
            Input::Broken => Err(io::Error::from(io::ErrorKind::BrokenPipe)),
        }
    }
}

/// The files of a service of the open protocol: its table, a script, frames, and the input.
#[derive(Drop)]
struct Desk {
    script: &'static str,
    input: Input,
}

impl Files for Desk {
    type Input = Counted<Input>;

    fn read(&self, alloc: Global, name: &str) -> io::Result<Vec<u8>> {
        if name == "s.fct" {
            Ok(Vec::from_slice(alloc, &OPEN)?)
        } else if name == "short.fct" {
            Ok(Vec::from_slice(alloc, &OPEN[..58])?)
        } else if name == "s.script" {
            Ok(Vec::from_slice(alloc, self.script.as_bytes())?)
        } else if name == "frames" {
            let mut frames = Vec::from_slice(alloc, &REQUEST)?;
            frames.extend_from_slice(&STRICT[..9])?;
            Ok(frames)
        } else {
            Err(io::Error::from(io::ErrorKind::NotFound))
        }
    }

    fn read_input(&self, alloc: Global) -> io::Result<Vec<u8>> {
        Ok(Vec::new(alloc))
    }

    fn open_input(&self, _alloc: Global) -> Result<Counted<Input>, AllocError> {
        Ok(Counted::new(self.input))
    }

    fn write(&mut self, _name: &str, _bytes: &[u8]) -> io::Result<()> {
        Err(io::Error::from(io::ErrorKind::PermissionDenied))
    }
}

const SCRIPT: &str = "# A script.\nprotocol s/P\n";

const SERVE: [&str; 4] = ["fidl", "serve", "s.fct", "s.script"];

const DUMP: [&str; 5] = ["fidl", "dump", "s.fct", "s/P", "frames"];

/// What a command line has to answer: the status, the output, and the line on the errors.
#[derive(Clone, Copy, Drop)]
struct Wanted {
    status: u8,
    out: &'static [u8],
    errors: &'static str,
}

const fn answer(status: u8, out: &'static [u8], errors: &'static str) -> Wanted {
    Wanted {
        status,
        out,
        errors,
    }
}

/// Runs a command line over files, and compares what it answers.
fn expect(alloc: Global, words: &[&str], desk: Desk, wanted: Wanted) -> Result<(), Fail> {
    let mut desk = desk;
    let mut printed = Output::new(Vec::new(alloc));
    let mut told = Output::new(Vec::new(alloc));
    let outcome = run(alloc, words, &mut desk, &mut printed, &mut told);
    if outcome.status().number() != wanted.status {
        return Err(Fail::from("another status"));
    }
    if printed.into_writer().as_slice() != wanted.out {
        return Err(Fail::from("another output"));
    }
    if told.into_writer().as_slice() != wanted.errors.as_bytes() {
        return Err(Fail::from("another line"));
    }
    Ok(())
}

/// Serves some input by a script.
fn serves(
    alloc: Global,
    script: &'static str,
    input: &'static [u8],
    wanted: Wanted,
) -> Result<(), Fail> {
    let input = Input::Bytes(input);
    expect(alloc, &SERVE, Desk { script, input }, wanted)
}

#[test]
fn services_answer_their_input(rt: HostRuntime) -> Result<(), Fail> {
    let alloc = rt.alloc();
    serves(alloc, SCRIPT, &REQUEST, answer(0, &REPLY, ""))?;
    serves(alloc, SCRIPT, b"", answer(0, b"", ""))?;
    let line = "ended 2 StrictUnknown\n";
    serves(alloc, SCRIPT, &STRICT, answer(1, b"", line))?;
    let line = "ended 4 BadFrame\n";
    serves(alloc, SCRIPT, &[0x10, 0, 0, 0], answer(1, b"", line))?;
    let over = [0x01, 0, 0x01, 0, 0, 0, 0, 0].as_slice();
    serves(alloc, SCRIPT, over, answer(1, b"", line))
}

#[test]
fn scripts_are_refused_by_their_lines(rt: HostRuntime) -> Result<(), Fail> {
    let alloc = rt.alloc();
    let line = "script 2 UnknownProtocol\n";
    serves(alloc, "protocol s/Q", &REQUEST, answer(1, b"", line))?;
    let line = "script 3 UnknownMethod at 2\n";
    serves(
        alloc,
        "protocol s/P\nreply s/P.M",
        b"",
        answer(1, b"", line),
    )?;
    let line = "script 1 Syntax at 1\n";
    serves(alloc, "", b"", answer(1, b"", line))
}

#[test]
fn files_and_streams_that_fail(rt: HostRuntime) -> Result<(), Fail> {
    let alloc = rt.alloc();
    let script = SCRIPT;
    let input = Input::Broken;
    let line = "serve 1 Read\n";
    expect(alloc, &SERVE, Desk { script, input }, answer(3, b"", line))?;
    let words = ["fidl", "serve", "short.fct", "s.script"];
    let line = "table 3 Truncated at 0\n";
    expect(alloc, &words, Desk { script, input }, answer(1, b"", line))?;
    let words = ["fidl", "serve", "s.fct", "none"];
    let line = "error: \"none\": entity not found\n";
    expect(alloc, &words, Desk { script, input }, answer(3, b"", line))
}

#[test]
fn frames_are_printed_up_to_the_first_wrong_one(rt: HostRuntime) -> Result<(), Fail> {
    let alloc = rt.alloc();
    let script = SCRIPT;
    let input = Input::Broken;
    let out = b"7 6acf018fbf1678ba unknown\n".as_slice();
    let line = "frame 2: ended 4 BadFrame\n";
    expect(alloc, &DUMP, Desk { script, input }, answer(1, out, line))?;
    let words = ["fidl", "dump", "s.fct", "other", "frames"];
    let line = "error: PROTOCOL: no protocol of \"s.fct\" has the name \"other\"\n";
    expect(alloc, &words, Desk { script, input }, answer(2, b"", line))?;
    let words = ["fidl", "dump", "--response", "s.fct", "s/P", "none"];
    let line = "error: \"none\": entity not found\n";
    expect(alloc, &words, Desk { script, input }, answer(3, b"", line))
}

#[test]
fn replies_that_cannot_be_written(rt: HostRuntime) -> Result<(), Fail> {
    let alloc = rt.alloc();
    let mut desk = Desk {
        script: SCRIPT,
        input: Input::Bytes(&REQUEST),
    };
    let mut out = Output::new(Brief::new(alloc, 0));
    let mut told = Output::new(Vec::new(alloc));
    let outcome = run(alloc, &SERVE, &mut desk, &mut out, &mut told);
    let line = b"serve 2 Write\n".as_slice();
    assert_eq!(rt; outcome.status().number(), 3, "the status");
    assert!(rt; told.into_writer().as_slice() == line, "the line");
    Ok(())
}
