//! The program on the system: its words, its files, the standard output and the standard error.
ghost use Rattle.std.specs.Prelude.{◌≡◌};
ghost use Rattle.std.specs.Process.{exit_status};
ghost use Rattle.fidl_commands.specs.Status.{status_of, number_of};

use crate::program::run;
use fidl_command_line::Unread;
use fidl_commands::{Files, Outcome, tell, write_no_memory};
use fidl_streams::Counted;
use fidl_text::Output;
use std::alloc::{AllocError, Global};
use std::io::{BufReader, BufWriter, Read, Stdin, Write};
use std::process::{ExitCode, Termination};
use std::{env, fs, io};

/// The system's files.
#[derive(Clone, Copy, Drop)]
struct HostFiles<'r> {
    rt: &'r HostRuntime,
}

impl Files for HostFiles<'_> {
    type Input = Counted<BufReader<Stdin>>;

    fn read(&self, _alloc: Global, name: &str) -> io::Result<Vec<u8>> {
        fs::read(self.rt, name)
    }

    fn read_input(&self, alloc: Global) -> io::Result<Vec<u8>> {
        let mut bytes = Vec::new(alloc);
        self.rt.stdin().read_to_end(&mut bytes)?;
        Ok(bytes)
    }

    fn open_input(&self, alloc: Global) -> Result<Counted<BufReader<Stdin>>, AllocError> {
        match BufReader::new(alloc, self.rt.stdin()) {
            Ok(reader) => Ok(Counted::new(reader)),
            Err(_) => Err(AllocError),
        }
    }

    fn write(&mut self, name: &str, bytes: &[u8]) -> io::Result<()> {
        fs::write(self.rt, name, bytes)
    }
}

/// A run of the program that has ended. `main` returns it, and the process exits with its status.
#[derive(Drop)]
pub struct Ran {
    outcome: Outcome,
}

impl Termination for Ran {
    fn report<R: Eprint>(self, _rt: &R) -> ExitCode
        ensures { exit_status result ≡ number_of (status_of self.outcome) }
    {
        ExitCode::from(self.outcome.status().number())
    }
}

/// The words of the command line, of which the first is the program's name.
fn read_words(rt: &HostRuntime) -> Result<Vec<String>, Unread> {
    match env::args(rt) {
        Ok(words) => Ok(words.collect::<Vec<String>>(rt.alloc())?),
        Err(error) if error.kind() == io::ErrorKind::OutOfMemory => Err(Unread::Memory),
        Err(_) => Err(Unread::NotText),
    }
}

/// Runs the command of the command line, with the outputs given.
fn run_words<W: Write, E: Write>(
    rt: &HostRuntime,
    out: &mut Output<W>,
    errors: &mut Output<E>,
) -> Outcome {
    match read_words(rt) {
        Ok(words) => run(
            rt.alloc(),
            words.as_slice(),
            &mut HostFiles { rt },
            out,
            errors,
        ),
        Err(unread) => tell(&unread, out, errors),
    }
}

/// Runs the program: its words are those of the command line, and it prints on the standard output
/// and the standard error.
pub fn run_on_host(rt: &HostRuntime) -> Ran {
    let mut errors = Output::new(rt.stderr());
    let outcome = match BufWriter::new(rt.alloc(), rt.stdout()) {
        Ok(out) => run_words(rt, &mut Output::new(out), &mut errors),
        Err(_) => Outcome::NoMemory.where_written(&write_no_memory(&mut errors)),
    };
    Ran { outcome }
}
