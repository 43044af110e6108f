//! A writer that keeps the error that it has failed with.
ghost use Rattle.std.specs.Prelude.{◌≡◌, ◌↔◌, IfSome, IsSome, OnOk, OnErr, is_ok, is_err, None};
ghost use Rattle.std.specs.Prelude.{option_map};
ghost use Rattle.std.specs.Io.KnownBytes.{Appends, Keeps};
ghost use Rattle.std.specs.Fmt.{with_newline};
ghost use Rattle.std.specs.Io.{WritesAtMost};
ghost use Rattle.std.specs.Io.KnownBytes.{WriteAppends};
ghost use Rattle.fidl_streams.specs.Counts.{count_when};
ghost use Rattle.fidl_text.specs.Outputs.{Writes};

use fidl_streams::{Failed, Sink};
use std::fmt::Display;
use std::io;
use std::io::Write;

/// A writer, and the error of its last write that failed, as C's streams keep an error indicator.
#[derive(Debug, Drop)]
pub struct Output<W> {
    writer: W,
    failure: Option<io::Error>,
    /// How many writes and flushes have failed.
    failures: u64,
    ghost told: { failures ≡ 0 ↔ failure ≡ None },
}

impl<W: Write> Output<W> {
    /// A writer to which nothing was written.
    pub fn new(writer: W) -> Output<W>
        ensures writer { result.writer ≡ writer }
        ensures failure { result.failure ≡ None }
    {
        Output {
            writer,
            failure: None,
            failures: 0,
        }
    }

    /// The writer, given back.
    pub fn into_writer(self) -> W
        ensures { result ≡ self.writer }
    {
        self.writer
    }

    /// The error that a write has failed with, if one has.
    pub fn failure(&self) -> Option<&io::Error>
        ensures { option_map (λ e. e.now) result ≡ self.now.failure }
    {
        self.failure.as_ref()
    }

    /// Keeps the error of a write that failed.
    fn note(&mut self, written: io::Result<()>) -> Result<(), Failed>
        ensures writer { self.new.writer ≡ self.old.writer }
        ensures same { is_ok result ≡ is_ok written }
        ensures kept { OnOk result (self.new.failure ≡ self.old.failure) }
        ensures failed { OnErr result (IsSome self.new.failure) }
        ensures counted { self.new.failures ≡ count_when self.old.failures (is_err result) }
    {
        match written {
            Ok(()) => Ok(()),
            Err(error) => {
                self.failure = Some(error);
                self.failures = self.failures.saturating_add(1);
                Err(Failed)
            }
        }
    }

    /// Writes a front of the bytes, as the writer takes it. A write that was interrupted is tried
    /// again.
    fn write_some(&mut self, bytes: &[u8]) -> io::Result<usize>
        ensures bound { WritesAtMost result bytes.now }
        ensures bytes { WriteAppends (W.contents self.old.writer) (W.contents self.new.writer) result
            bytes.now }
        ensures failure { self.new.failure ≡ self.old.failure }
        ensures failures { self.new.failures ≡ self.old.failures }
    {
        for _ in 0..u64::MAX {
            match self.writer.write(bytes) {
                Ok(count) => return Ok(count),
                Err(error) if error.kind() == io::ErrorKind::Interrupted => {}
                Err(error) => return Err(error),
            }
        }
        Err(io::Error::from(io::ErrorKind::Interrupted))
    }

    /// Writes all of the bytes, or a front of them and fails. A write that was interrupted is tried
    /// again.
    pub fn write_all(&mut self, bytes: &[u8]) -> Result<(), Failed>
        ensures bytes { Writes (W.contents self.old.writer) (W.contents self.new.writer)
            bytes.now result }
        ensures kept { OnOk result (self.new.failure ≡ self.old.failure) }
        ensures failed { OnErr result (IsSome self.new.failure) }
    {
        let mut rest = bytes;
        for _ in 0..u64::MAX {
            if rest.is_empty() {
                return Ok(());
            }
            match self.writer.write(rest) {
                Ok(0) => return self.note(Err(io::Error::from(io::ErrorKind::WriteZero))),
                Ok(count) => rest = &rest[count..],
                Err(error) if error.kind() == io::ErrorKind::Interrupted => {}
                Err(error) => return self.note(Err(error)),
            }
        }
        self.note(Err(io::Error::from(io::ErrorKind::Interrupted)))
    }

    /// Writes a text, as `write!` gives it. Where this fails, no contract says what was written.
    pub fn write_fmt<D: Display + Drop>(&mut self, text: D) -> Result<(), Failed>
        ensures bytes { OnOk result (IfSome (D.output text)
            (Appends (W.contents self.old.writer) (W.contents self.new.writer))) }
        ensures kept { OnOk result (self.new.failure ≡ self.old.failure) }
        ensures failed { OnErr result (IsSome self.new.failure) }
    {
        let written = self.writer.write_fmt(text);
        self.note(written)
    }

    /// Writes a text and a line feed, as `writeln!` gives them. Where this fails, no contract says
    /// what was written.
    pub fn writeln<D: Display + Drop>(&mut self, text: D) -> Result<(), Failed>
        ensures bytes { OnOk result (IfSome (with_newline (D.output text))
            (Appends (W.contents self.old.writer) (W.contents self.new.writer))) }
        ensures kept { OnOk result (self.new.failure ≡ self.old.failure) }
        ensures failed { OnErr result (IsSome self.new.failure) }
    {
        let written = self.writer.writeln(text);
        self.note(written)
    }

    /// Hands on what is still held back.
    pub fn flush(&mut self) -> Result<(), Failed>
        ensures bytes { Keeps (W.contents self.old.writer) (W.contents self.new.writer) }
        ensures kept { OnOk result (self.new.failure ≡ self.old.failure) }
        ensures failed { OnErr result (IsSome self.new.failure) }
        ensures counted { self.new.failures ≡ count_when self.old.failures (is_err result) }
    {
        let written = self.writer.flush();
        self.note(written)
    }
}

impl<W: Write> Sink for Output<W> {
    ghost taken = { λ s. record { contents = W.contents s.writer; failures = s.failures } };

    fn write(&mut self, buf: &[u8]) -> Result<usize, Failed> {
        match self.write_some(buf) {
            Ok(0) if !buf.is_empty() => {
                self.note(Err(io::Error::from(io::ErrorKind::WriteZero)))?;
                Ok(0)
            }
            Ok(count) => Ok(count),
            Err(error) => {
                self.note(Err(error))?;
                Ok(0)
            }
        }
    }

    fn flush(&mut self) -> Result<(), Failed> {
        Output::flush(self)
    }
}
