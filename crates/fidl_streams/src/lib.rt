//! Streams of bytes whose bytes, calls and failures a contract can name.
//!
//! `Source` and `Sink` are what a service reads from and writes to. `Counted` gives them over std's
//! readers and writers, `TestSource` and `TestSink` over slices, in small moves, and failing where
//! a test wants it.
#![tactic(auto)]

mod counted;
mod test_sink;
mod test_source;
mod writing;

ghost use Rattle.std.specs.Prelude.{◌≡◌, ℕ, List, None, Option, is_err};
ghost use Rattle.std.specs.Io.{ReadsAtMost, WritesAtMost};
ghost use Rattle.std.specs.Io.KnownBytes.{Keeps, ReadConsumes, WriteAppends};
ghost use Rattle.fidl_streams.specs.Counts.{add_count, count_when, is_refused};
ghost use Rattle.fidl_streams.specs.Written.{Taken};

pub use crate::counted::Counted;
pub use crate::test_sink::{Refusal, TestSink};
pub use crate::test_source::TestSource;
pub use crate::writing::{Sent, send, write_all};

/// A read, a write or a flush has failed.
#[derive(Clone, Copy, PartialEq, Eq, Debug, Drop)]
pub struct Failed;

/// What bytes are read from.
pub trait Source {
    /// The bytes that reads will give from here on, where they are known.
    ghost remaining: { Self → Option (List ℕ) };

    /// The reads so far, failed ones too. The count stays at 2^64 - 1.
    ghost reads: { Self → ℕ };

    /// The reads so far that failed. The count stays at 2^64 - 1.
    ghost failures: { Self → ℕ };

    /// Puts the next bytes at the front of `buf`, and says how many: none only at the end, or where
    /// `buf` has no room. A failure gives none.
    fn read(&mut self, buf: &mut [u8]) -> Result<usize, Failed>
        ensures bound { ReadsAtMost result buf.new }
        ensures bytes { ReadConsumes (remaining self.old) (remaining self.new) result buf.new }
        ensures counted { reads self.new ≡ add_count (reads self.old) 1 }
        ensures failed { failures self.new ≡ count_when (failures self.old) (is_err result) };
}

/// What bytes are written to.
pub trait Sink {
    /// The bytes taken so far, where they are known, and the writes and flushes so far that failed;
    /// a write that takes none of some bytes is one. The count stays at 2^64 - 1.
    ghost taken: { Self → Taken };

    /// Takes a front of `buf`, and says how many bytes. A failure takes none.
    fn write(&mut self, buf: &[u8]) -> Result<usize, Failed>
        ensures bound { WritesAtMost result buf.now }
        ensures bytes { WriteAppends (taken self.old).contents (taken self.new).contents result
            buf.now }
        ensures failed { (taken self.new).failures
            ≡ count_when (taken self.old).failures (is_refused result buf.now) };

    /// Hands on what is still held back.
    fn flush(&mut self) -> Result<(), Failed>
        ensures bytes { Keeps (taken self.old).contents (taken self.new).contents }
        ensures failed { (taken self.new).failures
            ≡ count_when (taken self.old).failures (is_err result) };
}
