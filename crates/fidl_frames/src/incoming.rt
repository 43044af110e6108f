//! Reading a frame.
ghost use Rattle.std.specs.Prelude.{◌≡◌, ◌-◌, ◌<◌, ◌≤◌, ℕ, length};
ghost use Rattle.fidl_streams.specs.Counts.{add_count, count_when};
ghost use Rattle.fidl_frames.specs.Incoming.{Reads, is_failed};
ghost use Rattle.fidl_frames.specs.declared.frame.TheConstants.{MAX_FRAME};

use crate::filling::{Filling, fill};
use crate::frame::frame_length;
use fidl_streams::Source;

/// What has come in.
#[derive(Clone, Copy, Debug, Drop)]
pub enum Incoming {
    /// A frame of so many bytes, at the front of the buffer.
    Frame(usize),
    /// The input ends between frames.
    Between,
    /// The input ends inside a frame.
    Inside,
    /// The beginning of a frame whose message has too many bytes or handles.
    PastLimit,
    /// A read failed.
    Failure,
    /// The input goes on after the last read allowed.
    NoReads,
}

/// Reads the next frame into the front of a buffer, and lowers `left` by one for each read. Nothing
/// is read after a failure or the end.
pub fn read_frame<R: Source>(reader: &mut R, buffer: &mut [u8], left: &mut u64) -> Incoming
    requires { length buffer.old ≡ MAX_FRAME }
    ensures bytes { Reads (R.remaining reader.old) (R.remaining reader.new) buffer.new result }
    ensures spent { result ≡ Incoming.NoReads → left.new ≡ 0 }
    ensures left { left.new ≤ left.old }
    ensures used { (n : ℕ) → result ≡ Incoming.Frame n → left.new < left.old }
    ensures counted { R.reads reader.new ≡ add_count (R.reads reader.old) (left.old - left.new) }
    ensures failed { R.failures reader.new
        ≡ count_when (R.failures reader.old) (is_failed result) }
{
    let head = fill(reader, &mut buffer[..8], left);
    match head.cause {
        Filling::Full => {}
        Filling::End => {
            return if head.count == 0 {
                Incoming::Between
            } else {
                Incoming::Inside
            };
        }
        Filling::Failure => return Incoming::Failure,
        Filling::NoReads => return Incoming::NoReads,
    }
    let Some(end) = frame_length(&buffer[..8]) else {
        return Incoming::PastLimit;
    };
    match fill(reader, &mut buffer[8..end], left).cause {
        Filling::Full => Incoming::Frame(end),
        Filling::End => Incoming::Inside,
        Filling::Failure => Incoming::Failure,
        Filling::NoReads => Incoming::NoReads,
    }
}
