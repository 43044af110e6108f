//! Writing all of some bytes, once.
ghost use Rattle.std.specs.Prelude.{◌≡◌};
ghost use Rattle.fidl_streams.specs.Written.{Writes};
ghost use Rattle.fidl_streams.specs.Sent.{Sends};

use crate::{Failed, Sink};

/// Writes all of the bytes, or fails and has written a front of them that is not all. Nothing is
/// written after a failure.
pub fn write_all<W: Sink>(out: &mut W, bytes: &[u8]) -> Result<(), Failed>
    ensures { Writes (W.taken out.old) (W.taken out.new) bytes.now result }
{
    let mut rest = bytes;
    while !rest.is_empty() {
        match out.write(rest) {
            Ok(0) => return Err(Failed),
            Ok(count) => rest = &rest[count..],
            Err(failed) => return Err(failed),
        }
    }
    Ok(())
}

/// What became of bytes that were to be written and handed on.
#[derive(Clone, Copy, Debug, Drop)]
pub enum Sent {
    /// All are written and handed on.
    Done,
    /// All are written, and the flush failed.
    Unflushed,
    /// A front of them is written, which is not all.
    Cut,
}

/// Writes all of the bytes, and has them handed on. Nothing is tried again after a failure.
pub fn send<W: Sink>(out: &mut W, bytes: &[u8]) -> Sent
    ensures { Sends (W.taken out.old) (W.taken out.new) bytes.now result }
{
    if write_all(out, bytes).is_err() {
        return Sent::Cut;
    }
    if out.flush().is_err() {
        return Sent::Unflushed;
    }
    Sent::Done
}
