//! Printing a stream of frames.
ghost use Rattle.std.specs.Prelude.{◌≡◌, ◌≢◌, ℕ, ◌-◌, ◌<◌, ◌≤◌, OnOk, IfSome, IfNone, IsSome};
ghost use Rattle.std.specs.Prelude.{Ok, Err, None, length, take};
ghost use Rattle.fidl_frames.specs.Frames.{IsFrame, frames_of, between};
ghost use Rattle.fidl_dump.specs.declared.fault.FrameFault.{FrameFault};
ghost use Rattle.fidl_dump.specs.Faults.{IsFaultAt, HasNoFrame};
ghost use Rattle.fidl_dump.specs.Printed.{PrintsLines, PrintsFront, first_frames};

use crate::fault::{DumpFault, FrameFault};
use crate::frame::{Unprinted, print_frame};
use crate::stream::Stream;
use fidl_decode::Scratch;
use fidl_frames::{FRAME_HEAD, frame_length};
use fidl_requests::Frame;
use fidl_text::Output;
use std::io::Write;

/// The length of the whole frame with which some bytes begin. None where they begin with none.
fn whole_frame(bytes: &[u8]) -> Option<usize>
    requires { 0 < length bytes.now }
    ensures frame { IfSome result (λ n. IsFrame (take n bytes.now)) }
    ensures within { IfSome result (λ n. n ≤ length bytes.now) }
    ensures none { IfNone result (HasNoFrame bytes.now) }
{
    if bytes.len() < FRAME_HEAD {
        return None;
    }
    let Some(end) = frame_length(&bytes[..FRAME_HEAD]) else {
        return None;
    };
    if end > bytes.len() {
        return None;
    }
    Some(end)
}

/// Prints the frames of a recorded stream, a line a frame (docs/program.md, "dump").
///
/// `Ok` comes where the bytes are whole frames, and each has a line; all lines are then written.
/// `Frame` names the first frame without a line, by its number from 1. It is a whole one that is
/// refused, or the bytes behind all whole ones. The lines of the frames before it are written, and
/// nothing of it. `Write` comes where a write failed; a front of the lines is then written.
/// Each line is handed on before the next frame is read. Transaction ids and flexible bits are not
/// judged. It takes no memory. Messages are decoded where they stand, so the decoder's links can be
/// left in the bytes.
pub fn dump_frames<W: Write>(
    stream: &Stream<'_, '_>,
    bytes: &mut [u8],
    scratch: &mut Scratch,
    out: &mut Output<W>,
) -> Result<(), DumpFault>
    ensures whole { OnOk result ((frames_of bytes.old).tail ≡ between) }
    ensures ok { OnOk result (PrintsLines stream.now.protocol.now stream.now.direction
        (frames_of bytes.old).frames (W.contents out.old.writer) (W.contents out.new.writer)) }
    ensures fault_is_true { (number : ℕ) → (fault : FrameFault)
        → result ≡ Err (DumpFault.Frame number fault)
        → IsFaultAt stream.now.protocol.now stream.now.direction bytes.old number fault }
    ensures before { (number : ℕ) → (fault : FrameFault)
        → result ≡ Err (DumpFault.Frame number fault)
        → PrintsLines stream.now.protocol.now stream.now.direction
        (first_frames (number - 1) bytes.old)
        (W.contents out.old.writer) (W.contents out.new.writer) }
    ensures front { result ≡ Err DumpFault.Write → (count : ℕ)
        × PrintsFront stream.now.protocol.now stream.now.direction (first_frames count bytes.old)
        (W.contents out.old.writer) (W.contents out.new.writer) }
    ensures kept { result ≢ Err DumpFault.Write → out.old.failure ≡ None
        → out.new.failure ≡ None }
    ensures failed { result ≡ Err DumpFault.Write → IsSome out.new.failure }
{
    let mut at = 0;
    let mut number = 0;
    while at < bytes.len() {
        number += 1;
        let Some(size) = whole_frame(&bytes[at..]) else {
            let fault = FrameFault::BadFrame;
            return Err(DumpFault::Frame { number, fault });
        };
        let frame = Frame::new(&mut bytes[at..at + size]);
        match print_frame(stream, frame, scratch, out) {
            Ok(()) => at += size,
            Err(Unprinted::Refused(fault)) => return Err(DumpFault::Frame { number, fault }),
            Err(Unprinted::Write) => return Err(DumpFault::Write),
        }
    }
    Ok(())
}
