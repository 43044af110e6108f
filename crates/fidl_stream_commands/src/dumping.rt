//! The command `dump`.
ghost use Rattle.std.specs.Prelude.{◌≡◌, ◌≢◌, ◌⊎◌, ℕ, None, IsSome, OnOk, OnErr};
ghost use Rattle.std.specs.Io.KnownBytes.{Appends};
ghost use Rattle.fidl_table_format.specs.WellFormed.{WellFormed};
ghost use Rattle.fidl_frames.specs.Frames.{frames_of, between};
ghost use Rattle.fidl_dump.specs.declared.fault.FrameFault.{FrameFault};
ghost use Rattle.fidl_dump.specs.Printed.{PrintsLines, PrintsFront, first_frames};
ghost use Rattle.fidl_commands.specs.Decoding.{no_memory_line};
ghost use Rattle.fidl_commands.specs.Outputs.{AppendsOne, ReportsFailures};
ghost use Rattle.fidl_commands.specs.declared.outcome.Outcome.TheVariants as outcome;
ghost use Rattle.fidl_stream_commands.specs.Dumping.{frame_line, IsStoppedAt, LacksProtocol};
ghost use Rattle.fidl_stream_commands.specs.Dumping.{TellsNoProtocol, CanEndDump, CanEndDumpBy};
ghost use Rattle.fidl_stream_commands.specs.Dumping.{IsDumpedOf, IsDumpedInPartOf, IsDumpRefusalOf};

use fidl_commands::{
    File, Named, Outcome, near_name, verified, write_no_memory, write_no_output,
    write_placeless_refusal, write_refusal, write_unnamed,
};
use fidl_decode::Scratch;
use fidl_dump::{Direction, DumpFault, FrameFault, Stream, dump_frames};
use fidl_text::{Failed, Output};
use std::alloc::Global;
use std::io::Write;

/// Frames that were recorded: the name of their protocol, which of its messages they hold, and their
/// bytes, in which their messages are decoded.
#[derive(Drop)]
pub struct Recorded<'f> {
    pub protocol: &'f str,
    pub direction: Direction,
    pub frames: &'f mut [u8],
}

/// The line of the fault of the frame of this number, from 1.
fn write_frame_refusal<E: Write>(
    errors: &mut Output<E>,
    number: u64,
    fault: FrameFault,
) -> Result<(), Failed>
    ensures line { OnOk result
        (Appends (E.contents errors.old.writer) (E.contents errors.new.writer)
        (frame_line number fault)) }
    ensures kept { OnOk result (errors.new.failure ≡ errors.old.failure) }
    ensures failed { OnErr result (IsSome errors.new.failure) }
{
    write!(errors, "frame {number}: ")?;
    match fault.at() {
        Some(at) => write_refusal(errors, fault.stage(), fault.number(), fault.name(), at),
        None => write_placeless_refusal(errors, fault.stage(), fault.number(), fault.name()),
    }
}

/// Prints the lines of the frames of a stream.
fn dump_by<W: Write, E: Write>(
    alloc: Global,
    stream: &Stream<'_, '_>,
    frames: &mut [u8],
    out: &mut Output<W>,
    errors: &mut Output<E>,
) -> Outcome
    ensures ends { CanEndDumpBy result }
    ensures whole { result ≡ outcome.Done → (frames_of frames.old).tail ≡ between }
    ensures done { result ≡ outcome.Done → PrintsLines stream.now.protocol.now stream.now.direction
        (frames_of frames.old).frames (W.contents out.old.writer) (W.contents out.new.writer) }
    ensures refused { result ≡ outcome.Refused → (number : ℕ) × (fault : FrameFault)
        × IsStoppedAt stream.now.protocol.now stream.now.direction frames.old
        (W.contents out.old.writer) (W.contents out.new.writer) number fault
        × Appends (E.contents errors.old.writer) (E.contents errors.new.writer)
        (frame_line number fault) }
    ensures memory_line { result ≡ outcome.NoMemory
        → Appends (E.contents errors.old.writer) (E.contents errors.new.writer) no_memory_line }
    ensures unwritten { ReportsFailures result out.old.failure out.new.failure
        errors.old.failure errors.new.failure }
    ensures front { result ≡ outcome.Unwritten
        → W.contents out.new.writer ≡ W.contents out.old.writer
        ⊎ ((count : ℕ) × PrintsFront stream.now.protocol.now stream.now.direction
        (first_frames count frames.old) (W.contents out.old.writer) (W.contents out.new.writer)) }
    ensures out { result ≡ outcome.NoMemory → out.new ≡ out.old }
    ensures errors { result ≡ outcome.Done
        → E.contents errors.new.writer ≡ E.contents errors.old.writer }
{
    let mut scratch = match Scratch::new(alloc) {
        Ok(scratch) => scratch,
        Err(_) => return Outcome::NoMemory.where_written(&write_no_memory(errors)),
    };
    match dump_frames(stream, frames, &mut scratch, out) {
        Ok(()) => Outcome::Done,
        Err(DumpFault::Frame { number, fault }) => {
            Outcome::Refused.where_written(&write_frame_refusal(errors, number, fault))
        }
        Err(DumpFault::Write) => Outcome::Unwritten.where_written(&write_no_output(errors, out)),
    }
}

/// Prints a line for each of recorded frames, by a protocol of a table.
///
/// `Done` where the frames end with a whole one, and all their lines stand on `out`. `Refused` where
/// the table is not accepted, or a frame has no line; the lines of the frames before it then stand
/// on `out`. `NoProtocol` where the table has no such protocol. All but `Done` print one line on
/// `errors`. `Unwritten` comes where a write of this call fails, and `NoMemory` where memory ran
/// out.
pub fn dump<W: Write, E: Write>(
    alloc: Global,
    file: &File<'_>,
    recorded: Recorded<'_>,
    out: &mut Output<W>,
    errors: &mut Output<E>,
) -> Outcome
    ensures ends { CanEndDump result }
    ensures done { result ≡ outcome.Done → IsDumpedOf file.now.bytes.now recorded.entry
        (W.contents out.old.writer) (W.contents out.new.writer) }
    ensures refused { result ≡ outcome.Refused
        → AppendsOne (IsDumpRefusalOf file.now.bytes.now recorded.entry
        (W.contents out.old.writer) (W.contents out.new.writer))
        (E.contents errors.old.writer) (E.contents errors.new.writer) }
    ensures no_protocol { result ≡ outcome.NoProtocol
        → LacksProtocol file.now.bytes.now recorded.entry.protocol.now }
    ensures no_protocol_line { result ≡ outcome.NoProtocol
        → TellsNoProtocol file.now.bytes.now file.now.name.now recorded.entry.protocol.now
        (E.contents errors.old.writer) (E.contents errors.new.writer) }
    ensures accepted { result ≡ outcome.NoMemory → WellFormed file.now.bytes.now }
    ensures memory_line { result ≡ outcome.NoMemory
        → Appends (E.contents errors.old.writer) (E.contents errors.new.writer) no_memory_line }
    ensures unwritten { ReportsFailures result out.old.failure out.new.failure
        errors.old.failure errors.new.failure }
    ensures front { result ≡ outcome.Unwritten
        → W.contents out.new.writer ≡ W.contents out.old.writer
        ⊎ IsDumpedInPartOf file.now.bytes.now recorded.entry
        (W.contents out.old.writer) (W.contents out.new.writer) }
    ensures out { result ≡ outcome.NoProtocol ⊎ result ≡ outcome.NoMemory → out.new ≡ out.old }
    ensures errors { result ≡ outcome.Done
        → E.contents errors.new.writer ≡ E.contents errors.old.writer }
{
    let table = match verified(file.bytes, errors) {
        Ok(table) => table,
        Err(ended) => return ended,
    };
    match table.protocol(recorded.protocol.as_bytes()) {
        Some(protocol) => {
            let stream = Stream {
                table: &table,
                protocol: &protocol,
                direction: recorded.direction,
            };
            dump_by(alloc, &stream, recorded.frames, out, errors)
        }
        None => {
            let near = near_name(alloc, &table, Named::Protocols, recorded.protocol);
            let named = Named::Protocols;
            let written = write_unnamed(errors, named, file.name, recorded.protocol, near);
            Outcome::NoProtocol.where_written(&written)
        }
    }
}
