//! The service.
ghost use Rattle.std.specs.Prelude.{◌≡◌, ℕ, ◌+◌, ◌-◌, ◌^◌, ◌<◌, ◌≤◌, length, IfSome, Ok, Err, None};
ghost use Rattle.fidl_streams.specs.Counts.{add_count, count_when};
ghost use Rattle.fidl_frames.specs.declared.frame.TheConstants.{MAX_FRAME};
ghost use Rattle.fidl_limits.specs.declared.limits.TheConstants.{MAX_SERVICE_READS};
ghost use Rattle.fidl_script.specs.Script.{IsScriptFor};
ghost use Rattle.fidl_serve.specs.Cursors.{left_of, ArePlaces};
ghost use Rattle.fidl_serve.specs.Served.{HasProtocol, ByProtocol, Served, Serves, WritesAll};
ghost use Rattle.fidl_serve.specs.Served.{is_read_fault, is_write_fault};
ghost use Rattle.fidl_serve.specs.Turns.{Turns};

use crate::answer::{Reaction, answer};
use crate::fault::ServeFault;
use crate::service::{Counts, Service, State};
use fidl_decode::Scratch;
use fidl_frames::{Incoming, read_frame};
use fidl_limits::MAX_SERVICE_READS;
use fidl_requests::Ended;
use fidl_script::Script;
use fidl_streams::{Sent, Sink, Source, send};
use fidl_verify::Table;
use std::alloc::Global;

/// Reads a frame and answers it.
fn turn<R: Source, W: Sink>(
    service: &Service<'_, '_>,
    places: &mut [usize],
    buffer: &mut [u8],
    scratch: &mut Scratch,
    reader: &mut R,
    writer: &mut W,
    counts: &mut Counts,
) -> Result<Option<Ended>, ServeFault>
    requires table { service.now.protocol.now.table ≡ service.now.table.now }
    requires script { IsScriptFor service.now.protocol.now service.now.script.now }
    requires places { ArePlaces service.now.script.now places.old }
    requires room { length buffer.old ≡ MAX_FRAME }
    requires counts { counts.old.sent + counts.old.left < 2 ^ 64 }
    ensures places { ArePlaces service.now.script.now places.new }
    ensures turns { Turns service.now.protocol.now (left_of service.now.script.now places.old)
        (left_of service.now.script.now places.new) counts.old.sent counts.new.sent
        (R.remaining reader.old) (R.remaining reader.new)
        (W.taken writer.old).contents (W.taken writer.new).contents result }
    ensures left { counts.new.left ≤ counts.old.left }
    ensures used { result ≡ Ok None → counts.new.left < counts.old.left }
    ensures counts { counts.new.sent + counts.new.left ≤ counts.old.sent + counts.old.left }
    ensures spent { result ≡ Err ServeFault.NeverEnds → counts.new.left ≡ 0 }
    ensures reads { R.reads reader.new
        ≡ add_count (R.reads reader.old) (counts.old.left - counts.new.left) }
    ensures read_failures { R.failures reader.new
        ≡ count_when (R.failures reader.old) (is_read_fault result) }
    ensures write_failures { (W.taken writer.new).failures
        ≡ count_when (W.taken writer.old).failures (is_write_fault result) }
{
    let count = match read_frame(reader, buffer, &mut counts.left) {
        Incoming::Frame(count) => count,
        Incoming::Between => return Ok(Some(Ended::EndOfInput)),
        Incoming::Inside => return Ok(Some(Ended::BadFrame)),
        Incoming::PastLimit => return Ok(Some(Ended::BadFrame)),
        Incoming::Failure => return Err(ServeFault::Read),
        Incoming::NoReads => return Err(ServeFault::NeverEnds),
    };
    match answer(service, places, buffer, scratch, count) {
        Reaction::Silence => Ok(None),
        Reaction::End(ended) => Ok(Some(ended)),
        Reaction::Reply(end) => match send(writer, &buffer[..end]) {
            Sent::Done => {
                counts.sent += 1;
                Ok(None)
            }
            Sent::Unflushed => {
                let frames = counts.sent + 1;
                Err(ServeFault::Write { frames })
            }
            Sent::Cut => {
                let frames = counts.sent;
                Err(ServeFault::Write { frames })
            }
        },
    }
}

/// Answers frame after frame.
fn run<R: Source, W: Sink>(
    service: &Service<'_, '_>,
    places: &mut [usize],
    buffer: &mut [u8],
    scratch: &mut Scratch,
    reader: &mut R,
    writer: &mut W,
    reads: u64,
) -> Result<Ended, ServeFault>
    requires table { service.now.protocol.now.table ≡ service.now.table.now }
    requires script { IsScriptFor service.now.protocol.now service.now.script.now }
    requires places { ArePlaces service.now.script.now places.old }
    requires room { length buffer.old ≡ MAX_FRAME }
    ensures served { Served service.now.protocol.now (left_of service.now.script.now places.old) 0
        (R.remaining reader.old) (R.remaining reader.new)
        (W.taken writer.old).contents (W.taken writer.new).contents result }
    ensures reads { (made : ℕ) × (made ≤ reads)
        × (R.reads reader.new ≡ add_count (R.reads reader.old) made)
        × (result ≡ Err ServeFault.NeverEnds → made ≡ reads) }
    ensures read_failures { R.failures reader.new
        ≡ count_when (R.failures reader.old) (is_read_fault result) }
    ensures write_failures { (W.taken writer.new).failures
        ≡ count_when (W.taken writer.old).failures (is_write_fault result) }
{
    let mut counts = Counts {
        left: reads,
        sent: 0,
    };
    'turns: loop {
        match turn(
            service,
            places,
            buffer,
            scratch,
            reader,
            writer,
            &mut counts,
        ) {
            Ok(None) => {}
            Ok(Some(ended)) => return Ok(ended),
            Err(fault) => return Err(fault),
        }
    }
}

/// Answers the frames that a reader gives by the replies of a script, within a number of reads
/// (docs/service.md, "Answers", "Output and ends").
///
/// The script is one for a protocol of the table. `Ok` says how the service ends; all replies to
/// the input are then written. Each reply is written and flushed before the next read. Nothing is
/// read or written after a failure. All memory is taken before the first read.
pub fn serve_within<R: Source, W: Sink>(
    alloc: Global,
    table: &Table<'_>,
    script: &Script,
    reader: &mut R,
    writer: &mut W,
    reads: u64,
) -> Result<Ended, ServeFault>
    requires { HasProtocol table.now script.now }
    ensures serves { ByProtocol table.now script.now (λ p. Serves p script.now
        (R.remaining reader.old) (R.remaining reader.new)
        (W.taken writer.old).contents (W.taken writer.new).contents result) }
    ensures whole { ByProtocol table.now script.now (λ p. IfSome (R.remaining reader.old)
        (λ input. WritesAll p script.now input
        (W.taken writer.old).contents (W.taken writer.new).contents result)) }
    ensures untouched { result ≡ Err ServeFault.Memory
        → (reader.new ≡ reader.old) × (writer.new ≡ writer.old) }
    ensures reads { (made : ℕ) × (made ≤ reads)
        × (R.reads reader.new ≡ add_count (R.reads reader.old) made)
        × (result ≡ Err ServeFault.NeverEnds → made ≡ reads) }
    ensures read_failures { R.failures reader.new
        ≡ count_when (R.failures reader.old) (is_read_fault result) }
    ensures write_failures { (W.taken writer.new).failures
        ≡ count_when (W.taken writer.old).failures (is_write_fault result) }
{
    // Read, so that the table is known to be well formed.
    let _entries = table.entries();
    let protocol = match table.protocol(script.protocol()) {
        Some(protocol) => protocol,
        None => unreachable!(),
    };
    let service = Service {
        table,
        protocol: &protocol,
        script,
    };
    let mut state = match State::new(alloc, script) {
        Ok(state) => state,
        Err(_) => return Err(ServeFault::Memory),
    };
    run(
        &service,
        &mut state.places,
        &mut state.buffer,
        &mut state.scratch,
        reader,
        writer,
        reads,
    )
}

/// Answers the frames that a reader gives, as `serve_within` does, within 4,294,967,296 reads.
pub fn serve<R: Source, W: Sink>(
    alloc: Global,
    table: &Table<'_>,
    script: &Script,
    reader: &mut R,
    writer: &mut W,
) -> Result<Ended, ServeFault>
    requires { HasProtocol table.now script.now }
    ensures serves { ByProtocol table.now script.now (λ p. Serves p script.now
        (R.remaining reader.old) (R.remaining reader.new)
        (W.taken writer.old).contents (W.taken writer.new).contents result) }
    ensures whole { ByProtocol table.now script.now (λ p. IfSome (R.remaining reader.old)
        (λ input. WritesAll p script.now input
        (W.taken writer.old).contents (W.taken writer.new).contents result)) }
    ensures untouched { result ≡ Err ServeFault.Memory
        → (reader.new ≡ reader.old) × (writer.new ≡ writer.old) }
    ensures reads { (made : ℕ) × (made ≤ MAX_SERVICE_READS)
        × (R.reads reader.new ≡ add_count (R.reads reader.old) made)
        × (result ≡ Err ServeFault.NeverEnds → made ≡ MAX_SERVICE_READS) }
    ensures read_failures { R.failures reader.new
        ≡ count_when (R.failures reader.old) (is_read_fault result) }
    ensures write_failures { (W.taken writer.new).failures
        ≡ count_when (W.taken writer.old).failures (is_write_fault result) }
{
    serve_within(alloc, table, script, reader, writer, MAX_SERVICE_READS)
}
