//! The command `serve`.
ghost use Rattle.std.specs.Prelude.{◌≡◌, ◌≢◌, ◌⊎◌, ℕ, ◌≤◌, Ok, Err, None, IsSome};
ghost use Rattle.std.specs.Io.KnownBytes.{Appends};
ghost use Rattle.fidl_limits.specs.declared.limits.TheConstants.{MAX_SERVICE_READS};
ghost use Rattle.fidl_streams.specs.Counts.{add_count};
ghost use Rattle.fidl_table_format.specs.WellFormed.{WellFormed};
ghost use Rattle.fidl_commands.specs.Decoding.{no_memory_line};
ghost use Rattle.fidl_commands.specs.Outputs.{AppendsOne, ReportsFailures};
ghost use Rattle.fidl_commands.specs.declared.outcome.Outcome.TheVariants as outcome;
ghost use Rattle.fidl_stream_commands.specs.Serving.{reading, HasScriptOf, IsServedOf, IsCutOf};
ghost use Rattle.fidl_stream_commands.specs.Serving.{IsBrokenOffOf, IsServeRefusalOf, fault_line};
ghost use Rattle.fidl_stream_commands.specs.Serving.{CanEndServe};

use crate::telling::{refuse_script, tell_end};
use fidl_commands::{File, Outcome, verified};
use fidl_requests::Ended;
use fidl_script::Script;
use fidl_serve::ServeFault;
use fidl_streams::Source;
use fidl_text::Output;
use std::alloc::Global;
use std::io::Write;

/// The table and the script of a service, as files that were read.
#[derive(Clone, Copy, Drop)]
pub struct ServedFiles<'f> {
    pub table: File<'f>,
    pub script: File<'f>,
}

/// Answers the requests that a reader gives by the replies of a script, and writes each reply on
/// `out` as soon as it is made.
///
/// `Done` where the input ends between frames: all replies to it are written, and nothing is
/// printed on `errors`. All else prints one line there. `Refused` where the table is not accepted,
/// the text is no script for a protocol of it, a request is refused, or the input goes on after
/// 4,294,967,296 reads. `Unread` where a read fails, `Unwritten` where a write of this call fails,
/// and `NoMemory` where memory ran out. Replies that were written before stay. Nothing is read
/// before the table and the script are accepted, and all memory is taken.
pub fn serve<R: Source, W: Write, E: Write>(
    alloc: Global,
    files: &ServedFiles<'_>,
    reader: &mut R,
    out: &mut Output<W>,
    errors: &mut Output<E>,
) -> Outcome
    ensures ends { CanEndServe result }
    ensures done { result ≡ outcome.Done → IsServedOf files.now
        (reading R.remaining R.reads R.failures reader.old reader.new)
        (W.contents out.old.writer) (W.contents out.new.writer) (Ok Ended.EndOfInput) }
    ensures refused { result ≡ outcome.Refused → AppendsOne (IsServeRefusalOf files.now
        (reading R.remaining R.reads R.failures reader.old reader.new)
        (W.contents out.old.writer) (W.contents out.new.writer))
        (E.contents errors.old.writer) (E.contents errors.new.writer) }
    ensures unread { result ≡ outcome.Unread → IsServedOf files.now
        (reading R.remaining R.reads R.failures reader.old reader.new)
        (W.contents out.old.writer) (W.contents out.new.writer) (Err ServeFault.Read) }
    ensures unread_line { result ≡ outcome.Unread
        → Appends (E.contents errors.old.writer) (E.contents errors.new.writer)
        (fault_line ServeFault.Read) }
    ensures accepted { result ≡ outcome.NoMemory → WellFormed files.now.table.bytes.now }
    ensures memory { result ≡ outcome.NoMemory
        → (reader.new ≡ reader.old) × (out.new ≡ out.old) }
    ensures memory_line { result ≡ outcome.NoMemory
        → Appends (E.contents errors.old.writer) (E.contents errors.new.writer) no_memory_line }
    ensures unwritten { ReportsFailures result out.old.failure out.new.failure
        errors.old.failure errors.new.failure }

    // What is written on `out` where a write on it has failed, and where that of the line has.
    ensures cut { out.old.failure ≡ None → IsSome out.new.failure → IsCutOf files.now
        (reading R.remaining R.reads R.failures reader.old reader.new)
        (W.contents out.old.writer) (W.contents out.new.writer) }
    ensures cut_line { result ≡ outcome.Unwritten → errors.old.failure ≡ None
        → errors.new.failure ≡ None
        → Appends (E.contents errors.old.writer) (E.contents errors.new.writer)
        (fault_line (ServeFault.Write 0)) }
    ensures front { result ≡ outcome.Unwritten
        → W.contents out.new.writer ≡ W.contents out.old.writer
        ⊎ IsBrokenOffOf files.now (reading R.remaining R.reads R.failures reader.old reader.new)
        (W.contents out.old.writer) (W.contents out.new.writer) }

    // Nothing is read or written where there is no script, and all else within the limit.
    ensures untouched { ¬ (HasScriptOf files.now)
        → (reader.new ≡ reader.old) × (out.new ≡ out.old) }
    ensures reads { (made : ℕ) × (made ≤ MAX_SERVICE_READS)
        × (R.reads reader.new ≡ add_count (R.reads reader.old) made) }
    ensures errors { result ≡ outcome.Done
        → E.contents errors.new.writer ≡ E.contents errors.old.writer }
{
    let table = match verified(files.table.bytes, errors) {
        Ok(table) => table,
        Err(ended) => return ended,
    };
    let script = match Script::read(alloc, &table, files.script.bytes) {
        Ok(script) => script,
        Err(fault) => return refuse_script(fault, errors),
    };
    let served = fidl_serve::serve(alloc, &table, &script, reader, out);
    tell_end(served, errors)
}
