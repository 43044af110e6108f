//! Reading until a buffer is full, within a number of reads.
ghost use Rattle.std.specs.Prelude.{◌≡◌, ◌≢◌, ◌-◌, ◌<◌, ◌≤◌, length, take};
ghost use Rattle.std.specs.Io.KnownBytes.{Consumes, IsAtEnd};
ghost use Rattle.fidl_streams.specs.Counts.{add_count, count_when};
ghost use Rattle.fidl_frames.specs.Filling.{is_failure};

use fidl_streams::Source;

/// Why a filling has stopped.
#[derive(Clone, Copy, Debug, Drop)]
pub enum Filling {
    /// The buffer is full.
    Full,
    /// The input has ended.
    End,
    /// A read failed.
    Failure,
    /// No read is left.
    NoReads,
}

/// How many bytes stand at the front of a buffer, and why no more.
#[derive(Clone, Copy, Debug, Drop)]
pub struct Filled {
    pub count: usize,
    pub cause: Filling,
}

/// Reads until the buffer is full, and lowers `left` by one for each read. Nothing is read after a
/// failure or the end.
pub fn fill<R: Source>(reader: &mut R, buffer: &mut [u8], left: &mut u64) -> Filled
    ensures within { result.count ≤ length buffer.new }
    ensures bytes { Consumes (R.remaining reader.old) (R.remaining reader.new)
        (take result.count buffer.new) }
    ensures full { result.cause ≡ Filling.Full → result.count ≡ length buffer.new }
    ensures short { result.cause ≢ Filling.Full → result.count < length buffer.new }
    ensures end { result.cause ≡ Filling.End → IsAtEnd (R.remaining reader.new) }
    ensures spent { result.cause ≡ Filling.NoReads → left.new ≡ 0 }
    ensures left { left.new ≤ left.old }
    ensures used { 0 < result.count → left.new < left.old }
    ensures counted { R.reads reader.new ≡ add_count (R.reads reader.old) (left.old - left.new) }
    ensures failed { R.failures reader.new
        ≡ count_when (R.failures reader.old) (is_failure result.cause) }
{
    let mut count = 0;
    while count < buffer.len() {
        if *left == 0 {
            let cause = Filling::NoReads;
            return Filled { count, cause };
        }
        *left -= 1;
        match reader.read(&mut buffer[count..]) {
            Ok(0) => {
                let cause = Filling::End;
                return Filled { count, cause };
            }
            Ok(taken) => count += taken,
            Err(_) => {
                let cause = Filling::Failure;
                return Filled { count, cause };
            }
        }
    }
    let cause = Filling::Full;
    Filled { count, cause }
}
