//! A writer to room that is given in advance.
ghost use Rattle.std.specs.Prelude.{◌≡◌, ◌≤◌, [], Some, take, length};

use fidl_streams::{Failed, Sink};
use std::alloc::{AllocError, Global};

/// A writer to room that is given in advance. A write for which there is no room fails.
#[derive(Drop)]
pub(crate) struct Room {
    bytes: Vec<u8>,
    taken: usize,
    failures: u64,
    ghost in_room: { taken ≤ length bytes.items },
}

impl Room {
    /// Room for so many bytes, of which none is taken.
    pub(crate) fn new(alloc: Global, size: usize) -> Result<Room, AllocError> {
        let mut bytes = Vec::new(alloc);
        bytes.resize(size, 0)?;
        Ok(Room {
            bytes,
            taken: 0,
            failures: 0,
        })
    }

    /// Forgets what was written.
    pub(crate) fn clear(&mut self)
        ensures { take self.new.taken self.new.bytes.items ≡ [] }
    {
        self.taken = 0;
    }

    /// The bytes that are written.
    pub(crate) fn contents(&self) -> &[u8]
        ensures { result.now ≡ take self.now.taken self.now.bytes.items }
    {
        &self.bytes[..self.taken]
    }
}

impl Sink for Room {
    ghost taken = { λ s. record { contents = Some (take s.taken s.bytes.items); failures = s.failures } };

    fn write(&mut self, buf: &[u8]) -> Result<usize, Failed> {
        let from = self.taken;
        if buf.len() > self.bytes.len() - from {
            self.failures = self.failures.saturating_add(1);
            return Err(Failed);
        }
        let end = from + buf.len();
        self.bytes[from..end].copy_from_slice(buf);
        self.taken = end;
        Ok(buf.len())
    }

    fn flush(&mut self) -> Result<(), Failed> {
        Ok(())
    }
}
