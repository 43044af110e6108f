//! What decoding a message again and again needs.
ghost use Rattle.std.specs.Prelude.{◌≡◌, IfOk, OnOk};

use fidl_decode::Scratch;
use std::alloc::{AllocError, Global};

/// A copy of a message, in which it is decoded, and the decoder's scratch.
#[derive(Drop)]
pub(crate) struct Desk {
    pub(crate) copy: Vec<u8>,
    pub(crate) scratch: Scratch,
}

impl Desk {
    /// Room for decoding a message. An error means that memory ran out.
    pub(crate) fn new(alloc: Global, message: &[u8]) -> Result<Desk, AllocError>
        ensures { IfOk result (λ desk. desk.copy.items ≡ message.now) }
    {
        let copy = Vec::from_slice(alloc, message)?;
        let scratch = Scratch::new(alloc)?;
        Ok(Desk { copy, scratch })
    }

    /// Copies a message, over what was decoded before. An error means that memory ran out.
    pub(crate) fn fill(&mut self, message: &[u8]) -> Result<(), AllocError>
        ensures { OnOk result (self.new.copy.items ≡ message.now) }
    {
        self.copy.clear();
        self.copy.extend_from_slice(message)
    }
}
