//! What a service has at hand.
ghost use Rattle.std.specs.Prelude.{◌≡◌, length, IfOk};
ghost use Rattle.fidl_frames.specs.declared.frame.TheConstants.{MAX_FRAME};
ghost use Rattle.fidl_serve.specs.Cursors.{left_of, ArePlaces};

use fidl_decode::Scratch;
use fidl_frames::MAX_FRAME;
use fidl_script::Script;
use fidl_verify::{Protocol, Table};
use std::alloc::{AllocError, Global};
use std::vec;

/// What a service answers by: a protocol of a table, and a script for it.
#[derive(Drop)]
pub(crate) struct Service<'s, 't> {
    pub(crate) table: &'s Table<'t>,
    pub(crate) protocol: &'s Protocol<'t>,
    pub(crate) script: &'s Script,
}

/// The memory that a service needs.
#[derive(Drop)]
pub(crate) struct State {
    /// The place of the next reply of each method of the script.
    pub(crate) places: Vec<usize>,
    /// The frame that came in, and then its reply.
    pub(crate) buffer: Vec<u8>,
    /// What decoding needs.
    pub(crate) scratch: Scratch,
}

impl State {
    /// The state before the first read. It takes all memory that the service needs.
    pub(crate) fn new(alloc: Global, script: &Script) -> Result<State, AllocError>
        ensures places { IfOk result (λ s. ArePlaces script.now s.places.items) }
        ensures whole { IfOk result (λ s. left_of script.now s.places.items ≡ script.now) }
        ensures room { IfOk result (λ s. length s.buffer.items ≡ MAX_FRAME) }
    {
        let places = vec![in alloc; 0usize; script.methods().len()]?;
        let buffer = vec![in alloc; 0u8; MAX_FRAME]?;
        let scratch = Scratch::new(alloc)?;
        Ok(State {
            places,
            buffer,
            scratch,
        })
    }
}

/// How far a service has come.
#[derive(Clone, Copy, Debug, Drop)]
pub(crate) struct Counts {
    /// How many reads are left.
    pub(crate) left: u64,
    /// How many replies are written.
    pub(crate) sent: u64,
}
