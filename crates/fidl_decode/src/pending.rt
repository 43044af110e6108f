//! What is left to read of a frame.
ghost use Rattle.std.specs.Prelude.{◌≡◌, None, ◌↔◌, IsTrue};

use fidl_decode_model::frame::{Frame, Turn};

/// What reading a frame leaves: the frames that a turn leaves, and one, if any, that is read behind
/// these.
#[derive(Drop)]
pub(crate) struct Pending {
    pub under: Option<Frame>,
    pub turn: Turn,
}

/// Whether a turn leaves nothing.
#[inline(always)]
pub(crate) fn is_done(turn: &Turn) -> bool
    ensures { IsTrue result ↔ turn.now ≡ record { below = None; rest = None } }
{
    turn.below.is_none() && turn.rest.is_none()
}
