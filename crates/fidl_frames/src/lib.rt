//! Frames: how messages with their handles stand one after another in a stream (docs/service.md,
//! "Frames").
#![tactic(auto)]

mod filling;
mod frame;
mod incoming;
pub mod laws;
pub mod worked;

pub use filling::{Filled, Filling, fill};
pub use frame::{FRAME_HEAD, HANDLE_BYTES, MAX_FRAME, frame_length};
pub use incoming::{Incoming, read_frame};
