//! Dumps: a recorded stream of frames, printed a line a frame (README.md).
#![tactic(auto)]

mod direction;
mod dump;
mod fault;
mod frame;
pub mod laws;
mod line;
mod stream;
pub mod worked;

pub use direction::Direction;
pub use dump::dump_frames;
pub use fault::{DumpFault, FrameFault};
pub use stream::Stream;
