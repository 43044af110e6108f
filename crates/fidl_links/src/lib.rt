//! A message in whose bytes links stand while it is decoded: where the object of each marker
//! begins, and which record each handle has.
#![tactic(auto)]

mod bits;
mod counts;
mod envelopes;
pub mod laws;
mod links;
mod reading;
mod reads;
mod restoring;
mod room;
mod words;
pub mod worked;

pub use links::Links;
pub use room::Room;
