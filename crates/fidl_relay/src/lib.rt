//! The round trip of a message: decoded, taken as an owned tree, and encoded again.
#![tactic(auto)]

mod relaying;

pub use relaying::relay;
