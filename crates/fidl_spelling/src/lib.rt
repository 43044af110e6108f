//! The notation of values: which texts spell a value.
#![tactic(auto)]

pub mod laws;
pub mod refused;
pub mod worked;
