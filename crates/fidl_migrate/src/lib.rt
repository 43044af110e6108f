//! Makes a coding table of version 2 from an accepted one (docs/table.md, "Versions").
#![tactic(auto)]

mod keeping;
pub mod laws;
mod migrating;
mod ranges;
#[cfg(test)]
mod tests;
mod values;
pub mod worked;
mod writing;

pub use migrating::migrate;
