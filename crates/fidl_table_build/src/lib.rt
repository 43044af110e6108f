//! Coding tables, assembled from definitions, roots and protocols (docs/table.md, "Assembling").
#![tactic(auto)]

mod assembling;
mod entries;
mod listing;
mod names;
mod numbers;
mod protocols;
mod records;
mod rows;
mod sections;
mod shown_protocols;
mod shown_roots;
mod values;
pub mod worked;

pub use assembling::assemble;
pub use listing::{Carried, Listing, MethodEntry, ProtocolEntry};
