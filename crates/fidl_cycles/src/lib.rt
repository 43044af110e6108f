//! Cycles of graphs, whose points are numbered.
#![tactic(auto)]

mod cycles;

pub use cycles::{CycleEdge, add_edge, find_cycle, no_edges};
