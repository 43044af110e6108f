//! Tests of the notation: the text of a decoded value in a sink, and its owned tree.
#![tactic(auto)]

#[cfg(test)]
mod writing;
