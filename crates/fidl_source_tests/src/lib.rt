//! Tests of the public calls of `fidl_span`, `fidl_tree` and `fidl_parse`, from words to trees.
#![tactic(auto)]

#[cfg(test)]
mod parsing;
#[cfg(test)]
mod trees;
#[cfg(test)]
mod words;
