//! Tests of the public calls of `fidl_names` and `fidl_const`, of what no line of the program shows:
//! sets of files, strings, and the whole text of what is refused.
#![tactic(auto)]

#[cfg(test)]
mod sets;
#[cfg(test)]
mod texts;
#[cfg(test)]
mod values;
