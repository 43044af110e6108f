//! Tests of the notation's reader: the words of odd texts, what single words stand for, and the
//! places of faults.
#![tactic(auto)]

#[cfg(test)]
mod leaves;
#[cfg(test)]
mod words;
