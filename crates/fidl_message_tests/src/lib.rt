//! Tests of the message side's public calls, from the records of a table to the views of a message.
//!
//! A case is a line of text: `reading` says how it is written, and `judging` has the loop that goes
//! through the cases, with what is asked in them.
#![tactic(auto)]

#[cfg(test)]
mod below;
#[cfg(test)]
mod borrowed;
#[cfg(test)]
mod bytes;
#[cfg(test)]
mod choices;
#[cfg(test)]
mod chosen;
#[cfg(test)]
mod counting;
#[cfg(test)]
mod decoding;
#[cfg(test)]
mod depths;
#[cfg(test)]
mod envelopes;
#[cfg(test)]
mod greatest;
#[cfg(test)]
mod hostile;
#[cfg(test)]
mod in_place;
#[cfg(test)]
mod judging;
#[cfg(test)]
mod limits;
#[cfg(test)]
mod lookups;
#[cfg(test)]
mod members;
#[cfg(test)]
mod numbers;
#[cfg(test)]
mod outside;
#[cfg(test)]
mod protocols;
#[cfg(test)]
mod ranges;
#[cfg(test)]
mod reading;
#[cfg(test)]
mod records;
#[cfg(test)]
mod rules;
#[cfg(test)]
mod showing;
#[cfg(test)]
mod steps;
#[cfg(test)]
mod structs;
#[cfg(test)]
mod values;
#[cfg(test)]
mod verifying;
