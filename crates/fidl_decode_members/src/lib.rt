//! The members of a table, looked up once for the elements of a vector, and their envelopes, which
//! are passed over.
#![tactic(auto)]

mod envelopes;
mod lookup;
mod member;
mod members;
pub mod worked;

pub use envelopes::Opened;
pub use members::Members;
