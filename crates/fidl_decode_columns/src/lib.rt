//! Vectors and arrays of structs whose members are numbers alone, checked member by member: one
//! loop over all structs for each member.
#![tactic(auto)]

mod column;
mod columns;
mod gaps;
mod kinds;
mod searched;
mod structs;
mod values;
mod window;
pub mod worked;
mod zeros;

pub use columns::Columns;
pub use kinds::{MOST_ROWS, is_free};
pub use zeros::{padding_at, zeros_at};
