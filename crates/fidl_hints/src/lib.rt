//! What helps a user whose input is refused: the line of a source with a caret under the place, and
//! the name that was meant by a word that is none (docs/program.md).
#![tactic(auto)]

mod explaining;
mod faults;
mod last;
mod lines;
mod names;
mod parts;
pub mod worked;

pub use crate::explaining::{Explanation, Faults, explain};
pub use crate::faults::guide;
pub use crate::lines::snippet;
pub use crate::names::nearest;
