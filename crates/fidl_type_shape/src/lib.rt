//! Size, alignment and nest of definitions, and where the members of structs stand, within the
//! limits (docs/language.md, "Figures").
#![tactic(auto)]

mod definition_figure;
mod fault;
mod figure;
mod finding;
pub mod laws;
mod places;
mod rounds;
mod type_figure;
pub mod worked;

pub use fault::{Excess, FigureFault};
pub use figure::Figure;
pub use finding::{Figures, find_figures};
