//! Size, alignment and nest of all types of checked files, and where the members of structs stand,
//! within the limits (docs/language.md, "Laying out").
#![tactic(auto)]

mod fault;
mod figures;
mod laid;
mod laws;
mod laying;
mod roots;
mod shallow;
mod uses;
pub mod worked;
mod written;

pub use fault::LayoutFault;
pub use laid::Laid;
pub use laws::refused_files_are_not_laid_out;
pub use laying::lay_out;
pub use roots::declared_types;
