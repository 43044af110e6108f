//! The shapes of the bench, read by members that are looked up once (docs/performance.md).
#![tactic(auto)]

mod chain;
mod choice;
mod entry;
mod found;
mod item;
mod mark;
mod nested;
mod pairs;
mod record;
mod roots;
mod texts;
mod wide;

pub use chain::Chain;
pub use choice::Choice;
pub use entry::Entry;
pub use found::Found;
pub use item::Item;
pub use mark::Mark;
pub use record::Record;
pub use texts::Texts;
pub use wide::Wide;
