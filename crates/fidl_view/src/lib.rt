//! Views of a decoded message: each call answers the part of the value that it names, borrowed from
//! the message.
#![tactic(auto)]

mod bytes;
mod elements;
mod envelope;
mod fields;
mod handle;
mod kind;
pub mod laws;
mod layouts;
mod list;
mod number;
mod structs;
mod text;
mod tree;
mod view;
mod views;
pub mod worked;

pub use elements::Elements;
pub use envelope::Unknown;
pub use fields::Fields;
pub use structs::Members;
pub use view::View;
pub use views::Views;
