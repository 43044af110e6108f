//! Members of structs and tables that are looked up once, and then read by one load each
//! (docs/views.md, "Members looked up once").
#![tactic(auto)]

mod column;
mod columns;
mod kinds;
mod names;
mod reads;
mod scalar;
mod slot;
mod slots;
mod types;
pub mod worked;

pub use column::Column;
pub use columns::{BoxColumn, ScalarColumn, StructColumn, TextColumn};
pub use names::{field_named, member_named};
pub use scalar::Scalar;
pub use slot::Slot;
pub use slots::{ScalarSlot, StructSlot, TextSlot};
pub use types::ScalarType;
