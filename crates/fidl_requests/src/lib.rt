//! Requests: what a frame asks of a service (docs/service.md, "Answers"; public sources: the FIDL
//! wire format, "Transactional messages"; RFC-0138, "Handling unknown interactions").
#![tactic(auto)]

mod body;
mod ended;
mod frame;
pub mod laws;
mod method;
mod verdict;
pub mod worked;

pub use body::is_carried;
pub use ended::Ended;
pub use frame::{Frame, HANDLE_ROOM};
pub use verdict::{Verdict, judge};
