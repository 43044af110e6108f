//! The guide to the faults: of each stage its faults, by their numbers.
//!
//! The lines of an explanation say what the fault means and where its rules stand. Where a short input
//! has the fault, one follows that is refused with it, and one that is accepted. The gate runs them.
mod constants;
mod limits;
mod messages;
mod names;
mod protocols;
mod tables;
mod texts;
mod types;
mod words;

use crate::explaining::Explanation;
use std::alloc::{AllocError, Global};

/// What is said of each fault, stage by stage.
pub fn guide(alloc: Global) -> Result<Vec<Explanation<'static>>, AllocError> {
    let mut guide = Vec::new(alloc);
    for faults in [
        words::all(),
        names::all(),
        constants::all(),
        types::all(),
        limits::all(),
        protocols::all(),
        tables::all(),
        messages::all(),
        texts::all(),
    ] {
        guide.extend_from_slice(faults)?;
    }
    Ok(guide)
}
