//! The section of names.

use crate::numbers::{push_u32, small};
use std::alloc::AllocError;

/// Where a name stands in the section of names, and how long it is, in bytes.
#[derive(Clone, Copy, Drop)]
pub(crate) struct NamePlace {
    pub place: u32,
    pub length: u32,
}

impl NamePlace {
    /// No name.
    pub(crate) const NONE: NamePlace = NamePlace {
        place: 0,
        length: 0,
    };

    /// Appends the place and the length.
    pub(crate) fn push(self, section: &mut Vec<u8>) -> Result<(), AllocError> {
        push_u32(section, self.place)?;
        push_u32(section, self.length)
    }
}

/// Appends a name, and gives its place.
pub(crate) fn push_name(names: &mut Vec<u8>, name: &[u8]) -> Result<NamePlace, AllocError> {
    let place = small(names.len())?;
    let length = small(name.len())?;
    names.extend_from_slice(name)?;
    Ok(NamePlace { place, length })
}
