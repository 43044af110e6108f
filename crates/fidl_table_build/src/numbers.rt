//! Numbers in the sections.

use std::alloc::AllocError;

/// The same number, of 32 bits; a table has no field for a greater one, which counts as a lack of
/// memory.
pub(crate) fn small(number: usize) -> Result<u32, AllocError> {
    match u32::try_from(number) {
        Ok(number) => Ok(number),
        Err(_) => Err(AllocError),
    }
}

/// The sum of two counts.
pub(crate) fn sum(one: usize, other: usize) -> Result<usize, AllocError> {
    match one.checked_add(other) {
        Some(sum) => Ok(sum),
        None => Err(AllocError),
    }
}

/// Appends the four bytes of a number.
pub(crate) fn push_u32(section: &mut Vec<u8>, number: u32) -> Result<(), AllocError> {
    section.extend_from_slice(&number.to_le_bytes())
}

/// Appends the eight bytes of a number.
pub(crate) fn push_u64(section: &mut Vec<u8>, number: u64) -> Result<(), AllocError> {
    section.extend_from_slice(&number.to_le_bytes())
}
