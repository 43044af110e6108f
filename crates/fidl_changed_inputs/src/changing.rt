//! Cut and changed inputs.

use crate::Stop;
use crate::giving::{Desk, Kind, give};

/// Gives each front of an input, and the whole.
pub(crate) fn try_cuts(desk: &mut Desk<'_, '_>, kind: Kind, input: &[u8]) -> Result<(), Stop> {
    for length in 0..=input.len() {
        let accepted = give(desk, kind, &input[..length])?;
        if kind.is_whole() && accepted != (length == input.len()) {
            return Err(Stop);
        }
    }
    Ok(())
}

/// Gives an input with the byte at a place changed to each value that inputs of its kind get.
fn try_values(
    desk: &mut Desk<'_, '_>,
    kind: Kind,
    input: &mut [u8],
    place: usize,
) -> Result<(), Stop> {
    if place >= input.len() {
        return Ok(());
    }
    let kept = input[place];
    for value in 0..=255u8 {
        if kind.gets(kept, value) {
            if place < input.len() {
                input[place] = value;
            }
            let _accepted = give(desk, kind, input)?;
        }
    }
    if place < input.len() {
        input[place] = kept;
    }
    Ok(())
}

/// Gives an input with each of its bytes changed.
pub(crate) fn try_changes(desk: &mut Desk<'_, '_>, kind: Kind, input: &[u8]) -> Result<(), Stop> {
    let Ok(mut copy) = Vec::from_slice(desk.alloc, input) else {
        return Err(Stop);
    };
    for place in 0..input.len() {
        try_values(desk, kind, copy.as_mut_slice(), place)?;
    }
    Ok(())
}
