//! The shape `strict`: a struct of a vector of structs of strict enums and bits.

use crate::parts::{signed, truth, unsigned};
use fidl_view::View;

/// The sum of the members of a mark: an enum without a sign, bits, a bool, an enum with a sign and a
/// number.
#[inline(always)]
fn sum_mark(view: View<'_, '_>) -> Option<u64> {
    let numbers = unsigned(view, 0)?
        .wrapping_add(unsigned(view, 1)?)
        .wrapping_add(unsigned(view, 4)?);
    Some(
        numbers
            .wrapping_add(truth(view, 2)?)
            .wrapping_add(signed(view, 3)?),
    )
}

/// The sum of all that a message of the shape says.
pub(crate) fn sum_strict(view: View<'_, '_>) -> Option<u64> {
    let mut sum = 0u64;
    for mark in view.field(0)?.elements() {
        sum = sum.wrapping_add(sum_mark(mark)?);
    }
    Some(sum)
}
