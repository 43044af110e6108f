//! The shape `tables`: a struct of a vector of tables.

use crate::parts::{member_number, unsigned};
use fidl_view::View;

/// The sum of the members of an item: three numbers, a text, a bool, and a struct of two numbers
/// that may be absent.
#[inline(always)]
fn sum_item(view: View<'_, '_>) -> Option<u64> {
    let numbers = member_number(view, 1)?
        .wrapping_add(member_number(view, 2)?)
        .wrapping_add(member_number(view, 4)?);
    let text = view.member(3)?.as_str()?.len() as u64;
    let truth = u64::from(view.member(6)?.as_bool()?);
    let place = match view.member(5) {
        Some(place) => unsigned(place, 0)?.wrapping_add(unsigned(place, 1)?),
        None => 0,
    };
    Some(
        numbers
            .wrapping_add(text)
            .wrapping_add(truth)
            .wrapping_add(place),
    )
}

/// The sum of all that a message of the shape says.
pub(crate) fn sum_tables(view: View<'_, '_>) -> Option<u64> {
    let mut sum = 0u64;
    for item in view.field(0)?.elements() {
        sum = sum.wrapping_add(sum_item(item)?);
    }
    Some(sum)
}
