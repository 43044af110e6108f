//! The shape `lists`: a struct of a vector of structs that hold vectors themselves.

use crate::parts::{text_length, unsigned};
use fidl_view::View;

/// The sum of a vector of numbers without a sign.
#[inline(always)]
fn sum_weights(view: View<'_, '_>) -> Option<u64> {
    let mut sum = 0u64;
    for weight in view.elements() {
        sum = sum.wrapping_add(weight.as_u64()?);
    }
    Some(sum)
}

/// The sum of a vector of numbers with a sign, modulo 2^64.
#[inline(always)]
fn sum_scores(view: View<'_, '_>) -> Option<u64> {
    let mut sum = 0u64;
    for score in view.elements() {
        sum = sum.wrapping_add(score.as_i64()?.cast_unsigned());
    }
    Some(sum)
}

/// The sum of the members of an entry: a number, two vectors of numbers, a text and a number.
#[inline(always)]
fn sum_entry(view: View<'_, '_>) -> Option<u64> {
    let lists = sum_weights(view.field(1)?)?.wrapping_add(sum_scores(view.field(2)?)?);
    let numbers = unsigned(view, 0)?.wrapping_add(unsigned(view, 4)?);
    Some(
        lists
            .wrapping_add(numbers)
            .wrapping_add(text_length(view, 3)?),
    )
}

/// The sum of all that a message of the shape says.
pub(crate) fn sum_lists(view: View<'_, '_>) -> Option<u64> {
    let mut sum = 0u64;
    for entry in view.field(0)?.elements() {
        sum = sum.wrapping_add(sum_entry(entry)?);
    }
    Some(sum)
}
