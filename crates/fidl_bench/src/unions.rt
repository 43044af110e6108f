//! The shape `unions`: a struct of a vector of unions.

use crate::parts::unsigned;
use fidl_view::View;

/// The sum of the member that a choice has: a number, a text or a struct of two numbers.
#[inline(always)]
fn sum_choice(view: View<'_, '_>) -> Option<u64> {
    let (ordinal, member) = view.variant()?;
    let member = member?;
    match ordinal {
        1 | 2 => member.as_u64(),
        3 => Some(member.as_str()?.len() as u64),
        4 => Some(unsigned(member, 0)?.wrapping_add(unsigned(member, 1)?)),
        _ => None,
    }
}

/// The sum of all that a message of the shape says.
pub(crate) fn sum_unions(view: View<'_, '_>) -> Option<u64> {
    let mut sum = 0u64;
    for choice in view.field(0)?.elements() {
        sum = sum.wrapping_add(sum_choice(choice)?);
    }
    Some(sum)
}
