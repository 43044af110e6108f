//! The shape `texts`: a struct of many texts.

use crate::parts::text_length;
use fidl_view::View;

/// The number of the texts.
const TEXTS: usize = 24;

/// The sum of all that a message of the shape says.
pub(crate) fn sum_texts(view: View<'_, '_>) -> Option<u64> {
    let mut sum = 0u64;
    for at in 0..TEXTS {
        sum = sum.wrapping_add(text_length(view, at)?);
    }
    Some(sum)
}
