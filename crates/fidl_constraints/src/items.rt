//! The constraints of lists, each with its place among the others.
ghost use Rattle.std.specs.Prelude.{◌≡◌, ◌<◌, ◌++◌, map, flat_map, option_copied};
ghost use Rattle.std.specs.Prelude.{IfOk, OnOk};
ghost use Rattle.fidl_constraints.specs.Items.{next_rank, items_of};
ghost use Rattle.fidl_tree.specs.Views.{constraints_view};
ghost use Rattle.fidl_constraints.specs.Behind.{list_of};
ghost use Rattle.fidl_constraints.specs.BehindViews.{given_view, lists_view};
ghost use Rattle.fidl_constraints.specs.ItemViews.{items_view, AreInSet};

use crate::Given;
use fidl_named::{Named, is_optional, items};
use fidl_tree::Value;
use std::alloc::{AllocError, Global};

/// A constraint of the file of this number: whether it is the word `optional`, how many that aren't
/// this word stand before it in its list, and whether it is the last one there.
#[derive(Clone, Copy, Drop)]
pub(crate) struct Item<'f> {
    pub file_index: usize,
    pub value: &'f Value,
    pub word: bool,
    pub rank: usize,
    pub last: bool,
}

/// How many that aren't the word stand before the next one.
fn next_rank(word: bool, rank: usize) -> usize
    requires { rank < 18446744073709551615 }
    ensures { result ≡ next_rank word rank }
{
    if word { rank } else { rank + 1 }
}

/// Appends the constraints of a list.
fn push_items<'f>(
    found: &mut Vec<Item<'f>>,
    alloc: Global,
    named: &Named<'f, '_>,
    given: Given<'f>,
) -> Result<(), AllocError>
    requires { let values = constraints_view (option_copied given.constraints) in
        AreInSet named.now (list_of given.file_index values) }
    ensures { OnOk result (items_view found.new.items ≡ items_view found.old.items
        ++ items_of named.now (given_view given.entry)) }
{
    let Some(constraints) = given.constraints else {
        return Ok(());
    };
    let file = named.file(given.file_index);
    let values = items(alloc, Some(constraints))?;
    let mut rank = 0;
    for (index, value) in values.iter().enumerate() {
        let word = is_optional(alloc, file, value)?;
        found.push(Item {
            file_index: given.file_index,
            value: *value,
            word,
            rank,
            last: index + 1 == values.len(),
        })?;
        rank = next_rank(word, rank);
    }
    Ok(())
}

/// The constraints of lists, in their order.
pub(crate) fn all_items<'f>(
    alloc: Global,
    named: &Named<'f, '_>,
    lists: &[Given<'f>],
) -> Result<Vec<Item<'f>>, AllocError>
    requires { AreInSet named.now (lists_view lists.now) }
    ensures { IfOk result (λ found. items_view found.items
        ≡ flat_map (items_of named.now) (map given_view lists.now)) }
{
    let mut found = Vec::new(alloc);
    for given in lists {
        push_items(&mut found, alloc, named, *given)?;
    }
    Ok(found)
}
