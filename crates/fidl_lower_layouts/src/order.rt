//! Rows and numbers in rising order.
ghost use Rattle.std.specs.Prelude.{ℕ, ℤ, ◌↔◌, ◌<ℤ◌, List, IfSome, IsNone, IsTrue, ◌<◌};
ghost use Rattle.std.specs.List.{AllPairs};
ghost use Rattle.std.specs.List.Sorted.{IsPermutation};
ghost use Rattle.fidl_ir.specs.Terms.{rows_view};
ghost use Rattle.fidl_lower_layouts.specs.Members.{row_ordinals};

use fidl_ir::Row;

/// Whether each ordinal is below those after it.
fn ordinals_rise(rows: &[Row]) -> bool
    ensures { IsTrue result ↔ AllPairs (λ m n. m < n) (row_ordinals (rows_view rows.now)) }
{
    for place in 1..rows.len() {
        if rows[place - 1].ordinal >= rows[place].ordinal {
            return false;
        }
    }
    true
}

/// Rows by rising ordinal. Nothing where two have one ordinal.
pub(crate) fn by_ordinal(rows: Vec<Row>) -> Option<Vec<Row>>
    ensures same { IfSome result (λ sorted. IsPermutation rows.items sorted.items) }
    ensures rise { IfSome result (λ sorted. AllPairs (λ m n. m < n)
        (row_ordinals (rows_view sorted.items))) }
    ensures none { IsNone result → (ns : List ℕ)
        → IsPermutation (row_ordinals (rows_view rows.items)) ns
        → AllPairs (λ m n. m < n) ns → ⊥ }
{
    let mut sorted = rows;
    sorted.sort_unstable_by_key(|row| row.ordinal);
    if !ordinals_rise(&sorted) {
        return None;
    }
    Some(sorted)
}

/// Whether each number is below those after it.
fn numbers_rise(numbers: &[i128]) -> bool
    ensures { IsTrue result ↔ AllPairs (λ y z. y <ℤ z) numbers.now }
{
    for place in 1..numbers.len() {
        if numbers[place - 1] >= numbers[place] {
            return false;
        }
    }
    true
}

/// Numbers in rising order. Nothing where two are the same.
pub(crate) fn rising(numbers: Vec<i128>) -> Option<Vec<i128>>
    ensures same { IfSome result (λ sorted. IsPermutation numbers.items sorted.items) }
    ensures rise { IfSome result (λ sorted. AllPairs (λ y z. y <ℤ z) sorted.items) }
    ensures none { IsNone result → (zs : List ℤ) → IsPermutation numbers.items zs
        → AllPairs (λ y z. y <ℤ z) zs → ⊥ }
{
    let mut sorted = numbers;
    sorted.sort_unstable();
    if !numbers_rise(&sorted) {
        return None;
    }
    Some(sorted)
}
