//! Laws of the definitions: each is the contract of a function that does nothing.
ghost use Rattle.std.specs.Prelude.{ℤ, ◌≤ℤ◌, ◌↔◌, Contains};
ghost use Rattle.fidl_table_format.specs.Terms.{span};

/// A range has the numbers between its ends, and the ends.
pub fn ranges_have_their_numbers()
    ensures { (lowest highest z : ℤ) → Contains (span lowest highest) z ↔ ((lowest ≤ℤ z)
        × (z ≤ℤ highest)) }
{}
