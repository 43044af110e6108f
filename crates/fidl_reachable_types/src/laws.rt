//! Laws of the definitions: the contracts of functions that do nothing.
ghost use Rattle.std.specs.Prelude.{◌≢◌, ◌≡◌, ◌≤◌, ℕ, List, length};
ghost use Rattle.fidl_wire.specs.Term.{Term};
ghost use Rattle.fidl_reachable_types.specs.declared.fault.EntryFault.{EntryFault};
ghost use Rattle.fidl_reachable_types.specs.declared.fault.EntryFault.TheVariants.{Memory};
ghost use Rattle.fidl_reachable_types.specs.Reached.{AreReached};
ghost use Rattle.fidl_reachable_types.specs.Faults.{IsTrueOf};

/// Roots of which a refusal is true reach more types than the limit, so they are accepted or
/// refused, and never rightly both. Memory that ran out says nothing of them.
pub fn refused_roots_reach_too_many()
    ensures { (terms : List Term) (roots : List ℕ) (limit : ℕ) (fault : EntryFault)
        (types : List Term) → fault ≢ Memory → IsTrueOf terms roots limit fault
        → AreReached terms roots types → length types ≤ limit → ⊥ }
{}

/// All lists of the types that roots reach are of one length.
pub fn the_number_of_types_is_one()
    ensures { (terms : List Term) (roots : List ℕ) (one other : List Term)
        → AreReached terms roots one → AreReached terms roots other
        → length one ≡ length other }
{}

/// Roots reach one list: its types and their order follow from the roots.
pub fn reached_types_are_one_list()
    ensures { (terms : List Term) (roots : List ℕ) (one other : List Term)
        → AreReached terms roots one → AreReached terms roots other → one ≡ other }
{}
