//! Consequences of a table's contracts.
ghost use Rattle.std.specs.Prelude.{◌≡◌, ℕ, List, ◌∷◌, ◌++◌, Some, slice_get};
ghost use Rattle.cg_graph.specs.Rows.{Row, IsRising, referent_in, weak_references_in, next_older_in};

/// A walk from `newest_of` by `older_of` visits each weak reference to the object once, newest
/// first, and each call's precondition holds.
pub fn a_walk_meets_each_newest_first()
    ensures may_ask { (rows : List Row) (object weak : ℕ) (newer older : List ℕ) → IsRising rows
        → weak_references_in rows object ≡ newer ++ weak ∷ older → referent_in rows weak
        ≡ Some object }
    ensures goes_on { (rows : List Row) (object weak : ℕ) (newer older : List ℕ) → IsRising rows
        → weak_references_in rows object ≡ newer ++ weak ∷ older → next_older_in rows weak
        ≡ slice_get older 0 }
{}
