//! What follows from the contract of `why`.
ghost use Rattle.std.specs.Prelude.{◌≡◌, ℕ, List};
ghost use Rattle.cg_graph.specs.Path.{IsShortestPath};
ghost use Rattle.cg_graph.specs.Store.{Store};
ghost use Rattle.cg_inspect.specs.Inspection.{HeldElse, arrows_of};
ghost use Rattle.cg_inspect.specs.Order.{ComesFirst};

/// The contract of `why` leaves no choice: one shortest path comes first.
pub fn one_path_comes_first()
    ensures { (store : Store) (object : ℕ) (path other : List ℕ)
        → IsShortestPath (HeldElse store object) (arrows_of store) path object
        → ComesFirst store object path
        → IsShortestPath (HeldElse store object) (arrows_of store) other object
        → ComesFirst store object other → path ≡ other }
{}
