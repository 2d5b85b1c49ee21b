//! A law on reachability.
ghost use Rattle.std.specs.Prelude.{◌↔◌, ℕ, List, Option};
ghost use Rattle.cg_value.specs.declared.Val.{Val};
ghost use Rattle.cg_value.specs.declared.Place.{Place};
ghost use Rattle.cg_graph.specs.Member.{Includes};
ghost use Rattle.cg_graph.specs.Object.{Object, objects_at, serials_at};
ghost use Rattle.cg_graph.specs.Holdings.{graph_of};
ghost use Rattle.cg_graph.specs.Reach.{Reach, Unreachable, IsOutsideHeld, edges};
ghost use Rattle.cg_graph.specs.Reachable.{IsReachable, IsUnreachable};
ghost use Rattle.cg_graph.specs.Store.{Store};
ghost use Rattle.cg_trial.specs.Worlds.{HeapStandsFor, all_holdings};

/// If a heap represents some objects, names and stack holds, then the objects reachable within a
/// place of the heap are those reachable among these objects, as the machine defines what survives
/// a collection.
pub fn reachable_in_a_heap_survives_in_its_world()
    ensures reachable { (store : Store) (objects : List Object) (names : List (Option Val))
        (stack : List ℕ) →
        HeapStandsFor store objects names stack → (p : Place) (o : ℕ) →
        IsReachable store p o ↔ Reach (IsOutsideHeld (all_holdings objects names stack)
        (graph_of (objects_at objects p)))
        (Includes (serials_at objects p)) (edges (graph_of (objects_at objects p))) o }
    ensures unreachable { (store : Store) (objects : List Object) (names : List (Option Val))
        (stack : List ℕ) →
        HeapStandsFor store objects names stack → (p : Place) (o : ℕ) →
        IsUnreachable store p o ↔ Unreachable (IsOutsideHeld (all_holdings objects names stack)
        (graph_of (objects_at objects p)))
        (Includes (serials_at objects p)) (edges (graph_of (objects_at objects p))) o }
{}
