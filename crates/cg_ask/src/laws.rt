//! Laws on paths and on what goes, each the contract of a function with an empty body.
ghost use Rattle.std.specs.Prelude.{◌↔◌, ◌<◌, [], ℕ, List, false, length};
ghost use Rattle.cg_graph.specs.Member.{Includes};
ghost use Rattle.cg_graph.specs.Reach.{Reach};
ghost use Rattle.cg_snapshot.specs.declared.heap.Member.{Member};
ghost use Rattle.cg_snapshot.specs.Text.{AreMembers};
ghost use Rattle.cg_ask.specs.Asked.{edges, outside_at, IsHeld, IsReached, IsOther, IsLost, IsWay, HasNone, IsLetGo};
ghost use Rattle.cg_ask.specs.Dying.{Dies};
ghost use Rattle.cg_ask.specs.Faults.{AreRight};

/// A member is held from outside exactly if its outside holds are above 0.
pub fn held_has_outside_holds()
    ensures { (ms : List Member) (o : ℕ) → IsHeld ms o ↔ 0 < outside_at ms o }
{}

/// The members reached while avoiding some are those that a path of others leads to from one held
/// from outside.
pub fn ways_are_reach()
    ensures { (ms : List Member) (without : List ℕ) (o : ℕ) → Reach (IsHeld ms) (IsOther ms without)
        (edges ms) o ↔ ((path : List ℕ) × IsWay ms without path o) }
{}

/// A member is lost exactly if no path leads to it.
pub fn lost_has_none()
    ensures { (ms : List Member) (o : ℕ) → o < length ms → IsLost ms o ↔ HasNone ms [] o }
{}

/// What dies by count and was reached is let go.
pub fn dead_is_let_go()
    ensures { (ms : List Member) (dropped : List ℕ) (o : ℕ) → AreRight ms false
        → AreMembers (length ms) dropped → Dies ms (Includes dropped) o → IsReached ms o
        → IsLetGo ms dropped o }
{}
