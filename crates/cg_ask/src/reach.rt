//! What paths from members held from outside reach.
ghost use Rattle.std.specs.Prelude.{false, ◌≡◌, ◌<◌, ℕ, length, map, nat_lt, IfOk};
ghost use Rattle.cg_graph.specs.Reach.{Reach};
ghost use Rattle.cg_snapshot.specs.Text.{AreMembers};
ghost use Rattle.cg_ask.specs.Asked.{IsHeld, IsMember, IsReached, IsOther, IsLost, edges};
ghost use Rattle.cg_ask.specs.Counted.{AreOutside};
ghost use Rattle.cg_ask.specs.Faults.{AreRight};
ghost use Rattle.cg_ask.specs.Marked.{MarkJust};

use crate::marks::{all_marked, marked, without};
use cg_search::reached;
use cg_snapshot::Member;
use std::alloc::{AllocError, Global};

fn above_zero(alloc: Global, numbers: &[u64]) -> Result<Vec<bool>, AllocError>
    ensures { IfOk result (λ marks. marks.items ≡ map (λ n. nat_lt 0 n) numbers.now) }
{
    numbers.iter().map(|number| 0 < *number).collect(alloc)
}

/// Which members are held from outside.
pub(crate) fn held_of(
    alloc: Global,
    members: &[Member],
    outside: &[u64],
) -> Result<Vec<bool>, AllocError>
    requires { AreOutside members.now outside.now }
    ensures { IfOk result (λ held. MarkJust (length members.now) (IsHeld members.now) held.items) }
{
    let held = above_zero(alloc, outside)?;
    Ok(held)
}

/// Which members are not in this list.
pub(crate) fn others_of(
    alloc: Global,
    members: &[Member],
    places: &[usize],
) -> Result<Vec<bool>, AllocError>
    requires { AreMembers (length members.now) places.now }
    ensures { IfOk result (λ others. MarkJust (length members.now) (IsOther members.now places.now)
        others.items) }
{
    let all = all_marked(alloc, members.len())?;
    let these = marked(alloc, members.len(), places)?;
    let others = without(alloc, &all, &these)?;
    Ok(others)
}

/// Which members are reached by paths that avoid this list.
pub(crate) fn reached_without(
    alloc: Global,
    members: &[Member],
    outside: &[u64],
    places: &[usize],
) -> Result<Vec<bool>, AllocError>
    requires outside { AreOutside members.now outside.now }
    requires right { AreRight members.now false }
    requires places { AreMembers (length members.now) places.now }
    ensures { IfOk result (λ found. MarkJust (length members.now) (Reach (IsHeld members.now)
        (IsOther members.now places.now) (edges members.now)) found.items) }
{
    let held = held_of(alloc, members, outside)?;
    let others = others_of(alloc, members, places)?;
    let found = reached(alloc, &held, &others, members)?;
    Ok(found)
}

/// Which members are reached.
pub(crate) fn reached_of(
    alloc: Global,
    members: &[Member],
    outside: &[u64],
) -> Result<Vec<bool>, AllocError>
    requires outside { AreOutside members.now outside.now }
    requires right { AreRight members.now false }
    ensures { IfOk result (λ found. MarkJust (length members.now) (IsReached members.now)
        found.items) }
{
    let held = held_of(alloc, members, outside)?;
    let all = all_marked(alloc, members.len())?;
    let found = reached(alloc, &held, &all, members)?;
    Ok(found)
}

/// Which members are lost.
pub(crate) fn lost_of(
    alloc: Global,
    members: &[Member],
    outside: &[u64],
) -> Result<Vec<bool>, AllocError>
    requires outside { AreOutside members.now outside.now }
    requires right { AreRight members.now false }
    ensures { IfOk result (λ lost. MarkJust (length members.now) (IsLost members.now) lost.items) }
{
    let all = all_marked(alloc, members.len())?;
    let found = reached_of(alloc, members, outside)?;
    let lost = without(alloc, &all, &found)?;
    Ok(lost)
}
