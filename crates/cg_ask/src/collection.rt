//! What the next full collection clears, and what it will never free.
ghost use Rattle.std.specs.Prelude.{false, ◌≡◌, ◌<◌, ◌^◌, ℕ, length, map, IfOk};
ghost use Rattle.cg_search.specs.Places.{Marks};
ghost use Rattle.cg_ask.specs.Asked.{references_of, tracked_of, legacy_of, IsHeldElsewhere, IsUnreachable, IsSetAside, IsCleared, IsStuck, IsLost};
ghost use Rattle.cg_ask.specs.Faults.{AreRight};
ghost use Rattle.cg_ask.specs.Marked.{MarkJust};

use crate::dying::{dying, in_degrees};
use crate::marks::{below, without};
use cg_search::{count_targets, reached};
use cg_snapshot::Member;
use std::alloc::{AllocError, Global};

fn tracked(alloc: Global, members: &[Member]) -> Result<Vec<bool>, AllocError>
    ensures { IfOk result (λ marks. marks.items ≡ tracked_of members.now) }
{
    members.iter().map(|member| member.tracked).collect(alloc)
}

fn legacy(alloc: Global, members: &[Member]) -> Result<Vec<bool>, AllocError>
    ensures { IfOk result (λ marks. marks.items ≡ legacy_of members.now) }
{
    members.iter().map(|member| member.legacy).collect(alloc)
}

/// Which members are held by others than candidates.
fn held_elsewhere(
    alloc: Global,
    members: &[Member],
    candidates: &[bool],
) -> Result<Vec<bool>, AllocError>
    requires candidates { candidates.now ≡ tracked_of members.now }
    requires few { length (references_of members.now) < 2 ^ 64 }
    ensures { IfOk result (λ held. MarkJust (length members.now) (IsHeldElsewhere members.now)
        held.items) }
{
    let counts = count_targets(alloc, candidates, members)?;
    let degrees = in_degrees(alloc, members)?;
    let held = below(alloc, &counts, &degrees)?;
    Ok(held)
}

/// Which members the collection finds unreachable.
fn unreachable_of(alloc: Global, members: &[Member]) -> Result<Vec<bool>, AllocError>
    requires right { AreRight members.now false }
    requires few { length (references_of members.now) < 2 ^ 64 }
    ensures { IfOk result (λ marks. MarkJust (length members.now) (IsUnreachable members.now)
        marks.items) }
{
    let candidates = tracked(alloc, members)?;
    let held = held_elsewhere(alloc, members, &candidates)?;
    let found = reached(alloc, &held, &candidates, members)?;
    let lost = without(alloc, &candidates, &found)?;
    Ok(lost)
}

/// Which members it clears.
fn cleared_of(alloc: Global, members: &[Member]) -> Result<Vec<bool>, AllocError>
    requires right { AreRight members.now false }
    requires few { length (references_of members.now) < 2 ^ 64 }
    ensures { IfOk result (λ marks. MarkJust (length members.now) (IsCleared members.now)
        marks.items) }
{
    let lost = unreachable_of(alloc, members)?;
    let marks = legacy(alloc, members)?;
    let aside = reached(alloc, &marks, &lost, members)?;
    let cleared = without(alloc, &lost, &aside)?;
    Ok(cleared)
}

/// Which of the lost members are stuck.
pub(crate) fn stuck_of(
    alloc: Global,
    members: &[Member],
    lost: &[bool],
) -> Result<Vec<bool>, AllocError>
    requires right { AreRight members.now false }
    requires few { length (references_of members.now) < 2 ^ 64 }
    requires lost { MarkJust (length members.now) (IsLost members.now) lost.now }
    ensures { IfOk result (λ stuck. MarkJust (length members.now) (IsStuck members.now)
        stuck.items) }
{
    let cleared = cleared_of(alloc, members)?;
    let dead = dying(alloc, members, &cleared)?;
    let stuck = without(alloc, lost, &dead)?;
    Ok(stuck)
}
