//! What dies by count.
ghost use Rattle.std.specs.Prelude.{false, ◌≡◌, ◌≤◌, ◌<◌, ◌∷◌, [], ℕ, length, map, slice_index, IfOk, OnOk};
ghost use Rattle.cg_graph.specs.Member.{Includes};
ghost use Rattle.cg_graph.specs.Holdings.{occurrences};
ghost use Rattle.cg_search.specs.Places.{Marks};
ghost use Rattle.cg_ask.specs.Asked.{degrees_of};
ghost use Rattle.cg_ask.specs.Dying.{Dies};
ghost use Rattle.cg_ask.specs.Faults.{AreRight};
ghost use Rattle.cg_ask.specs.Marked.{MarkJust};
ghost use Rattle.cg_ask.specs.Released.{Releases, WaitOnce};

use cg_snapshot::Member;
use std::alloc::{AllocError, Global};

/// The in-degrees of members, in order.
pub(crate) fn in_degrees(alloc: Global, members: &[Member]) -> Result<Vec<u64>, AllocError>
    ensures { IfOk result (λ left. left.items ≡ degrees_of members.now) }
{
    members.iter().map(|member| member.degree).collect(alloc)
}

/// Releases a reference of a dead member: its target dies if that was the last one.
fn release(
    left: &mut Vec<u64>,
    target: usize,
    dead: &mut Vec<bool>,
    waits: &mut Vec<usize>,
) -> Result<(), AllocError>
    requires within { target < length left.old.items }
    requires long { length dead.old.items ≡ length left.old.items }
    requires some { 0 < slice_index left.old.items target }
    ensures { OnOk result (Releases (target ∷ []) left.old.items dead.old.items waits.old.items
        left.new.items dead.new.items waits.new.items) }
{
    let number = left[target] - 1;
    left[target] = number;
    if number == 0 && !dead[target] {
        dead[target] = true;
        waits.push(target)?;
    }
    Ok(())
}

/// Releases the references of a dead member.
fn release_all(
    left: &mut Vec<u64>,
    row: &[usize],
    dead: &mut Vec<bool>,
    waits: &mut Vec<usize>,
) -> Result<(), AllocError>
    requires within { (i : ℕ) → Includes row.now i → i < length left.old.items }
    requires long { length dead.old.items ≡ length left.old.items }
    requires some { (i : ℕ) → occurrences i row.now ≤ slice_index left.old.items i }
    ensures { OnOk result (Releases row.now left.old.items dead.old.items waits.old.items
        left.new.items dead.new.items waits.new.items) }
{
    'targets: for target in row {
        release(left, *target, dead, waits)?;
    }
    Ok(())
}

/// The marked places.
fn places_of(alloc: Global, marks: &[bool]) -> Result<Vec<usize>, AllocError>
    ensures { IfOk result (λ places. WaitOnce marks.now places.items) }
{
    let mut places = Vec::new(alloc);
    'places: for at in 0..marks.len() {
        if marks[at] {
            places.push(at)?;
        }
    }
    Ok(places)
}

/// What dies by count if all references to the marked members are dropped, and no code runs.
pub(crate) fn dying(
    alloc: Global,
    members: &[Member],
    given: &[bool],
) -> Result<Vec<bool>, AllocError>
    requires right { AreRight members.now false }
    requires long { length given.now ≡ length members.now }
    ensures { IfOk result (λ dead. MarkJust (length members.now)
        (Dies members.now (Marks given.now)) dead.items) }
{
    let mut left = in_degrees(alloc, members)?;
    let mut dead = Vec::from_slice(alloc, given)?;
    let mut waits = places_of(alloc, given)?;
    'turns: while let Some(at) = waits.pop() {
        release_all(
            &mut left,
            members[at].refs.as_slice(),
            &mut dead,
            &mut waits,
        )?;
    }
    Ok(dead)
}
