//! A breadth-first search: the starts come first, then what they lead to, nearest first.
ghost use Rattle.std.specs.Prelude.{◌≡◌, ◌<◌, ◌∷◌, [], ℕ, Some, None, length, map, filter, IfOk, OnOk, slice_get, slice_index_or, true, false};
ghost use Rattle.std.specs.List.{concat};
ghost use Rattle.cg_graph.specs.Member.{Includes};
ghost use Rattle.cg_search.specs.Places.{Marks, is_marked, StartsAt, steps_of};
ghost use Rattle.cg_search.specs.Walks.{Finds, IsStart, IsOver, Agree};

use crate::node::Node;
use std::alloc::{AllocError, Global};

/// The places found, in order, each with the position of its holder among them; a start has none.
pub(crate) type Found = Vec<(usize, Option<usize>)>;

/// Adds a place if it is allowed and was not found before.
fn find(
    allowed: &[bool],
    target: usize,
    holder: Option<usize>,
    marks: &mut Vec<bool>,
    found: &mut Found,
) -> Result<(), AllocError>
    requires within { target < length allowed.now }
    requires agree { Agree allowed.now marks.old.items found.old.items }
    ensures agree { OnOk result (Agree allowed.now marks.new.items found.new.items) }
    ensures finds { OnOk result (Finds found.old.items (filter (is_marked allowed.now) (target ∷ [])) holder
        found.new.items) }
{
    if allowed[target] && !marks[target] {
        marks[target] = true;
        found.push((target, holder))?;
    }
    Ok(())
}

/// Adds the places of a row that are allowed and were not found before.
fn find_row(
    allowed: &[bool],
    row: &[usize],
    holder: usize,
    marks: &mut Vec<bool>,
    found: &mut Found,
) -> Result<(), AllocError>
    requires within { (i : ℕ) → Includes row.now i → i < length allowed.now }
    requires agree { Agree allowed.now marks.old.items found.old.items }
    ensures agree { OnOk result (Agree allowed.now marks.new.items found.new.items) }
    ensures finds { OnOk result (Finds found.old.items (filter (is_marked allowed.now) row.now)
        (Some holder) found.new.items) }
{
    'targets: for target in row {
        find(allowed, *target, Some(holder), marks, found)?;
    }
    Ok(())
}

/// Adds the starts that are allowed.
fn find_starts(
    starts: &[bool],
    allowed: &[bool],
    marks: &mut Vec<bool>,
    found: &mut Found,
) -> Result<(), AllocError>
    requires as_many { length starts.now ≡ length allowed.now }
    requires agree { Agree allowed.now marks.old.items found.old.items }
    requires none { found.old.items ≡ [] }
    ensures agree { OnOk result (Agree allowed.now marks.new.items found.new.items) }
    ensures starts { OnOk result (IsStart (StartsAt starts.now allowed.now) found.new.items) }
{
    'starts: for at in 0..starts.len() {
        if starts[at] {
            find(allowed, at, None, marks, found)?;
        }
    }
    Ok(())
}

/// Finds the starts and all that they lead to through allowed places.
pub(crate) fn walk<N: Node>(
    alloc: Global,
    starts: &[bool],
    allowed: &[bool],
    nodes: &[N],
) -> Result<Found, AllocError>
    requires as_many { length starts.now ≡ length allowed.now }
    requires long { length nodes.now ≡ length allowed.now }
    requires within { (i : ℕ) → Includes (concat (map N.points_to nodes.now)) i
        → i < length allowed.now }
    ensures { IfOk result (λ found. IsOver (StartsAt starts.now allowed.now)
        (steps_of allowed.now (map N.points_to nodes.now)) found.items) }
{
    let mut marks = Vec::from_elem(alloc, false, allowed.len())?;
    let mut found = Vec::new(alloc);
    find_starts(starts, allowed, &mut marks, &mut found)?;
    let mut at = 0;
    'turns: while at < found.len() {
        let (place, _) = found[at];
        find_row(allowed, nodes[place].targets(), at, &mut marks, &mut found)?;
        at += 1;
    }
    Ok(found)
}
