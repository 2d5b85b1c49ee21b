//! A plain search along edges.
ghost use Rattle.std.specs.Prelude.{◌≡◌, ℕ, ◌↔◌, ◌&&◌, ◌==◌, not, IfOk, filter, position};
ghost use Rattle.std.specs.List.{list_any};
ghost use Rattle.std.specs.List.Sorted.{IsStrictlyIncreasing};
ghost use Rattle.std.specs.Ordering.{nat_cmp};
ghost use Rattle.std.specs.BTreeSet.{keys, IsOrdered};
ghost use Rattle.cg_graph.specs.Member.{Includes, includes};
ghost use Rattle.cg_graph.specs.Reach.{Reach};

use crate::Edge;
use std::alloc::{AllocError, Global};
use std::collections::BTreeSet;

/// Whether an edge leads to the object from a found one.
fn is_next(edges: &[Edge], found: &[u64], object: u64) -> bool
    ensures { result ≡ list_any (λ e. (e.to == object) && includes found.now e.from) edges.now }
{
    edges
        .iter()
        .any(|edge| edge.to == object && found.contains(&edge.from))
}

/// The position of the first object that an edge leads to from a found one.
fn next_of(edges: &[Edge], found: &[u64], rest: &[u64]) -> Option<usize>
    ensures { result ≡ position (λ o. list_any (λ e. (e.to == o) && includes found.now e.from)
        edges.now) rest.now }
{
    rest.iter()
        .position(|object| is_next(edges, found, *object))
}

fn held_members(alloc: Global, inside: &[u64], held: &[u64]) -> Result<Vec<u64>, AllocError>
    ensures { IfOk result (λ members. members.items ≡ filter (λ o. includes held.now o)
        inside.now) }
{
    inside
        .iter()
        .copied()
        .filter(|member| held.contains(member))
        .collect(alloc)
}

/// The members that are not held.
fn other_members(alloc: Global, inside: &[u64], held: &[u64]) -> Result<Vec<u64>, AllocError>
    ensures { IfOk result (λ members. members.items ≡ filter (λ o. not (includes held.now o))
        inside.now) }
{
    inside
        .iter()
        .copied()
        .filter(|member| !held.contains(member))
        .collect(alloc)
}

fn listed(alloc: Global, set: &BTreeSet<u64>) -> Result<Vec<u64>, AllocError>
    ensures same { IfOk result (λ list. list.items ≡ keys set.now) }
    ensures ordered { IsOrdered nat_cmp set.now }
{
    set.iter().copied().collect(alloc)
}

/// The same objects in ascending order, each once.
fn rising(alloc: Global, objects: &[u64]) -> Result<Vec<u64>, AllocError>
    ensures same { IfOk result (λ list. (o : ℕ) → Includes list.items o ↔ Includes objects.now o) }
    ensures rising { IfOk result (λ list. IsStrictlyIncreasing list.items) }
{
    let mut set = BTreeSet::new(alloc);
    for object in objects {
        set.insert(*object)?;
    }
    listed(alloc, &set)
}

/// The members of `inside` reachable through members of `inside` from a member of `held`,
/// ascending, each once.
///
/// For tests: it checks every edge for every member. Returns `AllocError` only if memory runs out.
pub fn reach_plain(
    alloc: Global,
    edges: &[Edge],
    inside: &[u64],
    held: &[u64],
) -> Result<Vec<u64>, AllocError>
    ensures members { IfOk result (λ found. (o : ℕ) → Includes found.items o ↔ Reach
        (Includes held.now) (Includes inside.now) edges.now o) }
    ensures rising { IfOk result (λ found. IsStrictlyIncreasing found.items) }
{
    let mut found = held_members(alloc, inside, held)?;
    let mut rest = other_members(alloc, inside, held)?;
    'turns: while let Some(at) = next_of(edges, &found, &rest) {
        let object = rest.remove(at);
        found.push(object)?;
    }
    rising(alloc, &found)
}
