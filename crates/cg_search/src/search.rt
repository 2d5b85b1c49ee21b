//! Finds the places that paths by rows lead to.
ghost use Rattle.std.specs.Prelude.{◌≡◌, ◌<◌, ℕ, length, map, OnOk, IfOk, ◌↔◌};
ghost use Rattle.std.specs.List.{concat};
ghost use Rattle.cg_graph.specs.Member.{Includes};
ghost use Rattle.cg_search.specs.Places.{Marks, Leads};
ghost use Rattle.cg_search.specs.Visits.{Visits};

use crate::node::Node;
use std::alloc::{AllocError, Global};

/// Marks an allowed place, and queues it if it was not marked before.
fn visit(
    allowed: &[bool],
    target: usize,
    marks: &mut Vec<bool>,
    waits: &mut Vec<usize>,
) -> Result<(), AllocError>
    requires within { target < length allowed.now }
    requires long { length marks.old.items ≡ length allowed.now }
    ensures { OnOk result (Visits (λ i. i ≡ target) allowed.now marks.old.items waits.old.items
        marks.new.items waits.new.items) }
{
    if allowed[target] && !marks[target] {
        marks[target] = true;
        waits.push(target)?;
    }
    Ok(())
}

/// Visits each place of a row.
fn visit_row(
    allowed: &[bool],
    row: &[usize],
    marks: &mut Vec<bool>,
    waits: &mut Vec<usize>,
) -> Result<(), AllocError>
    requires within { (i : ℕ) → Includes row.now i → i < length allowed.now }
    requires long { length marks.old.items ≡ length allowed.now }
    ensures { OnOk result (Visits (Includes row.now) allowed.now marks.old.items waits.old.items
        marks.new.items waits.new.items) }
{
    'targets: for target in row {
        visit(allowed, *target, marks, waits)?;
    }
    Ok(())
}

fn visit_starts(
    starts: &[bool],
    allowed: &[bool],
    marks: &mut Vec<bool>,
    waits: &mut Vec<usize>,
) -> Result<(), AllocError>
    requires as_many { length starts.now ≡ length allowed.now }
    requires long { length marks.old.items ≡ length allowed.now }
    ensures { OnOk result (Visits (Marks starts.now) allowed.now marks.old.items waits.old.items
        marks.new.items waits.new.items) }
{
    'starts: for at in 0..starts.len() {
        if starts[at] {
            visit(allowed, at, marks, waits)?;
        }
    }
    Ok(())
}

/// Marks the places that paths from a start lead to through allowed places.
pub fn reached<N: Node>(
    alloc: Global,
    starts: &[bool],
    allowed: &[bool],
    nodes: &[N],
) -> Result<Vec<bool>, AllocError>
    requires as_many { length starts.now ≡ length allowed.now }
    requires long { length nodes.now ≡ length allowed.now }
    requires within { (i : ℕ) → Includes (concat (map N.points_to nodes.now)) i
        → i < length allowed.now }
    ensures len { IfOk result (λ found. length found.items ≡ length allowed.now) }
    ensures led { IfOk result (λ found. (i : ℕ)
        → (Marks found.items i ↔ Leads starts.now allowed.now (map N.points_to nodes.now) i)) }
{
    let mut marks = Vec::from_elem(alloc, false, allowed.len())?;
    let mut waits = Vec::new(alloc);
    visit_starts(starts, allowed, &mut marks, &mut waits)?;
    'turns: while let Some(at) = waits.pop() {
        visit_row(allowed, nodes[at].targets(), &mut marks, &mut waits)?;
    }
    Ok(marks)
}
