//! How often each place is a target.
ghost use Rattle.std.specs.Prelude.{◌≡◌, ◌<◌, ◌+◌, ◌^◌, ℕ, length, map, IfOk, slice_index};
ghost use Rattle.std.specs.List.{concat};
ghost use Rattle.cg_graph.specs.Holdings.{occurrences};
ghost use Rattle.cg_search.specs.Counts.{Adds, targets_from};

use crate::node::Node;
use std::alloc::{AllocError, Global};

/// Adds one to a place's number for each of its occurrences in a row.
pub fn add_row(counts: &mut Vec<u64>, row: &[usize])
    requires { (i : ℕ) → slice_index counts.old.items i + length row.now < 2 ^ 64 }
    ensures { Adds counts.old.items row.now counts.new.items }
{
    'targets: for target in row {
        if *target < counts.len() {
            counts[*target] += 1;
        }
    }
}

/// How often each place is a target of the marked nodes. A target out of range is ignored.
pub fn count_targets<N: Node>(
    alloc: Global,
    marks: &[bool],
    nodes: &[N],
) -> Result<Vec<u64>, AllocError>
    requires marked { length marks.now ≡ length nodes.now }
    requires few { length (concat (map N.points_to nodes.now)) < 2 ^ 64 }
    ensures len { IfOk result (λ counts. length counts.items ≡ length nodes.now) }
    ensures counts { IfOk result (λ counts. (i : ℕ) → i < length nodes.now
        → slice_index counts.items i
        ≡ occurrences i (targets_from marks.now (map N.points_to nodes.now))) }
{
    let mut counts = Vec::from_elem(alloc, 0, nodes.len())?;
    'nodes: for at in 0..nodes.len() {
        if marks[at] {
            add_row(&mut counts, nodes[at].targets());
        }
    }
    Ok(counts)
}
