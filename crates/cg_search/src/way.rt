//! A shortest path.
ghost use Rattle.std.specs.Prelude.{◌≡◌, ◌<◌, ℕ, List, length, map, position, ◌==◌, IfOk, IfSome, IfNone};
ghost use Rattle.std.specs.List.{concat};
ghost use Rattle.cg_graph.specs.Member.{Includes};
ghost use Rattle.cg_search.specs.Places.{IsShortestWay, HasNoWay};
ghost use Rattle.cg_search.specs.Walks.{HaveTrails, IsPathBack};

use crate::node::Node;
use crate::walk::{Found, walk};
use std::alloc::{AllocError, Global};

/// The position of a place among those found.
fn position_in(found: &Found, target: usize) -> Option<usize>
    ensures { result ≡ position (λ e. e.0 == target) found.now.items }
{
    found.iter().position(|(place, _)| *place == target)
}

/// The path by which the place at a position was found.
fn path_back(alloc: Global, found: &Found, last: usize) -> Result<Vec<usize>, AllocError>
    requires trails { (trails : List (List ℕ)) × HaveTrails found.now.items trails }
    requires within { last < length found.now.items }
    ensures { IfOk result (λ path. IsPathBack found.now.items last path.items) }
{
    let mut path = Vec::new(alloc);
    let mut cursor = Some(last);
    'holders: while let Some(at) = cursor {
        let (place, holder) = found[at];
        path.push(place)?;
        cursor = holder;
    }
    path.reverse();
    Ok(path)
}

/// A shortest path from a start to a place through allowed places; `None` exactly if there is none.
///
/// Takes time linear in the nodes and their targets. `AllocError` means memory ran out.
pub fn shortest_way<N: Node>(
    alloc: Global,
    starts: &[bool],
    allowed: &[bool],
    nodes: &[N],
    target: usize,
) -> Result<Option<Vec<usize>>, AllocError>
    requires as_many { length starts.now ≡ length allowed.now }
    requires long { length nodes.now ≡ length allowed.now }
    requires within { (i : ℕ) → Includes (concat (map N.points_to nodes.now)) i
        → i < length allowed.now }
    ensures found { IfOk result (λ way. IfSome way (λ path. IsShortestWay starts.now allowed.now
        (map N.points_to nodes.now) path.items target)) }
    ensures none { IfOk result
        (λ way. IfNone way (HasNoWay starts.now allowed.now (map N.points_to nodes.now) target)) }
{
    let found = walk(alloc, starts, allowed, nodes)?;
    match position_in(&found, target) {
        Some(last) => Ok(Some(path_back(alloc, &found, last)?)),
        None => Ok(None),
    }
}
